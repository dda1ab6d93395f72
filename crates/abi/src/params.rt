// The parameters of the calls, made of numbers that cross the boundary one by one. Functions and no `From`: the structs are of other crates.
ghost use Rattle.std.specs.Prelude.{◌≡◌};
ghost use Rattle.abi.specs.Answers.{edges_by, filters_by, labels_by};

use axis::SpreadRule;
use classify::EdgeParams;
use fates::LabelParams;
use filter::FilterParams;
use frame::Params;

pub(crate) fn edge_params(tolerance: f32, limit: f32, rule: u32) -> EdgeParams
    ensures { result ≡ edges_by tolerance limit rule }
{
    EdgeParams {
        tolerance,
        spread: SpreadRule {
            number: rule,
            limit,
        },
    }
}

pub(crate) fn filter_params(ratio: f32, least: f32, greatest: f32) -> FilterParams
    ensures { result ≡ filters_by ratio least greatest }
{
    FilterParams {
        ratio,
        least,
        greatest,
    }
}

pub(crate) fn label_params(quads: u32, corners: u32) -> LabelParams
    ensures { result ≡ labels_by quads corners }
{
    LabelParams { quads, corners }
}

pub(crate) fn frame_params(edges: EdgeParams, filters: FilterParams, labels: LabelParams) -> Params
    ensures { result ≡ record { edges = edges; filters = filters; labels = labels } }
{
    Params {
        edges,
        filters,
        labels,
    }
}
