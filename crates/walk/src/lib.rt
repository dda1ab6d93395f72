// The labelling of quads: each group that is kept becomes a component, which lists its lone corners. `label_components` is the call;
// `inner` has what follows the labelling, for other calls that label.
#![tactic(auto)]

ghost use Rattle.walk.specs.Input.{given};
ghost use Rattle.walk.specs.Call.{Allowed};

use fates::LabelParams;
use fates::inner::{compute, span_of};
use inner::{count_components, write_components};
use laying::inner::sheet::Sheet;
use refusal::Refusal;

mod emit;
mod gate;
pub mod inner;
mod rows;

// How many components and entries were written.
#[derive(Clone, Copy, Debug, PartialEq, Eq)]
pub struct Labelled {
    pub components: u32,
    pub entries: u32,
}

// Writes the components of the groups in order of their lowest quads, and their entries in order of u, then v.
pub fn label_components(
    quads: &[u32],
    corners: u32,
    params: LabelParams,
    work: &mut [u32],
    components: &mut [u32],
    entries: &mut [u32],
) -> Result<Labelled, Refusal>
    ensures { Allowed (given quads.entry corners params)
        work.old components.old entries.old
        (record { answer = result; work = work.new; components = components.new; entries = entries.new }) }
{
    gate::entry(quads, corners as usize, work.len())?;
    let n = quads.len() / 4;
    let span = span_of(n, corners as usize);
    let sheet = Sheet {
        quads,
        span,
        count: n,
    };
    compute(sheet, work, params);
    let totals = count_components(work, span, n);
    write_components(work, span, n, totals, components, entries)
}
