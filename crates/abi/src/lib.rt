// What C and Rust link: each public call with answers that cross the boundary, fixed by the call's own definition.
// For C each list is a pointer and the number of its elements; the structs tell a refusal by a number, since C has no enum with values in it.
#![tactic(auto)]

ghost use Rattle.std.specs.Prelude.{◌≡◌};
ghost use Rattle.measure.specs.Angle.{angle_of};
ghost use Rattle.measure.specs.Distance.{distance_of};
ghost use Rattle.measure.specs.RootComputed.{root_of};
ghost use Rattle.measure.specs.Answers.{measured_told, distance_told};
ghost use Rattle.axis.specs.Cache.{cache_call, spread_from, cached_told};
ghost use Rattle.classify.specs.Classes as classing;
ghost use Rattle.classify.specs.Call as edges;
ghost use Rattle.quads.specs.Merge as merge;
ghost use Rattle.quads.specs.Call as pairs;
ghost use Rattle.filter.specs.Input as filters;
ghost use Rattle.walk.specs.Input as labels;
ghost use Rattle.frame.specs.Stages as stages;
ghost use Rattle.abi.specs.Answers.{number_from, apart_from, cache_from, ClassesTold, classes_told, QuadsTold, quads_told, FilterTold, LabelTold, FrameTold, edges_by, filters_by, labels_by, params_by};

use axis::inner::spread_from;
use axis::{Axes, SpreadRule};
use frame::Frame;
use mesh::Positions;
use params::{edge_params, filter_params, frame_params, label_params};
use quads::Mesh;

mod params;
mod tell;

// refused is 0 beside a value; else it is the refusal's number, place its place, and value 0.
#[repr(C)]
#[derive(Drop)]
pub struct Number {
    pub refused: u32,
    pub place: u32,
    pub value: f32,
}

// known is 1 beside a value; else it is 0, and so is value.
#[repr(C)]
#[derive(Drop)]
pub struct Apart {
    pub known: u32,
    pub value: f32,
}

// refused is 0 beside a cache, in which an informative axis is told as 1, another as 0; else it is the refusal's number, place its place,
// and all else 0.
#[repr(C)]
#[derive(Drop)]
pub struct Cache {
    pub refused: u32,
    pub place: u32,
    pub angle0: f32,
    pub informative0: u32,
    pub angle1: f32,
    pub informative1: u32,
}

// refused is 0 where the call is done; else it is the refusal's number, and place its place.
#[repr(C)]
#[derive(Drop)]
pub struct Verdict {
    pub refused: u32,
    pub place: u32,
}

// refused is 0 beside a count; else it is the refusal's number, place its place, and count 0. beside is the twin's value where a twin is at
// fault, else 0.
#[repr(C)]
#[derive(Drop)]
pub struct Count {
    pub refused: u32,
    pub place: u32,
    pub beside: u32,
    pub count: u32,
}

// refused is 0 beside the counts; else it is the refusal's number, place its place, and the counts 0. beside is the twin's value where a
// twin is at fault, else 0.
#[repr(C)]
#[derive(Drop)]
pub struct Counts {
    pub refused: u32,
    pub place: u32,
    pub beside: u32,
    pub components: u32,
    pub entries: u32,
}

#[unsafe(no_mangle)]
pub extern "C" fn ngeunsadok_root(x: f32) -> Number
    ensures { result ≡ number_from (measured_told (root_of x)) }
{
    Number::from(measure::root(x))
}

#[unsafe(no_mangle)]
pub extern "C" fn ngeunsadok_angle(dx: f32, dy: f32) -> Number
    ensures { result ≡ number_from (measured_told (angle_of dx dy)) }
{
    Number::from(measure::angle(dx, dy))
}

#[unsafe(no_mangle)]
pub extern "C" fn ngeunsadok_distance(angle: f32, axis: f32) -> Apart
    ensures { result ≡ apart_from (distance_told (distance_of angle axis)) }
{
    Apart::from(measure::axis_distance(angle, axis))
}

// A mark of 0 says that the spread beside it is missing; rule is the number of the spread rule.
#[unsafe(no_mangle)]
pub extern "C" fn ngeunsadok_axis_cache(
    angle0: f32,
    marked0: u32,
    spread0: f32,
    angle1: f32,
    marked1: u32,
    spread1: f32,
    limit: f32,
    rule: u32,
) -> Cache
    ensures { result ≡ cache_from (cached_told (cache_call (record { number = rule; limit = limit }) angle0 (spread_from marked0 spread0) angle1 (spread_from marked1 spread1))) }
{
    let first = spread_from(marked0, spread0);
    let second = spread_from(marked1, spread1);
    let spread = SpreadRule {
        number: rule,
        limit,
    };
    Cache::from(axis::axis_cache(angle0, first, angle1, second, spread))
}

#[unsafe(no_mangle)]
pub extern "C" fn ngeunsadok_classify_all_edges(
    x: &[f32],
    y: &[f32],
    angles: &[f32],
    marks: &[u32],
    spreads: &[f32],
    triangles: &[u32],
    tolerance: f32,
    limit: f32,
    rule: u32,
    classes: &mut [u32],
    fits: &mut [f32],
) -> Verdict
    ensures { ◌≡◌ {A = ClassesTold} (record { told = result; classes = classes.new; fits = fits.new })
        (classes_told (edges.call_of (classing.given (record { x = x.entry; y = y.entry }) (record { angles = angles.entry; marks = marks.entry; spreads = spreads.entry }) triangles.entry (edges_by tolerance limit rule)) classes.old fits.old)) }
{
    let params = edge_params(tolerance, limit, rule);
    Verdict::from(classify::classify_all_edges(
        Positions { x, y },
        Axes {
            angles,
            marks,
            spreads,
        },
        triangles,
        params,
        classes,
        fits,
    ))
}

#[unsafe(no_mangle)]
pub extern "C" fn ngeunsadok_merge_triangle_pairs(
    x: &[f32],
    y: &[f32],
    triangles: &[u32],
    twins: &[u32],
    classes: &[u32],
    quads: &mut [u32],
) -> Count
    ensures { ◌≡◌ {A = QuadsTold} (record { told = result; quads = quads.new })
        (quads_told (pairs.call_of (merge.given (record { x = x.entry; y = y.entry }) (record { triangles = triangles.entry; twins = twins.entry; classes = classes.entry })) quads.old)) }
{
    let mesh = Mesh {
        triangles,
        twins,
        classes,
    };
    Count::from(quads::merge_triangle_pairs(Positions { x, y }, mesh, quads))
}

#[unsafe(no_mangle)]
pub extern "C" fn ngeunsadok_filter_quads(
    x: &[f32],
    y: &[f32],
    quads: &[u32],
    ratio: f32,
    least: f32,
    greatest: f32,
    work: &mut [u32],
    kept: &mut [u32],
) -> Count
    ensures { FilterTold (filters.given (record { x = x.entry; y = y.entry }) quads.entry (filters_by ratio least greatest)) work.old kept.old result work.new kept.new }
{
    let params = filter_params(ratio, least, greatest);
    Count::from(filter::filter_quads(Positions { x, y }, quads, params, work, kept))
}

#[unsafe(no_mangle)]
pub extern "C" fn ngeunsadok_label_components(
    quads: &[u32],
    corners: u32,
    leastquads: u32,
    leastcorners: u32,
    work: &mut [u32],
    components: &mut [u32],
    entries: &mut [u32],
) -> Counts
    ensures { LabelTold (labels.given quads.entry corners (labels_by leastquads leastcorners))
        work.old components.old entries.old
        result work.new components.new entries.new }
{
    let params = label_params(leastquads, leastcorners);
    Counts::from(walk::label_components(quads, corners, params, work, components, entries))
}

#[unsafe(no_mangle)]
pub extern "C" fn ngeunsadok_label_frame(
    x: &[f32],
    y: &[f32],
    angles: &[f32],
    marks: &[u32],
    spreads: &[f32],
    triangles: &[u32],
    twins: &[u32],
    tolerance: f32,
    ratio: f32,
    least: f32,
    greatest: f32,
    limit: f32,
    leastquads: u32,
    leastcorners: u32,
    rule: u32,
    work: &mut [u32],
    components: &mut [u32],
    entries: &mut [u32],
) -> Counts
    ensures { FrameTold (stages.given (record { corners = record { x = x.entry; y = y.entry }; axes = record { angles = angles.entry; marks = marks.entry; spreads = spreads.entry }; triangles = triangles.entry; twins = twins.entry }) (params_by tolerance ratio least greatest limit leastquads leastcorners rule))
        work.old components.old entries.old
        result work.new components.new entries.new }
{
    let edges = edge_params(tolerance, limit, rule);
    let filters = filter_params(ratio, least, greatest);
    let labels = label_params(leastquads, leastcorners);
    let params = frame_params(edges, filters, labels);
    let frame = Frame {
        corners: Positions { x, y },
        axes: Axes {
            angles,
            marks,
            spreads,
        },
        triangles,
        twins,
    };
    Counts::from(frame::label_frame(frame, params, work, components, entries))
}
