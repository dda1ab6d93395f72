// Row 7: twins that point back between the same corners. The three faults are three tests, tried in the table's order.
ghost use Rattle.std.specs.Prelude.{◌≡◌, ◌%◌, ◌<◌, length};
ghost use Rattle.mesh.specs.Twins.{past_end, points_back, runs_back, twin_offends, twin_fault, twins_row};

use crate::inner::first::refuse_first;
use crate::inner::half_edge::next_edge;
use refusal::Refusal;

// The word that stands for no twin: the lists of twins are the caller's, as C lends them.
pub const NO_TWIN: u32 = 0xFFFF_FFFF;

fn is_past_end(twins: &[u32], w: u32) -> bool
    ensures { result ≡ past_end twins.now w }
{
    twins.len() <= w as usize
}

fn points_back(twins: &[u32], e: usize, w: u32) -> bool
    requires { w < length twins.now }
    ensures { result ≡ points_back twins.now e w }
{
    twins[w as usize] as usize == e
}

#[tactic(auto, using(crate::proofs::HalfEdge::next_lt), unfolding(crate::specs::Twins::runs_back))]
fn runs_back(triangles: &[u32], e: usize, w: u32) -> bool
    requires { (length triangles.now % 3 ≡ 0) × (length triangles.now < 4294967296) × (e < length triangles.now) × (w < length triangles.now) }
    ensures { result ≡ runs_back triangles.now e w }
{
    let back = w as usize;
    let from = triangles[e];
    let to = triangles[next_edge(e)];
    let back_from = triangles[back];
    let back_to = triangles[next_edge(back)];
    let starts_at_end = back_from == to;
    let ends_at_start = back_to == from;
    starts_at_end && ends_at_start
}

#[tactic(auto, unfolding(crate::specs::Twins::twin_offends))]
fn twin_offends(triangles: &[u32], twins: &[u32], e: usize) -> bool
    requires { (length triangles.now ≡ length twins.now) × (length twins.now % 3 ≡ 0) × (length twins.now < 4294967296) × (e < length twins.now) }
    ensures { result ≡ twin_offends triangles.now twins.now e }
{
    let w = twins[e];
    w != NO_TWIN
        && (is_past_end(twins, w) || !points_back(twins, e, w) || !runs_back(triangles, e, w))
}

// What is wrong with a twin that offends: the first of the three tests that it fails.
#[tactic(auto, unfolding(crate::specs::Twins::twin_fault))]
fn twin_fault(twins: &[u32], e: u32) -> Refusal
    requires { e < length twins.now }
    ensures { result ≡ twin_fault twins.now e }
{
    let w = twins[e as usize];
    if is_past_end(twins, w) {
        Refusal::TwinPastEnd(e, w)
    } else if points_back(twins, e as usize, w) {
        Refusal::TwinElsewhere(e, w)
    } else {
        Refusal::TwinNotBack(e, w)
    }
}

// Rows 1 and 2 have let through whole lists of one length within the limit.
#[tactic(auto, unfolding(crate::specs::Twins::twins_row))]
pub fn twins_row(triangles: &[u32], twins: &[u32]) -> Result<(), Refusal>
    requires { (length triangles.now ≡ length twins.now) × (length twins.now % 3 ≡ 0) × (length twins.now < 4294967296) }
    ensures { result ≡ twins_row triangles.now twins.now }
{
    refuse_first(
        twins.len(),
        |e| twin_offends(triangles, twins, e),
        |e| twin_fault(twins, e),
    )
}
