// The walk: from the quads of a queue across each of their sides to quads not yet marked, which are laid, marked and queued in turn.
// Each part answers the queue's length, or a clash once it is shown that no labelling exists. What a part asks, `State`, is in no type,
// since a clash ends it; `seed` is for the clauses alone: a ghost value would have to be handed on by each caller.
ghost use Rattle.std.specs.Prelude.{◌≢◌, ◌*◌, ◌/◌, ◌≤◌, ◌<◌, length};
ghost use Rattle.laying.specs.inner.Layout.{mark, Across, Table};
ghost use Rattle.laying.specs.inner.Invariant.{Meets, Met, State};
ghost use Rattle.laying.specs.inner.Moves.{Went, MetRound, Closed};

use crate::Clash;
use crate::inner::layout::{FLAGS, RUNS};
use crate::inner::sheet::Sheet;
use crate::settle::lay;

// From the marked quad of side e to the quad of side g, across from it: unless it is marked, it is laid, marked and queued.
fn step(
    sheet: Sheet<'_>,
    work: &mut [u32],
    seed: usize,
    tail: usize,
    e: usize,
    g: usize,
) -> Result<usize, Clash>
    requires e_bound { (e < 4 * sheet.count) × (g < 4 * sheet.count) × (4 * sheet.span ≤ length work.old) }
    requires state { State sheet.span sheet.quads.now sheet.count seed work.old tail }
    requires marked { mark work.old (e / 4) ≢ 0 }
    requires across { Across sheet.quads.now e g }
    ensures { let s = sheet.entry in Went s.span s.quads.now s.count seed work.old work.new tail result (λ _. Meets s.quads.now e g) }
{
    let p = g / 4;
    if work[p] != 0 {
        return Ok(tail);
    }
    let fits = lay(sheet, work, g);
    work[p] = 1;
    work[sheet.span + tail] = p as u32;
    let queued = tail + 1;
    if fits {
        return Ok(queued);
    }
    Err(Clash { queued })
}

// The step, where side g is across from e.
fn meet(
    sheet: Sheet<'_>,
    work: &mut [u32],
    seed: usize,
    tail: usize,
    e: usize,
    g: usize,
) -> Result<usize, Clash>
    requires e_bound { (e < 4 * sheet.count) × (g < 4 * sheet.count) × (4 * sheet.span ≤ length work.old) }
    requires state { State sheet.span sheet.quads.now sheet.count seed work.old tail }
    requires marked { mark work.old (e / 4) ≢ 0 }
    ensures { let s = sheet.entry in Went s.span s.quads.now s.count seed work.old work.new tail result (λ _. Meets s.quads.now e g) }
{
    let p = e / 4;
    let q = g / 4;
    if sheet.corner(p, e) != sheet.corner(q, g + 1) {
        return Ok(tail);
    }
    if sheet.corner(p, e + 1) != sheet.corner(q, g) {
        return Ok(tail);
    }
    step(sheet, work, seed, tail, e, g)
}

// The sides with the key of side e, one after the other.
fn scan(
    sheet: Sheet<'_>,
    work: &mut [u32],
    seed: usize,
    tail: usize,
    e: usize,
) -> Result<usize, Clash>
    requires e_bound { (e < 4 * sheet.count) × Table sheet.span sheet.quads.now sheet.count work.old }
    requires state { State sheet.span sheet.quads.now sheet.count seed work.old tail }
    requires marked { mark work.old (e / 4) ≢ 0 }
    ensures { let s = sheet.entry in Went s.span s.quads.now s.count seed work.old work.new tail result (λ _. Met s.quads.now s.count e) }
{
    let table = 4 * sheet.span;
    let first = work[table + RUNS * sheet.count + e] as usize;
    let key = work[table + 2 * first];
    let mut t = tail;
    for i in first..4 * sheet.count {
        if work[table + 2 * i] != key {
            return Ok(t);
        }
        let g = work[table + 2 * i + 1] as usize;
        t = meet(sheet, work, seed, t, e, g)?;
    }
    Ok(t)
}

// The scan, unless its run was scanned before from a side of the same sense: such a side has the same ends. So where many quads share a
// side the walk stays linear.
fn scan_once(
    sheet: Sheet<'_>,
    work: &mut [u32],
    seed: usize,
    tail: usize,
    e: usize,
) -> Result<usize, Clash>
    requires e_bound { (e < 4 * sheet.count) × Table sheet.span sheet.quads.now sheet.count work.old }
    requires state { State sheet.span sheet.quads.now sheet.count seed work.old tail }
    requires marked { mark work.old (e / 4) ≢ 0 }
    ensures { let s = sheet.entry in Went s.span s.quads.now s.count seed work.old work.new tail result (λ _. Met s.quads.now s.count e) }
{
    let sense = sheet.sense(e);
    let run = work[4 * sheet.span + RUNS * sheet.count + e] as usize;
    let at = 4 * sheet.span + FLAGS * sheet.count + run;
    let flag = work[at];
    if flag / sense % 2 == 1 {
        return Ok(tail);
    }
    let t = scan(sheet, work, seed, tail, e)?;
    work[at] = flag + sense;
    Ok(t)
}

// The four sides of quad q.
fn sides(
    sheet: Sheet<'_>,
    work: &mut [u32],
    seed: usize,
    tail: usize,
    q: usize,
) -> Result<usize, Clash>
    requires q_lt_n { (q < sheet.count) × Table sheet.span sheet.quads.now sheet.count work.old }
    requires state { State sheet.span sheet.quads.now sheet.count seed work.old tail }
    requires marked { mark work.old q ≢ 0 }
    ensures { let s = sheet.entry in Went s.span s.quads.now s.count seed work.old work.new tail result (λ _. MetRound s.quads.now s.count q 4) }
{
    let mut t = tail;
    for k in 0..4 {
        t = scan_once(sheet, work, seed, t, 4 * q + k)?;
    }
    Ok(t)
}

// The queue, from its first quad to its end, which moves as quads are queued.
pub(crate) fn run(sheet: Sheet<'_>, work: &mut [u32], seed: usize) -> Result<usize, Clash>
    requires table { Table sheet.span sheet.quads.now sheet.count work.old }
    requires state { State sheet.span sheet.quads.now sheet.count seed work.old 1 }
    ensures { let s = sheet.entry in Went s.span s.quads.now s.count seed work.old work.new 1 result (Closed s.span s.quads.now s.count) }
{
    let mut tail = 1;
    let mut head = 0;
    while head < tail {
        let q = work[sheet.span + head] as usize;
        tail = sides(sheet, work, seed, tail, q)?;
        head += 1;
    }
    Ok(tail)
}
