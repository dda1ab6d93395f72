// What follows once every group has its fate, for each call that labels: counting, and apart from it rows 9 and 10, writing, zeroing, so that
// a caller may know the counts and write nothing. The lists go one by one: each is lent for itself, by C too. `Writable` is what `compute`
// of `fates` has left, over quads that the rows of the calls above let through.
ghost use Rattle.std.specs.Prelude.{◌≡◌};
ghost use Rattle.walk.specs.Call.{Outcome, outcome_in};
ghost use Rattle.walk.specs.inner.Emitted.{out_to};
ghost use Rattle.walk.specs.inner.Emitting.{Writable, Counted};

use crate::Labelled;
use crate::emit::{counted, is_kept, write_out};
use fates::inner::{fate_at, runs_at};
use refusal::Refusal;

// How many components, and how many entries in them, to be compared with the lengths of lists; `Labelled` tells them as words.
#[derive(Clone, Copy, Debug, PartialEq, Eq)]
pub struct Totals {
    pub components: usize,
    pub entries: usize,
}

// How many components and entries the kept groups make.
pub fn count_components(work: &[u32], span: usize, n: usize) -> Totals
    requires { Writable work.now span n }
    ensures { Counted (out_to work.now span n n) n result.components result.entries }
{
    let mut totals = Totals {
        components: 0,
        entries: 0,
    };
    for s in 0..n {
        let kept = is_kept(fate_at(work, span, n, s));
        let runs = runs_at(work, span, n, s);
        totals = counted(totals, kept, runs.lone.count);
    }
    totals
}

// Writes the kept groups' components and entries at the fronts of their lists, where both have room for the totals, which are those that
// `count_components` answers of this workspace; the workspace is all zero after it.
pub fn write_components(
    work: &mut [u32],
    span: usize,
    n: usize,
    totals: Totals,
    components: &mut [u32],
    entries: &mut [u32],
) -> Result<Labelled, Refusal>
    requires writable { Writable work.old span n }
    requires counted { Counted (out_to work.old span n n) n totals.components totals.entries }
    ensures { ◌≡◌ {A = Outcome} (record { answer = result; work = work.new; components = components.new; entries = entries.new })
        (outcome_in (out_to work.old span n n) work.old components.old entries.old) }
{
    if components.len() / 3 < totals.components {
        work.fill(0);
        return Err(Refusal::RecordsShort(totals.components as u32));
    }
    if entries.len() / 3 < totals.entries {
        work.fill(0);
        return Err(Refusal::EntriesShort(totals.entries as u32));
    }
    write_out(work, span, n, components, entries);
    work.fill(0);
    Ok(Labelled {
        components: totals.components as u32,
        entries: totals.entries as u32,
    })
}
