// The three lists of a call that labels, from a case to the fronts of arrays, and after the call as lines. What goes to standard output no
// contract can say; the functions that write answer how much their lines tell. Where the writer fails, some of the lines may be written.
ghost use Rattle.std.specs.Prelude.{◌≡◌, ◌≤◌, length, IfOk, OnOk};
ghost use Rattle.std.specs.Io.KnownBytes.{Appends};
ghost use Rattle.vectors.specs.inner.Lines.{runs_of};
ghost use Rattle.vectors.specs.inner.Lists.{Front};
ghost use Rattle.told.specs.inner.Lending.{Lends};
ghost use Rattle.told.specs.inner.Answer.{answer_line};

use refusal::Refusal;
use std::io::{Result, Write};
use vectors::inner::runs::{write_counts, write_refusal, write_runs};
use vectors::inner::words::Words;
use walk::Labelled;

// What a call that labels answers.
type Answer = std::result::Result<Labelled, Refusal>;

// The lengths of the lists.
#[derive(Debug, Clone, Copy, PartialEq, Eq)]
pub struct Lent {
    pub work: usize,
    pub components: usize,
    pub entries: usize,
}

// How many bytes the answer's line has, and how many runs each list's.
#[derive(Debug, Clone, Copy, PartialEq, Eq)]
pub struct Lines {
    pub answer: usize,
    pub work: usize,
    pub components: usize,
    pub entries: usize,
}

// Reads the three lists, which stand one after the other in the text, to the fronts of the arrays. They are three arrays of the caller, each
// lent on its own: a struct of three mutable lists would have to be made anew for each call.
pub fn lend(
    words: &mut Words<'_>,
    work: &mut [u32],
    components: &mut [u32],
    entries: &mut [u32],
) -> Lent
    ensures is { Lends words.old.text.now words.old.at (record { work = work.old; components = components.old; entries = entries.old }) (record { work = work.new; components = components.new; entries = entries.new }) result words.new.at }
    ensures text { words.new.text.now ≡ words.old.text.now }
    ensures within { Front result.work work.new × Front result.components components.new × Front result.entries entries.new }
    ensures onward { words.old.at ≤ words.new.at }
{
    Lent {
        work: words.fill(work),
        components: words.fill(components),
        entries: words.fill(entries),
    }
}

fn write_answer<W: Write>(out: &mut W, answer: Answer) -> Result<usize>
    ensures len { IfOk result (λ n. n ≡ length (answer_line answer)) }
    ensures bytes { OnOk result (Appends (W.contents out.old) (W.contents out.new) (answer_line answer)) }
{
    match answer {
        Ok(done) => write_counts(out, done.components, done.entries),
        Err(why) => write_refusal(out, why),
    }
}

// The answer, then the three lists after the call, each on its own as in `lend`.
pub fn write_told<W: Write>(
    out: &mut W,
    answer: Answer,
    work: &[u32],
    components: &[u32],
    entries: &[u32],
) -> Result<Lines>
    ensures { IfOk result (λ lines. (lines.answer ≡ length (answer_line answer)) × (lines.work ≡ runs_of work.now) × (lines.components ≡ runs_of components.now) × (lines.entries ≡ runs_of entries.now)) }
{
    Ok(Lines {
        answer: write_answer(out, answer)?,
        work: write_runs(out, work)?,
        components: write_runs(out, components)?,
        entries: write_runs(out, entries)?,
    })
}
