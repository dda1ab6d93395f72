// Answers as lines: a refusal, numbers of records, and a list as runs: the length of each maximal run of equal words, and the word.
// Each answers how much its line tells; where it is known what the writer holds, as over memory, the contracts of all but the runs say that
// it grows by the line. Where the writer fails, some of the line may be written.
ghost use Rattle.std.specs.Prelude.{◌≡◌, ◌<◌, ◌≤◌, length, IfOk, OnOk};
ghost use Rattle.std.specs.Io.KnownBytes.{Appends};
ghost use Rattle.vectors.specs.Hex.{beside_field, refusal_line};
ghost use Rattle.digits.specs.Digits.{decimal_of};
ghost use Rattle.vectors.specs.inner.Lines.{count_line, counts_line, runs_of, Run};

use refusal::Refusal;
use std::io::{Result, Write};

// The field's number of bytes: 0 where the row has nothing beside its place.
fn write_beside<W: Write>(out: &mut W, why: Refusal) -> Result<usize>
    ensures len { IfOk result (λ n. (n ≡ length (beside_field why)) × (n ≤ 9)) }
    ensures bytes { OnOk result (Appends (W.contents out.old) (W.contents out.new) (beside_field why)) }
{
    if refusal::has_beside(refusal::number(why)) {
        let field = crate::field(refusal::beside(why));
        out.write_all(&field)?;
        return Ok(field.len());
    }
    Ok(0)
}

// The line's number of bytes.
pub fn write_refusal<W: Write>(out: &mut W, why: Refusal) -> Result<usize>
    ensures len { IfOk result (λ n. n ≡ length (refusal_line why)) }
    ensures bytes { OnOk result (Appends (W.contents out.old) (W.contents out.new) (refusal_line why)) }
{
    let front = crate::refusal_front(why);
    out.write_all(&front)?;
    let beside = write_beside(out, why)?;
    out.write_all(b"\n")?;
    Ok(front.len() + beside + 1)
}

// Where the run that begins at `from` ends.
fn run_end(list: &[u32], from: usize) -> usize
    requires { from < length list.now }
    ensures { Run list.now from result }
{
    let word = list[from];
    for i in from + 1..list.len() {
        if list[i] != word {
            return i;
        }
    }
    list.len()
}

// How many runs the line tells. The place goes on by a run, so that no count of turns bounds the loop.
pub fn write_runs<W: Write>(out: &mut W, list: &[u32]) -> Result<usize>
    ensures { IfOk result (λ n. n ≡ runs_of list.now) }
{
    let mut runs = 0;
    let mut at = 0;
    while at < list.len() {
        let end = run_end(list, at);
        if at > 0 {
            out.write_all(b" ")?;
        }
        let (count, word) = (end - at, list[at]);
        write!(out, "{count}*{word}")?;
        runs += 1;
        at = end;
    }
    out.write_all(b"\n")?;
    Ok(runs)
}

// How many digits it wrote, which `write!` doesn't tell.
fn write_decimal<W: Write>(out: &mut W, n: u32) -> Result<usize>
    ensures len { IfOk result (λ places. (places ≡ length (decimal_of n)) × (places ≤ 10)) }
    ensures bytes { OnOk result (Appends (W.contents out.old) (W.contents out.new) (decimal_of n)) }
{
    let mut text = [0u8; 20];
    let places = io::decimal(n as u64, &mut text);
    out.write_all(&text[..places])?;
    Ok(places)
}

// A number of records; answers the line's number of bytes. Apart from `write_counts`: each is a public call with a definition of its own,
// `count_line` and `counts_line`.
pub fn write_count<W: Write>(out: &mut W, count: u32) -> Result<usize>
    ensures len { IfOk result (λ n. n ≡ length (count_line count)) }
    ensures bytes { OnOk result (Appends (W.contents out.old) (W.contents out.new) (count_line count)) }
{
    out.write_all(b"done ")?;
    let places = write_decimal(out, count)?;
    out.write_all(b"\n")?;
    Ok(places + 6)
}

// Two numbers of records; answers the line's number of bytes. Apart from `write_count`, as said there.
pub fn write_counts<W: Write>(out: &mut W, first: u32, second: u32) -> Result<usize>
    ensures len { IfOk result (λ n. n ≡ length (counts_line first second)) }
    ensures bytes { OnOk result (Appends (W.contents out.old) (W.contents out.new) (counts_line first second)) }
{
    out.write_all(b"done ")?;
    let places = write_decimal(out, first)?;
    out.write_all(b" ")?;
    let more = write_decimal(out, second)?;
    out.write_all(b"\n")?;
    Ok(places + more + 7)
}
