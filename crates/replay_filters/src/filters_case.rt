// Kind 4: the quads that the filters keep.
ghost use Rattle.std.specs.Prelude.{◌≡◌, ◌≤◌};

use filter::{FilterParams, filter_quads};
use measure::inner::float_of;
use mesh::Positions;
use refusal::Refusal;
use std::io;
use std::io::Stdout;
use vectors::inner::list::say_over;
use vectors::inner::runs::{write_count, write_refusal, write_runs};
use vectors::inner::words::Words;

// As in the programs that tell other calls: four lines, over what each call answers.
fn write_answer(out: &mut Stdout, answer: Result<u32, Refusal>) -> io::Result<usize> {
    match answer {
        Ok(count) => write_count(out, count),
        Err(why) => write_refusal(out, why),
    }
}

// The ratio, the least and the greatest.
fn params(words: &mut Words<'_>) -> FilterParams
    ensures text { words.new.text.now ≡ words.old.text.now }
    ensures onward { words.old.at ≤ words.new.at }
{
    FilterParams {
        ratio: float_of(words.word()),
        least: float_of(words.word()),
        greatest: float_of(words.word()),
    }
}

// The quads are said over up to so many words.
// The lists stand at the fronts of arrays, each with its length beside it: there is no heap.
pub(crate) fn replay(out: &mut Stdout, words: &mut Words<'_>) -> io::Result<()>
    ensures text { words.new.text.now ≡ words.old.text.now }
    ensures onward { words.old.at ≤ words.new.at }
{
    let mut x = [0.0f32; 4097];
    let mut y = [0.0f32; 4097];
    let mut quads = [0u32; 16392];
    let mut work = [0u32; 196656];
    let mut kept = [0u32; 16392];
    let params = params(words);
    let most = words.word();
    let n_x = words.fill(&mut x);
    let n_y = words.fill(&mut y);
    let given = words.fill(&mut quads);
    let n_quads = say_over(&mut quads, given, most);
    let n_work = words.fill(&mut work);
    let n_kept = words.fill(&mut kept);
    let corners = Positions {
        x: &x[..n_x],
        y: &y[..n_y],
    };
    let work = &mut work[..n_work];
    let kept = &mut kept[..n_kept];
    let answer = filter_quads(corners, &quads[..n_quads], params, work, kept);
    write_answer(out, answer)?;
    write_runs(out, work)?;
    write_runs(out, kept)?;
    Ok(())
}
