// Replays outside vectors of axis cache, classes and quads: each argument names a file of data/, which is a sequence of cases of
// words. It writes the proved call's answer to each case, and the gate compares what it wrote with the oracle's answers.
#![tactic(auto)]

ghost use Rattle.std.specs.Prelude.{◌≡◌, ◌≤◌};

use std::rt::{HostRuntime, Stdout};
use std::{env, io};
use vectors::inner::words::Words;
use vectors::inner::{cases, files};

mod axis_case;
mod classes_case;
mod quads_case;

// One case, where its kind is known; kinds 7 and 8 are 1 and 2 behind the number of a rule, 10 is 8 with fits.
fn case(out: &mut Stdout, kind: u32, words: &mut Words<'_>) -> io::Result<bool>
    ensures text { words.new.text.now ≡ words.old.text.now }
    ensures onward { words.old.at ≤ words.new.at }
{
    let rule = match kind {
        7 | 8 | 10 => words.word(),
        _ => 1,
    };
    match kind {
        1 | 7 => axis_case::replay(out, words, rule)?,
        2 | 8 => classes_case::replay(out, words, rule, classes_case::alone)?,
        3 => quads_case::replay(out, words)?,
        10 => classes_case::replay(out, words, rule, classes_case::with_fits)?,
        _ => return Ok(false),
    }
    Ok(true)
}

fn main(rt: HostRuntime) -> io::Result<()> {
    let count = env::args(&rt)?.len();
    files(
        &rt,
        &mut rt.stdout(),
        count,
        |out, text| cases(out, text, case),
    )
}
