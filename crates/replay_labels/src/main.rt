// Replays outside vectors of the labelling: each argument names a file of data/, which is a sequence of cases of words. It writes the
// proved call's answer to each case and the three lists after it, and the gate compares what it wrote with the oracle's answers.
#![tactic(auto)]

ghost use Rattle.std.specs.Prelude.{◌≡◌, ◌≤◌};

use std::rt::{HostRuntime, Stdout};
use std::{env, io};
use vectors::inner::words::Words;
use vectors::inner::{cases, files};

mod labels_case;

// One case, where its kind is known.
fn case(out: &mut Stdout, kind: u32, words: &mut Words<'_>) -> io::Result<bool>
    ensures text { words.new.text.now ≡ words.old.text.now }
    ensures onward { words.old.at ≤ words.new.at }
{
    match kind {
        5 => labels_case::replay(out, words)?,
        _ => return Ok(false),
    }
    Ok(true)
}

fn main(rt: HostRuntime) -> io::Result<()> {
    let count = env::args(&rt)?.len();
    files(
        &rt,
        &mut rt.stdout(),
        count,
        |out, text| cases(out, text, case),
    )
}
