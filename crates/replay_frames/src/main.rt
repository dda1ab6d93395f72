// Replays outside vectors of the whole frame: each argument names a file of data/, which is a sequence of cases of words. It writes the
// proved call's answer to each case and the three lists after it, and the gate compares what it wrote with the oracle's answers.
#![tactic(auto)]

ghost use Rattle.std.specs.Prelude.{◌≡◌, ◌≤◌};

use std::rt::{HostRuntime, Stdout};
use std::{env, io};
use vectors::inner::words::Words;
use vectors::inner::{cases, files};

mod frames_case;

// One case, where its kind is known; 9 is 6 behind the number of a rule.
fn case(out: &mut Stdout, kind: u32, words: &mut Words<'_>) -> io::Result<bool>
    ensures text { words.new.text.now ≡ words.old.text.now }
    ensures onward { words.old.at ≤ words.new.at }
{
    let rule = match kind {
        6 => 1,
        9 => words.word(),
        _ => return Ok(false),
    };
    frames_case::replay(out, words, rule)?;
    Ok(true)
}

fn main(rt: HostRuntime) -> io::Result<()> {
    let count = env::args(&rt)?.len();
    files(
        &rt,
        &mut rt.stdout(),
        count,
        |out, text| cases(out, text, case),
    )
}
