// Replays outside texts: each argument names a file of data/, which is a sequence of texts. It writes what the program `gridlabel` prints
// for each, by `gridtext::answer`, and the gate compares what it wrote with the oracle's answers.
#![tactic(auto)]

ghost use Rattle.std.specs.Prelude.{◌≡◌, ◌≤◌};

use std::io::Write;
use std::rt::{HostRuntime, Stdout};
use std::{env, io};
use vectors::inner::words::Words;
use vectors::inner::{cases, files};

fn replay(out: &mut Stdout, text: &[u8]) -> io::Result<()> {
    let mut answer = [0u8; 65536];
    let n = gridtext::answer(text, &mut answer);
    out.write_all(&answer[..n])
}

// One text: its length, which stands where other files have a case's kind, a line feed, its bytes, a line feed. One that goes past the
// file's end ends the file.
fn case(out: &mut Stdout, size: u32, words: &mut Words<'_>) -> io::Result<bool>
    ensures text { words.new.text.now ≡ words.old.text.now }
    ensures onward { words.old.at ≤ words.new.at }
{
    let Some(text) = words.bytes(size as usize) else {
        return Ok(false);
    };
    replay(out, text)?;
    Ok(true)
}

fn main(rt: HostRuntime) -> io::Result<()> {
    let count = env::args(&rt)?.len();
    files(
        &rt,
        &mut rt.stdout(),
        count,
        |out, text| cases(out, text, case),
    )
}
