// The program `gridlabel`: a frame's text from standard input, its answer to standard output. A read that fails prints no answer; it and a
// write that fails are one line on standard error, and a status of 1. `gridtext::answer` has the program's whole meaning.
#![tactic(auto)]

ghost use Rattle.std.specs.Prelude.{◌≡◌, ◌<◌, ◌≤◌, length, take, IfOk, OnOk};
ghost use Rattle.io.specs.Counts.{IsPrefixLen};
ghost use Rattle.gridtext.specs.Gridlabel.{most_text};
ghost use Rattle.gridlabel.specs.Input.{AnswersInput};
ghost use Rattle.gridlabel.specs.Output.{Prints, AnswersAll};

use std::fmt;
use std::io::{Error, Read, Write};
use std::process::ExitCode;
use streams::inner::{read_whole, write_whole};

// What failed, and why.
#[derive(Debug, Clone, Copy)]
enum Failure {
    Input(Error),
    Output(Error),
}

impl fmt::Display for Failure {
    fn fmt<W: fmt::Write>(&self, f: &mut fmt::Formatter<W>) -> fmt::Result {
        match self {
            Failure::Input(why) => write!(f, "standard input: {why}"),
            Failure::Output(why) => write!(f, "standard output: {why}"),
        }
    }
}

// The answer at the front of `out`, and its length, which is not 0, where n bytes of the list are the input, or as much of it as the list
// holds: of a longer input the first 64 KiB decide (gridtext, proofs/FirstBytes). So a shorter list will not do, for either.
fn answered(list: &[u8], n: usize, out: &mut [u8]) -> usize
    requires { (most_text ≡ length list.now) × (n ≤ length list.now) × (most_text ≤ length out.old) }
    ensures { AnswersInput list.now n (take result out.new) × (0 < result) × IsPrefixLen result out.new }
{
    gridtext::answer(&list[..n], out)
}

// Prints the answer to what was read, or tells what failed.
fn print<W: Write>(
    writer: &mut W,
    text: Result<usize, Failure>,
    list: &[u8],
    out: &mut [u8],
) -> Result<(), Failure>
    requires { (most_text ≡ length list.now) × IfOk text (λ n. n ≤ length list.now) × (most_text ≤ length out.old) }
    ensures { OnOk result (Prints text list.now (W.contents writer.old) (W.contents writer.new)) }
{
    let n = text?;
    let end = answered(list, n, out);
    write_whole(writer, &out[..end]).map_err(Failure::Output)
}

// The program over any reader and writer: the writer gets the answer to all that the reader has left, where it is known what that is and what
// the writer holds, as over memory.
fn run<R: Read, W: Write>(reader: &mut R, writer: &mut W) -> Result<(), Failure>
    ensures { OnOk result (AnswersAll (R.remaining reader.old) (W.contents writer.old) (W.contents writer.new)) }
{
    let mut input = [0u8; 65536];
    let mut output = [0u8; 65536];
    let text = read_whole(reader, &mut input).map_err(Failure::Input);
    print(writer, text, &input, &mut output)
}

fn main(rt: HostRuntime) -> ExitCode {
    let Err(failure) = run(&mut rt.stdin(), &mut rt.stdout()) else {
        return ExitCode::SUCCESS;
    };
    let _ = eprintln!(rt; "gridlabel: {failure}");
    ExitCode::FAILURE
}
