// A file of vectors read whole, and a program over files and their cases. `words` takes words and lists from a text, `list` has a list's
// elements, and `runs` writes lists and answers as lines.
ghost use Rattle.std.specs.Prelude.{◌≡◌, ◌<◌, ◌≤◌, length, Ok, OnOk};
ghost use Rattle.std.specs.Io.{ReadsAtMost};
ghost use Rattle.std.specs.Io.KnownBytes.{Appends};
ghost use Rattle.vectors.specs.inner.Lines.{heading};

pub mod list;
pub mod runs;
pub mod words;

use std::fs::File;
use std::io::{Error, ErrorKind, Result, Write};
use std::rt::{Env, Files};
use std::str::from_utf8;
use streams::inner::read_whole;
use words::Words;

// Writes a file's heading and reads the file to the start of text; answers how many bytes that is. It fails where the heading is not written,
// or the file does not open or is not read; the heading, or some of it, may then be written. No contract can speak of what a file holds, nor
// of standard output, but of what a writer over memory holds: the gate compares what the programs write.
pub fn load<R: Files, W: Write>(rt: &R, out: &mut W, name: &[u8], text: &mut [u8]) -> Result<usize>
    ensures within { ReadsAtMost result text.new }
    ensures bytes { OnOk result (Appends (W.contents out.old) (W.contents out.new) (heading name.now)) }
{
    out.write_all(b"# ")?;
    out.write_all(name)?;
    out.write_all(b"\n")?;
    let Ok(path) = from_utf8(name) else {
        return Err(Error::from(ErrorKind::InvalidInput));
    };
    let mut file = File::open(rt, path)?;
    read_whole(&mut file, text)
}

// The same for the file that argument i names.
pub fn load_argument<R: Env + Files, W: Write>(
    rt: &R,
    out: &mut W,
    i: usize,
    text: &mut [u8],
) -> Result<usize>
    ensures { ReadsAtMost result text.new }
{
    let mut name = [0u8; 4096];
    let Ok(length) = rt.arg(i, &mut name) else {
        return Err(Error::from(ErrorKind::InvalidInput));
    };
    load(rt, out, &name[..length], text)
}

fn file<R: Env + Files, W: Write, F: Fn(&mut W, &[u8]) -> Result<()>>(
    rt: &R,
    out: &mut W,
    i: usize,
    replay: &F,
) -> Result<()>
    requires { F.IsAlwaysCallable replay.now }
{
    let mut text = [0u8; 65536];
    let n = load_argument(rt, out, i, &mut text)?;
    replay(out, &text[..n])
}

// A whole program: what `replay` writes of each file that one of so many arguments names, behind the file's heading. The first argument is
// the program's own name, so that where there is no other nothing is written; what a file holds no contract can say.
pub fn files<R: Env + Files, W: Write, F: Fn(&mut W, &[u8]) -> Result<()>>(
    rt: &R,
    out: &mut W,
    arguments: usize,
    replay: F,
) -> Result<()>
    requires { F.IsAlwaysCallable replay }
    ensures { arguments ≤ 1 → (result ≡ Ok tt) × (out.new ≡ out.old) }
{
    for i in 1..arguments {
        file(rt, out, i, &replay)?;
    }
    Ok(())
}

// What `replay` writes of each case of a text, by its kind. It stops where the text ends, or where `replay` answers false, as it does at a
// kind that it does not know. A case has at least its kind, so there are fewer cases than bytes, and none in a text without a word.
pub fn cases<W: Write, F: Fn(&mut W, u32, &mut Words<'_>) -> Result<bool>>(
    out: &mut W,
    text: &[u8],
    replay: F,
) -> Result<()>
    requires { F.IsAlwaysCallable replay }
    ensures { length text.now < 9 → (result ≡ Ok tt) × (out.new ≡ out.old) }
{
    let mut words = Words::new(text, 0);
    for _ in 0..text.len() {
        let Some(kind) = words.kind() else {
            return Ok(());
        };
        if !replay(out, kind, &mut words)? {
            return Ok(());
        }
    }
    Ok(())
}
