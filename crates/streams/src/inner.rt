// A text read whole from a reader, and a text written whole. What a descriptor gives or takes no contract can say; where a reader's bytes
// are known, or a writer's, as over memory, the contracts say what becomes of them. `outcome` fixes what is made of each call's answer. A
// call that fails tells the error of its errno, which is 0 where the system gave it none; of a write that takes nothing see `write_whole`.
ghost use Rattle.std.specs.Prelude.{◌≡◌, ◌≤◌, ◌<◌, ◌^◌, length, Ok, IfOk, OnOk};
ghost use Rattle.std.specs.Io.{ReadsAtMost};
ghost use Rattle.std.specs.Io.KnownBytes.{Appends};
ghost use Rattle.streams.specs.Moves.{CameTo, MovedWithin, ReadBy, WholeRead, WrittenBy};

use crate::{EINTR, Moved, ended, outcome};
use std::io::{Error, ErrorKind, Read, Result, Write};

// How often a call is made that signals cut off. No run meets so many.
const MOST_TRIES: u32 = 0xFFFF_FFFF;

// The most bytes that one call is to move, as Linux has it.
const MOST_MOVED: usize = 0x7FFF_F000;

// The error's number, as errno has it; by hand, since std has no conversion from an error to its errno that tells EINTR for `Interrupted`.
fn number(error: Error) -> i32 {
    if let Some(code) = error.raw_os_error() {
        return code;
    }
    if error.kind() == ErrorKind::Interrupted {
        return EINTR;
    }
    0
}

// What a call on a part came to, by the answer of the standard library: as numbers, which `outcome` is told by.
fn came_to(answer: Result<usize>, part: &[u8]) -> Moved
    requires { IfOk answer (λ n. (n ≤ length part.now) × (n < 2 ^ 63)) }
    ensures { CameTo answer result }
{
    match answer {
        Ok(n) => outcome(n as isize, 0, part),
        Err(e) => outcome(-1, number(e), part),
    }
}

// One read, made again where a signal cuts it off.
fn read_some<R: Read>(reader: &mut R, part: &mut [u8]) -> Moved
    ensures within { MovedWithin (length part.old) result }
    ensures bytes { ReadBy result (R.remaining reader.old) (R.remaining reader.new) part.new }
{
    let most = part.len().min(MOST_MOVED);
    for _ in 0..MOST_TRIES {
        let answer = reader.read(&mut part[..most]);
        let came = came_to(answer, part);
        let Moved::Interrupted = came else {
            return came;
        };
    }
    Moved::Interrupted
}

// One write, likewise; `errno` becomes EINTR where a signal cut a call off. Two loops and not one over a closure: a caller is told nothing of
// what a closure leaves in its reader or part, which `bytes` promises of both, each in its way.
fn write_some<W: Write>(writer: &mut W, part: &[u8], errno: &mut i32) -> Moved
    ensures within { MovedWithin (length part.now) result }
    ensures bytes { WrittenBy result (W.contents writer.old) (W.contents writer.new) part.now }
{
    let most = part.len().min(MOST_MOVED);
    for _ in 0..MOST_TRIES {
        let came = came_to(writer.write(&part[..most]), part);
        let Moved::Interrupted = came else {
            return came;
        };
        *errno = EINTR;
    }
    Moved::Interrupted
}

// Reads until the input ends or the list is full; answers how many bytes that is. A read that fails is a failure, however much came before
// it. The place goes on by what a call moved.
pub fn read_whole<R: Read>(reader: &mut R, list: &mut [u8]) -> Result<usize>
    ensures front { ReadsAtMost result list.new }
    ensures bytes { WholeRead result (R.remaining reader.old) (R.remaining reader.new) list.new }
{
    let mut at = 0;
    while at < list.len() {
        let came = read_some(reader, &mut list[at..]);
        let Moved::Some(n) = came else {
            return ended(came, at).map_err(Error::from_raw_os_error);
        };
        at += n;
    }
    Ok(at)
}

// Writes all of the text, or fails, when some of it may have been written. A write that takes a part is followed by one of the rest.
// Where there is nothing to write it does not fail; else the writer's answers decide it. The library's `write_all` would be shorter, but its
// body is not ours: must-fail/nothing_taken_for_the_rest has to stand in this one.
pub fn write_whole<W: Write>(writer: &mut W, text: &[u8]) -> Result<()>
    ensures nothing { length text.now ≡ 0 → result ≡ Ok tt }
    ensures bytes { OnOk result (Appends (W.contents writer.old) (W.contents writer.new) text.now) }
{
    // Where a write takes nothing, the error told is the last one that a signal made, if any: `gridlabel` prints it.
    let mut errno = 0;
    let mut at = 0;
    while at < text.len() {
        match write_some(writer, &text[at..], &mut errno) {
            Moved::Some(n) => at += n,
            Moved::Nothing => return Err(Error::from_raw_os_error(errno)),
            Moved::Interrupted => return Err(Error::from_raw_os_error(EINTR)),
            Moved::Failed(error) => return Err(Error::from_raw_os_error(error)),
        }
    }
    Ok(())
}
