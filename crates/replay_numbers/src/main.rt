// Replays outside vectors of root, angle and distance: each argument names a file of data/, whose lines hold patterns as eight hex
// digits. It writes the proved call's answer to each line, and the gate compares what it wrote with the oracle's answers.
#![tactic(auto)]

use measure::Distance;
use measure::inner::{float_of, word_of};
use refusal::Refusal;
use std::io::{Error, ErrorKind, Write};
use std::rt::{Env, HostRuntime, Stdout};
use std::{env, io};
use vectors::inner::runs::write_refusal;
use vectors::{hex, word_at};

fn write_number(out: &mut Stdout, x: f32) -> io::Result<()> {
    out.write_all(&hex(word_of(x)))?;
    out.write_all(b"\n")
}

fn write_measured(out: &mut Stdout, answer: Result<f32, Refusal>) -> io::Result<()> {
    match answer {
        Ok(x) => write_number(out, x),
        Err(why) => {
            write_refusal(out, why)?;
            Ok(())
        }
    }
}

fn write_distance(out: &mut Stdout, answer: Distance) -> io::Result<()> {
    match answer {
        Distance::Known(x) => write_number(out, x),
        Distance::Missing => out.write_all(b"none\n"),
    }
}

// Lines of one pattern: the root of each. Apart from `pairs`: the size of a line as a parameter would ask that it is above 0.
fn roots(out: &mut Stdout, text: &[u8]) -> io::Result<()> {
    for line in text.chunks_exact(9) {
        write_measured(out, measure::root(float_of(word_at(line, 0))))?;
    }
    Ok(())
}

// Lines of two patterns: what `replay` writes of each.
fn pairs<F: Fn(&mut Stdout, f32, f32) -> io::Result<()>>(
    out: &mut Stdout,
    text: &[u8],
    replay: F,
) -> io::Result<()>
    requires { F.IsAlwaysCallable replay }
{
    for line in text.chunks_exact(18) {
        replay(out, float_of(word_at(line, 0)), float_of(word_at(line, 9)))?;
    }
    Ok(())
}

// A file's first letter says which rule its lines are for: root, angle of a difference, or distance of an angle from an axis.
fn replay(out: &mut Stdout, first: u8, text: &[u8]) -> io::Result<()> {
    match first {
        b'r' => roots(out, text),
        b'a' => pairs(out, text, |out, dx, dy| {
            write_measured(out, measure::angle(dx, dy))
        }),
        _ => pairs(out, text, |out, angle, axis| {
            write_distance(out, measure::axis_distance(angle, axis))
        }),
    }
}

// An argument without a letter names no file, and nothing is written for it. So this is no `vectors::inner::files`, which gives a file's
// text alone and fails there.
fn file(rt: &HostRuntime, out: &mut Stdout, name: &[u8]) -> io::Result<()> {
    let Some(first) = name.first() else {
        return Ok(());
    };
    let mut text = [0u8; 65536];
    let n = vectors::inner::load(rt, out, name, &mut text)?;
    replay(out, *first, &text[..n])
}

fn argument(rt: &HostRuntime, out: &mut Stdout, i: usize) -> io::Result<()> {
    let mut name = [0u8; 4096];
    let Ok(length) = rt.arg(i, &mut name) else {
        return Err(Error::from(ErrorKind::InvalidInput));
    };
    file(rt, out, &name[..length])
}

fn main(rt: HostRuntime) -> io::Result<()> {
    let mut out = rt.stdout();
    for i in 1..env::args(&rt)?.len() {
        argument(&rt, &mut out, i)?;
    }
    Ok(())
}
