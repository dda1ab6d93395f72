// Words as text: hex digits and decimal digits. A reader takes a word from a text exactly where its printed form stands, with the byte that
// ends it. `inner` has the value of a digit, and writes a word.
#![tactic(auto)]

ghost use Rattle.std.specs.Prelude.{◌<◌, ◌≤◌, ◌^◌, ◌≡◌};
ghost use Rattle.digits.specs.Digits.{hex_of, decimal_of};
ghost use Rattle.digits.specs.inner.Run.{Run as Spelt, DigitAt};
ghost use Rattle.digits.specs.Taken.{end_byte, Takes};

pub mod inner;

use inner::value;

// What was taken from a text, and where the text goes on.
#[derive(Debug, Clone, Copy, PartialEq, Eq)]
pub struct Taken<T> {
    pub value: T,
    pub next: usize,
}

// What ends a form: a blank or a line feed. Neither is a digit, so a form's end is seen.
#[derive(Debug, Clone, Copy, PartialEq, Eq)]
pub enum End {
    Blank,
    Feed,
}

// A run of digits: the number that it spells, and how many they are.
#[derive(Clone, Copy)]
struct Run {
    value: u64,
    count: usize,
}

// The byte of an end, which is a call of its own name (docs/CALLS.md), and has no way back.
pub fn byte(end: End) -> u8
    ensures { result ≡ end_byte end }
{
    match end {
        End::Blank => b' ',
        End::Feed => b'\n',
    }
}

// The digit at a place, where one of the base stands there.
fn digit_at(text: &[u8], at: usize, base: u32) -> Option<u32>
    requires { base ≤ 16 }
    ensures { DigitAt text.now at base result }
{
    value(*text.get(at)?).filter(|digit| *digit < base)
}

// The run of digits from `at` on, and no more of them than `most`.
fn run_at(text: &[u8], at: usize, base: u32, most: usize) -> Run
    requires { (0 < base) × (base ≤ 16) × (base ^ most ≤ 10000000000) }
    ensures { Spelt text.now at base most result.value result.count }
{
    let mut value: u64 = 0;
    if text.len() <= at {
        return Run { value, count: 0 };
    }
    for count in 0..most {
        let Some(digit) = digit_at(text, at + count, base) else {
            return Run { value, count };
        };
        value = value * u64::from(base) + u64::from(digit);
    }
    Run { value, count: most }
}

// This and `decimal_at` take the text and a place, not the rest of it: `Takes` speaks of places. Eight upper-case hex digits from `at` on,
// then the end.
pub fn hex_at(text: &[u8], at: usize, end: End) -> Option<Taken<u32>>
    ensures { Takes hex_of text.now at (end_byte end) result }
{
    let run = run_at(text, at, 16, 8);
    if run.count < 8 {
        return None;
    }
    if *text.get(at + 8)? != byte(end) {
        return None;
    }
    Some(Taken {
        value: run.value as u32,
        next: at + 9,
    })
}

// The decimal digits of a word, as few as hold it, from `at` on, then the end.
pub fn decimal_at(text: &[u8], at: usize, end: End) -> Option<Taken<u32>>
    ensures { Takes decimal_of text.now at (end_byte end) result }
{
    let Run { value, count } = run_at(text, at, 10, 10);
    if count == 0 {
        return None;
    }
    if *text.get(at + count)? != byte(end) {
        return None;
    }
    let is_long = 1 < count;
    if is_long && text[at] == b'0' {
        return None;
    }
    Some(Taken {
        value: u32::try_from(value).ok()?,
        next: at + count + 1,
    })
}
