// The sorts of line, and the fields of each: of which kind they are, and how a field of a kind is read.
ghost use Rattle.std.specs.Prelude.{◌≡◌};
ghost use Rattle.digits.specs.Taken.{end_byte};
ghost use Rattle.gridtext.specs.inner.Rows.{letter_of, kinds_of, size_of, found_of, PairAt, FieldAt};

use crate::inner::room;
use digits::{End, Taken};
use mesh::inner::twins::NO_TWIN;

// The sorts of line: the P line without the rule's number and with it, a C line, a T line.
#[derive(Clone, Copy)]
pub(crate) enum Sort {
    Params,
    Ruled,
    Corner,
    Triangle,
}

// The kinds of field: a float's hex digits, a decimal number, a spread and a twin; a minus can stand for the last two.
#[derive(Clone, Copy)]
pub(crate) enum Kind {
    Hex,
    Decimal,
    Spread,
    Twin,
}

// The words that a field gives: one, or a mark and a spread, as the lists of words have them, which C lends.
#[derive(Drop)]
pub(crate) enum Few {
    One(u32),
    Two(u32, u32),
}

// The fields of a P line with the rule's number, of a C line and of a T line.
const RULED: [Kind; 8] = [
    Kind::Hex,
    Kind::Hex,
    Kind::Hex,
    Kind::Hex,
    Kind::Hex,
    Kind::Decimal,
    Kind::Decimal,
    Kind::Decimal,
];

const CORNER: [Kind; 6] = [
    Kind::Hex,
    Kind::Hex,
    Kind::Hex,
    Kind::Spread,
    Kind::Hex,
    Kind::Spread,
];

const TRIANGLE: [Kind; 6] = [
    Kind::Decimal,
    Kind::Decimal,
    Kind::Decimal,
    Kind::Twin,
    Kind::Twin,
    Kind::Twin,
];

// The letter that a line begins with.
pub(crate) fn letter(sort: Sort) -> u8
    ensures { result ≡ letter_of sort }
{
    match sort {
        Sort::Params | Sort::Ruled => b'P',
        Sort::Corner => b'C',
        Sort::Triangle => b'T',
    }
}

// The kinds of its fields.
pub(crate) fn kinds(sort: Sort) -> &'static [Kind]
    ensures { result.now ≡ kinds_of sort }
{
    match sort {
        Sort::Params => &RULED[..RULED.len() - 1],
        Sort::Ruled => &RULED,
        Sort::Corner => &CORNER,
        Sort::Triangle => &TRIANGLE,
    }
}

// How many words it gives.
pub(crate) fn size(sort: Sort) -> usize
    ensures { result ≡ size_of sort }
{
    match sort {
        Sort::Params => 7,
        Sort::Ruled => 8,
        Sort::Corner => room::CORNER_SIZE,
        Sort::Triangle => room::TRIANGLE_SIZE,
    }
}

// Whether two bytes stand at `at`.
pub(crate) fn pair_at(text: &[u8], at: usize, first: u8, second: u8) -> bool
    ensures { PairAt text.now at first second result }
{
    at <= text.len() && text[at..].starts_with(&[first, second])
}

// A word that was taken, as a field of one word. This and `marked_word`, `spread_at` and `twin_at`, are told by their own fields: one
// function over what makes a field would have to say in its clauses what a closure makes.
fn one_word(taken: Option<Taken<u32>>) -> Option<(Few, usize)>
    ensures { result ≡ found_of Few.One taken }
{
    let word = taken?;
    Some((Few::One(word.value), word.next))
}

// A word that was taken, as a spread: the mark 1 says that it is there.
fn marked_word(taken: Option<Taken<u32>>) -> Option<(Few, usize)>
    ensures { result ≡ found_of (Few.Two 1) taken }
{
    let word = taken?;
    Some((Few::Two(1, word.value), word.next))
}

// A spread from `at` on, then the end: a minus where it is missing, or else a float.
#[tactic(auto, using(crate::proofs::Fields::spread_field, crate::proofs::Fields::no_spread))]
fn spread_at(text: &[u8], at: usize, end: End) -> Option<(Few, usize)>
    ensures { FieldAt Kind.Spread text.now at (end_byte end) result }
{
    if pair_at(text, at, b'-', digits::byte(end)) {
        return Some((Few::Two(0, 0), at + 2));
    }
    marked_word(digits::hex_at(text, at, end))
}

// A twin from `at` on, then the end: a minus where there is none, or else a number.
#[tactic(auto, using(crate::proofs::Fields::twin_field, crate::proofs::Fields::no_twin_lem))]
fn twin_at(text: &[u8], at: usize, end: End) -> Option<(Few, usize)>
    ensures { FieldAt Kind.Twin text.now at (end_byte end) result }
{
    if pair_at(text, at, b'-', digits::byte(end)) {
        return Some((Few::One(NO_TWIN), at + 2));
    }
    one_word(digits::decimal_at(text, at, end))
}

// A field of the kind from `at` on, then the end.
#[tactic(auto, using(crate::proofs::Fields::hex_field, crate::proofs::Fields::decimal_field))]
pub(crate) fn field_at(text: &[u8], at: usize, kind: Kind, end: End) -> Option<(Few, usize)>
    ensures { FieldAt kind text.now at (end_byte end) result }
{
    match kind {
        Kind::Hex => one_word(digits::hex_at(text, at, end)),
        Kind::Decimal => one_word(digits::decimal_at(text, at, end)),
        Kind::Spread => spread_at(text, at, end),
        Kind::Twin => twin_at(text, at, end),
    }
}
