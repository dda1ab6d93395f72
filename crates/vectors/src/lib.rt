// What the programs that replay outside vectors share: words as eight upper-case hex digits, and how the line that tells a refusal begins.
// `inner` reads their files and writes their lines.
#![tactic(auto)]

ghost use Rattle.std.specs.Prelude.{◌≡◌, ◌+◌, ◌<◌, ◌≤◌, length};
ghost use Rattle.digits.specs.Digits.{digit_of, hex_of};
ghost use Rattle.vectors.specs.Hex.{value_of, four_at, word_at, field_of, refusal_front};

use refusal::Refusal;

pub mod inner;

// The value of a hex digit; any other byte counts as 0, since `word_at` takes any bytes for digits.
fn value(digit: u8) -> u32
    ensures { (result ≡ value_of digit) × (result < 16) }
{
    digits::inner::value(digit).unwrap_or(0)
}

fn four_at(text: &[u8], at: usize) -> u32
    requires { at + 4 ≤ length text.now }
    ensures { (result ≡ four_at text.now at) × (result < 65536) }
{
    let high = value(text[at]) * 16 + value(text[at + 1]);
    (high * 16 + value(text[at + 2])) * 16 + value(text[at + 3])
}

// The word that eight digits spell; 0 where the text ends before the last of them. It takes a text and a place, as its definition does:
// `Words` is made of it.
pub fn word_at(text: &[u8], at: usize) -> u32
    ensures { result ≡ word_at text.now at }
{
    if text.len() < 8 || text.len() - 8 < at {
        return 0;
    }
    four_at(text, at) * 65536 + four_at(text, at + 4)
}

fn digit(value: u32) -> u8
    requires { value < 16 }
    ensures { result ≡ digit_of value }
{
    if value < 10 {
        b'0' + value as u8
    } else {
        b'A' + (value - 10) as u8
    }
}

// The eight digits of a word, one by one as `hex_of` has them; `format!` needs a heap.
pub fn hex(word: u32) -> [u8; 8]
    ensures { (result ≡ hex_of word) × (8 ≡ length result) }
{
    [
        digit(word / 0x1000_0000 % 16),
        digit(word / 0x100_0000 % 16),
        digit(word / 0x10_0000 % 16),
        digit(word / 0x1_0000 % 16),
        digit(word / 0x1000 % 16),
        digit(word / 0x100 % 16),
        digit(word / 0x10 % 16),
        digit(word % 16),
    ]
}

// A blank and the eight digits of a word.
pub(crate) fn field(word: u32) -> [u8; 9]
    ensures { (result ≡ field_of word) × (9 ≡ length result) }
{
    let mut field = [b' '; 9];
    field[1..].copy_from_slice(&hex(word));
    field
}

// The line that tells a refusal, up to what stands beside the place: its row and its place, each as eight digits.
pub fn refusal_front(why: Refusal) -> [u8; 25]
    ensures { (result ≡ refusal_front why) × (25 ≡ length result) }
{
    let row = hex(refusal::number(why));
    let place = hex(refusal::place(why));
    let mut front = *b"refused 00000000 00000000";
    front[8..16].copy_from_slice(&row);
    front[17..].copy_from_slice(&place);
    front
}
