// The elements of a list of a case, by its head, and words said over and over.
ghost use Rattle.std.specs.Prelude.{◌≡◌, ℕ, ◌+◌, ◌*◌, ◌≤◌, length, min};
ghost use Rattle.std.specs.Float.{nan, binary32};
ghost use Rattle.std.specs.Float.Ieee.{of_bits};
ghost use Rattle.vectors.specs.Hex.{word_at};
ghost use Rattle.vectors.specs.inner.Lists.{after_of, length_at, given_at, element_of, over_at, Laid, Front};

use crate::word_at;
use measure::inner::float_of;

// What a word of a text stands for in an array: itself, or the float whose bits it has.
pub trait FromWord: Copy {
    ghost of: { ℕ → Self };

    ghost blank: { Self };

    fn from_word(word: u32) -> Self
        ensures { result ≡ of word };
}

impl FromWord for u32 {
    ghost of = { λ word. word };

    ghost blank = { 0 };

    fn from_word(word: u32) -> u32 {
        word
    }
}

impl FromWord for f32 {
    ghost of = { of_bits binary32 };

    ghost blank = { nan };

    fn from_word(word: u32) -> f32 {
        float_of(word)
    }
}

// A list's head: its elements are the words from start on, and then the fill.
#[derive(Clone, Copy)]
pub(crate) struct Head {
    pub length: usize,
    pub given: usize,
    pub fill: u32,
    pub start: usize,
}

// Where the text goes on after so many words. This and the next two are what `Words` is made of, and take the text and a place.
#[tactic(auto, unfolding(crate::specs::inner::Lists::after_of))]
pub(crate) fn after(text: &[u8], at: usize, count: usize) -> usize
    requires { at ≤ length text.now }
    ensures { (result ≡ after_of text.now at count) × (at ≤ result) × (result ≤ length text.now) }
{
    if (text.len() - at) / 9 < count {
        text.len()
    } else {
        at + 9 * count
    }
}

#[tactic(auto, unfolding(crate::specs::inner::Lists::length_at, crate::specs::inner::Lists::given_at))]
pub(crate) fn head_at(text: &[u8], at: usize, room: usize) -> Head
    requires { at ≤ length text.now }
    ensures is { (result.length ≡ length_at text.now at room) × (result.given ≡ given_at text.now at room) × (result.start ≡ after_of text.now at 3) × (result.fill ≡ word_at text.now (at + 18)) }
    ensures within { (result.length ≤ room) × (at ≤ result.start) × (result.start + 9 * result.given ≤ length text.now) }
{
    let start = after(text, at, 3);
    let length = (word_at(text, at) as usize).min(room);
    let given = (word_at(text, at + 9) as usize).min(length);
    Head {
        length,
        given: given.min((text.len() - start) / 9),
        fill: word_at(text, at + 18),
        start,
    }
}

#[tactic(auto, unfolding(crate::specs::inner::Lists::element_of))]
pub(crate) fn element(text: &[u8], head: Head, i: usize) -> u32
    requires { head.start + 9 * head.given ≤ length text.now }
    ensures { result ≡ element_of text.now head.start head.given head.fill i }
{
    if i < head.given {
        word_at(text, head.start + 9 * i)
    } else {
        head.fill
    }
}

// Says the first words of a list over up to a length, or as far as there is room; answers how many words that is.
pub fn say_over(list: &mut [u32], given: usize, words: u32) -> usize
    requires { given ≤ length list.old }
    ensures is { (result ≡ min words (length list.old)) × Laid 0 list.old list.new result (over_at list.old given) }
    ensures within { Front result list.new }
{
    let count = (words as usize).min(list.len());
    for i in given..count {
        list[i] = list[i - given];
    }
    count
}
