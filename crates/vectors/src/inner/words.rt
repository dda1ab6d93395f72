// A text of words, read one after the other, and its lists, read to the front of arrays.
ghost use Rattle.std.specs.Prelude.{◌≡◌, ℕ, ◌≤◌, length};
ghost use Rattle.vectors.specs.Hex.{word_at};
ghost use Rattle.vectors.specs.inner.Lists.{after_of, length_at, element_at, next_at, Laid, Front, KindAt, BytesAt};

use crate::inner::list::{FromWord, after, element, head_at};
use crate::word_at;

// The words of a text, each eight digits and a byte behind them, from a place on, which is in the text or at its end.
#[derive(Drop)]
pub struct Words<'a> {
    text: &'a [u8],
    at: usize,
    ghost within: { at ≤ length text.now },
}

impl<'a> Words<'a> {
    // From a place on.
    pub fn new(text: &'a [u8], at: usize) -> Words<'a>
        requires { at ≤ length text.now }
        ensures { (result.text.now ≡ text.now) × (result.at ≡ at) }
    {
        Words { text, at }
    }

    // Goes on by so many words, and no further than to the text's end.
    pub fn skip(&mut self, count: usize)
        ensures on { (self.new.text.now ≡ self.old.text.now) × (self.new.at ≡ after_of self.old.text.now self.old.at count) }
        ensures onward { self.old.at ≤ self.new.at }
    {
        self.at = after(self.text, self.at, count);
    }

    // The word at the place; goes on behind it.
    pub fn word(&mut self) -> u32
        ensures word { result ≡ word_at self.old.text.now self.old.at }
        ensures on { (self.new.text.now ≡ self.old.text.now) × (self.new.at ≡ after_of self.old.text.now self.old.at 1) }
        ensures onward { self.old.at ≤ self.new.at }
    {
        let word = word_at(self.text, self.at);
        self.skip(1);
        word
    }

    // The kind of the case at the place, a word; goes on behind it. None where the text ends before the word does.
    #[tactic(auto, unfolding(crate::specs::inner::Lists::after_of))]
    pub fn kind(&mut self) -> Option<u32>
        ensures text { self.new.text.now ≡ self.old.text.now }
        ensures kind { KindAt self.old.text.now self.old.at self.new.at result }
    {
        if self.text.len() - self.at < 9 {
            return None;
        }
        Some(self.word())
    }

    // So many bytes at the place; goes on behind them and a line feed. None where the text ends before that does.
    pub fn bytes(&mut self, size: usize) -> Option<&'a [u8]>
        ensures text { self.new.text.now ≡ self.old.text.now }
        ensures bytes { BytesAt self.old.text.now self.old.at size self.new.at result }
    {
        if self.text.len() - self.at <= size {
            return None;
        }
        let end = self.at + size;
        let bytes = &self.text[self.at..end];
        self.at = end + 1;
        Some(bytes)
    }

    // Reads the list at the place to the front of an array, and goes on behind it; answers its length.
    pub fn fill<T: FromWord>(&mut self, out: &mut [T]) -> usize
        ensures is { (result ≡ length_at self.old.text.now self.old.at (length out.old)) × Laid T.blank out.old out.new result (λ (k : ℕ). T.of (element_at self.old.text.now self.old.at (length out.old) k)) }
        ensures on { (self.new.text.now ≡ self.old.text.now) × (self.new.at ≡ next_at self.old.text.now self.old.at (length out.old)) }
        ensures within { Front result out.new }
        ensures onward { self.old.at ≤ self.new.at }
    {
        let head = head_at(self.text, self.at, out.len());
        for i in 0..head.length {
            out[i] = T::from_word(element(self.text, head, i));
        }
        self.at = head.start + 9 * head.given;
        head.length
    }
}
