// One line of a sort, taken from a text field by field. Readers take the text and a place, not the rest of it: those of `digits` do, and
// the contracts speak of places.
ghost use Rattle.std.specs.Prelude.{◌≡◌, ◌++◌, ◌+◌, ◌≤◌, length, take};
ghost use Rattle.digits.specs.Taken.{end_byte};
ghost use Rattle.gridtext.specs.inner.Rows.{most_words, list_of, end_after};
ghost use Rattle.gridtext.specs.inner.Read.{LineAt};

use crate::inner::{room, row};
use digits::End;
use row::{Few, Sort};

// What ends a field: a blank where others follow, and else the line feed.
fn end_of(others: usize) -> End
    ensures { end_byte result ≡ end_after others }
{
    if others == 0 { End::Feed } else { End::Blank }
}

// Puts a field's words after the first n; answers how many they are then.
fn put_words(few: Few, words: &mut [u32; room::MOST_WORDS], n: usize) -> usize
    requires { n + length (list_of few) ≤ most_words }
    ensures { (result ≡ n + length (list_of few)) × (take result words.new ≡ take n words.old ++ list_of few) }
{
    match few {
        Few::One(word) => {
            words[n] = word;
            n + 1
        }
        Few::Two(mark, word) => {
            words[n..n + 2].copy_from_slice(&[mark, word]);
            n + 2
        }
    }
}

// A line of the sort from `at` on; its words to the front of the list. Inlined, as `lines_at` is: each caller's sort then says the fields of
// a line, which is read by two thirds of the instructions.
#[inline(always)]
pub(crate) fn line_at(
    text: &[u8],
    at: usize,
    sort: Sort,
    words: &mut [u32; room::MOST_WORDS],
) -> Option<usize>
    ensures { LineAt sort text.now at words.new result }
{
    if !row::pair_at(text, at, row::letter(sort), b' ') {
        return None;
    }
    let kinds = row::kinds(sort);
    let mut next = at + 2;
    let mut n = 0;
    for (i, kind) in kinds.iter().enumerate() {
        let (few, after) = row::field_at(text, next, *kind, end_of(kinds.len() - 1 - i))?;
        n = put_words(few, words, n);
        next = after;
    }
    Some(next)
}
