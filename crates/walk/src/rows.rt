// Rows of a component at the front of the workspace, a word each: the least and the greatest x of a row's records.
// The caller clears the words first, which are the workspace's: 0 is a row without records, and no x lies between its two halves.
ghost use Rattle.std.specs.Prelude.{◌≡◌, cond, ℕ, ◌+◌, ◌-◌, ◌≤◌, ◌<◌, length, get_or, set};
ghost use Rattle.cells.specs.Sums.{how_many};
ghost use Rattle.walk.specs.inner.Rows.{noted_of, tells_around};

use laying::inner::layout::KEYS;

// A row's word with one record more, whose x is no less than those before.
fn noted(word: u32, x: u32) -> u32
    requires { x < 32768 }
    ensures { result ≡ noted_of word x }
{
    if word == 0 {
        return x * KEYS + x;
    }
    word / KEYS * KEYS + x
}

// One record more in a row.
pub(crate) fn note(work: &mut [u32], row: usize, x: u32)
    requires { (row < length work.old) × (x < 32768) }
    ensures { work.new ≡ set work.old row (noted_of (get_or work.old row 0) x) }
{
    work[row] = noted(work[row], x);
}

// 1 where a row has records on both sides of x, as `rows_around` adds it up.
fn around(word: u32, x: u32) -> u32
    ensures { (result ≡ cond (tells_around word x) 1 0) × (result ≤ 1) }
{
    let least = word / KEYS;
    let greatest = word % KEYS;
    u32::from(least < x && x < greatest)
}

// How many rows from `from` up to `to` have records on both sides of x.
pub(crate) fn rows_around(work: &[u32], from: usize, to: usize, x: u32) -> u32
    requires { (to ≤ length work.now) × (to ≤ 32768) }
    ensures { (result ≡ how_many (λ (j : ℕ). tells_around (get_or work.now (from + j) 0) x) (to - from)) × (result ≤ 32768) }
{
    let mut count = 0u32;
    for row in from..to {
        count += around(work[row], x);
    }
    count
}
