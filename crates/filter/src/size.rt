// The third rule: quads of the wrong size in their group, by the median of the group's sides.
ghost use Rattle.std.specs.Prelude.{◌≡◌, ℕ, ◌+◌, ◌*◌, ◌/◌, ◌≤◌, ◌<◌, length, get_or};
ghost use Rattle.words.specs.inner.Order.{word_of};
ghost use Rattle.words.specs.inner.Regions.{Filled};
ghost use Rattle.cells.specs.inner.Table.{groups_at};
ghost use Rattle.mesh.specs.Lists.{most_quads};
ghost use Rattle.filter.specs.inner.Layout.{records_at, lengths_at, medians_at};
ghost use Rattle.filter.specs.Size.{has_least, has_greatest, is_skipped, off_side, off_size};
ghost use Rattle.filter.specs.inner.Steps.{length_in, median_in, size_mark, Recorded, Gathered, Rising, Run, Centred, Weighed, Sized};

use crate::FilterParams;
use crate::checked::Checked;
use crate::layout::{GATHERED, LENGTHS, MEDIANS, ORDERING, RECORDS};
use crate::standing::Standing;
use cells::inner::groups;
use measure::inner::{float_of, is_finite};
use words::inner::order::{order_by_group, put};
use words::inner::select::middle_word;

// A record for every quad: its number and its group.
#[tactic(auto, using(crate::proofs::Records::recorded_more))]
fn write_records(work: &mut [u32], n: usize)
    requires { (records_at n + 2 * n ≤ length work.old) × (n ≤ most_quads) }
    ensures { Recorded n n work.old work.new }
{
    for q in 0..n {
        let group = work[n + q];
        put(work, RECORDS * n + 2 * q, q as u32, group);
    }
}

// The lengths of all sides, in the order of the records of their quads.
fn gather_lengths(work: &mut [u32], n: usize)
    requires n_in_bounds { lengths_at n + 4 * n ≤ length work.old }
    requires by_index { (k : ℕ) → k < n → word_of work.old (records_at n) 0 k < n }
    ensures { Gathered n work.old work.new }
{
    for e in 0..4 * n {
        let q = work[RECORDS * n + 2 * (e / 4)] as usize;
        work[GATHERED * n + e] = work[LENGTHS * n + (4 * q + e % 4)];
    }
}

// Where the run of one group that begins at record s ends, of n records by group. A loop: what it has passed is `Run` itself, which of `find`
// had to be gathered from what its closure told.
fn run_end(work: &[u32], n: usize, s: usize) -> usize
    requires s_lt_n { (s < n) × (records_at n + 2 * n ≤ length work.now) }
    requires rising { Rising n work.now }
    requires by_index { (k : ℕ) → k < s → word_of work.now (records_at n) 1 k < word_of work.now (records_at n) 1 s }
    ensures { Run (word_of work.now (records_at n) 1) n s result }
{
    let group = work[RECORDS * n + 2 * s + 1];
    for e in s + 1..n {
        if work[RECORDS * n + 2 * e + 1] != group {
            return e;
        }
    }
    n
}

// Each group's median: the middle one of its run's lengths, which are divided where they stand.
fn write_medians(work: &mut [u32], n: usize)
    requires n_in_bounds { medians_at n + n ≤ length work.old }
    requires rising { Rising n work.old }
    ensures { Centred n n work.old work.new }
{
    let mut s = 0;
    // no `for`: a run begins where the one before it ends
    while s < n {
        let e = run_end(work, n, s);
        let group = work[RECORDS * n + 2 * s + 1] as usize;
        let median = middle_word(&mut work[GATHERED * n + 4 * s..GATHERED * n + 4 * e]);
        work[MEDIANS * n + group] = median;
        s = e;
    }
}

impl FilterParams {
    #[tactic(auto, using(crate::proofs::Literal::zero_bits), unfolding(crate::specs::Size::has_least))]
    fn has_least(self) -> bool
        ensures { result ≡ has_least self }
    {
        self.least > 0.0
    }

    #[tactic(auto, unfolding(crate::specs::Size::has_greatest))]
    fn has_greatest(self) -> bool
        ensures { result ≡ has_greatest self }
    {
        is_finite(self.greatest)
    }

    // Whether the rule is skipped.
    #[tactic(auto, unfolding(crate::specs::Size::is_skipped))]
    fn is_skipped(self) -> bool
        ensures { result ≡ is_skipped self }
    {
        !self.has_least() && !self.has_greatest()
    }

    // A side against its group's median.
    #[tactic(auto, unfolding(crate::specs::Size::off_side))]
    fn is_off_side(self, median: f32, side: f32) -> bool
        ensures { result ≡ off_side self median side }
    {
        self.has_least() && side < self.least * median
            || self.has_greatest() && side > self.greatest * median
    }
}

impl Standing<'_> {
    // The four sides against a median.
    fn is_off_size(self, params: FilterParams, median: f32) -> bool
        ensures { result ≡ off_size params median (length_in self.entry.work.now self.entry.n self.entry.q) }
    {
        median != 0.0 && (0..4).any(|k| params.is_off_side(median, self.length(k)))
    }

    // The median of its group.
    #[tactic(auto, unfolding(crate::specs::inner::Steps::median_in))]
    fn median(self) -> f32
        requires { (medians_at self.n + self.n ≤ length self.work.now) × (get_or self.work.now (groups_at self.n + self.q) 0 < self.n) }
        ensures { result ≡ median_in self.entry.work.now self.entry.n self.entry.q }
    {
        float_of(self.work[MEDIANS * self.n + self.work[self.n + self.q] as usize])
    }

    // `skew_mark` with another number and test, each in the words of its own definition.
    #[tactic(auto, using(std::proofs::lemmas::Bool::Decides::nat_tests), unfolding(crate::specs::inner::Steps::size_mark))]
    fn size_mark(self, params: FilterParams) -> u32
        requires { (medians_at self.n + self.n ≤ length self.work.now) × (get_or self.work.now (groups_at self.n + self.q) 0 < self.n) }
        ensures { result ≡ size_mark params self.entry.work.now self.entry.n self.entry.q }
    {
        let mark = self.work[self.q];
        if mark == 0 && self.is_off_size(params, self.median()) {
            3
        } else {
            mark
        }
    }
}

impl Checked<'_> {
    // The marks of all three rules. The sweep is that of `mark_skewed` but for the rule: given as a closure, it would have to promise that
    // it reads nothing of the marks before.
    fn mark_sizes(self, work: &mut [u32])
        requires n_in_bounds { let n = length self.quads.now / 4 in medians_at n + n ≤ length work.old }
        requires by_index { let n = length self.quads.now / 4 in (q : ℕ) → q < n → get_or work.old (groups_at n + q) 0 < n }
        ensures { let n = length self.entry.quads.now / 4 in Filled work.old work.new 0 n n (size_mark self.entry.params work.old n) }
    {
        let n = self.quads.len() / 4;
        for q in 0..n {
            work[q] = Standing { work, n, q }.size_mark(self.params);
        }
    }

    // The groups of the quads left, and the median of each group's sides.
    fn write_groups(self, work: &mut [u32])
        requires { let n = length self.quads.now / 4 in medians_at n + n ≤ length work.old }
        ensures { Weighed self.entry.quads.now (length self.entry.quads.now / 4) work.old work.new }
    {
        let n = self.quads.len() / 4;
        groups(self.quads, 4, n, work);
        write_records(work, n);
        order_by_group(work, RECORDS * n, ORDERING * n, n);
        gather_lengths(work, n);
        write_medians(work, n);
    }

    // The third rule's marks beside those of the first two.
    pub(crate) fn mark_off_size(self, work: &mut [u32])
        requires { let n = length self.quads.now / 4 in medians_at n + n ≤ length work.old }
        ensures { Sized self.entry.params self.entry.quads.now (length self.entry.quads.now / 4) work.old work.new }
    {
        if self.params.is_skipped() {
            return;
        }
        self.write_groups(work);
        self.mark_sizes(work);
    }
}
