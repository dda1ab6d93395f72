// The second rule: quads whose opposing sides are uneven.
ghost use Rattle.std.specs.Prelude.{◌≡◌, ◌+◌, ◌*◌, ◌/◌, ◌≤◌, length};
ghost use Rattle.words.specs.inner.Regions.{Filled};
ghost use Rattle.filter.specs.inner.Layout.{lengths_at};
ghost use Rattle.filter.specs.Opposing.{greater_of, lesser_of, raised, side_ratio, uneven};
ghost use Rattle.filter.specs.inner.Steps.{length_in, skew_mark};

use crate::checked::Checked;
use crate::standing::Standing;

// A lesser side below this is taken for it.
const TINY: f32 = 0.000001;

// The next three are not `max` and `min`: those pass over a NaN, and which of 0 and -0 they answer is left open.
#[tactic(auto, unfolding(crate::specs::Opposing::greater_of))]
fn greater(a: f32, b: f32) -> f32
    ensures { result ≡ greater_of a b }
{
    if a > b { a } else { b }
}

#[tactic(auto, unfolding(crate::specs::Opposing::lesser_of))]
fn lesser(a: f32, b: f32) -> f32
    ensures { result ≡ lesser_of a b }
{
    if a < b { a } else { b }
}

#[tactic(auto, using(crate::proofs::Literal::tiny_bits), unfolding(crate::specs::Opposing::raised))]
fn raise(m: f32) -> f32
    ensures { result ≡ raised m }
{
    if m < TINY { TINY } else { m }
}

// The lesser alone is raised.
#[tactic(auto, unfolding(crate::specs::Opposing::side_ratio))]
fn ratio(a: f32, b: f32) -> f32
    ensures { result ≡ side_ratio a b }
{
    greater(a, b) / raise(lesser(a, b))
}

impl Standing<'_> {
    #[tactic(auto, unfolding(crate::specs::Opposing::uneven))]
    fn is_uneven(self, limit: f32) -> bool
        ensures { result ≡ uneven limit (length_in self.entry.work.now self.entry.n self.entry.q) }
    {
        let first = ratio(self.length(0), self.length(2));
        let second = ratio(self.length(1), self.length(3));
        !(greater(first, second) <= limit)
    }

    #[tactic(auto, using(std::proofs::lemmas::Bool::Decides::nat_tests), unfolding(crate::specs::inner::Steps::skew_mark))]
    fn skew_mark(self, limit: f32) -> u32
        ensures { result ≡ skew_mark limit self.entry.work.now self.entry.n self.entry.q }
    {
        let mark = self.work[self.q];
        if mark == 0 && self.is_uneven(limit) {
            2
        } else {
            mark
        }
    }
}

impl Checked<'_> {
    // The marks of the first two rules; for its likeness to `mark_sizes` see there.
    pub(crate) fn mark_skewed(self, work: &mut [u32])
        requires { let n = length self.quads.now / 4 in lengths_at n + 4 * n ≤ length work.old }
        ensures { let n = length self.entry.quads.now / 4 in Filled work.old work.new 0 n n (skew_mark self.entry.params.ratio work.old n) }
    {
        let n = self.quads.len() / 4;
        for q in 0..n {
            work[q] = Standing { work, n, q }.skew_mark(self.params.ratio);
        }
    }
}
