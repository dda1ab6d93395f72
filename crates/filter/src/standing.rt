// What stands in the workspace of one quad, read by the second rule and the third.
ghost use Rattle.std.specs.Prelude.{◌≡◌, ◌+◌, ◌*◌, ◌≤◌, ◌<◌, length};
ghost use Rattle.filter.specs.inner.Layout.{lengths_at};
ghost use Rattle.filter.specs.inner.Steps.{length_in};

use crate::layout::LENGTHS;
use measure::inner::float_of;

// Quad q of n.
#[derive(Clone, Copy)]
pub(crate) struct Standing<'a> {
    pub work: &'a [u32],
    pub n: usize,
    pub q: usize,
    ghost inside: { (q < n) × (lengths_at n + 4 * n ≤ length work.now) },
}

impl Standing<'_> {
    // The length of side k.
    #[tactic(auto, unfolding(crate::specs::inner::Steps::length_in))]
    pub(crate) fn length(self, k: usize) -> f32
        requires { k < 4 }
        ensures { result ≡ length_in self.entry.work.now self.entry.n self.entry.q k }
    {
        float_of(self.work[LENGTHS * self.n + (4 * self.q + k)])
    }
}
