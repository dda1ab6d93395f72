// The lengths of all sides, by their bits, once for both rules that read them.
ghost use Rattle.std.specs.Prelude.{◌≡◌, ◌+◌, ◌*◌, ◌/◌, ◌≤◌, ◌<◌, length};
ghost use Rattle.std.specs.Float.Ieee as Ieee;
ghost use Rattle.std.specs.Float.{binary32};
ghost use Rattle.words.specs.inner.Regions.{Filled};
ghost use Rattle.filter.specs.Input.{length_between};
ghost use Rattle.filter.specs.inner.Layout.{lengths_at};
ghost use Rattle.filter.specs.inner.Steps.{side_word};

use crate::checked::Checked;
use crate::layout::LENGTHS;
use measure::inner::{length, word_of};

impl Checked<'_> {
    // The length from corner a to corner b, as a word.
    #[tactic(auto, unfolding(crate::specs::Input::length_between))]
    fn length_word(self, a: usize, b: usize) -> u32
        requires { (a < length self.corners.x.now) × (b < length self.corners.x.now) }
        ensures { result ≡ Ieee.to_bits binary32 (length_between self.entry.corners.x.now self.entry.corners.y.now a b) }
    {
        let x = self.corners.x;
        let y = self.corners.y;
        word_of(length(x[b] - x[a], y[b] - y[a]))
    }

    // The length of side e, counted through the whole list.
    #[tactic(auto, using(crate::proofs::Sides::side_ends))]
    fn side_word(self, e: usize) -> u32
        requires { e < length self.quads.now }
        ensures { result ≡ side_word self.entry.corners.x.now self.entry.corners.y.now self.entry.quads.now e }
    {
        let a = self.quads[e] as usize;
        let b = self.quads[4 * (e / 4) + (e + 1) % 4] as usize;
        self.length_word(a, b)
    }

    pub(crate) fn write_lengths(self, work: &mut [u32])
        requires { lengths_at (length self.quads.now / 4) + length self.quads.now ≤ length work.old }
        ensures { Filled work.old work.new (lengths_at (length self.entry.quads.now / 4)) (length self.entry.quads.now) (length self.entry.quads.now)
            (side_word self.entry.corners.x.now self.entry.corners.y.now self.entry.quads.now) }
    {
        let at = LENGTHS * (self.quads.len() / 4);
        for e in 0..self.quads.len() {
            work[at + e] = self.side_word(e);
        }
    }
}
