// The stage without its checks: the marks; their count and the quads kept, for the call; the quads kept in place, for a frame.
ghost use Rattle.std.specs.Prelude.{◌≡◌, ◌++◌, ℕ, ◌+◌, ◌*◌, ◌/◌, ◌≤◌, length, get_or, drop};
ghost use Rattle.words.specs.Sorting.{equal};
ghost use Rattle.quads.specs.Call.{words_of};
ghost use Rattle.mesh.specs.Lists.{quad_words};
ghost use Rattle.filter.specs.Input.{given};
ghost use Rattle.filter.specs.Marks.{quad_at, kept_to};
ghost use Rattle.filter.specs.inner.Steps.{Sound, Judged};

use crate::FilterParams;
use crate::checked::Checked;
use mesh::Positions;
use quads::Quad;
use quads::inner::store;

// One word per quad at the front of the workspace: 0 kept, 1, 2 or 3 dropped by that rule. `filter_quads` and a frame show what is asked
// by their rows. The marks are no enum: they are words of a lent list, and all that is asked of one is whether it is 0.
pub fn mark_quads(corners: Positions<'_>, quads: &[u32], params: FilterParams, work: &mut [u32])
    requires { Sound (given corners quads params) × (quad_words (length quads.now / 4) (length corners.x.now) ≤ length work.old) }
    ensures { Judged (given corners.entry quads.entry params) work.old work.new }
{
    let checked = Checked {
        corners,
        quads,
        params,
    };
    checked.mark_crowded(work);
    checked.write_lengths(work);
    checked.mark_skewed(work);
    checked.mark_off_size(work);
}

// How many of the first n marks keep their quad. `filter_quads` shows by row 8 that the workspace has so many words.
pub(crate) fn count_kept(work: &[u32], n: usize) -> usize
    requires { n ≤ length work.now }
    ensures { result ≡ equal (λ (q : ℕ). get_or work.now q 0) n 0 }
{
    work[..n].iter().filter(|m| **m == 0).count()
}

fn quad_at(quads: &[u32], q: usize) -> Quad
    requires { 4 * q + 4 ≤ length quads.now }
    ensures { result ≡ quad_at quads.now q }
{
    Quad {
        a: quads[4 * q],
        b: quads[4 * q + 1],
        c: quads[4 * q + 2],
        d: quads[4 * q + 3],
    }
}

// The quads whose mark is 0 at the front of a list of their own. `filter_quads` shows the room by row 9.
// `keep_marked` has this loop over one list that it reads and writes: a loop for both would take the store as a closure, whose contract
// would be what the loop keeps, which is no plainer. `at` goes by the quads that are kept, not by those that are read.
pub(crate) fn write_kept(quads: &[u32], work: &[u32], kept: &mut [u32])
    requires marks { length quads.now / 4 ≤ length work.now }
    requires room { 4 * length (kept_to quads.now (λ (q : ℕ). get_or work.now q 0) (length quads.now / 4)) ≤ length kept.old }
    ensures { let left = kept_to quads.now (λ (q : ℕ). get_or work.now q 0) (length quads.now / 4) in kept.new ≡ words_of left ++ drop (4 * length left) kept.old }
{
    let mut at = 0;
    for q in 0..quads.len() / 4 {
        if work[q] == 0 {
            store(kept, at, quad_at(quads, q));
            at += 4;
        }
    }
}

// Of the first n quads those whose mark is 0, moved to the front of the same list; answers how many. None is written past the quad that is
// read, so those to come are as they were. A frame has made n quads in the list, and shows by row 8 that their marks are in the workspace.
pub fn keep_marked(quads: &mut [u32], work: &[u32], n: usize) -> usize
    requires { (4 * n ≤ length quads.old) × (n ≤ length work.now) }
    ensures { (result ≡ length (kept_to quads.old (λ (q : ℕ). get_or work.now q 0) n)) × (quads.new ≡ words_of (kept_to quads.old (λ (q : ℕ). get_or work.now q 0) n) ++ drop (4 * result) quads.old) }
{
    let mut at = 0;
    for q in 0..n {
        if work[q] == 0 {
            let quad = quad_at(quads, q);
            store(quads, at, quad);
            at += 4;
        }
    }
    at / 4
}
