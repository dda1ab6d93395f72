// The first rule: quads at crowded corners.
ghost use Rattle.std.specs.Prelude.{◌≡◌, ℕ, ◌+◌, ◌*◌, ◌/◌, ◌≤◌, ◌<◌, ltb, length, get_or};
ghost use Rattle.words.specs.Sorting.{one};
ghost use Rattle.filter.specs.inner.Layout.{incidence_at};
ghost use Rattle.filter.specs.Topology.{incidence, crowded};

use crate::checked::Checked;
use crate::layout::INCIDENCE;

// 1 for a corner whose incidence is illegal.
#[tactic(auto, unfolding(words::specs::Sorting::one))]
fn illegal_at(table: &[u32], c: u32) -> u32
    requires { c < length table.now }
    ensures { (result ≡ one (ltb 8 (get_or table.now c 0))) × (result ≤ 1) }
{
    let is_illegal = table[c as usize] > 8;
    u32::from(is_illegal)
}

impl Checked<'_> {
    // The incidence of each corner: 2 at each place that names it.
    fn count_incidence(self, table: &mut [u32])
        requires { length table.old ≡ length self.corners.x.now }
        ensures { (c : ℕ) → c < length table.old → get_or table.new c 0 ≡ incidence self.entry.quads.now c }
    {
        table.fill(0);
        for c in self.quads {
            table[*c as usize] += 2;
        }
    }

    // 1 for a quad with two illegal corners or more.
    fn crowd_mark(self, table: &[u32], q: usize) -> u32
        requires q_in_bounds { (4 * q + 4 ≤ length self.quads.now) × (length table.now ≡ length self.corners.x.now) }
        requires counts { (c : ℕ) → c < length table.now → get_or table.now c 0 ≡ incidence self.quads.now c }
        ensures { result ≡ one (crowded self.entry.quads.now q) }
    {
        let at = 4 * q;
        let first = illegal_at(table, self.quads[at]) + illegal_at(table, self.quads[at + 1]);
        let second = illegal_at(table, self.quads[at + 2]) + illegal_at(table, self.quads[at + 3]);
        u32::from(first + second >= 2)
    }

    fn write_crowds(self, table: &[u32], marks: &mut [u32])
        requires marks_len { (length marks.old ≡ length self.quads.now / 4) × (length table.now ≡ length self.corners.x.now) }
        requires counts { (c : ℕ) → c < length table.now → get_or table.now c 0 ≡ incidence self.quads.now c }
        ensures { (q : ℕ) → q < length marks.old → get_or marks.new q 0 ≡ one (crowded self.entry.quads.now q) }
    {
        for (q, mark) in marks.iter_mut().enumerate() {
            *mark = self.crowd_mark(table, q);
        }
    }

    // The marks of the first rule, at the front of the workspace.
    pub(crate) fn mark_crowded(self, work: &mut [u32])
        requires { incidence_at (length self.quads.now / 4) + length self.corners.x.now ≤ length work.old }
        ensures len { length work.new ≡ length work.old }
        ensures marks { (q : ℕ) → q < length self.entry.quads.now / 4 → get_or work.new q 0 ≡ one (crowded self.entry.quads.now q) }
    {
        let n = self.quads.len() / 4;
        let (front, behind) = work.split_at_mut(INCIDENCE * n);
        let table = &mut behind[..self.corners.x.len()];
        self.count_incidence(table);
        self.write_crowds(table, &mut front[..n]);
    }
}
