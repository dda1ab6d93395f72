// The quads of a walk: `count` quads of four distinct corners below `span`, no more of them than `span`; a value of `Sheet` is so by its
// type. Corners are counted round, and the sense of a side goes by its ends.
ghost use Rattle.std.specs.Prelude.{◌≡◌, ◌*◌, ◌<◌};
ghost use Rattle.cells.specs.Cells.{cell};
ghost use Rattle.laying.specs.inner.Layout.{Given, sense};

#[derive(Clone, Copy, Debug)]
pub struct Sheet<'a> {
    pub quads: &'a [u32],
    pub span: usize,
    pub count: usize,
    pub ghost given: { Given span quads.now count },
}

impl Sheet<'_> {
    // Corner k of quad q.
    pub fn corner(self, q: usize, k: usize) -> usize
        requires { q < self.count }
        ensures { (result ≡ cell 4 self.entry.quads.now q k) × (result < self.entry.span) }
    {
        self.quads[4 * q + k % 4] as usize
    }

    // 1 for a side that runs from its lower to its higher corner, 2 for another: a word of the lent workspace, in which 0 is none.
    pub fn sense(self, e: usize) -> u32
        requires { e < 4 * self.count }
        ensures { result ≡ sense self.entry.quads.now e }
    {
        if self.corner(e / 4, e) < self.corner(e / 4, e + 1) {
            1
        } else {
            2
        }
    }
}
