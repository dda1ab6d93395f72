// The labels of the quads that are reached from a seed.
ghost use Rattle.std.specs.Prelude.{◌*◌, ◌≤◌, ◌<◌, length};
ghost use Rattle.laying.specs.inner.Layout.{Table, Blank, Unscanned};
ghost use Rattle.laying.specs.inner.Moves.{Planted};
ghost use Rattle.laying.specs.inner.Answers.{Labelled};

use crate::Clash;
use crate::inner::labels::to_word;
use crate::inner::sheet::Sheet;
use crate::settle::{Spot, place};
use crate::steps::run;

// The seed's four corners have their words, and it is marked and queued.
fn plant(sheet: Sheet<'_>, work: &mut [u32], seed: usize)
    requires seed_in { (seed < sheet.count) × (4 * sheet.span ≤ length work.old) }
    requires blank { Blank sheet.span sheet.count work.old × Unscanned sheet.span sheet.quads.now sheet.count seed work.old }
    ensures { let s = sheet.entry in Planted s.span s.quads.now s.count seed work.old work.new }
{
    let a = sheet.corner(seed, 0);
    let b = sheet.corner(seed, 1);
    let c = sheet.corner(seed, 2);
    let d = sheet.corner(seed, 3);
    let zero = to_word(0);
    let one = to_word(1);
    place(
        work,
        sheet.span,
        a,
        Spot { x: zero, y: zero },
        b,
        Spot { x: one, y: zero },
    );
    place(
        work,
        sheet.span,
        c,
        Spot { x: one, y: one },
        d,
        Spot { x: zero, y: one },
    );
    work[seed] = 1;
    work[sheet.span] = seed as u32;
}

// From a blank workspace: the labelling that fits from the seed, and how many quads are queued, or that there is none. Flags are left as
// the walk set them: a run is of one group alone.
pub fn label(sheet: Sheet<'_>, work: &mut [u32], seed: usize) -> Result<usize, Clash>
    requires seed_in { seed < sheet.count }
    requires table { Table sheet.span sheet.quads.now sheet.count work.old }
    requires blank { Blank sheet.span sheet.count work.old × Unscanned sheet.span sheet.quads.now sheet.count seed work.old }
    ensures { let s = sheet.entry in Labelled s.span s.quads.now s.count seed work.old work.new result }
{
    plant(sheet, work, seed);
    run(sheet, work, seed)
}
