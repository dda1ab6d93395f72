// A run of lines of a sort, with their words laid one after the other in a list.
ghost use Rattle.std.specs.Prelude.{◌*◌, ◌≤◌, length};
ghost use Rattle.gridtext.specs.inner.Rows.{size_of};
ghost use Rattle.gridtext.specs.inner.Read.{LinesAt};

use crate::inner::{line, room, row};
use row::Sort;

// How many lines were read, and where the text goes on.
#[derive(Drop)]
pub(crate) struct Run {
    pub count: usize,
    pub next: usize,
}

// The lines of the sort from `at` on, as many as there are, and no more than `most`. Inlined for `line_at`'s sake.
#[inline(always)]
pub(crate) fn lines_at(text: &[u8], at: usize, sort: Sort, most: usize, out: &mut [u32]) -> Run
    requires { (at ≤ length text.now) × (most * size_of sort ≤ length out.old) }
    ensures { LinesAt sort most text.now at out.old out.new result.count result.next }
{
    let size = row::size(sort);
    let mut words = [0u32; room::MOST_WORDS];
    let mut next = at;
    for count in 0..most {
        let Some(after) = line::line_at(text, next, sort, &mut words) else {
            return Run { count, next };
        };
        let place = count * size;
        out[place..place + size].copy_from_slice(&words[..size]);
        next = after;
    }
    Run { count: most, next }
}
