// The reader of a text, for a caller that lends lists with room for the most lines that a text may have; in `label`, the labelling of the
// frame read; in `print`, the answer as text; and in `room`, the sizes of all lists.
ghost use Rattle.std.specs.Prelude.{◌≡◌, ◌*◌, ◌≤◌, length};
ghost use Rattle.gridtext.specs.inner.Read.{ParamsStanding, ParamsAt, Parses};
ghost use Rattle.gridtext.specs.inner.Rows.{corner_size, triangle_size, most_words};
ghost use Rattle.gridtext.specs.Text.{most_corner_lines, most_triangle_lines};

use crate::{BadLine, FrameRead};
use axis::SpreadRule;
use classify::EdgeParams;
use fates::LabelParams;
use filter::FilterParams;
use frame::Params;
use line::line_at;
use lines::lines_at;
use measure::inner::float_of;
use row::Sort;

pub mod label;
mod line;
mod lines;
pub mod print;
pub mod room;
mod row;
mod unpack;

// The parameters that the list begins with, a P line's: five floats by their bits, two numbers and the rule that counts.
fn params_of(words: &[u32; room::MOST_WORDS]) -> Params
    requires { length words.now ≡ most_words }
    ensures { ParamsStanding words.now result }
{
    let spread = SpreadRule {
        number: words[7],
        limit: float_of(words[4]),
    };
    Params {
        edges: EdgeParams {
            tolerance: float_of(words[0]),
            spread,
        },
        filters: FilterParams {
            ratio: float_of(words[1]),
            least: float_of(words[2]),
            greatest: float_of(words[3]),
        },
        labels: LabelParams {
            quads: words[5],
            corners: words[6],
        },
    }
}

// The P line that the text begins with; its parameters to the front of the list. A rule that is left out is rule 1.
#[tactic(auto, using(crate::proofs::Outcomes::plain_at, crate::proofs::Outcomes::ruled_at, crate::proofs::Runs::line_missing))]
fn params_at(text: &[u8], words: &mut [u32; room::MOST_WORDS]) -> Option<usize>
    ensures { ParamsAt text.now words.new result }
{
    let Some(next) = line_at(text, 0, Sort::Params, words) else {
        return line_at(text, 0, Sort::Ruled, words);
    };
    words[7] = 1;
    Some(next)
}

// Reads a text: the P line, then the C lines, then the T lines, each as far as they go or may; what follows them is the first bad line.
pub fn read(text: &[u8], corners: &mut [u32], triangles: &mut [u32]) -> Result<FrameRead, BadLine>
    requires { (most_corner_lines * corner_size ≤ length corners.old) × (most_triangle_lines * triangle_size ≤ length triangles.old) }
    ensures { Parses text.now corners.old corners.new triangles.old triangles.new result }
{
    let mut words = [0u32; room::MOST_WORDS];
    let at = params_at(text, &mut words).ok_or(BadLine { line: 1 })?;
    let c = lines_at(text, at, Sort::Corner, room::MOST_CORNER_LINES, corners);
    let t = lines_at(
        text,
        c.next,
        Sort::Triangle,
        room::MOST_TRIANGLE_LINES,
        triangles,
    );
    if t.next < text.len() {
        return Err(BadLine {
            line: (c.count + t.count + 2) as u32,
        });
    }
    Ok(FrameRead {
        params: params_of(&words),
        corners: c.count,
        triangles: t.count,
    })
}
