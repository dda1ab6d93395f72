// Kinds 6 and 9: the components of a whole frame, and their entries, by rule 1 or by the rule given.
ghost use Rattle.std.specs.Prelude.{◌≡◌, ◌≤◌};

use axis::{Axes, SpreadRule};
use classify::EdgeParams;
use fates::LabelParams;
use filter::FilterParams;
use frame::{Frame, Params, label_frame};
use measure::inner::float_of;
use mesh::Positions;
use std::io;
use std::io::Stdout;
use told::inner::{lend, write_told};
use vectors::inner::words::Words;

// The tolerance, the ratio, the least, the greatest, the spread limit, the least quads and the least corners.
fn params(words: &mut Words<'_>, rule: u32) -> Params
    ensures text { words.new.text.now ≡ words.old.text.now }
    ensures onward { words.old.at ≤ words.new.at }
{
    let tolerance = float_of(words.word());
    let filters = FilterParams {
        ratio: float_of(words.word()),
        least: float_of(words.word()),
        greatest: float_of(words.word()),
    };
    let spread = SpreadRule {
        number: rule,
        limit: float_of(words.word()),
    };
    let labels = LabelParams {
        quads: words.word(),
        corners: words.word(),
    };
    Params {
        edges: EdgeParams { tolerance, spread },
        filters,
        labels,
    }
}

// The lists that the call is lent, which end the case. All arrays are a little longer than the longest list of the vectors; no case at the
// limit of half-edges is answered, so that the workspace need not hold one.
fn label(
    out: &mut Stdout,
    words: &mut Words<'_>,
    frame: Frame<'_>,
    params: Params,
) -> io::Result<()>
    ensures text { words.new.text.now ≡ words.old.text.now }
    ensures onward { words.old.at ≤ words.new.at }
{
    let mut work = [0u32; 65712];
    let mut components = [0u32; 12300];
    let mut entries = [0u32; 49164];
    let lent = lend(words, &mut work, &mut components, &mut entries);
    let work = &mut work[..lent.work];
    let components = &mut components[..lent.components];
    let entries = &mut entries[..lent.entries];
    let answer = label_frame(frame, params, work, components, entries);
    write_told(out, answer, work, components, entries)?;
    Ok(())
}

// The parameters, the positions, the axes, two to a corner, and the half-edges; then the rest.
// The lists stand at the fronts of arrays, each with its length beside it: there is no heap.
pub(crate) fn replay(out: &mut Stdout, words: &mut Words<'_>, rule: u32) -> io::Result<()>
    ensures text { words.new.text.now ≡ words.old.text.now }
    ensures onward { words.old.at ≤ words.new.at }
{
    let params = params(words, rule);
    let mut x = [0.0f32; 4104];
    let mut y = [0.0f32; 4104];
    let mut angles = [0.0f32; 8208];
    let mut marks = [0u32; 8208];
    let mut spreads = [0.0f32; 8208];
    let mut triangles = [0u32; 24588];
    let mut twins = [0u32; 24588];
    let n_x = words.fill(&mut x);
    let n_y = words.fill(&mut y);
    let n_angles = words.fill(&mut angles);
    let n_marks = words.fill(&mut marks);
    let n_spreads = words.fill(&mut spreads);
    let n_triangles = words.fill(&mut triangles);
    let n_twins = words.fill(&mut twins);
    let corners = Positions {
        x: &x[..n_x],
        y: &y[..n_y],
    };
    let axes = Axes {
        angles: &angles[..n_angles],
        marks: &marks[..n_marks],
        spreads: &spreads[..n_spreads],
    };
    let frame = Frame {
        corners,
        axes,
        triangles: &triangles[..n_triangles],
        twins: &twins[..n_twins],
    };
    label(out, words, frame, params)
}
