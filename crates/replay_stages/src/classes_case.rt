// Kinds 2 and 8: the classes of a frame's half-edges, by rule 1 or by the rule given. Kind 10: their classes and fits, by the rule given.
ghost use Rattle.std.specs.Prelude.{◌≡◌, ◌≤◌};

use axis::{Axes, SpreadRule};
use classify::EdgeParams;
use measure::inner::{float_of, word_of};
use mesh::Positions;
use refusal::Refusal;
use std::io;
use std::io::{Stdout, Write};
use vectors::inner::runs::{write_refusal, write_runs};
use vectors::inner::words::Words;

// What a case gives to the call, beside the lists that the call writes.
#[derive(Clone, Copy)]
pub(crate) struct Given<'a> {
    corners: Positions<'a>,
    axes: Axes<'a>,
    triangles: &'a [u32],
    params: EdgeParams,
}

fn write_answer(out: &mut Stdout, answer: Result<(), Refusal>) -> io::Result<()> {
    match answer {
        Ok(()) => out.write_all(b"done\n"),
        Err(why) => {
            write_refusal(out, why)?;
            Ok(())
        }
    }
}

// The fits, by their bits.
fn write_fits(out: &mut Stdout, fits: &[f32]) -> io::Result<()> {
    let mut words = [0u32; 24580];
    let count = fits.len().min(words.len());
    for i in 0..count {
        words[i] = word_of(fits[i]);
    }
    write_runs(out, &words[..count])?;
    Ok(())
}

fn classify(
    out: &mut Stdout,
    given: Given<'_>,
    classes: &mut [u32],
    fits: &mut [f32],
) -> io::Result<()> {
    let answer = classify::classify_all_edges(
        given.corners,
        given.axes,
        given.triangles,
        given.params,
        classes,
        fits,
    );
    write_answer(out, answer)?;
    write_runs(out, classes)?;
    Ok(())
}

// The end of a case that tells no fits: the list lent for them is as long as the triangles', and is not written.
pub(crate) fn alone(
    out: &mut Stdout,
    _words: &mut Words<'_>,
    given: Given<'_>,
    classes: &mut [u32],
) -> io::Result<()>
    ensures text { _words.new.text.now ≡ _words.old.text.now }
    ensures onward { _words.old.at ≤ _words.new.at }
{
    let mut fits = [0.0f32; 24580];
    let n = given.triangles.len().min(fits.len());
    classify(out, given, classes, &mut fits[..n])
}

// The end of a case that tells the list of fits.
pub(crate) fn with_fits(
    out: &mut Stdout,
    words: &mut Words<'_>,
    given: Given<'_>,
    classes: &mut [u32],
) -> io::Result<()>
    ensures text { words.new.text.now ≡ words.old.text.now }
    ensures onward { words.old.at ≤ words.new.at }
{
    let mut fits = [0.0f32; 24580];
    let n = words.fill(&mut fits);
    classify(out, given, classes, &mut fits[..n])?;
    write_fits(out, &fits[..n])
}

// The tolerance and the spread limit.
fn params(words: &mut Words<'_>, rule: u32) -> EdgeParams
    ensures text { words.new.text.now ≡ words.old.text.now }
    ensures onward { words.old.at ≤ words.new.at }
{
    let tolerance = float_of(words.word());
    let spread = SpreadRule {
        number: rule,
        limit: float_of(words.word()),
    };
    EdgeParams { tolerance, spread }
}

// The parameters, the corners, the lists of axes, two to a corner, the lists of half-edges, and then what `end` reads.
// The lists stand at the fronts of arrays, each with its length beside it: there is no heap.
pub(crate) fn replay<F: Fn(&mut Stdout, &mut Words<'_>, Given<'_>, &mut [u32]) -> io::Result<()>>(
    out: &mut Stdout,
    words: &mut Words<'_>,
    rule: u32,
    end: F,
) -> io::Result<()>
    requires callable { F.IsAlwaysCallable end }
    requires moves_on { (o : _) (w : _) (g : _) (c : _) (r : _) (o' : _) (w' : _) (c' : _) → F.post end o w g c r o' w' c' → (w'.now.text.now ≡ w.now.text.now) × (w.now.at ≤ w'.now.at) }
    ensures text { words.new.text.now ≡ words.old.text.now }
    ensures onward { words.old.at ≤ words.new.at }
{
    let params = params(words, rule);
    let mut x = [0.0f32; 4097];
    let mut y = [0.0f32; 4097];
    let mut angles = [0.0f32; 8194];
    let mut marks = [0u32; 8194];
    let mut spreads = [0.0f32; 8194];
    let mut triangles = [0u32; 24580];
    let mut classes = [0u32; 24580];
    let n_x = words.fill(&mut x);
    let n_y = words.fill(&mut y);
    let n_angles = words.fill(&mut angles);
    let n_marks = words.fill(&mut marks);
    let n_spreads = words.fill(&mut spreads);
    let n_triangles = words.fill(&mut triangles);
    let n_classes = words.fill(&mut classes);
    let given = Given {
        corners: Positions {
            x: &x[..n_x],
            y: &y[..n_y],
        },
        axes: Axes {
            angles: &angles[..n_angles],
            marks: &marks[..n_marks],
            spreads: &spreads[..n_spreads],
        },
        triangles: &triangles[..n_triangles],
        params,
    };
    end(out, words, given, &mut classes[..n_classes])
}
