// Kind 3: the quads of a mesh.
ghost use Rattle.std.specs.Prelude.{◌≡◌, ◌≤◌};

use mesh::Positions;
use quads::Mesh;
use refusal::Refusal;
use std::io;
use std::io::Stdout;
use vectors::inner::runs::{write_count, write_refusal, write_runs};
use vectors::inner::words::Words;

// As in the programs that tell other calls: four lines, over what each call answers.
fn write_answer(out: &mut Stdout, answer: Result<u32, Refusal>) -> io::Result<usize> {
    match answer {
        Ok(count) => write_count(out, count),
        Err(why) => write_refusal(out, why),
    }
}

// The corners, the mesh and the room for quads.
// The lists stand at the fronts of arrays, each with its length beside it: there is no heap.
pub(crate) fn replay(out: &mut Stdout, words: &mut Words<'_>) -> io::Result<()>
    ensures text { words.new.text.now ≡ words.old.text.now }
    ensures onward { words.old.at ≤ words.new.at }
{
    let mut x = [0.0f32; 4097];
    let mut y = [0.0f32; 4097];
    let mut triangles = [0u32; 24579];
    let mut twins = [0u32; 24579];
    let mut classes = [0u32; 24579];
    let mut quads = [0u32; 16387];
    let n_x = words.fill(&mut x);
    let n_y = words.fill(&mut y);
    let n_triangles = words.fill(&mut triangles);
    let n_twins = words.fill(&mut twins);
    let n_classes = words.fill(&mut classes);
    let n_quads = words.fill(&mut quads);
    let corners = Positions {
        x: &x[..n_x],
        y: &y[..n_y],
    };
    let mesh = Mesh {
        triangles: &triangles[..n_triangles],
        twins: &twins[..n_twins],
        classes: &classes[..n_classes],
    };
    let answer = quads::merge_triangle_pairs(corners, mesh, &mut quads[..n_quads]);
    write_answer(out, answer)?;
    write_runs(out, &quads[..n_quads])?;
    Ok(())
}
