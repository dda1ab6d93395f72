// A frame's text to its answer's text: `answer` is the program `gridlabel` but for its input and output. `inner` has the reader, the
// labelling and the printer apart.
#![tactic(auto)]

ghost use Rattle.std.specs.Prelude.{◌≤◌, length};
ghost use Rattle.gridtext.specs.Text.{Frame};
ghost use Rattle.gridtext.specs.Gridlabel.{most_text, Answered};
ghost use Rattle.gridtext.specs.inner.Unpacked.{Standing, AnswersStanding};

use frame::Params;
use inner::label::label_lines;
use inner::print::{print_bad, print_components, print_refused};
use inner::room;

pub mod inner;

// A text that was read: the parameters of its P line, and how many C and T lines it has. The lines' words stand in lists of a fixed room,
// which is lent: no heap.
#[derive(Drop)]
pub struct FrameRead {
    pub params: Params,
    pub corners: usize,
    pub triangles: usize,
}

// The number of the first line that is bad.
#[derive(Clone, Copy, Debug, PartialEq, Eq)]
pub struct BadLine {
    pub line: u32,
}

// Labels the frame, and prints what became of it. There is room for as many components and entries, of three words each, as a text's frame
// can have (proofs/NeverShort).
fn labelled(corners: &[u32], triangles: &[u32], frame: FrameRead, out: &mut [u8]) -> usize
    requires { ((f : Frame) × Standing corners.now triangles.now frame f) × (most_text ≤ length out.old) }
    ensures { AnswersStanding corners.now triangles.now frame out.old out.new result }
{
    let mut components = [0u32; 3 * room::MOST_COMPONENTS];
    let mut entries = [0u32; 3 * room::MOST_ENTRIES];
    match label_lines(corners, triangles, frame, &mut components, &mut entries) {
        Ok(counts) => print_components(&components, &entries, counts.components, out),
        Err(why) => print_refused(why, out),
    }
}

// The answer to a text, at the front of the list; answers how long it is. In a list of fewer than 65,536 bytes nothing is written, and
// 0 is answered, a length that no answer has (docs/CALLS.md).
pub fn answer(text: &[u8], out: &mut [u8]) -> usize
    ensures { Answered text.now out.old out.new result }
{
    if out.len() < room::MOST_TEXT {
        return 0;
    }
    let mut corners = [0u32; room::MOST_CORNER_LINES * room::CORNER_SIZE];
    let mut triangles = [0u32; room::MOST_TRIANGLE_LINES * room::TRIANGLE_SIZE];
    match inner::read(text, &mut corners, &mut triangles) {
        Err(bad) => print_bad(bad.line, out),
        Ok(frame) => labelled(&corners, &triangles, frame, out),
    }
}
