// The frame whose lines were read, labelled: its lists are unpacked and handed to the one call. With room for the most components and
// entries no list is ever too short.
ghost use Rattle.std.specs.Prelude.{◌*◌, ◌≤◌, length};
ghost use Rattle.gridtext.specs.Text.{Frame};
ghost use Rattle.gridtext.specs.inner.Unpacked.{most_components, most_entries, Standing, LabelsStanding};

use crate::FrameRead;
use crate::inner::{room, unpack};
use axis::Axes;
use mesh::Positions;
use refusal::Refusal;
use walk::Labelled;

// Labels the frame whose words stand at the fronts of the first two lists.
pub fn label_lines(
    corners: &[u32],
    triangles: &[u32],
    read: FrameRead,
    components: &mut [u32],
    entries: &mut [u32],
) -> Result<Labelled, Refusal>
    requires { ((f : Frame) × Standing corners.now triangles.now read f) × (3 * most_components ≤ length components.old) × (3 * most_entries ≤ length entries.old) }
    ensures { LabelsStanding corners.now triangles.now read components.old components.new entries.old entries.new result }
{
    let n = read.corners;
    let m = read.triangles;
    let x = unpack::positions(corners, n, 0);
    let y = unpack::positions(corners, n, 1);
    let angles = unpack::slots(corners, n, 2);
    let marks = unpack::marks(corners, n);
    let spreads = unpack::slots(corners, n, 4);
    let named = unpack::triples(triangles, m, 0);
    let twins = unpack::triples(triangles, m, 3);
    let mut work = [0u32; room::WORK_WORDS];
    let frame = frame::Frame {
        corners: Positions {
            x: &x[..n],
            y: &y[..n],
        },
        axes: Axes {
            angles: &angles[..2 * n],
            marks: &marks[..2 * n],
            spreads: &spreads[..2 * n],
        },
        triangles: &named[..3 * m],
        twins: &twins[..3 * m],
    };
    frame::label_frame(frame, read.params, &mut work, components, entries)
}
