// Rows 1, 2 and 8: lengths that belong together, whole records, counts within limits, a workspace that is long enough.
ghost use Rattle.std.specs.Prelude.{◌≡◌, ◌≤◌, ◌<◌};
ghost use Rattle.mesh.specs.Lists.{paired_row, doubled_row, whole_row, limit_row, most_corners, most_half_edges, most_quads, work_row, quad_words, frame_words};

use refusal::Refusal;

pub const MOST_CORNERS: usize = 4096;

pub const MOST_HALF_EDGES: usize = 24576;

pub const MOST_QUADS: usize = 4096;

pub fn paired_row(a: usize, b: usize) -> Result<(), Refusal>
    ensures { result ≡ paired_row a b }
{
    if a == b {
        Ok(())
    } else {
        Err(Refusal::Unpaired)
    }
}

// By half of a, since twice b may not fit.
pub fn doubled_row(a: usize, b: usize) -> Result<(), Refusal>
    ensures { result ≡ doubled_row a b }
{
    if a % 2 == 0 {
        paired_row(a / 2, b)
    } else {
        Err(Refusal::Unpaired)
    }
}

// The size is 3 or 4, by every caller's own record.
pub fn whole_row(n: usize, size: usize) -> Result<(), Refusal>
    requires { 0 < size }
    ensures { result ≡ whole_row n size }
{
    paired_row(n % size, 0)
}

pub fn limit_row(count: usize, most: usize) -> Result<(), Refusal>
    ensures { result ≡ limit_row count most }
{
    if most < count {
        Err(Refusal::OverLimit)
    } else {
        Ok(())
    }
}

// The words wanted are counted from numbers that row 2 let through.
pub fn work_row(words: usize, wanted: usize) -> Result<(), Refusal>
    requires { wanted < 4294967296 }
    ensures { result ≡ work_row words wanted }
{
    if words < wanted {
        Err(Refusal::WorkspaceShort(wanted as u32))
    } else {
        Ok(())
    }
}

// Row 2 has let through the numbers.
pub fn quad_words(quads: usize, corners: usize) -> usize
    requires { (quads ≤ most_quads) × (corners ≤ most_corners) }
    ensures { result ≡ quad_words quads corners }
{
    32 * quads + 16 * corners
}

// Row 2 has let through the numbers.
pub fn frame_words(edges: usize, corners: usize) -> usize
    requires { (edges ≤ most_half_edges) × (corners ≤ most_corners) }
    ensures { result ≡ frame_words edges corners }
{
    16 * (edges + corners)
}
