// The sizes of a text's lists: how many lines a text may have, how many words a line gives, and what room is kept for a
// frame and its answer, since there is no heap. The specs have the same names.

// C lines and T lines of a text, at most.
pub const MOST_CORNER_LINES: usize = 128;

pub const MOST_TRIANGLE_LINES: usize = 256;

// Words that a C line gives, and a T line.
pub const CORNER_SIZE: usize = 8;

pub const TRIANGLE_SIZE: usize = 6;

// No line gives more words than a C line.
pub const MOST_WORDS: usize = CORNER_SIZE;

// A component has a quad at least, which takes two triangles; a quad gives four entries at most.
pub const MOST_COMPONENTS: usize = MOST_TRIANGLE_LINES / 2;

pub const MOST_ENTRIES: usize = 4 * MOST_COMPONENTS;

// 16 words of workspace for each half-edge and each corner.
pub const WORK_WORDS: usize = 16 * (3 * MOST_TRIANGLE_LINES + MOST_CORNER_LINES);

// Room for every answer, in bytes.
pub const MOST_TEXT: usize = 65536;
