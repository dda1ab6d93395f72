// What becomes of the groups of quads: too few quads, no labelling, too few lone corners, or kept; and the records of their corners.
// `inner` has it for the calls that write it out.
#![tactic(auto)]

mod fate_words;
mod gather;
pub mod inner;
mod judge;
mod lone;
mod prepare;

// The least quads of a group and the least listed corners of a component.
#[derive(Clone, Copy, Debug, PartialEq, Eq)]
pub struct LabelParams {
    pub quads: u32,
    pub corners: u32,
}

// What becomes of a quad's group, told at its lowest quad: the first that applies, in this order. With a labelling, also how many pairs are
// claimed by several corners.
#[derive(Clone, Copy, Debug, PartialEq, Eq)]
pub enum Fate {
    NotLowest,
    TooFewQuads,
    NoLabelling,
    TooFewLone(u32),
    Kept(u32),
}

// Records of corners in the workspace: where the first of them stands, and how many they are. A place and a number, no slice: the runs are
// kept in the workspace itself, which is one lent list.
#[derive(Clone, Copy, Debug, PartialEq, Eq)]
pub struct Run {
    pub at: usize,
    pub count: usize,
}

// The records of one group: of its lone corners, and of all that its walk reached.
#[derive(Clone, Copy, Debug, PartialEq, Eq)]
pub struct Runs {
    pub lone: Run,
    pub all: Run,
}
