// The walk from one quad: the labels of the quads that it reaches across sides run in opposite senses, or that there are none.
// `inner` has it for the crates above, with what a caller needs to read the labels and to take them away again.
#![tactic(auto)]

pub mod inner;
mod settle;
mod steps;

// There is no labelling; so many quads were queued until that was shown.
#[derive(Clone, Copy, Debug, PartialEq, Eq)]
pub struct Clash {
    pub queued: usize,
}
