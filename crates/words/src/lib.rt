// Routines on lent lists of words, for the crates above.
#![tactic(auto)]

pub mod inner;
