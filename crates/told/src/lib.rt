// What the programs that replay calls that label share: the lists that such a call is lent, and the lines that tell its answer and
// what it left in them. All of it stands in `inner`.
#![tactic(auto)]

pub mod inner;
