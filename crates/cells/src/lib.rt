// Groups of cells: which are linked across shared sides; and, in specs/ and proofs/, the theory of labelling them.
#![tactic(auto)]

mod forest;
pub mod inner;
mod sides;
