// The walk, its labels as words, corners of quads, and clearing. A `requires` here is what the rows of a caller have let through, or what
// the caller's routines before have left in the workspace.
pub mod clear;
pub mod label;
pub mod labels;
pub mod layout;
pub mod sheet;
