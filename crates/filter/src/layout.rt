// Where the filters keep what in the workspace, as specs/inner/Layout says: how many words for each quad stand before it.
// A routine that writes takes the workspace and n, and no view of both: its contract compares the whole list with what it was. What only
// reads one quad is of `Standing`.

// A record for each quad.
pub(crate) const RECORDS: usize = 2;

// The room for the records' ordering.
pub(crate) const ORDERING: usize = 4;

// The lengths by group.
pub(crate) const GATHERED: usize = 6;

// The lengths of all sides.
pub(crate) const LENGTHS: usize = 18;

// The medians by group.
pub(crate) const MEDIANS: usize = 22;

// The corners' incidence.
pub(crate) const INCIDENCE: usize = 23;
