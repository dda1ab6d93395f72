// Where the walks keep what in the workspace, past the four regions of `span` words at its front, as specs/inner/Layout and the crates
// above say: how many words for each quad stand before it. And how two numbers make one word of a record.

// The place where the run of each side begins.
pub const RUNS: usize = 8;

// Later there, for each quad, where the records of its group stand.
pub const INDEX: usize = 8;

// The groups' numbers.
pub const GROUPS: usize = 12;

// How many quads each group has, and later its fate.
pub const FATES: usize = 13;

// The records of the corners.
pub const RECORDS: usize = 14;

// The flags of the runs.
pub const FLAGS: usize = 22;

// How many quads each walk reached, and later how many pairs are claimed by several corners.
pub const WALKED: usize = 26;

// A record's number is its corner times this, and its group's lowest quad.
pub const SEEDS: u32 = 4096;

// A record's key is the first word of its corner times this, and the second.
pub const KEYS: u32 = 32768;
