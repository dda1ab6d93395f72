// Ordering records in a lent list of words, and the middle one of a list.
pub mod order;
pub mod select;
