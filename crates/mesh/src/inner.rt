// What the calls on lists judge by. A `requires` here is what an earlier row of the same call has let through.
pub mod cells;
mod first;
pub mod half_edge;
pub mod lists;
pub mod positions;
pub mod twins;
