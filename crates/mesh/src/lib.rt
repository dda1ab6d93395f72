// Lists of a frame: where its corners stand, the half-edge convention, and the searches behind rows 1, 2 and 4 to 7 of the refusal table.
// Every function here is for the crates above, which call the rows in the table's order.
#![tactic(auto)]

pub mod inner;

// Where corners stand: a list of their x, and one of their y. Two lists, since C lends them apart; row 1 says whether
// they are of one length, so that no field here can.
#[derive(Clone, Copy)]
pub struct Positions<'a> {
    pub x: &'a [f32],
    pub y: &'a [f32],
}
