// The measures on single floats that the stages rest on: document 01's root, angle and distance as public calls.
// Each call is fixed by one definition of specs/; what only the crates above use stands in `inner`.
#![tactic(auto)]

ghost use Rattle.std.specs.Prelude.{◌≡◌};
ghost use Rattle.measure.specs.Angle.{angle_of};
ghost use Rattle.measure.specs.Distance.{distance_of};
ghost use Rattle.measure.specs.Root.{RootOf};
ghost use Rattle.measure.specs.RootComputed.{root_of};

use refusal::Refusal;

pub mod inner;
mod integer_root;
mod octant;
mod range;
mod root_pattern;
mod turn;

// How far an angle is from an axis: a number, or none. An enum of its own, as document 01 has the form of this answer.
#[derive(Clone, Copy, Debug, PartialEq)]
pub enum Distance {
    Missing,
    Known(f32),
}

// The IEEE 754 square root of x: nearest, subnormals included, -0 of -0.
pub fn root(x: f32) -> Result<f32, Refusal>
    ensures rule { RootOf x result }
    ensures only { result ≡ root_of x }
{
    if x == 0.0 {
        Ok(x)
    } else if range::is_positive(x) {
        Ok(f32::from_bits(root_pattern::root_bits(x.to_bits())))
    } else {
        Err(Refusal::OutOfRange(0))
    }
}

// The angle of the difference (dx, dy) by document 01's rule.
#[tactic(auto, unfolding(crate::specs::Angle::angle_of, crate::specs::Angle::reached))]
pub fn angle(dx: f32, dy: f32) -> Result<f32, Refusal>
    ensures { result ≡ angle_of dx dy }
{
    if range::in_reach(dx) && range::in_reach(dy) {
        Ok(inner::angle_rule(dx, dy))
    } else {
        Err(Refusal::OutOfRange(0))
    }
}

// How far an angle is from an undirected axis: from 0 to a quarter turn.
#[tactic(auto, unfolding(crate::specs::Distance::distance_of, crate::specs::Distance::apart, crate::specs::Distance::number_or_none))]
pub fn axis_distance(angle: f32, axis: f32) -> Distance
    ensures { result ≡ distance_of angle axis }
{
    let d = turn::fold(turn::lift(turn::rest(angle - axis)));
    if inner::is_finite(d) {
        Distance::Known(d)
    } else {
        Distance::Missing
    }
}
