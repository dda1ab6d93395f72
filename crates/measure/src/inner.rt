// What crates above call without a refusal: tests of a float, row 3, floats as words, the angle rule and the length, each for every input.
ghost use Rattle.std.specs.Prelude.{◌≡◌};
ghost use Rattle.std.specs.Float.Ieee as Ieee;
ghost use Rattle.std.specs.Float.{binary32};
ghost use Rattle.std.specs.Float.Ieee.Scale.{finite};
ghost use Rattle.measure.specs.Angle.{angle_rule};
ghost use Rattle.measure.specs.Length.{length_of};
ghost use Rattle.measure.specs.Parameter.{parameter_row};
ghost use Rattle.measure.specs.Position.{is_position, centroid_of};

use crate::{octant, range};
use refusal::Refusal;

// std's word, under the name that docs/CALLS.md gives.
pub fn is_nan(x: f32) -> bool
    ensures { result ≡ Ieee.is_nan x }
{
    x.is_nan()
}

// By comparisons: std's word takes x from itself, which for an infinity is an invalid operation, and a program that has unmasked that
// exception of its processor would be stopped.
pub fn is_finite(x: f32) -> bool
    ensures { result ≡ finite x }
{
    x < f32::INFINITY && x > f32::NEG_INFINITY
}

// x may be a corner's x or y.
pub fn is_position(x: f32) -> bool
    ensures { result ≡ is_position x }
{
    range::is_within(x, 1048576.0)
}

// x as a word of a list: any NaN goes in as one pattern, so the word is determined.
#[tactic(auto, using(crate::proofs::Words::nan_word))]
pub fn word_of(x: f32) -> u32
    ensures { result ≡ Ieee.to_bits binary32 x }
{
    if x.is_nan() { 0x7FC0_0000 } else { x.to_bits() }
}

// The float of a word, which may be the pattern of a NaN.
#[tactic(auto, using(crate::proofs::Words::nan_bits_lem, crate::proofs::Words::fine_bits))]
pub fn float_of(b: u32) -> f32
    ensures { result ≡ Ieee.of_bits binary32 b }
{
    if 0x7F80_0000 < b % 0x8000_0000 {
        f32::NAN
    } else {
        f32::from_bits(b)
    }
}

// The angle rule with no refusal, for differences of positions, which are in reach.
#[tactic(auto, unfolding(crate::specs::Angle::angle_rule))]
pub fn angle_rule(dx: f32, dy: f32) -> f32
    ensures { result ≡ angle_rule dx dy }
{
    let base = octant::octant(octant::magnitude(dx), octant::magnitude(dy));
    octant::below(
        octant::sign_bit(dy),
        octant::across(octant::sign_bit(dx), base),
    )
}

// The mean of four coordinates, added in order.
#[tactic(auto, using(crate::proofs::Literals::literals), unfolding(crate::specs::Position::centroid_of))]
pub fn centroid(p0: f32, p1: f32, p2: f32, p3: f32) -> f32
    ensures { result ≡ centroid_of p0 p1 p2 p3 }
{
    (p0 + p1 + p2 + p3) / 4.0
}

// The length of the difference (dx, dy). Of differences of positions the root is known; of any other pair without a root this is 0.
#[tactic(auto, unfolding(crate::specs::Length::length_of, crate::specs::Length::or_zero))]
pub fn length(dx: f32, dy: f32) -> f32
    ensures { result ≡ length_of dx dy }
{
    crate::root(dx * dx + dy * dy).unwrap_or(0.0)
}

// Row 3 for one parameter: its number is the place, a word of the answer, as the table of refusals has it.
pub fn parameter_row(parameter: f32, number: u32) -> Result<(), Refusal>
    ensures { result ≡ parameter_row parameter number }
{
    if is_nan(parameter) {
        Err(Refusal::ParameterNan(number))
    } else {
        Ok(())
    }
}
