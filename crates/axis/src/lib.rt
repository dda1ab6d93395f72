// The axis cache of a corner: its two axis angles and whether each is informative, by the spread rule.
#![tactic(auto)]

ghost use Rattle.std.specs.Prelude.{◌≡◌};
ghost use Rattle.axis.specs.Cache.{cache_call};

use refusal::Refusal;

pub mod inner;

// A spread is either missing or a number. An enum of its own, as document 01 has the form of it.
#[derive(Clone, Copy, Debug, PartialEq)]
pub enum Spread {
    Missing,
    Known(f32),
}

// What makes a spread informative: by which rule, 1 or 2, and below which limit. The rule is a number and no enum, since callers may give
// any: row 18 refuses the others, and does so behind row 3.
#[derive(Clone, Copy, Debug, PartialEq)]
pub struct SpreadRule {
    pub number: u32,
    pub limit: f32,
}

// The axes of corners, in lists with two slots a corner: their angles, and their spreads, of which a mark of 0 says that there is none. Row 1
// says whether these are of the lengths that belong together. The lists are apart, and marks no Option, since C lends them so.
#[derive(Clone, Copy)]
pub struct Axes<'a> {
    pub angles: &'a [f32],
    pub marks: &'a [u32],
    pub spreads: &'a [f32],
}

// Two angles and two informative marks, slot 0 first. They are fields and no array of slots, as C's struct and the definitions have them.
#[derive(Clone, Copy, Debug, PartialEq)]
pub struct AxisCache {
    pub angle0: f32,
    pub angle1: f32,
    pub informative0: bool,
    pub informative1: bool,
}

// The cache of one corner, from its two axes, each an angle and its spread, one by one as C hands them over.
#[tactic(auto, unfolding(crate::specs::Cache::cache_call))]
pub fn axis_cache(
    angle0: f32,
    spread0: Spread,
    angle1: f32,
    spread1: Spread,
    rule: SpreadRule,
) -> Result<AxisCache, Refusal>
    ensures { result ≡ cache_call rule angle0 spread0 angle1 spread1 }
{
    measure::inner::parameter_row(rule.limit, 4)?;
    inner::rule_row(rule)?;
    Ok(inner::cache_of(angle0, spread0, angle1, spread1, rule))
}
