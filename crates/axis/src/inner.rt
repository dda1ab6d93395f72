// The row of the rule's number, and the axis cache without a refusal, of values and from lent lists, for the crates above.
ghost use Rattle.std.specs.Prelude.{◌≡◌, ◌+◌, ◌*◌, ◌<◌, length};
ghost use Rattle.axis.specs.Cache.{rule_row, informative_of, spread_from, cache_of, cache_at};

use crate::{Axes, AxisCache, Spread, SpreadRule};
use refusal::Refusal;

// Row 18: there are the rules 1 and 2.
pub fn rule_row(rule: SpreadRule) -> Result<(), Refusal>
    ensures { result ≡ rule_row rule }
{
    if matches!(rule.number, 1 | 2) {
        Ok(())
    } else {
        Err(Refusal::NoSuchRule)
    }
}

#[tactic(auto, unfolding(crate::specs::Cache::informative_of))]
fn is_informative(spread: Spread, rule: SpreadRule) -> bool
    ensures { result ≡ informative_of rule spread }
{
    match spread {
        Spread::Missing => rule.number == 1,
        Spread::Known(x) => measure::inner::is_finite(x) && x < rule.limit,
    }
}

pub fn cache_of(
    angle0: f32,
    spread0: Spread,
    angle1: f32,
    spread1: Spread,
    rule: SpreadRule,
) -> AxisCache
    ensures { result ≡ cache_of rule angle0 spread0 angle1 spread1 }
{
    AxisCache {
        angle0,
        angle1,
        informative0: is_informative(spread0, rule),
        informative1: is_informative(spread1, rule),
    }
}

// A spread of a lent list: the mark beside it is 0 for missing.
#[tactic(auto, unfolding(crate::specs::Cache::spread_from))]
pub fn spread_from(mark: u32, spread: f32) -> Spread
    ensures { result ≡ spread_from mark spread }
{
    if mark == 0 {
        Spread::Missing
    } else {
        Spread::Known(spread)
    }
}

// The cache of a corner from lists with two slots a corner, which row 1 of the call has let through.
#[tactic(auto, unfolding(crate::specs::Cache::cache_at))]
pub fn cache_at(axes: Axes<'_>, corner: usize, rule: SpreadRule) -> AxisCache
    requires { (2 * corner + 1 < length axes.angles.now) × (2 * corner + 1 < length axes.marks.now) × (2 * corner + 1 < length axes.spreads.now) }
    ensures { result ≡ cache_at rule axes.entry.angles.now axes.entry.marks.now axes.entry.spreads.now corner }
{
    let first = 2 * corner;
    let second = first + 1;
    let spread0 = spread_from(axes.marks[first], axes.spreads[first]);
    let spread1 = spread_from(axes.marks[second], axes.spreads[second]);
    cache_of(
        axes.angles[first],
        spread0,
        axes.angles[second],
        spread1,
        rule,
    )
}
