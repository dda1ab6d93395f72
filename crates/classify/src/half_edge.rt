// One half-edge: its match at a corner, its judgement, the class that the judgements of a triangle give it, and its fit.
ghost use Rattle.std.specs.Prelude.{◌≡◌};
ghost use Rattle.classify.specs.Match.{offered, nearer, match_of, side_of, greater_of, judged_of, class_by};
ghost use Rattle.classify.specs.Fits.{fit_of};

use crate::{Class, GridSide, Judged, Near, Side};
use axis::AxisCache;
use measure::Distance;
use measure::Distance::{Known, Missing};

// The distance of an axis that counts only where it is informative.
#[tactic(auto, unfolding(crate::specs::Match::offered))]
fn offer(informative: bool, angle: f32, axis: f32) -> Distance
    ensures { result ≡ offered informative angle axis }
{
    if informative {
        measure::axis_distance(angle, axis)
    } else {
        Missing
    }
}

#[tactic(auto, unfolding(crate::specs::Match::nearer))]
fn nearest(slot0: Distance, slot1: Distance) -> Option<Near>
    ensures { result ≡ nearer slot0 slot1 }
{
    match (slot0, slot1) {
        (Known(d0), Known(distance)) if distance < d0 => Some(Near { slot: 1, distance }),
        (Known(distance), _) => Some(Near { slot: 0, distance }),
        (Missing, Known(distance)) => Some(Near { slot: 1, distance }),
        (Missing, Missing) => None,
    }
}

#[tactic(auto, unfolding(crate::specs::Match::match_of))]
fn match_at(cache: AxisCache, angle: f32) -> Option<Near>
    ensures { result ≡ match_of cache angle }
{
    let slot0 = offer(cache.informative0, angle, cache.angle0);
    let slot1 = offer(cache.informative1, angle, cache.angle1);
    nearest(slot0, slot1)
}

#[tactic(auto, unfolding(crate::specs::Match::side_of))]
pub(crate) fn side_of(start: AxisCache, end: AxisCache, angle: f32) -> Side
    ensures { result ≡ side_of start end angle }
{
    Side {
        start: match_at(start, angle),
        end: match_at(end, angle),
    }
}

// The start's where neither is greater, as of 0 and -0.
#[tactic(auto, unfolding(crate::specs::Match::greater_of))]
fn greater(start: f32, end: f32) -> f32
    ensures { result ≡ greater_of (Distance.Known start) (Distance.Known end) }
{
    if start < end { end } else { start }
}

// A missing match at either end makes the half-edge Spurious at once.
#[tactic(auto, unfolding(crate::specs::Match::judged_of, crate::specs::Match::judged_by, crate::specs::Match::is_below))]
pub(crate) fn judge_side(side: Side, tolerance: f32) -> Judged
    ensures { result ≡ judged_of tolerance side }
{
    let Some(
        Near {
            slot: start_slot,
            distance: start_distance,
        },
    ) = side.start
    else {
        return Judged::Spurious;
    };
    let Some(
        Near {
            slot: end_slot,
            distance: end_distance,
        },
    ) = side.end
    else {
        return Judged::Spurious;
    };
    if start_distance < tolerance && end_distance < tolerance {
        Judged::Grid(GridSide {
            start: start_slot,
            end: end_slot,
            fit: greater(start_distance, end_distance),
        })
    } else {
        Judged::Spurious
    }
}

// The class of a half-edge, from its own judgement and those of the next two in its triangle.
#[tactic(auto, unfolding(crate::specs::Match::class_by))]
pub(crate) fn class_of(own: Judged, next: Judged, last: Judged) -> Class
    ensures { result ≡ class_by own next last }
{
    match (own, next, last) {
        (Judged::Grid(_), _, _) => Class::Grid,
        (_, Judged::Grid(next), Judged::Grid(last)) if next.end != last.start => Class::Diagonal,
        _ => Class::Spurious,
    }
}

// -1 where it is not Grid.
#[tactic(auto, unfolding(crate::specs::Fits::fit_of))]
pub(crate) fn fit_of(own: Judged) -> f32
    ensures { result ≡ fit_of own }
{
    match own {
        Judged::Grid(grid) => grid.fit,
        Judged::Spurious => -1.0,
    }
}
