// The steps of document 01's angle rule, each one decision or one row of sums.
ghost use Rattle.std.specs.Prelude.{◌≡◌};
ghost use Rattle.measure.specs.Angle.{series_of, part_of, ratio_of, base_of, octant_of, across_of, below_of};
ghost use Rattle.measure.specs.Float.{sign_of, abs_of};

use std::f32::consts::{FRAC_PI_2, FRAC_PI_4, PI};

// Whether x's sign bit is set, as it is in -0. A NaN's is read as clear.
#[tactic(auto, using(crate::proofs::Sign::negative_is, crate::proofs::Sign::nan_clear))]
pub(crate) fn sign_bit(x: f32) -> bool
    ensures { result ≡ sign_of x }
{
    !x.is_nan() && x.is_sign_negative()
}

// `x.abs()` was tried: an angle takes 6 in 100 longer.
#[tactic(auto, using(crate::proofs::Sign::abs_set, crate::proofs::Sign::abs_clear))]
pub(crate) fn magnitude(x: f32) -> f32
    ensures { result ≡ abs_of x }
{
    if sign_bit(x) { -x } else { x }
}

// p, from w: the odd reciprocals with alternating signs, from 1/15 down to 1.
#[tactic(auto, using(crate::proofs::Literals::literals), unfolding(crate::specs::Angle::series_of))]
fn series(w: f32) -> f32
    ensures { result ≡ series_of w }
{
    let p15 = -0.0666666701;
    let p13 = 0.0769230798 + w * p15;
    let p11 = -0.0909090936 + w * p13;
    let p9 = 0.111111112 + w * p11;
    let p7 = -0.142857149 + w * p9;
    let p5 = 0.200000003 + w * p7;
    let p3 = -0.333333343 + w * p5;
    1.0 + w * p3
}

#[tactic(auto, unfolding(crate::specs::Angle::part_of))]
fn part(offset: f32, z: f32) -> f32
    ensures { result ≡ part_of offset z }
{
    offset + z * series(z * z)
}

#[tactic(auto, using(crate::proofs::Literals::literals), unfolding(crate::specs::Angle::ratio_of))]
fn ratio(t: f32) -> f32
    ensures { result ≡ ratio_of t }
{
    if t > 0.4140625 {
        part(FRAC_PI_4, (t - 1.0) / (t + 1.0))
    } else {
        part(0.0, t)
    }
}

#[tactic(auto, unfolding(crate::specs::Angle::base_of))]
fn base(lo: f32, hi: f32) -> f32
    ensures { result ≡ base_of lo hi }
{
    if hi == 0.0 { 0.0 } else { ratio(lo / hi) }
}

// From the magnitudes of dx and dy.
#[tactic(auto, unfolding(crate::specs::Angle::octant_of))]
pub(crate) fn octant(mx: f32, my: f32) -> f32
    ensures { result ≡ octant_of mx my }
{
    if my > mx {
        FRAC_PI_2 - base(mx, my)
    } else {
        base(my, mx)
    }
}

#[tactic(auto, unfolding(crate::specs::Angle::across_of))]
pub(crate) fn across(sx: bool, base: f32) -> f32
    ensures { result ≡ across_of sx base }
{
    if sx { PI - base } else { base }
}

#[tactic(auto, unfolding(crate::specs::Angle::below_of))]
pub(crate) fn below(sy: bool, base: f32) -> f32
    ensures { result ≡ below_of sy base }
{
    if sy { -base } else { base }
}
