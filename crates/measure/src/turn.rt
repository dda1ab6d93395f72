// The steps of document 01's distance. The rest by pi is reckoned in whole numbers for differences of a whole turn and more, and is a sum at
// most for all others. `%` would call the C library's fmodf, which not every machine's has as the kit's linker names it.
ghost use Rattle.std.specs.Prelude.{◌≡◌, true, ◌*◌, ◌%◌, ◌^◌};
ghost use Rattle.std.specs.Float.Ieee as Ieee;
ghost use Rattle.std.specs.Float.{binary32};
ghost use Rattle.std.specs.Float.Ieee.Positive.{positive};
ghost use Rattle.measure.specs.Distance.{pi, lifted, folded};
ghost use Rattle.measure.specs.Float.{bits};

use crate::range;
use crate::root_pattern::{exponent, significand};
use std::f32::consts::{FRAC_PI_2, PI, TAU};

// The parts that pi is a whole number of: it is 13176795 / 2^22.
const PART: f32 = 1.0 / 4194304.0;

const PARTS: u32 = 13176795;

// d % PI for a d between -2 pi and 2 pi: both sums first, then a choice. The mirrored sum is -0 at -PI, as the rest is.
#[tactic(auto, using(crate::proofs::Rest::rest_small, crate::proofs::Rest::rest_above, crate::proofs::Rest::rest_mirror))]
fn near_rest(d: f32) -> f32
    requires { (Ieee.lt (Ieee.neg (bits 0x40C90FDB)) d ≡ true) × (Ieee.lt d (bits 0x40C90FDB) ≡ true) }
    ensures { result ≡ Ieee.rem binary32 d pi }
{
    let mirrored = -(-d - PI);
    let less = d - PI;
    if d < PI {
        if d > -PI { d } else { mirrored }
    } else {
        less
    }
}

// The rest of s * 2^t by pi's parts, twice as large a number at each turn.
#[tactic(auto, using(crate::proofs::Whole::doubled))]
fn parts(s: u32, t: u32) -> u32
    ensures { result ≡ s * 2 ^ t % 13176795 }
{
    let mut rest = s % PARTS;
    for i in 0..t {
        rest = rest * 2 % PARTS;
    }
    rest
}

// d % PI for a d above 0, in whole numbers. Below 2 it is d; above, d too is a whole number of parts.
fn whole_rest(d: f32) -> f32
    requires { positive d ≡ true }
    ensures { result ≡ Ieee.rem binary32 d pi }
{
    let b = d.to_bits();
    let e = exponent(b);
    if e < 127 {
        d
    } else {
        parts(significand(b), e - 127) as f32 * PART
    }
}

// d % PI.
#[tactic(auto, using(crate::proofs::Whole::mirrored, crate::proofs::Whole::neither))]
pub(crate) fn rest(d: f32) -> f32
    ensures { result ≡ Ieee.rem binary32 d pi }
{
    if d > -TAU && d < TAU {
        near_rest(d)
    } else if range::is_positive(d) {
        whole_rest(d)
    } else if range::is_positive(-d) {
        -whole_rest(-d)
    } else {
        // 0 of a zero's sign, and NaN of an infinity and of NaN
        d * 0.0
    }
}

#[tactic(auto, unfolding(crate::specs::Distance::lifted))]
pub(crate) fn lift(d: f32) -> f32
    ensures { result ≡ lifted d }
{
    if d < 0.0 { d + PI } else { d }
}

#[tactic(auto, unfolding(crate::specs::Distance::folded))]
pub(crate) fn fold(d: f32) -> f32
    ensures { result ≡ folded d }
{
    if d > FRAC_PI_2 { PI - d } else { d }
}
