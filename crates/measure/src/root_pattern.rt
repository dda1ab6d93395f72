// The root of a float by its pattern: the significand moved to 32 bits, an integer root, and the pattern of the answer.
// std's `sqrt` is the machine's: it has no step whose rounding the edit root_rounds_up_below_half_way could get wrong.
ghost use Rattle.std.specs.Prelude.{◌≡◌, ◌*◌, ◌^◌, ◌≤◌, ◌<◌};
ghost use Rattle.measure.specs.Pattern.{sig_of, exp_of, units};
ghost use Rattle.measure.specs.inner.RootSteps.{RootBits};

use crate::integer_root;

// How far the significand has to move for its highest bit to be bit 31.
fn room(s: u32) -> u32
    requires { 0 < s }
    ensures { (2 ^ 31 ≤ s * 2 ^ result) × (s * 2 ^ result < 2 ^ 32) }
{
    s.leading_zeros()
}

// The pattern of the float whose units are nearest to the root of the number z * 2^f, z having 32 bits. That number is 2^149 times
// the radicand's units. A root rounded up to 2^24 carries into the exponent by the sum itself.
fn pattern_of_root(z: u64, f: u32) -> u32
    requires { (2 ^ 31 ≤ z) × (z < 2 ^ 32) × (16 ≤ f) × (f ≤ 402) }
    ensures { RootBits (4 * (z * 2 ^ f)) result }
{
    if f % 2 == 1 {
        (f - 15) / 2 * 0x80_0000 + integer_root::nearest_root(z * 0x8000) as u32
    } else {
        (f - 16) / 2 * 0x80_0000 + integer_root::nearest_root(z * 0x1_0000) as u32
    }
}

#[tactic(auto, unfolding(crate::specs::Pattern::sig_of))]
pub(crate) fn significand(b: u32) -> u32
    ensures { result ≡ sig_of b }
{
    if b < 0x80_0000 {
        b
    } else {
        b % 0x80_0000 + 0x80_0000
    }
}

#[tactic(auto, unfolding(crate::specs::Pattern::exp_of))]
pub(crate) fn exponent(b: u32) -> u32
    ensures { result ≡ exp_of b }
{
    if b < 0x80_0000 { 0 } else { b / 0x80_0000 - 1 }
}

// The pattern of the root of the float of the pattern b, which is above 0 and finite.
pub(crate) fn root_bits(b: u32) -> u32
    requires { (0 < b) × (b < 2139095040) }
    ensures { RootBits (2 ^ 151 * units b) result }
{
    let s = significand(b);
    let z = room(s);
    pattern_of_root((s as u64) << z, exponent(b) + 149 - z)
}
