// Ranges of a float: above zero and finite, and within a magnitude. No NaN is in one.
ghost use Rattle.std.specs.Prelude.{◌≡◌, not, ◌&&◌, T};
ghost use Rattle.std.specs.Float.Ieee.Positive.{positive};
ghost use Rattle.std.specs.Float.Ieee.Scale.{finite};
ghost use Rattle.measure.specs.Float.{sign_of, within};
ghost use Rattle.measure.specs.Position.{in_reach};

// x is finite and above 0.
pub(crate) fn is_positive(x: f32) -> bool
    ensures { result ≡ positive x }
{
    x > 0.0 && x < f32::INFINITY
}

// x is finite and its magnitude is at most `most`, which its two callers give as a number above 0. `x.abs() <= most` was tried: row 4
// takes six times as long.
pub(crate) fn is_within(x: f32, most: f32) -> bool
    requires { T (finite most && not (sign_of most)) }
    ensures { result ≡ within most x }
{
    x <= most && x >= -most
}

// d is a difference that the angle takes.
pub(crate) fn in_reach(d: f32) -> bool
    ensures { result ≡ in_reach d }
{
    is_within(d, 2097152.0)
}
