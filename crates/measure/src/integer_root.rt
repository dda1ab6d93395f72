// The integer root of a number of 47 or 48 bits, and the whole number nearest to its root.
ghost use Rattle.std.specs.Prelude.{◌+◌, ◌*◌, ◌^◌, ◌≤◌, ◌<◌};
ghost use Rattle.measure.specs.inner.RootSteps.{IntegerRoot, NearestRoot};

// Newton's iteration, which goes on until the guess is the root: nothing is counted. From `start` two turns are usual. std's `isqrt` halves a
// range 32 times, which takes four times as long, in a trial of both in Rust.
fn isqrt(n: u64) -> u64
    requires { (2 ^ 46 ≤ n) × (n < 2 ^ 48) }
    ensures { IntegerRoot n result }
{
    let mut r = start(n);
    while n < r * r {
        r = (r + n / r) / 2;
    }
    r
}

// The first guess, which is no lower than the root: a tangent of the root, one for the numbers below 2^47 and one for the others.
#[tactic(auto, using(crate::proofs::Newton::newton_above))]
fn start(n: u64) -> u64
    requires { n < 2 ^ 48 }
    ensures { (n < (result + 1) * (result + 1)) × (result ≤ 33554432) }
{
    if n < 0x8000_0000_0000 {
        (9975792 + n / 9975792) / 2
    } else {
        (14107900 + n / 14107900) / 2
    }
}

// The whole number nearest to the root of n.
pub(crate) fn nearest_root(n: u64) -> u64
    requires { (2 ^ 46 ≤ n) × (n < 2 ^ 48) }
    ensures { NearestRoot n result }
{
    let q = isqrt(n);
    if q < n - q * q { q + 1 } else { q }
}
