// Labels as words of the workspace: a label and 16,384, so that 0 can mean that there is none. Steps are taken on the labels themselves.
ghost use Rattle.std.specs.Prelude.{◌≡◌, ◌*◌, ◌<◌, ◌+ℤ◌, ◌-ℤ◌};
ghost use Rattle.laying.specs.inner.Layout.{centre, label, Word, InRange};

const CENTRE: i32 = 16384;

pub fn from_word(word: u32) -> i32
    requires { word < 2 * centre }
    ensures { result ≡ label word }
{
    (word as i32) - CENTRE
}

pub fn to_word(x: i32) -> u32
    requires { InRange x }
    ensures { Word x result }
{
    (x + CENTRE) as u32
}

// The step from the label of q to that of p.
pub(crate) fn step_from(q: u32, p: u32) -> i32
    requires { (q < 2 * centre) × (p < 2 * centre) }
    ensures { result ≡ label p -ℤ label q }
{
    from_word(p) - from_word(q)
}

// Where a step leads from b.
pub(crate) fn outward(b: u32, step: i32) -> u32
    requires { (b < 2 * centre) × InRange (label b +ℤ step) }
    ensures { Word (label b +ℤ step) result }
{
    to_word(from_word(b) + step)
}
