// What a call that moves bytes came to, where a call that fails is told from the end of the input. `inner` reads a text whole and writes one
// whole, over a reader and a writer of the standard library.
#![tactic(auto)]

ghost use Rattle.std.specs.Prelude.{◌≡◌, length};
ghost use Rattle.streams.specs.Moves.{outcome_of, ended_by};

pub mod inner;

// errno of a call that a signal cut off.
const EINTR: i32 = 4;

// What one call came to: so many bytes moved, none, cut off by a signal before the first, or failed with this errno. The end of an input has
// a name of its own here, beside a count and an error.
#[derive(Debug, Clone, Copy, PartialEq, Eq)]
pub enum Moved {
    Some(usize),
    Nothing,
    Interrupted,
    Failed(i32),
}

// What a call came to that was to move a part's bytes, by its answer and by errno. Both are numbers as the system has them, and this a call
// of its own (docs/CALLS.md): its definition is over them.
pub fn outcome(got: isize, error: i32, part: &[u8]) -> Moved
    ensures { result ≡ outcome_of got error (length part.now) }
{
    if got < 0 {
        if error == EINTR {
            return Moved::Interrupted;
        }
        return Moved::Failed(error);
    }
    let n = io::count(got, part);
    if n == 0 {
        return Moved::Nothing;
    }
    Moved::Some(n)
}

// A call of its own too, over errno. What a reader came to that has so many bytes, by a call that moved none: the whole where the input
// ended, and else a failure, by its errno, however much came before it.
#[tactic(auto, unfolding(crate::specs::Moves::ended_by))]
pub fn ended(came: Moved, at: usize) -> Result<usize, i32>
    ensures { result ≡ ended_by came at }
{
    match came {
        Moved::Nothing => Ok(at),
        Moved::Some(_) => Err(0),
        Moved::Interrupted => Err(EINTR),
        Moved::Failed(errno) => Err(errno),
    }
}
