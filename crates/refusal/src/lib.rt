// The rows of the refusal table as one enum, with the number and the place that the table gives each, and what stands beside the place.
// A call that refuses answers one of these; callers print, count and compare these numbers.
#![tactic(auto)]

ghost use Rattle.std.specs.Prelude.{◌≡◌};
ghost use Rattle.refusal.specs.Table.{number_of, place_of, beside_of, has_beside};

// What was wrong with the input. A number beside it is what the table calls the place; a twin fault also has the twin's value.
#[derive(Clone, Copy, Debug, PartialEq, Eq)]
pub enum Refusal {
    Unpaired,
    OverLimit,
    ParameterNan(u32),
    NoSuchRule,
    OutOfRange(u32),
    NoSuchCorner(u32),
    NoSuchClass(u32),
    CornerTwice(u32),
    TwinPastEnd(u32, u32),
    TwinNotBack(u32, u32),
    TwinElsewhere(u32, u32),
    WorkspaceShort(u32),
    RecordsShort(u32),
    EntriesShort(u32),
}

// The row's number. This and the next three are the numbers of document 01's table: public calls (docs/CALLS.md), and no order from 1 up that
// an enum's own numbers could be.
pub fn number(refusal: Refusal) -> u32
    ensures { result ≡ number_of refusal }
{
    match refusal {
        Refusal::Unpaired => 1,
        Refusal::OverLimit => 2,
        Refusal::ParameterNan(_) => 3,
        Refusal::NoSuchRule => 18,
        Refusal::OutOfRange(_) => 4,
        Refusal::NoSuchCorner(_) | Refusal::NoSuchClass(_) => 5,
        Refusal::CornerTwice(_) => 6,
        Refusal::TwinPastEnd(_, _) => 7,
        Refusal::TwinNotBack(_, _) => 11,
        Refusal::TwinElsewhere(_, _) => 12,
        Refusal::WorkspaceShort(_) => 8,
        Refusal::RecordsShort(_) => 9,
        Refusal::EntriesShort(_) => 10,
    }
}

// The row's place.
pub fn place(refusal: Refusal) -> u32
    ensures { result ≡ place_of refusal }
{
    match refusal {
        Refusal::Unpaired | Refusal::OverLimit | Refusal::NoSuchRule => 0,
        Refusal::ParameterNan(parameter) => parameter,
        Refusal::OutOfRange(corner) => corner,
        Refusal::NoSuchCorner(position) => position,
        Refusal::NoSuchClass(position) => position,
        Refusal::CornerTwice(cell) => cell,
        Refusal::TwinPastEnd(edge, _) => edge,
        Refusal::TwinNotBack(edge, _) => edge,
        Refusal::TwinElsewhere(edge, _) => edge,
        Refusal::WorkspaceShort(words) => words,
        Refusal::RecordsShort(records) => records,
        Refusal::EntriesShort(entries) => entries,
    }
}

// What stands beside the place: the twin's own value, or 0.
pub fn beside(refusal: Refusal) -> u32
    ensures { result ≡ beside_of refusal }
{
    match refusal {
        Refusal::TwinPastEnd(_, twin) => twin,
        Refusal::TwinNotBack(_, twin) => twin,
        Refusal::TwinElsewhere(_, twin) => twin,
        _ => 0,
    }
}

// Whether the row with this number has a value beside its place.
pub fn has_beside(number: u32) -> bool
    ensures { result ≡ has_beside number }
{
    matches!(number, 7 | 11 | 12)
}
