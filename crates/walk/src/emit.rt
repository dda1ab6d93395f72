// The kept groups as components and entries: what each adds to their numbers, its holes, and their words at the fronts of two lists.
// A caller may rely on the order of the quads: a component for each that is kept, with an entry for each of its lone records.
// The workspace, a run in it and what `Ascending` says of both go one by one: the list is written at its front while the run is read.
ghost use Rattle.std.specs.Prelude.{◌≡◌, true, cond, [], ◌∷◌, ◌+◌, ◌*◌, ◌-◌, ◌≤◌, ◌<◌, length};
ghost use Rattle.words.specs.inner.Regions.{Kept};
ghost use Rattle.cells.specs.Holes.{holes, height};
ghost use Rattle.laying.specs.inner.Layout.{centre};
ghost use Rattle.fates.specs.inner.Fates.{key_in, corner_in};
ghost use Rattle.fates.specs.Judged.{is_kept};
ghost use Rattle.walk.specs.inner.Emitted.{x_in, y_in, least_x, least_y, entries_of, out_to};
ghost use Rattle.walk.specs.inner.Rows.{Noted, gap_after};
ghost use Rattle.walk.specs.Call.{entry_words, all_entries};
ghost use Rattle.walk.specs.inner.Emitting.{Ascending, Writable, pasted, Written};

use crate::inner::Totals;
use crate::rows::{note, rows_around};
use fates::inner::{fate_at, runs_at};
use fates::{Fate, Run, Runs};
use laying::inner::labels::from_word;
use laying::inner::layout::{KEYS, SEEDS};

// The least words of a run.
#[derive(Clone, Copy)]
struct Least {
    pub x: u32,
    pub y: u32,
}

fn key_of(work: &[u32], at: usize, k: usize) -> u32
    requires { at + 2 * k < length work.now }
    ensures { result ≡ key_in work.now at k }
{
    work[at + 2 * k]
}

fn x_of(work: &[u32], at: usize, k: usize) -> u32
    requires { at + 2 * k < length work.now }
    ensures { result ≡ x_in work.now at k }
{
    key_of(work, at, k) / KEYS
}

fn y_of(work: &[u32], at: usize, k: usize) -> u32
    requires { at + 2 * k < length work.now }
    ensures { result ≡ y_in work.now at k }
{
    key_of(work, at, k) % KEYS
}

// Whether a group of this fate is written.
#[tactic(auto, unfolding(fates::specs::Judged::is_kept))]
pub(crate) fn is_kept(fate: Fate) -> bool
    ensures { result ≡ is_kept fate }
{
    matches!(fate, Fate::Kept(_))
}

// One component of `count` entries more, if it is kept. The caller reads what a kept group has of every group, so the test is in here.
pub(crate) fn counted(totals: Totals, kept: bool, count: usize) -> Totals
    requires { (totals.components < 4294967296) × (totals.entries + count < 4294967296) }
    ensures { (result.components ≡ cond kept (totals.components + 1) totals.components) × (result.entries ≡ cond kept (totals.entries + count) totals.entries) }
{
    if kept {
        return Totals {
            components: totals.components + 1,
            entries: totals.entries + count,
        };
    }
    totals
}

// How far a word is above the least, taken between their labels.
fn shifted(word: u32, least: u32) -> u32
    requires { (least ≤ word) × (word < 2 * centre) }
    ensures { result ≡ word - least }
{
    (from_word(word) - from_word(least)) as u32
}

// The least x of a run is that of its first record; where there is none, a number above every word, as the definition
// has it: an Option would be taken apart at each use, where this is lesser than none.
fn least_x(work: &[u32], run: Run) -> u32
    requires { Ascending work.now run }
    ensures { result ≡ least_x work.now run }
{
    if run.count == 0 {
        return KEYS;
    }
    x_of(work, run.at, 0)
}

fn least_y(work: &[u32], run: Run) -> u32
    requires { Ascending work.now run }
    ensures { result ≡ least_y work.now run }
{
    let mut y = KEYS;
    for k in 0..run.count {
        y = y_of(work, run.at, k).min(y);
    }
    y
}

fn least_of(work: &[u32], run: Run) -> Least
    requires { Ascending work.now run }
    ensures { (result.x ≡ least_x work.now run) × (result.y ≡ least_y work.now run) }
{
    Least {
        x: least_x(work, run),
        y: least_y(work, run),
    }
}

// From the least y to the greatest.
fn height_of(work: &[u32], run: Run, y: u32) -> u32
    requires ascending { Ascending work.now run }
    requires y_value { y ≡ least_y work.now run }
    ensures { (result ≡ height (entries_of work.now run)) × (result ≤ 32768) }
{
    let mut high = 0u32;
    for k in 0..run.count {
        high = high.max(shifted(y_of(work, run.at, k), y) + 1);
    }
    high
}

// The run's records noted in the words of their rows, at the front of the workspace, where none is noted before.
fn note_rows(work: &mut [u32], run: Run, y: u32)
    requires ascending { Ascending work.old run }
    requires y_value { (y ≡ least_y work.old run) × (height (entries_of work.old run) ≤ run.at) }
    requires noted { Noted work.old work.old run 0 }
    ensures { Noted work.old work.new run run.count }
{
    for k in 0..run.count {
        let row = shifted(y_of(work, run.at, k), y) as usize;
        note(work, row, x_of(work, run.at, k));
    }
}

// The holes between record k and the next, by the words of the rows: none where the two are not of one column.
fn gap_after(work: &[u32], run: Run, y: u32, k: usize) -> u32
    requires ascending { Ascending work.now run }
    requires y_value { (y ≡ least_y work.now run) × (k + 1 < run.count) × (height (entries_of work.now run) ≤ run.at) }
    requires noted { Noted work.now work.now run run.count }
    ensures { (result ≡ gap_after work.now run k) × (result ≤ 32768) }
{
    let x = x_of(work, run.at, k);
    if x_of(work, run.at, k + 1) != x {
        return 0;
    }
    let from = shifted(y_of(work, run.at, k), y) as usize + 1;
    let to = shifted(y_of(work, run.at, k + 1), y) as usize;
    rows_around(work, from, to, x)
}

// The holes of a run whose rows are noted: those between all its neighbours.
fn gaps_of(work: &[u32], run: Run, y: u32) -> u32
    requires ascending { Ascending work.now run }
    requires y_value { (y ≡ least_y work.now run) × (height (entries_of work.now run) ≤ run.at) }
    requires noted { Noted work.now work.now run run.count }
    ensures { result ≡ holes (entries_of work.now run) }
{
    let mut holes = 0u32;
    for k in 1..run.count {
        holes += gap_after(work, run, y, k - 1);
    }
    holes
}

// The run's holes. The words of its rows take the front of the workspace, which is free.
fn holes_of(work: &mut [u32], run: Run, y: u32) -> u32
    requires ascending { Ascending work.old run }
    requires y_value { (y ≡ least_y work.old run) × (height (entries_of work.old run) ≤ run.at) }
    ensures value { result ≡ holes (entries_of work.old run) }
    ensures kept { Kept work.old work.new 0 (height (entries_of work.old run)) }
{
    let rows = height_of(work, run, y) as usize;
    work[..rows].fill(0);
    note_rows(work, run, y);
    gaps_of(work, run, y)
}

// Three words as a record of a list, in the words of `pasted`.
fn store(list: &mut [u32], place: usize, a: u32, b: u32, c: u32)
    requires { 3 * place + 2 < length list.old }
    ensures { list.new ≡ pasted (3 * place) (a ∷ b ∷ c ∷ []) list.old }
{
    list[3 * place..3 * place + 3].copy_from_slice(&[a, b, c]);
}

// Record k as an entry, with its words less the least.
fn write_entry(work: &[u32], at: usize, k: usize, least: Least, entries: &mut [u32], place: usize)
    requires k_in_bounds { (at + 2 * k + 1 < length work.now) × (key_in work.now at k < 1073741824) }
    requires least_bounds { (least.x ≤ x_in work.now at k) × (least.y ≤ y_in work.now at k) }
    requires place_in_bounds { 3 * place + 2 < length entries.old }
    ensures { entries.new ≡ pasted (3 * place) ((x_in work.now at k - least.x) ∷ (y_in work.now at k - least.y) ∷ corner_in work.now at k ∷ []) entries.old }
{
    let u = shifted(x_of(work, at, k), least.x);
    let v = shifted(y_of(work, at, k), least.y);
    let corner = work[at + 2 * k + 1] / SEEDS;
    store(entries, place, u, v, corner);
}

// The records of a run as entries.
fn write_entries(work: &[u32], run: Run, least: Least, entries: &mut [u32], place: usize)
    requires ascending { Ascending work.now run }
    requires x_value { (least.x ≡ least_x work.now run) × (least.y ≡ least_y work.now run) }
    requires count_in_bounds { 3 * (place + run.count) ≤ length entries.old }
    ensures { entries.new ≡ pasted (3 * place) (entry_words (entries_of work.now run)) entries.old }
{
    for k in 0..run.count {
        write_entry(work, run.at, k, least, entries, place + k);
    }
}

// A group's lone records as a component and its entries, after those that are written.
fn write_component(
    work: &mut [u32],
    runs: Runs,
    totals: Totals,
    components: &mut [u32],
    entries: &mut [u32],
)
    requires ascending { Ascending work.old runs.lone × (height (entries_of work.old runs.lone) ≤ runs.lone.at) }
    requires components_in_bounds { (3 * totals.components + 2 < length components.old) × (3 * (totals.entries + runs.lone.count) ≤ length entries.old) × (totals.entries < 4294967296) }
    ensures components_after { components.new ≡ pasted (3 * totals.components) (totals.entries ∷ runs.lone.count ∷ holes (entries_of work.old runs.lone) ∷ []) components.old }
    ensures entries_after { entries.new ≡ pasted (3 * totals.entries) (entry_words (entries_of work.old runs.lone)) entries.old }
    ensures kept { Kept work.old work.new 0 (height (entries_of work.old runs.lone)) }
{
    let least = least_of(work, runs.lone);
    let holes = holes_of(work, runs.lone, least.y);
    write_entries(work, runs.lone, least, entries, totals.entries);
    store(
        components,
        totals.components,
        totals.entries as u32,
        runs.lone.count as u32,
        holes,
    );
}

// The same, if the group is kept: a function of its own, so that the clauses tell the lists of both cases at once.
fn write_kept(
    work: &mut [u32],
    runs: Runs,
    kept: bool,
    totals: Totals,
    components: &mut [u32],
    entries: &mut [u32],
)
    requires { kept ≡ true → Ascending work.old runs.lone × (height (entries_of work.old runs.lone) ≤ runs.lone.at) × (3 * totals.components + 2 < length components.old) × (3 * (totals.entries + runs.lone.count) ≤ length entries.old) × (totals.entries < 4294967296) }
    ensures components_after { components.new ≡ cond kept (pasted (3 * totals.components) (totals.entries ∷ runs.lone.count ∷ holes (entries_of work.old runs.lone) ∷ []) components.old) components.old }
    ensures entries_after { entries.new ≡ cond kept (pasted (3 * totals.entries) (entry_words (entries_of work.old runs.lone)) entries.old) entries.old }
    ensures kept { Kept work.old work.new 0 (cond kept (height (entries_of work.old runs.lone)) 0) }
{
    if kept {
        write_component(work, runs, totals, components, entries);
    }
}

// The components and their entries at the fronts of their lists.
pub(crate) fn write_out(
    work: &mut [u32],
    span: usize,
    n: usize,
    components: &mut [u32],
    entries: &mut [u32],
)
    requires writable { Writable work.old span n }
    requires n_in_bounds { (3 * length (out_to work.old span n n) ≤ length components.old) × (3 * length (all_entries (out_to work.old span n n)) ≤ length entries.old) }
    ensures { Written (out_to work.old span n n) components.old entries.old components.new entries.new }
{
    let mut totals = Totals {
        components: 0,
        entries: 0,
    };
    for s in 0..n {
        let kept = is_kept(fate_at(work, span, n, s));
        let runs = runs_at(work, span, n, s);
        write_kept(work, runs, kept, totals, components, entries);
        totals = counted(totals, kept, runs.lone.count);
    }
}
