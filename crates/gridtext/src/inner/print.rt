// Prints an answer: each function writes its text from a place on, answers where the text ends, and leaves the rest of the list as it was.
// Callers see to it that the text has room. The list and a place stand side by side, as `digits::inner::put_decimal` takes them.
ghost use Rattle.std.specs.Prelude.{[], ◌∷◌, map, ◌+◌, ◌*◌, ◌≤◌, ◌<◌, length};
ghost use Rattle.walk.specs.Read.{entry_at, entries_from, component_at};
ghost use Rattle.digits.specs.Digits.{decimal_of};
ghost use Rattle.gridtext.specs.Answer.{bad_text, refused_text, entry_line, entry_lines, component_lines};
ghost use Rattle.gridtext.specs.inner.Held.{bad_bytes, refused_bytes, Printable, PrintsHeld, Readable};
ghost use Rattle.gridtext.specs.inner.Printed.{Printed, Room, last_fields};

use refusal::Refusal;

// The bytes as they are.
fn put_bytes(out: &mut [u8], at: usize, text: &[u8]) -> usize
    requires { Room out.old at text.now }
    ensures { Printed out.old out.new at text.now result }
{
    let end = at + text.len();
    out[at..end].copy_from_slice(text);
    end
}

// A number's digits.
fn put_number(out: &mut [u8], at: usize, n: u32) -> usize
    requires { Room out.old at (decimal_of n) }
    ensures { Printed out.old out.new at (decimal_of n) result }
{
    digits::inner::put_decimal(out, at, n)
}

// A blank and a number.
fn put_field(out: &mut [u8], at: usize, n: u32) -> usize
    requires { Room out.old at (32 ∷ decimal_of n) }
    ensures { Printed out.old out.new at (32 ∷ decimal_of n) result }
{
    let next = put_bytes(out, at, b" ");
    put_number(out, next, n)
}

// The last fields of a line, and its line feed.
fn end_line(out: &mut [u8], at: usize, fields: &[u32]) -> usize
    requires { Room out.old at (last_fields (map decimal_of fields.now)) }
    ensures { Printed out.old out.new at (last_fields (map decimal_of fields.now)) result }
{
    let mut next = at;
    for field in fields {
        next = put_field(out, next, *field);
    }
    put_bytes(out, next, b"\n")
}

// The first line that is bad.
pub fn print_bad(line: u32, out: &mut [u8]) -> usize
    requires { bad_bytes ≤ length out.old }
    ensures { Printed out.old out.new 0 (bad_text line) result }
{
    let next = put_bytes(out, 0, b"bad");
    end_line(out, next, &[line])
}

// A refusal, by its number and place, and what stands beside the place.
pub fn print_refused(why: Refusal, out: &mut [u8]) -> usize
    requires { refused_bytes ≤ length out.old }
    ensures { Printed out.old out.new 0 (refused_text why) result }
{
    let number = refusal::number(why);
    let place = refusal::place(why);
    let beside = refusal::beside(why);
    let next = put_bytes(out, 0, b"refused");
    if refusal::has_beside(number) {
        return end_line(out, next, &[number, place, beside]);
    }
    end_line(out, next, &[number, place])
}

// Entry k: u, v, corner.
fn put_entry(entries: &[u32], k: usize, out: &mut [u8], at: usize) -> usize
    requires { (3 * k + 2 < length entries.now) × Room out.old at (entry_line (entry_at entries.now k)) }
    ensures { Printed out.old out.new at (entry_line (entry_at entries.now k)) result }
{
    let u = entries[3 * k];
    let v = entries[3 * k + 1];
    let corner = entries[3 * k + 2];
    let next = put_number(out, at, u);
    end_line(out, next, &[v, corner])
}

// The entries that stand after those before.
fn put_entries(entries: &[u32], before: usize, count: usize, out: &mut [u8], at: usize) -> usize
    requires { (3 * (before + count) ≤ length entries.now) × Room out.old at (entry_lines (entries_from entries.now before count)) }
    ensures { Printed out.old out.new at (entry_lines (entries_from entries.now before count)) result }
{
    let mut next = at;
    for i in 0..count {
        next = put_entry(entries, before + i, out, next);
    }
    next
}

// Component j: its number, entries and holes, and then the entries.
fn put_component(components: &[u32], entries: &[u32], j: u32, out: &mut [u8], at: usize) -> usize
    requires { Readable components.now entries.now j × Room out.old at (component_lines j (component_at components.now entries.now j ∷ [])) }
    ensures { Printed out.old out.new at (component_lines j (component_at components.now entries.now j ∷ [])) result }
{
    let place = 3 * j as usize;
    let before = components[place];
    let count = components[place + 1];
    let holes = components[place + 2];
    let word = put_bytes(out, at, b"component");
    let next = end_line(out, word, &[j, count, holes]);
    put_entries(entries, before as usize, count as usize, out, next)
}

// The answer that the lists hold: the count of components, and each with its entries.
pub fn print_components(components: &[u32], entries: &[u32], count: u32, out: &mut [u8]) -> usize
    requires { Printable components.now entries.now count (length out.old) }
    ensures { PrintsHeld components.now entries.now count out.old out.new result }
{
    let word = put_bytes(out, 0, b"components");
    let mut next = end_line(out, word, &[count]);
    for j in 0..count {
        next = put_component(components, entries, j, out, next);
    }
    next
}
