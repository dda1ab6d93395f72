// Kind 5: the components of a list of quads, and their entries.
ghost use Rattle.std.specs.Prelude.{◌≡◌, ◌≤◌};

use fates::LabelParams;
use std::io;
use std::io::Stdout;
use told::inner::{lend, write_told};
use vectors::inner::list::say_over;
use vectors::inner::words::Words;
use walk::label_components;

// The least quads and the least corners.
fn params(words: &mut Words<'_>) -> LabelParams
    ensures text { words.new.text.now ≡ words.old.text.now }
    ensures onward { words.old.at ≤ words.new.at }
{
    LabelParams {
        quads: words.word(),
        corners: words.word(),
    }
}

// The quads are said over up to so many words.
// The lists stand at the fronts of arrays, each with its length beside it: there is no heap.
pub(crate) fn replay(out: &mut Stdout, words: &mut Words<'_>) -> io::Result<()>
    ensures text { words.new.text.now ≡ words.old.text.now }
    ensures onward { words.old.at ≤ words.new.at }
{
    let mut quads = [0u32; 16392];
    let mut work = [0u32; 196656];
    let mut components = [0u32; 12300];
    let mut entries = [0u32; 49164];
    let params = params(words);
    let corners = words.word();
    let most = words.word();
    let given = words.fill(&mut quads);
    let n_quads = say_over(&mut quads, given, most);
    let lent = lend(words, &mut work, &mut components, &mut entries);
    let work = &mut work[..lent.work];
    let components = &mut components[..lent.components];
    let entries = &mut entries[..lent.entries];
    let answer = label_components(
        &quads[..n_quads],
        corners,
        params,
        work,
        components,
        entries,
    );
    write_told(out, answer, work, components, entries)?;
    Ok(())
}
