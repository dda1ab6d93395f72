// Kinds 1 and 7: the axis cache of one corner, by rule 1 or by the rule given.
ghost use Rattle.std.specs.Prelude.{◌≡◌, ◌≤◌};

use axis::inner::spread_from;
use axis::{AxisCache, SpreadRule};
use measure::inner::{float_of, word_of};
use std::io;
use std::io::{Stdout, Write};
use vectors::hex;
use vectors::inner::runs::write_refusal;
use vectors::inner::words::Words;

fn write_mark(out: &mut Stdout, mark: bool) -> io::Result<()> {
    // one write: `write!` makes one of the blank and one of the number
    out.write_all(if mark { b" 1" } else { b" 0" })
}

fn write_cache(out: &mut Stdout, cache: AxisCache) -> io::Result<()> {
    out.write_all(b"cache ")?;
    out.write_all(&hex(word_of(cache.angle0)))?;
    out.write_all(b" ")?;
    out.write_all(&hex(word_of(cache.angle1)))?;
    write_mark(out, cache.informative0)?;
    write_mark(out, cache.informative1)?;
    out.write_all(b"\n")
}

// Angle, mark and spread of slot 0, the same of slot 1, and the limit.
pub(crate) fn replay(out: &mut Stdout, words: &mut Words<'_>, rule: u32) -> io::Result<()>
    ensures text { words.new.text.now ≡ words.old.text.now }
    ensures onward { words.old.at ≤ words.new.at }
{
    let angle0 = float_of(words.word());
    let spread0 = spread_from(words.word(), float_of(words.word()));
    let angle1 = float_of(words.word());
    let spread1 = spread_from(words.word(), float_of(words.word()));
    let rule = SpreadRule {
        number: rule,
        limit: float_of(words.word()),
    };
    match axis::axis_cache(angle0, spread0, angle1, spread1, rule) {
        Ok(cache) => write_cache(out, cache)?,
        Err(why) => {
            write_refusal(out, why)?;
        }
    }
    Ok(())
}
