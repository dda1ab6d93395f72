// The value of a digit, and a word written into a lent text, for callers that know that it has room.
ghost use Rattle.std.specs.Prelude.{◌≡◌, ◌++◌, ◌+◌, ◌≤◌, length, take, drop};
ghost use Rattle.digits.specs.Digits.{decimal_of};
ghost use Rattle.digits.specs.inner.Run.{Value};

// The value of an upper-case hex digit; any other byte has none.
pub fn value(byte: u8) -> Option<u32>
    ensures { Value byte result }
{
    match byte {
        b'0'..=b'9' => Some(u32::from(byte - b'0')),
        b'A'..=b'F' => Some(u32::from(byte - b'A') + 10),
        _ => None,
    }
}

// Writes the decimal digits of n from `at` on; answers where they end. By hand, since it writes to a part of a lent text; the text and a
// place, since the clause tells the whole of it.
pub fn put_decimal(out: &mut [u8], at: usize, n: u32) -> usize
    requires { at + length (decimal_of n) ≤ length out.old }
    ensures { (result ≡ at + length (decimal_of n)) × (out.new ≡ take at out.old ++ (decimal_of n ++ drop result out.old)) }
{
    let mut text = [0u8; 20];
    let count = io::decimal(n as u64, &mut text);
    out[at..at + count].copy_from_slice(&text[..count]);
    at + count
}
