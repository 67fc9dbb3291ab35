//! Numbers, and the lines and ranges that are made of them.
ghost use Rattle.std.specs.Prelude.{◌≤◌, [], ◌∷◌, ◌++◌, length};
ghost use Rattle.listing.specs.Texts.{range_text};

use crate::range::Range;
use crate::sink::Sink;
use itoa::{Buffer, Integer};

// How much room there must be hangs on the text that comes, so each text's clause says it.

/// Writes a number.
pub(crate) fn write_number<W: Sink, I: Integer>(out: &mut W, n: I)
    requires { length (I.text n) ≤ W.room out.old }
    ensures { W.takes out.old (I.text n) out.new }
{
    out.put(Buffer::new().format(n).as_bytes());
}

/// Writes the line of a word and a number.
pub(crate) fn write_line<W: Sink, I: Integer>(out: &mut W, word: &[u8], n: I)
    requires { length (word.now ++ (I.text n ++ 10 ∷ [])) ≤ W.room out.old }
    ensures { W.takes out.old (word.now ++ (I.text n ++ 10 ∷ [])) out.new }
{
    out.put(word);
    write_number(out, n);
    out.put(b"\n");
}

/// Writes a range.
pub(crate) fn write_range<W: Sink>(out: &mut W, range: Range)
    requires { length (range_text range) ≤ W.room out.old }
    ensures { W.takes out.old (range_text range) out.new }
{
    out.put(b" ");
    write_number(out, range.first);
    out.put(b"-");
    write_number(out, range.last);
}
