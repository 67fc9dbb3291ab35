//! The lines of the tickets.
ghost use Rattle.std.specs.Prelude.{◌≤◌};
ghost use Rattle.listing.specs.Lines.{RangesOf, LineOf, LinesOf};
ghost use Rattle.listing.specs.Placing.{HasRoom, IsTaken};
ghost use Rattle.listing.specs.Ranges.{NextRange};

use crate::numbers::{write_number, write_range};
use crate::range::Range;
use crate::sink::Sink;
use stores::{STARTS, Store};

// A store and a row are handed on as two: the store's own calls take both.

/// The first longest unbroken range of a row's starts, from the start `from` on.
fn next_range<S: Store>(store: &S, row: usize, from: usize) -> Option<Range>
    ensures { NextRange (S.rows store.now row) from result }
{
    let first = store.after(row, from)?;
    let beyond = (first + 1..STARTS).find(|&start| !store.holds(row, start));
    Some(Range {
        first,
        last: beyond.unwrap_or(STARTS) - 1,
    })
}

// How much room there must be hangs on the text that comes, so each text's clause says it.

/// Writes the ranges of a row.
fn write_ranges<W: Sink, S: Store>(out: &mut W, store: &S, row: usize)
    requires { HasRoom (RangesOf (S.rows store.now row)) (W.room out.old) }
    ensures { IsTaken (RangesOf (S.rows store.now row)) (λ text. W.takes out.old text out.new) }
{
    // No iterator of ranges: this is the one place that goes through them, and it would take a struct, an impl and
    // its ghost members for these four lines.
    let mut from = 0;
    while let Some(range) = next_range(store, row, from) {
        write_range(out, range);
        from = range.last + 2;
    }
}

/// Writes the line of a ticket.
fn write_row<W: Sink, S: Store>(out: &mut W, store: &S, row: usize)
    requires { HasRoom (LineOf (S.rows store.now row) row) (W.room out.old) }
    ensures { IsTaken (LineOf (S.rows store.now row) row) (λ text. W.takes out.old text out.new) }
{
    write_number(out, row);
    write_ranges(out, store, row);
    out.put(b"\n");
}

/// Writes the lines of the first `count` tickets.
pub(crate) fn write_rows<W: Sink, S: Store>(out: &mut W, store: &S, count: usize)
    requires { HasRoom (LinesOf (S.rows store.now) count) (W.room out.old) }
    ensures { IsTaken (LinesOf (S.rows store.now) count) (λ text. W.takes out.old text out.new) }
{
    for row in 0..count {
        write_row(out, store, row);
    }
}
