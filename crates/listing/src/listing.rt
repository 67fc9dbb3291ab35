//! What a listing shows.
ghost use Rattle.std.specs.Prelude.{◌≡◌, ℕ, ◌^◌, ◌<◌, ◌≤◌, List, length};
ghost use Rattle.tickets.specs.Collections.{posted};
ghost use Rattle.listing.specs.Lines.{TextOf};
ghost use Rattle.listing.specs.Listings.{Lists};
ghost use Rattle.listing.specs.Placing.{Long, Fits, Writes, HasRoom, IsTaken};

use crate::counter::Counter;
use crate::numbers::write_line;
use crate::page::Page;
use crate::row_lines::write_rows;
use crate::sink::Sink;
use queries::Table;
use stores::Store;

/// What a listing shows: the floor, the ceiling, and the first rows of a store.
#[derive(Drop)]
pub(crate) struct Listing<'a, S> {
    floor: u64,
    ceiling: u32,
    store: &'a S,
    count: usize,
    ghost few: { count ≤ 24 },
    ghost sized: { (floor < 2 ^ 64) × (ceiling < 2 ^ 32) },
}

impl<'a, S: Store> Listing<'a, S> {
    // The ceiling is no part of a table: its prices do not know one.

    /// What the listing of a table shows.
    pub(crate) fn of(table: &Table<'a, S>, ceiling: u32) -> Self
        ensures { (text : List ℕ) → TextOf result.floor result.ceiling (S.rows result.store.now) result.count text → Lists (posted table.now.collection.now) ceiling (S.rows table.now.store.now) text }
    {
        Listing {
            floor: table.floor(),
            ceiling,
            store: table.store,
            count: table.collection.tickets().len(),
        }
    }

    // How much room there must be hangs on the text that comes, so each text's clause says it.

    /// Writes the text.
    fn write<W: Sink>(&self, out: &mut W)
        requires { HasRoom (TextOf self.now.floor self.now.ceiling (S.rows self.now.store.now) self.now.count) (W.room out.old) }
        ensures { IsTaken (TextOf self.now.floor self.now.ceiling (S.rows self.now.store.now) self.now.count) (λ text. W.takes out.old text out.new) }
    {
        write_line(out, b"floor ", self.floor);
        write_line(out, b"ceiling ", self.ceiling);
        write_rows(out, self.store, self.count);
    }

    /// How many bytes the text has.
    pub(crate) fn length(&self) -> usize
        ensures { Long (TextOf self.now.floor self.now.ceiling (S.rows self.now.store.now) self.now.count) result }
    {
        let mut counter = Counter { count: 0 };
        self.write(&mut counter);
        counter.count
    }

    /// Writes the text into a buffer, which stays the one that was lent.
    pub(crate) fn fill(&self, page: &mut Page<'_>)
        requires { Fits (TextOf self.now.floor self.now.ceiling (S.rows self.now.store.now) self.now.count) page.old.end (length page.old.buffer.now) }
        ensures lender { page.new.buffer.ghost_name ≡ page.old.buffer.ghost_name }
        ensures placed { Writes (TextOf self.now.floor self.now.ceiling (S.rows self.now.store.now) self.now.count) page.old.buffer.now page.old.end page.new.buffer.now page.new.end }
    {
        self.write(page);
    }
}
