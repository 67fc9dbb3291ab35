//! Cutting a table down, round by round, to the largest one that supports itself.
ghost use Rattle.std.specs.Prelude.{◌≡◌, ◌<◌, ◌≤◌, length};
ghost use Rattle.tickets.specs.Collections.{posted};
ghost use Rattle.spreads.specs.Spreads.{release};
ghost use Rattle.stores.specs.BitRows.{bit_rows};
ghost use Rattle.queries.specs.Judging.{Tells};
ghost use Rattle.queries.specs.TablePrices.{ReleasesOf};
ghost use Rattle.runs.specs.Supports.{Supports, setting};
ghost use Rattle.planner.specs.Cuttings.{Cuts};
ghost use Rattle.planner.specs.Trims.{RowTrim, LeastStart, Trim, RoundDone, Settled};

use crate::cutting::Cutting;
use pricing::{PRICE_OF_ONE, Released};
use queries::Table;
use stores::Store;
use tickets::Collection;

/// What supports a start: its ticket's pinned price there, with these releases, is within the ceiling.
#[derive(Clone, Copy)]
struct Support<'a> {
    released: Released<'a>,
    ceiling: u32,
}

impl Support<'_> {
    /// Whether the ticket's start is supported.
    fn is_given(&self, ticket: usize, start: usize) -> bool
        requires { (ticket < length (posted self.now.released.collection.now)) × (start ≤ 255) }
        ensures { Tells result (Supports (posted self.now.released.collection.now) (release self.now.released.releases) ticket start self.now.ceiling) }
    {
        // The ticket is one of the collection's and the start is at most 255, so nothing is refused. A closure for `is_ok_and` was
        // tried: it left open that the product fits.
        let Ok(price) = self.released.pinned_price(ticket, start) else {
            unreachable()
        };
        price <= PRICE_OF_ONE * u64::from(self.ceiling)
    }
}

impl<S: Store> Cutting<'_, S> {
    /// Cuts out of a ticket's row what is not supported, and tells whether its least start is another than the release;
    /// nothing, where the row is empty now.
    fn trim_row(&mut self, support: &Support, row: usize) -> Option<bool>
        requires { (row < length (posted support.now.released.collection.now)) × (row < 24) }
        ensures trim { RowTrim (setting (posted support.now.released.collection.now)) support.now.ceiling (release support.now.released.releases) row (S.rows self.old.store.now) (S.rows self.new.store.now) }
        ensures cuts { Cuts S.rows self.old self.new }
        ensures least { LeastStart (S.rows self.new.store.now row) (release support.now.released.releases row) result }
    {
        self.retain(row, |start| support.is_given(row, start));
        let least = self.store.after(row, 0)?;
        Some(least != usize::from(support.released.releases[row]))
    }

    /// Trims each ticket's row by the releases of the table, and tells whether the least start of one is another now;
    /// nothing, where a row is empty now.
    fn trim_round(&mut self, support: &Support) -> Option<bool>
        requires { ReleasesOf (posted support.now.released.collection.now) (S.rows self.old.store.now) support.now.released.releases }
        ensures name { self.new.store.ghost_name ≡ self.old.store.ghost_name }
        ensures trim { Trim (setting (posted support.now.released.collection.now)) support.now.ceiling (S.rows self.old.store.now) (bit_rows self.old.gone) (S.rows self.new.store.now) (bit_rows self.new.gone) }
        ensures done { RoundDone (setting (posted support.now.released.collection.now)) support.now.ceiling (S.rows self.old.store.now) (S.rows self.new.store.now) result }
    {
        let mut moved = false;
        for row in 0..support.released.collection.tickets().len() {
            moved |= self.trim_row(support, row)?;
        }
        Some(moved)
    }

    /// Trims round by round until no least start moves; nothing, where a row is empty then.
    ///
    /// Prices depend on a table through its least starts alone: where none moved, what is left is supported.
    pub(crate) fn settle(&mut self, collection: &Collection, ceiling: u32) -> Option<()>
        ensures name { self.new.store.ghost_name ≡ self.old.store.ghost_name }
        ensures trim { Trim (setting (posted collection.now)) ceiling (S.rows self.old.store.now) (bit_rows self.old.gone) (S.rows self.new.store.now) (bit_rows self.new.gone) }
        ensures done { Settled (setting (posted collection.now)) ceiling (S.rows self.old.store.now) (S.rows self.new.store.now) result }
    {
        loop {
            // The releases are taken out of what the table answers, which would hold on to the store.
            let store = &*self.store;
            let releases = Table { collection, store }.released()?.releases;
            let released = Released {
                collection,
                releases,
            };
            if !self.trim_round(&Support { released, ceiling })? {
                return Some(());
            }
        }
    }
}
