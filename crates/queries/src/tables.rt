//! The releases of a table, and the prices with them.
ghost use Rattle.std.specs.Prelude.{◌≡◌, IfSome, option_map};
ghost use Rattle.tickets.specs.Collections.{posted};
ghost use Rattle.queries.specs.TablePrices.{Released, FreeAnswer, PinnedAnswer, FloorAnswer};

use crate::table::Table;
use pricing::LAST_START;
use stores::Store;
use tickets::{MOST_TICKETS, PlannerRefusal};

impl<'a, S: Store> Table<'a, S> {
    /// The tickets, each released at the first start of its row, and the numbers that no ticket has at 0. There are
    /// none where some ticket's row is empty.
    pub fn released(&self) -> Option<pricing::Released<'a>>
        ensures same { IfSome result (λ r. r.collection.now ≡ self.now.collection.now) }
        ensures releases { Released (posted self.now.collection.now) (S.rows self.now.store.now) (option_map (λ r. r.releases) result) }
    {
        let mut releases = [0u8; MOST_TICKETS];
        let used = &mut releases[..self.collection.tickets().len()];
        for (row, release) in used.iter_mut().enumerate() {
            *release = self.store.after(row, 0)? as u8;
        }
        Some(pricing::Released {
            collection: self.collection,
            releases,
        })
    }

    /// The least price of a spread with the releases of the table. There is none where some ticket's row is empty.
    pub fn free_price(&self) -> Option<u64>
        ensures { FreeAnswer (posted self.now.collection.now) (S.rows self.now.store.now) result }
    {
        Some(self.released()?.free_price())
    }

    /// The least price of a spread in which the ticket has the slots from `start` on, and the other tickets have the
    /// releases of the table. There is none where some ticket's row is empty.
    pub fn pinned_price(&self, ticket: usize, start: usize) -> Result<Option<u64>, PlannerRefusal>
        ensures { PinnedAnswer (posted self.now.collection.now) (S.rows self.now.store.now) ticket start result }
    {
        // Asked here too, and not left to the released tickets: 11 and 12 come before an empty row, where there are none.
        if ticket >= self.collection.tickets().len() {
            return Err(PlannerRefusal::NoSuchTicket);
        }
        if start > LAST_START {
            return Err(PlannerRefusal::NoSuchStart);
        }
        match self.released() {
            Some(released) => released.pinned_price(ticket, start).map(Some),
            None => Ok(None),
        }
    }

    /// The free price in costs, rounded up; 0 where some ticket's row is empty.
    pub fn floor(&self) -> u64
        ensures { FloorAnswer (posted self.now.collection.now) (S.rows self.now.store.now) result }
    {
        // A number and not an `Option`: 0 is what the floor of such a table is.
        self.released().map_or(0, |released| released.floor())
    }
}
