//! Filling a store with the posted starts.
ghost use Rattle.std.specs.Prelude.{◌≡◌, ℕ, ◌<◌, ◌≤◌, ◌&&◌, ◌||◌, length};
ghost use Rattle.runs.specs.Tables.{posted};
ghost use Rattle.runs.specs.Supports.{setting};
ghost use Rattle.planner.specs.Sets.{union, without_row, range_of};

use crate::cutting::Cutting;
use stores::{ROWS, Store};
use tickets::Ticket;

/// Takes every start out of a row.
fn empty_row<S: Store>(store: &mut S, row: usize)
    ensures { S.rows store.new ≡ without_row (S.rows store.old) row }
{
    // What was cut out is let go: the one walk over a row notes it for its other uses.
    Cutting::of(store).retain(row, |_| false);
}

/// Puts the ticket's first to last start into a row.
fn fill_row<S: Store>(store: &mut S, row: usize, ticket: &Ticket)
    requires { row < 24 }
    ensures { S.rows store.new ≡ union (S.rows store.old) (range_of row ticket.now.first ticket.now.last) }
{
    for start in usize::from(ticket.first)..=usize::from(ticket.last) {
        let _ = store.put_back(row, start);
    }
}

/// Empties the store, and fills the row of each ticket with its first to last start.
pub(crate) fn fill<S: Store>(store: &mut S, tickets: &[Ticket])
    requires { length tickets.now ≤ 24 }
    ensures { S.rows store.new ≡ posted (setting tickets.now) }
{
    for row in 0..ROWS {
        empty_row(store, row);
        if let Some(ticket) = tickets.get(row) {
            fill_row(store, row, ticket);
        }
    }
}
