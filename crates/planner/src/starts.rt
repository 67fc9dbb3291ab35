//! Walking the starts of a store.
ghost use Rattle.std.specs.Prelude.{◌≡◌, ℕ, ◌-◌, ◌≤◌};
ghost use Rattle.std.specs.Iterator.{at_most};

use stores::{ROWS, Store};

/// The starts of a store, each with its row, row by row and in order.
#[derive(Drop)]
pub(crate) struct Starts<'a, S> {
    store: &'a S,
    /// The row that is walked.
    row: usize,
    /// The first start of the row that was not passed.
    next: usize,
}

impl<'a, S> Starts<'a, S> {
    ghost use Rattle.planner.specs.Starts.{place};

    /// All starts of the store.
    pub(crate) fn of(store: &'a S) -> Starts<'a, S>
        ensures store { result.store.now ≡ store.now }
        ensures begins { place result ≡ 0 }
        ensures within { result.next ≤ 256 }
    {
        Starts {
            store,
            row: 0,
            next: 0,
        }
    }
}

impl<'a, S: Store> Iterator for Starts<'a, S> {
    ghost use Rattle.planner.specs.Starts.{place, Walks};

    type Item = (usize, usize);

    ghost can_next = { λ s. s.next ≤ 256 };

    ghost next_gives = { Walks S.rows };

    ghost remaining = { λ s. at_most (6144 - place s) };

    fn next(&mut self) -> Option<(usize, usize)> {
        // The row is counted by hand: it is the walk's own state, and a `for` over the rows would have to write it back.
        while self.row < ROWS {
            if let Some(start) = self.store.after(self.row, self.next) {
                self.next = start + 1;
                return Some((self.row, start));
            }
            self.row += 1;
            self.next = 0;
        }
        None
    }
}
