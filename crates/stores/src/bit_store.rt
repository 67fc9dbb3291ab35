ghost use Rattle.std.specs.Prelude.{◌≡◌, ℕ};
ghost use Rattle.stores.specs.Sets.{no_starts};
ghost use Rattle.stores.specs.BitRows.{starts_of, bit_rows};
ghost use Rattle.stores.specs.Bounds.{rows_bounded};

use crate::row::Row;
use crate::store::{ROWS, Store};

/// A store with a bit for each start.
#[derive(Clone, Copy)]
pub struct BitStore {
    rows: [Row; ROWS],
}

impl BitStore {
    /// Every row empty.
    pub fn empty() -> BitStore
        ensures { bit_rows result ≡ no_starts }
    {
        BitStore {
            rows: [Row::empty(); ROWS],
        }
    }

    /// The row, which is empty where it is out of range.
    fn row_at(&self, row: usize) -> Row
        ensures { (t : ℕ) → starts_of result t ≡ bit_rows self.now row t }
    {
        self.rows.get(row).copied().unwrap_or(Row::empty())
    }
}

impl Default for BitStore {
    ghost is_default = { λ s. bit_rows s ≡ no_starts };

    /// Every row empty.
    fn default() -> BitStore {
        BitStore::empty()
    }
}

impl Store for BitStore {
    ghost rows = { bit_rows };

    ghost bounded = { rows_bounded };

    fn holds(&self, row: usize, start: usize) -> bool {
        self.row_at(row).holds(start)
    }

    fn size(&self, row: usize) -> usize {
        self.row_at(row).size()
    }

    fn after(&self, row: usize, start: usize) -> Option<usize> {
        self.row_at(row).after(start)
    }

    // `get_mut` says nothing of what the rows are afterwards, so the row is tested and indexed.
    fn take_out(&mut self, row: usize, start: usize) -> bool {
        row < ROWS && self.rows[row].take_out(start)
    }

    fn put_back(&mut self, row: usize, start: usize) -> bool {
        row < ROWS && self.rows[row].put_back(start)
    }
}
