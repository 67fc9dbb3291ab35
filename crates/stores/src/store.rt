ghost use Rattle.std.specs.Prelude.{◌≡◌};
ghost use Rattle.stores.specs.Sets.{Rows, Bounded, without, with, missing, size_of, First};
ghost use Rattle.stores.specs.SetLaws.{SetLaws};

/// How many rows a store has.
pub const ROWS: usize = 24;

/// A start is below this.
pub const STARTS: usize = 256;

/// Sets of starts, one a row.
///
/// The calls take any row and any start. Where the row is above 23 or the start above 255, nothing is there
/// and nothing changes. `holds`, `size` and `after` only read: all rows stay as they were.
pub trait Store {
    /// The sets: which starts each row holds.
    ghost rows: { Self → Rows };

    /// Whether the start is in the row.
    fn holds(&self, row: usize, start: usize) -> bool
        ensures { result ≡ rows self.now row start };

    /// How many starts the row has.
    fn size(&self, row: usize) -> usize
        ensures { result ≡ size_of (rows self.now row) };

    /// The first start of the row at or after the given one.
    fn after(&self, row: usize, start: usize) -> Option<usize>
        ensures { First (rows self.now row) start result };

    /// Takes the start out of the row, and tells whether it was there.
    fn take_out(&mut self, row: usize, start: usize) -> bool
        ensures was { result ≡ rows self.old row start }
        ensures left { rows self.new ≡ without (rows self.old) row start };

    /// Puts the start into the row, and tells whether it was missing.
    fn put_back(&mut self, row: usize, start: usize) -> bool
        ensures was { result ≡ missing (rows self.old) row start }
        ensures left { rows self.new ≡ with (rows self.old) row start };

    /// Nothing is held out of range.
    ghost bounded: { (s : Self) → Bounded (rows s) };
}

/// The laws of the rows, for every store.
pub fn set_laws()
    ensures { SetLaws }
{}
