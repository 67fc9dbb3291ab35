ghost use Rattle.std.specs.Prelude.{◌≡◌};

use stores::Store;

/// Asks all that can be asked of a row and a start; all rows stay as they were.
pub fn ask<S: Store>(store: &mut S, row: usize, start: usize) -> (bool, usize, Option<usize>)
    ensures { S.rows store.new ≡ S.rows store.old }
{
    (
        store.holds(row, start),
        store.size(row),
        store.after(row, start),
    )
}

/// Takes a start out and puts it back, if it was there; all rows are as they were.
pub fn out_and_back<S: Store>(store: &mut S, row: usize, start: usize)
    ensures { S.rows store.new ≡ S.rows store.old }
{
    if store.take_out(row, start) {
        let _ = store.put_back(row, start);
    }
}
