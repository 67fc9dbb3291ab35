//! Work on sets of starts.
ghost use Rattle.std.specs.Prelude.{◌≡◌};
ghost use Rattle.planner.specs.Sets.{union};

use crate::starts::Starts;
use stores::Store;

/// Puts every start of `from` into `into`.
pub(crate) fn pour<S: Store, F: Store>(into: &mut S, from: &F)
    ensures { S.Store.rows into.new ≡ union (S.Store.rows into.old) (F.Store.rows from.now) }
{
    for (row, start) in Starts::of(from) {
        let _ = into.put_back(row, start);
    }
}
