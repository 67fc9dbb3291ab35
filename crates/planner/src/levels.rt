//! What the open levels remember: for each the set of starts that were taken out while it was the newest.
ghost use Rattle.std.specs.Prelude.{◌≡◌, ◌≤◌, List, [], ◌∷◌, ◌++◌, length, reverse};
ghost use Rattle.stores.specs.Sets.{Rows};
ghost use Rattle.stores.specs.BitRows.{bit_rows};
ghost use Rattle.stores.specs.declared.bit_store.BitStore.{BitStore};
ghost use Rattle.planner.specs.Sets.{union};
ghost use Rattle.planner.specs.Levels.{at_marks};

use crate::sets::pour;
use crate::state::MOST_LEVELS;
use arrayvec::ArrayVec;
use stores::BitStore;

/// Notes in the newest level what was taken out; nothing where no level is open.
pub(crate) fn note(levels: &mut [BitStore], gone: &BitStore)
    ensures tables { (R : Rows) → at_marks R (reverse levels.new) ≡ at_marks (union R (bit_rows gone.now)) (reverse levels.old) }
    ensures many { length levels.new ≡ length levels.old }
{
    if let Some(newest) = levels.last_mut() {
        pour(newest, gone);
    }
}

/// Closes the newest level, and notes what was taken out there in the one below.
pub(crate) fn join(levels: &mut ArrayVec<BitStore, MOST_LEVELS>)
    ensures tables { (R : Rows) (below : List BitStore) (newest : BitStore) → levels.old.items ≡ below ++ newest ∷ [] → at_marks R (reverse levels.new.items) ≡ at_marks (union R (bit_rows newest)) (reverse below) }
    ensures many { length levels.new.items ≤ length levels.old.items }
{
    if let Some((newest, below)) = levels.split_last_mut() {
        note(below, newest);
        levels.pop();
    }
}
