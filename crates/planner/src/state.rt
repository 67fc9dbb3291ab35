ghost use Rattle.std.specs.Prelude.{◌≤◌, length};

use arrayvec::ArrayVec;
use stores::BitStore;
use tickets::Collection;

/// How many levels can be open.
pub(crate) const MOST_LEVELS: usize = 32;

/// A sealed planner: its tickets, the standing table in a store, the ceiling, and the open levels.
#[derive(Drop)]
pub struct Planner<S> {
    pub(crate) collection: Collection,
    pub(crate) store: S,
    pub(crate) ceiling: u32,
    pub(crate) stamp: u16,
    /// The starts that were taken out while the level was the newest, for each open level, the newest last.
    pub(crate) levels: ArrayVec<BitStore, MOST_LEVELS>,
    ghost shallow: { length levels.items ≤ 32 },
}
