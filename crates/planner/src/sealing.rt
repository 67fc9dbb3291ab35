ghost use Rattle.planner.specs.Calls.{Sealed};

use crate::filling::fill;
use crate::state::Planner;
use arrayvec::ArrayVec;
use stores::Store;
use tickets::Collection;

impl<S: Store> Planner<S> {
    /// A planner over the tickets of the collection. Whatever the store held, it now holds the first to the last start
    /// of each ticket. The stamp tells the planner's tokens from those of others.
    pub fn seal(collection: Collection, store: S, stamp: u16) -> Planner<S>
        ensures { Sealed S.rows collection stamp result }
    {
        let mut store = store;
        fill(&mut store, collection.tickets());
        let ceiling = collection.ceiling();
        Planner {
            collection,
            store,
            ceiling,
            stamp,
            levels: ArrayVec::new(),
        }
    }
}
