ghost use Rattle.planner.specs.Promise.{Pruned};

use crate::cuts::{count_starts, list_cuts};
use crate::cutting::Cutting;
use crate::levels::note;
use crate::state::Planner;
use stores::Store;
use tickets::PlannerRefusal;

impl<S: Store> Planner<S> {
    /// Makes the table the largest self-supporting one, lists the cuts, and answers their number.
    ///
    /// The list is enough if it has a word for each start that stands, less one for each ticket. A cut is listed as
    /// 256 × ticket + start.
    // The list is lent, and the number of its words is answered: nothing may allocate.
    pub fn prune(&mut self, cuts: &mut [u16]) -> Result<usize, PlannerRefusal>
        ensures { Pruned S.rows self.old cuts.old result self.new cuts.new }
    {
        let tickets = self.collection.tickets().len();
        let standing = count_starts(&self.store, tickets);
        if cuts.len() + tickets < standing {
            return Err(PlannerRefusal::TooShort);
        }
        let mut cutting = Cutting::of(&mut self.store);
        if cutting.settle(&self.collection, self.ceiling).is_none() {
            cutting.put_back();
            return Err(PlannerRefusal::Hopeless);
        }
        note(&mut self.levels, &cutting.gone);
        list_cuts(&cutting.gone, cuts);
        Ok(count_starts(&cutting.gone, tickets))
    }
}
