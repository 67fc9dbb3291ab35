//! The calls, each with what it leaves of plans: after whatever history led to the planner, a plan that is affordable in the
//! orders' table as it is after the call stands in the rows after the call.
ghost use Rattle.std.specs.Prelude.{length};
ghost use Rattle.tickets.specs.Collections.{posted as tickets_of};
ghost use Rattle.runs.specs.Tables.{posted};
ghost use Rattle.runs.specs.Supports.{setting};
ghost use Rattle.runs.specs.Planner.{sealed};
ghost use Rattle.runs.specs.Ledger.{opened as ledger_of};
ghost use Rattle.runs.specs.Whole.{PruneAnswers};
ghost use Rattle.runs.specs.declared.call.Call.TheVariants.{Ban, Fix, Lower, Mark, Keep, Undo, Prune};
ghost use Rattle.planner.specs.States.{state_of, done, opened, closed};
ghost use Rattle.planner.specs.Promise.{pruned};
ghost use Rattle.planner_tests.specs.Plans.{Called, Keeps};

use planner::{Planner, Token, TokenRefused};
use stores::Store;
use tickets::{Collection, PlannerRefusal};

pub fn ban<S: Store>(
    planner: &mut Planner<S>,
    ticket: usize,
    start: usize,
) -> Result<(), PlannerRefusal>
    ensures { Called S.rows planner.old (Ban ticket start) (done result) planner.new }
{
    planner.ban(ticket, start)
}

pub fn fix<S: Store>(
    planner: &mut Planner<S>,
    ticket: usize,
    start: usize,
) -> Result<(), PlannerRefusal>
    ensures { Called S.rows planner.old (Fix ticket start) (done result) planner.new }
{
    planner.fix(ticket, start)
}

pub fn lower<S: Store>(planner: &mut Planner<S>, ceiling: u32) -> Result<(), PlannerRefusal>
    ensures { Called S.rows planner.old (Lower ceiling) (done result) planner.new }
{
    planner.lower(ceiling)
}

pub fn mark<S: Store>(planner: &mut Planner<S>) -> Result<Token, PlannerRefusal>
    ensures { Called S.rows planner.old Mark (opened result) planner.new }
{
    planner.mark()
}

pub fn keep<S: Store>(planner: &mut Planner<S>, token: Token) -> Result<(), TokenRefused>
    ensures { Called S.rows planner.old (Keep token.stamp token.level) (closed result) planner.new }
{
    planner.keep(token)
}

pub fn undo<S: Store>(planner: &mut Planner<S>, token: Token) -> Result<(), TokenRefused>
    ensures { Called S.rows planner.old (Undo token.stamp token.level) (closed result) planner.new }
{
    planner.undo(token)
}

pub fn prune<S: Store>(planner: &mut Planner<S>, cuts: &mut [u16]) -> Result<usize, PlannerRefusal>
    ensures { Called S.rows planner.old (Prune (length cuts.old)) (pruned result) planner.new }
{
    planner.prune(cuts)
}

/// Seals the collection, and prunes at once: each plan of posted starts that the ceiling affords stands afterwards, and the prune
/// answers by the posted rows.
pub fn seal_and_prune<S: Store>(
    collection: Collection,
    store: S,
    stamp: u16,
    cuts: &mut [u16],
) -> (Planner<S>, Result<usize, PlannerRefusal>)
    ensures plans { Keeps (setting (tickets_of collection)) collection.ceiling (posted (setting (tickets_of collection))) (S.rows result.0.store) }
    ensures answer { PruneAnswers (setting (tickets_of collection)) (ledger_of collection.ceiling) (length cuts.old) (sealed (setting (tickets_of collection)) stamp collection.ceiling) (pruned result.1) (state_of S.rows result.0) }
{
    let mut planner = Planner::seal(collection, store, stamp);
    let answer = planner.prune(cuts);
    (planner, answer)
}
