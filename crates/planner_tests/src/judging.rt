//! Judging by the orders: what is judged by the standing rows is so by the orders' table.
ghost use Rattle.std.specs.Prelude.{◌≡◌, IfOk};
ghost use Rattle.tickets.specs.Collections.{posted};
ghost use Rattle.spreads.specs.Plans.{cost};
ghost use Rattle.queries.specs.Judging.{Judged, starts};
ghost use Rattle.planner_tests.specs.Judging.{JudgedByOrders, AffordedByOrders, PrunedAndJudged};

use planner::Planner;
use queries::Table;
use stores::Store;
use tickets::PlannerRefusal;

/// What the plan costs, where the orders and the ceiling afford it.
pub fn judge<S: Store>(planner: &Planner<S>, plan: &[u16]) -> Result<u32, PlannerRefusal>
    ensures judged { Judged (posted planner.now.collection) planner.now.ceiling (S.rows planner.now.store) plan.now result }
    ensures by_orders { JudgedByOrders S.rows planner.now plan.now result }
{
    let table = Table {
        collection: planner.collection(),
        store: planner.store(),
    };
    table.judge(planner.ceiling(), plan)
}

/// Prunes, and judges the plan by the rows that are left.
pub fn prune_and_judge<S: Store>(
    planner: &mut Planner<S>,
    cuts: &mut [u16],
    plan: &[u16],
) -> Result<u32, PlannerRefusal>
    ensures made { PrunedAndJudged S.rows planner.old cuts.old plan.now result planner.new cuts.new }
    ensures by_orders { IfOk result (λ c. (c ≡ cost (posted planner.old.collection) (starts plan.now)) × AffordedByOrders S.rows planner.old plan.now) }
{
    planner.prune(cuts)?;
    judge(planner, plan)
}
