//! Trying a ban, and going back.
ghost use Rattle.std.specs.Prelude.{◌≡◌, ◌≤◌, Err, length};
ghost use Rattle.tickets.specs.declared.planner_refusal.PlannerRefusal.TheVariants.{TooManyLevels};
ghost use Rattle.planner.specs.States.{setting_of, state_of};
ghost use Rattle.planner_tests.specs.Trying.{Tried, Unchanged, MarkTells};

use planner::{Planner, TokenRefused};
use stores::Store;
use tickets::PlannerRefusal;

/// Bans a start and prunes, and answers how many more starts were cut.
fn ban_and_prune<S: Store>(
    planner: &mut Planner<S>,
    ticket: usize,
    start: usize,
    cuts: &mut [u16],
) -> Result<usize, PlannerRefusal>
    ensures { Tried S.rows planner.old ticket start cuts.old result planner.new cuts.new }
{
    planner.ban(ticket, start)?;
    planner.prune(cuts)
}

/// What a prune would cut after a ban of the start: the cuts are listed, and their number is answered. The planner is
/// as it was, whatever was refused.
pub fn what_if<S: Store>(
    planner: &mut Planner<S>,
    ticket: usize,
    start: usize,
    cuts: &mut [u16],
) -> Result<usize, PlannerRefusal>
    ensures unchanged { Unchanged S.rows planner.old planner.new }
    ensures full { 32 ≤ length (state_of S.rows planner.old).levels → result ≡ Err TooManyLevels }
    ensures tells { MarkTells (setting_of planner.old) (state_of S.rows planner.old) ticket start cuts.old result cuts.new }
{
    let token = planner.mark()?;
    let answer = ban_and_prune(planner, ticket, start, cuts);
    match planner.undo(token) {
        Ok(()) => answer,
        Err(_refused) => unreachable!(),
    }
}
