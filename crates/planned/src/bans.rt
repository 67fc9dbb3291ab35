ghost use Rattle.ticket_file.specs.Readings.{plain};
ghost use Rattle.planned.specs.Plans.{Judged, Ready, BannedAll};

use crate::fault::{Fault, Refusal};
use planner::Planner;
use stores::BitStore;
use ticket_file::{Placed, Record};
use tickets::PlannerRefusal;

/// Takes the start of a ban out of its row; other records have nothing for the planner.
fn ban(planner: &mut Planner<BitStore>, placed: &Placed<'_>) -> Result<(), Fault>
    ensures { Judged planner.old (plain placed.now.record) placed.now.place result planner.new }
{
    if let Record::Ban { ticket, start } = placed.record {
        let refused = |refusal: PlannerRefusal| Fault {
            refusal: Refusal::Planner(refusal),
            place: placed.place,
        };
        let answer = planner.ban(usize::from(ticket), usize::from(start));
        answer.map_err(refused)?;
    }
    Ok(())
}

/// Takes the starts of all bans out of their rows, one after the other, unless one of them is refused.
pub(crate) fn ban_all(planner: &mut Planner<BitStore>, records: &[Placed<'_>]) -> Result<(), Fault>
    requires { Ready records.now planner.old }
    ensures { BannedAll records.now result planner.new }
{
    for placed in records {
        ban(planner, placed)?;
    }
    Ok(())
}
