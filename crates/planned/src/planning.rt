ghost use Rattle.std.specs.Prelude.{◌≡◌};
ghost use Rattle.planned.specs.declared.planning.PlanError.TheVariants.{Refused, OutOfMemory};
ghost use Rattle.planned.specs.Reports.{Outcome};

use crate::bans::ban_all;
use crate::collecting::collect;
use crate::fault::{Fault, Refusal};
use planner::Planner;
use std::alloc::{AllocError, Global};
use stores::{BitStore, ROWS, STARTS};

/// No planner has more starts to cut.
const MOST_CUTS: usize = ROWS * STARTS;

// Like the error of `day`, which is private there and has day's own fault in it.

/// Why a file comes to no pruned planner.
#[derive(Clone, Copy)]
pub(crate) enum PlanError {
    /// The file has a fault.
    Refused(Fault),
    OutOfMemory(AllocError),
}

impl From<Fault> for PlanError {
    ghost from_gives = { λ f e. e ≡ Refused f };

    fn from(fault: Fault) -> PlanError {
        PlanError::Refused(fault)
    }
}

impl From<AllocError> for PlanError {
    ghost from_gives = { λ e g. g ≡ OutOfMemory e };

    fn from(error: AllocError) -> PlanError {
        PlanError::OutOfMemory(error)
    }
}

/// The planner of a file's tickets and ceiling, after its bans, pruned.
pub(crate) fn plan(heap: Global, file: &[u8]) -> Result<Planner<BitStore>, PlanError>
    ensures { Outcome file.now result }
{
    let reading = ticket_file::read(heap, file)?;
    let collection = collect(&reading.records)?;
    let mut planner = Planner::seal(collection, BitStore::empty(), 0);
    ban_all(&mut planner, &reading.records)?;
    if let Some(fault) = reading.fault {
        return Err(Fault::from(fault).into());
    }
    let mut cuts = [0; MOST_CUTS];
    // A `match` and no `?`: neither arm hands on what the prune answered.
    match planner.prune(&mut cuts) {
        Ok(_) => Ok(planner),
        Err(refusal) => Err(PlanError::Refused(Fault {
            refusal: Refusal::Planner(refusal),
            place: file.len(),
        })),
    }
}
