ghost use Rattle.std.specs.Prelude.{IfOk};
ghost use Rattle.planned.specs.Reports.{Reported, NoPlanLost};

use crate::fault::Fault;
use crate::listing_text::listing_text;
use crate::planning::{PlanError, plan};
use std::alloc::{AllocError, Global};

/// What a file comes to: the text to print, which is the listing or the line of the fault.
#[derive(Drop)]
pub struct Report {
    pub text: Vec<u8>,
    pub fault: Option<Fault>,
}

/// The report on a ticket file.
#[tactic(auto, using(crate::proofs::Affordables::no_plan_lost))]
pub fn report_on(heap: Global, file: &[u8]) -> Result<Report, AllocError>
    ensures report { IfOk result (λ x. Reported file.now x) }
    ensures plans { NoPlanLost file.now }
{
    match plan(heap, file) {
        Ok(planner) => Ok(Report {
            text: listing_text(heap, &planner)?,
            fault: None,
        }),
        Err(PlanError::Refused(fault)) => Ok(Report {
            text: format!(in heap; "{fault}\n")?.into_bytes(),
            fault: Some(fault),
        }),
        Err(PlanError::OutOfMemory(error)) => Err(error),
    }
}
