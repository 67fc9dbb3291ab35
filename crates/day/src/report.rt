ghost use Rattle.std.specs.Prelude.{IfOk};
ghost use Rattle.day.specs.Reports.{Reported};

use crate::contents::{GatherError, gather};
use crate::fault::Fault;
use crate::text::listing;
use std::alloc::{AllocError, Global};

/// What a file comes to: the text to print, which is the listing or the line of the fault.
#[derive(Drop)]
pub struct Report {
    pub text: String,
    pub fault: Option<Fault>,
}

/// The report on a ticket file.
pub fn report_on(heap: Global, file: &[u8]) -> Result<Report, AllocError>
    ensures { IfOk result (λ x. Reported file.now x) }
{
    match gather(heap, file) {
        Ok(contents) => Ok(Report {
            text: listing(heap, &contents)?,
            fault: None,
        }),
        Err(GatherError::Refused(fault)) => Ok(Report {
            text: format!(in heap; "{fault}\n")?,
            fault: Some(fault),
        }),
        Err(GatherError::OutOfMemory(error)) => Err(error),
    }
}
