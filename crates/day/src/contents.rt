ghost use Rattle.std.specs.Prelude.{◌≡◌, Some};
ghost use Rattle.ticket_file.specs.Readings.{plain};
ghost use Rattle.day.specs.declared.contents.GatherError.TheVariants.{Refused, OutOfMemory};
ghost use Rattle.std.specs.declared.alloc.AllocError.{AllocError};
ghost use Rattle.day.specs.Judging.{nothing};
ghost use Rattle.day.specs.Contents.{banned, gathered, Took};
ghost use Rattle.day.specs.Reports.{Outcome};
ghost use Rattle.day.specs.Texts.{ban_text};

use crate::fault::Fault;
use std::alloc::{AllocError, AllocFailed, Global};
use std::fmt;
use ticket_file::{Placed, Record};
use tickets::{Collection, TicketRefusal};

/// Why the records of a file are not all gathered.
#[derive(Clone, Copy)]
pub(crate) enum GatherError {
    /// The file has a fault.
    Refused(Fault),
    OutOfMemory(AllocError),
}

impl From<Fault> for GatherError {
    ghost from_gives = { λ f e. e ≡ Refused f };

    fn from(fault: Fault) -> GatherError {
        GatherError::Refused(fault)
    }
}

impl From<AllocError> for GatherError {
    ghost from_gives = { λ e g. g ≡ OutOfMemory e };

    fn from(error: AllocError) -> GatherError {
        GatherError::OutOfMemory(error)
    }
}

impl<T: Drop> From<AllocFailed<T>> for GatherError {
    ghost from_gives = { λ _ g. (e : AllocError) × (g ≡ OutOfMemory e) };

    fn from(failed: AllocFailed<T>) -> GatherError {
        GatherError::OutOfMemory(failed.into())
    }
}

/// A start that a file wants banned.
#[derive(Clone, Copy)]
pub(crate) struct Ban {
    pub(crate) ticket: u8,
    pub(crate) start: u8,
}

impl fmt::Display for Ban {
    ghost output = { λ b. Some (ban_text (banned b)) };

    fn fmt<W: fmt::Write>(&self, f: &mut fmt::Formatter<W>) -> fmt::Result {
        write!(f, "ban {} {}", self.ticket, self.start)
    }
}

/// What the records of a file came to.
#[derive(Drop)]
pub(crate) struct Contents {
    pub(crate) collection: Collection,
    pub(crate) bans: Vec<Ban>,
}

impl Contents {
    /// No record yet.
    fn new(heap: Global) -> Contents
        ensures { gathered result ≡ nothing }
    {
        Contents {
            collection: Collection::new(),
            bans: Vec::new(heap),
        }
    }

    /// Judges a record, and takes it in unless it is refused.
    fn take(&mut self, placed: &Placed<'_>) -> Result<(), GatherError>
        ensures { Took (gathered self.old) (plain placed.now.record) placed.now.place result (gathered self.new) }
    {
        let refused = |refusal: TicketRefusal| Fault {
            refusal: refusal.into(),
            place: placed.place,
        };
        match placed.record {
            Record::Ticket { terms, label: _ } => {
                self.collection.post(terms).map_err(refused)?;
            }
            Record::Ceiling { ceiling } => self.collection.set_ceiling(ceiling).map_err(refused)?,
            Record::Ban { ticket, start } => self.bans.push(Ban { ticket, start })?,
        }
        Ok(())
    }
}

/// Judges and takes in the records of a file, one after the other, up to its fault.
pub(crate) fn gather(heap: Global, file: &[u8]) -> Result<Contents, GatherError>
    ensures { Outcome file.now result }
{
    let reading = ticket_file::read(heap, file)?;
    let mut contents = Contents::new(heap);
    for placed in &reading.records {
        contents.take(placed)?;
    }
    match reading.fault {
        Some(fault) => Err(Fault::from(fault).into()),
        None => Ok(contents),
    }
}
