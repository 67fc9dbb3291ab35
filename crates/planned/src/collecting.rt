ghost use Rattle.ticket_file.specs.Readings.{plain};
ghost use Rattle.planned.specs.Records.{Posted, Collected};

use crate::fault::{Fault, Refusal};
use ticket_file::{Placed, Record};
use tickets::{Collection, TicketRefusal};

/// Posts a ticket, or sets the ceiling; a ban is left for later.
fn post(collection: &mut Collection, placed: &Placed<'_>) -> Result<(), Fault>
    ensures { Posted collection.old (plain placed.now.record) placed.now.place result collection.new }
{
    let refused = |refusal: TicketRefusal| Fault {
        refusal: Refusal::Ticket(refusal),
        place: placed.place,
    };
    match placed.record {
        Record::Ticket { terms, .. } => {
            collection.post(terms).map_err(refused)?;
        }
        Record::Ceiling { ceiling } => collection.set_ceiling(ceiling).map_err(refused)?,
        Record::Ban { .. } => {}
    }
    Ok(())
}

/// The collection of the records' tickets and ceiling, unless one of them is refused.
pub(crate) fn collect(records: &[Placed<'_>]) -> Result<Collection, Fault>
    ensures { Collected records.now result }
{
    let mut collection = Collection::new();
    for placed in records {
        post(&mut collection, placed)?;
    }
    Ok(collection)
}
