ghost use Rattle.std.specs.Prelude.{◌≡◌};
ghost use Rattle.tickets.specs.Collections.{held, no_tickets, Posted, Limited};

use crate::collection::Collection;
use crate::refusal::TicketRefusal;
use crate::terms::Terms;
use crate::ticket::Ticket;
use arrayvec::ArrayVec;

/// The highest ceiling, and the one that a collection begins with.
pub const HIGHEST_CEILING: u32 = 16777215;

impl Collection {
    /// No tickets yet, and the highest ceiling.
    pub fn new() -> Collection
        ensures { held result ≡ no_tickets }
    {
        Collection {
            tickets: ArrayVec::new(),
            ceiling: HIGHEST_CEILING,
        }
    }

    /// Adds a ticket, and answers its number.
    pub fn post(&mut self, terms: Terms) -> Result<usize, TicketRefusal>
        ensures { Posted self.old terms result self.new }
    {
        let ticket = Ticket::try_from(terms)?;
        if self.tickets.is_full() {
            return Err(TicketRefusal::TooManyTickets);
        }
        let number = self.tickets.len();
        self.tickets.push(ticket);
        Ok(number)
    }

    /// Replaces the ceiling.
    pub fn set_ceiling(&mut self, ceiling: u32) -> Result<(), TicketRefusal>
        ensures { Limited self.old ceiling result self.new }
    {
        if ceiling > HIGHEST_CEILING {
            return Err(TicketRefusal::CeilingTooHigh);
        }
        self.ceiling = ceiling;
        Ok(())
    }
}
