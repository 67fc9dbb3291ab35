//! The calls for prices.
ghost use Rattle.std.specs.Prelude.{◌≡◌, ◌≤◌, length};
ghost use Rattle.tickets.specs.Collections.{posted};
ghost use Rattle.spreads.specs.Spreads.{LeastPrice};
ghost use Rattle.pricing.specs.Works.{Made};
ghost use Rattle.pricing.specs.Prices.{PinnedAnswer, Floor, start_of, first_starts};

use crate::work::{Work, Works};
use std::array;
use tickets::{Collection, MOST_TICKETS, PlannerRefusal, Ticket};

/// The last slot in which a ticket can start.
pub const LAST_START: usize = 255;

/// A price of this much is a cost of one.
pub const PRICE_OF_ONE: u64 = 720720;

/// The tickets of a collection, each with a release. The releases past the last ticket have no meaning.
#[derive(Clone, Copy)]
pub struct Released<'a> {
    pub collection: &'a Collection,
    // No vector: with 24 places every value is valid, and no caller owes a bound on the length.
    pub releases: [u8; MOST_TICKETS],
}

/// The first start of the ticket, and 0 where no ticket has the number.
fn first_start(tickets: &[Ticket], number: usize) -> u8
    ensures { result ≡ start_of tickets.now number }
{
    // A number and not an `Option`: all 24 places of the releases are filled, and those past the tickets have no meaning.
    tickets.get(number).map_or(0, |ticket| ticket.first)
}

impl<'a> Released<'a> {
    /// The tickets as posted: each is released at its first start, and the numbers that no ticket has at 0.
    pub fn as_posted(collection: &'a Collection) -> Released<'a>
        ensures same { result.collection.now ≡ collection.now }
        ensures releases { result.releases ≡ first_starts (posted collection.now) }
    {
        let tickets = collection.tickets();
        Released {
            collection,
            releases: array::from_fn(|number| first_start(tickets, number)),
        }
    }

    /// The working entries of the tickets, none of them pinned.
    fn works(&self) -> Works
        ensures { Made (posted self.now.collection.now) self.now.releases (length (posted self.now.collection.now)) result.entries.items }
    {
        // Made where it stays: a vector that was moved into `Works` at the end would be copied whole.
        let mut works = Works::new();
        for (ticket, release) in self.collection.tickets().iter().zip(&self.releases) {
            works.push(Work {
                release: *release,
                weight: ticket.weight,
                length: ticket.length,
                pinned: false,
            });
        }
        works
    }

    /// The least price of a spread of the tickets.
    pub fn free_price(&self) -> u64
        ensures { LeastPrice (posted self.now.collection.now) self.now.releases result }
    {
        self.works().build()
    }

    /// The least price of a spread in which the ticket has the slots from `start` on, whatever its release. Refused
    /// where no ticket has this number, and then where the start is past 255.
    pub fn pinned_price(&self, ticket: usize, start: usize) -> Result<u64, PlannerRefusal>
        ensures { PinnedAnswer (posted self.now.collection.now) self.now.releases ticket start result }
    {
        if ticket >= self.collection.tickets().len() {
            return Err(PlannerRefusal::NoSuchTicket);
        }
        if start > LAST_START {
            return Err(PlannerRefusal::NoSuchStart);
        }
        Ok(self.works().build_pinned(ticket, start as u8))
    }

    /// The free price divided by 720720, rounded up.
    pub fn floor(&self) -> u64
        ensures { Floor (posted self.now.collection.now) self.now.releases result }
    {
        self.free_price().div_ceil(PRICE_OF_ONE)
    }
}
