ghost use Rattle.std.specs.Prelude.{◌≤◌};

use crate::refusal::TicketRefusal;
use crate::terms::Terms;

/// A ticket within the limits; the ghost fields state them.
#[derive(Clone, Copy)]
pub struct Ticket {
    pub first: u8,
    pub last: u8,
    pub length: u8,
    pub weight: u16,
    ghost ordered: { first ≤ last },
    ghost plays: { 1 ≤ length },
    ghost short: { length ≤ 16 },
    ghost light: { weight ≤ 1000 },
}

impl Default for Ticket {
    ghost use Rattle.tickets.specs.Collections.{IsLeast};

    ghost is_default = { IsLeast };

    /// The least ticket: one slot at slot 0, of no weight.
    fn default() -> Ticket {
        Ticket {
            first: 0,
            last: 0,
            length: 1,
            weight: 0,
        }
    }
}

impl TryFrom<Terms> for Ticket {
    type Error = TicketRefusal;

    ghost use Rattle.tickets.specs.Collections.{Judged};

    ghost try_from_gives = { Judged };

    /// The ticket with these terms, if they are within the limits.
    fn try_from(terms: Terms) -> Result<Ticket, TicketRefusal> {
        let Terms {
            first,
            last,
            length,
            weight,
        } = terms;
        if first > last || !(1..=16).contains(&length) || weight > 1000 {
            return Err(TicketRefusal::OutsideLimits);
        }
        Ok(Ticket {
            first,
            last,
            length,
            weight,
        })
    }
}
