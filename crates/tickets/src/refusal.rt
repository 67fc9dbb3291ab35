ghost use Rattle.std.specs.Prelude.{◌≡◌};
ghost use Rattle.tickets.specs.Collections.{meaning};

/// Why a collection refuses.
#[derive(Clone, Copy, Debug, PartialEq)]
pub enum TicketRefusal {
    /// A ticket's numbers are outside the limits.
    OutsideLimits = 8,
    /// There are 24 tickets already.
    TooManyTickets = 9,
    /// A ceiling above 16,777,215.
    CeilingTooHigh = 10,
}

impl TicketRefusal {
    // Not one method of a trait for all layers: each answers by its own layer's definition.

    /// The number by which the refusal is known outside.
    pub fn number(self) -> u8
        ensures { result ≡ (meaning self).number }
    {
        self as u8
    }
}
