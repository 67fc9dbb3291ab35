ghost use Rattle.std.specs.Prelude.{◌≡◌};
ghost use Rattle.tickets.specs.Collections.{held, posted};

use crate::collection::Collection;
use crate::ticket::Ticket;

impl Collection {
    /// The tickets, in the order in which they were posted.
    pub fn tickets(&self) -> &[Ticket]
        ensures { result.now ≡ posted self.now }
    {
        self.tickets.as_slice()
    }

    /// The cost that no plan may pass.
    pub fn ceiling(&self) -> u32
        ensures { result ≡ (held self.now).ceiling }
    {
        self.ceiling
    }
}
