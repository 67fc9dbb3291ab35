ghost use Rattle.std.specs.Prelude.{◌≤◌, length};

use crate::ticket::Ticket;
use arrayvec::ArrayVec;

/// How many tickets a collection can have.
pub const MOST_TICKETS: usize = 24;

/// The tickets posted so far, in order, and the ceiling.
///
/// It is not `Copy`: whoever takes it has the only one.
#[derive(Drop)]
pub struct Collection {
    pub(crate) tickets: ArrayVec<Ticket, MOST_TICKETS>,
    pub(crate) ceiling: u32,
    ghost few: { length tickets.items ≤ 24 },
    ghost bounded: { ceiling ≤ 16777215 },
}
