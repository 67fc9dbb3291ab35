//! The working entries of tickets.
ghost use Rattle.std.specs.Prelude.{◌≡◌, ◌<◌, ◌≤◌, [], ◌∷◌, ◌++◌, length};

use arrayvec::ArrayVec;
use tickets::MOST_TICKETS;

/// The working entry of a ticket.
#[derive(Clone, Copy)]
pub(crate) struct Work {
    /// The first slot in which it may play.
    pub(crate) release: u8,
    pub(crate) weight: u16,
    pub(crate) length: u8,
    /// Whether it ranks above all others.
    pub(crate) pinned: bool,
    ghost plays: { 1 ≤ length },
    ghost short: { length ≤ 16 },
    ghost light: { weight ≤ 1000 },
}

/// What stands in a place of `Works` that no ticket has.
impl Default for Work {
    fn default() -> Work {
        Work {
            release: 0,
            weight: 0,
            length: 1,
            pinned: false,
        }
    }
}

/// The working entries of all tickets of a collection, by their numbers.
#[derive(Drop)]
pub(crate) struct Works {
    pub(crate) entries: ArrayVec<Work, MOST_TICKETS>,
    ghost few: { length entries.items ≤ 24 },
}

impl Works {
    /// No entry yet.
    pub(crate) fn new() -> Works
        ensures { result.entries.items ≡ [] }
    {
        Works {
            entries: ArrayVec::new(),
        }
    }

    /// Adds the entry of the next ticket.
    pub(crate) fn push(&mut self, entry: Work)
        requires { length self.old.entries.items < 24 }
        ensures { self.new.entries.items ≡ self.old.entries.items ++ entry ∷ [] }
    {
        self.entries.push(entry);
    }
}
