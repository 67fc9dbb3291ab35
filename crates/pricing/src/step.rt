//! What the builder is at, and what happens to it.

/// A ticket that plays, and since when.
#[derive(Clone, Copy)]
pub(crate) struct Playing {
    pub(crate) ticket: usize,
    pub(crate) since: u16,
}

/// What happens next.
#[derive(Clone, Copy)]
pub(crate) enum Event {
    /// The ticket is released.
    Release(usize),
    /// What plays is done.
    Completion(Playing),
}
