//! The entries of the two waiting lines; each is its own key.
ghost use Rattle.std.specs.Prelude.{◌≤◌};

/// When a ticket is released: the earlier slot first, then the lower number.
#[derive(Clone, Copy, PartialEq, Eq, PartialOrd, Ord)]
pub(crate) struct Release {
    pub(crate) slot: u8,
    pub(crate) number: u8,
}

/// How a ticket ranks among those that can play.
#[derive(Clone, Copy, PartialEq, Eq)]
pub(crate) struct Rank {
    pub(crate) pinned: bool,
    pub(crate) weight: u16,
    pub(crate) length: u8,
    pub(crate) number: u8,
    ghost plays: { 1 ≤ length },
}
