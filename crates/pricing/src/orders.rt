//! The orders of the two waiting lines.
ghost use Rattle.std.specs.Prelude.{refl};
ghost use Rattle.std.specs.Cmp.{partial_order_from_agreeing_total};
ghost use Rattle.std.specs.Ordering.{as_partial_cmp};
ghost use Rattle.pricing.specs.Keys.{rank_cmp};
ghost use Rattle.pricing.specs.Laws.{release_apart, rank_total, rank_eq, rank_apart};

use crate::keys::{Rank, Release};
use heap::Entry;
use std::cmp::Ordering;

// Each kind of entry shows its own law `apart`, so no one impl is for all that are their own keys.

impl Entry for Release {
    type Key = Release;

    ghost keyed = { λ x. x };

    ghost apart = { release_apart };

    fn key(&self) -> Release {
        *self
    }
}

/// The pinned first, then the greater w / p, then the lower number, then the lower p. A derive, of `PartialOrd` too, would compare w and p.
/// By `then_with`, since most ranks are told apart by w / p.
impl Ord for Rank {
    ghost cmp = { rank_cmp };

    ghost total = { rank_total };

    ghost matches_partial_cmp = { λ x y. refl };

    ghost matches_eq = { rank_eq };

    fn cmp(&self, other: &Rank) -> Ordering {
        let mine = u32::from(self.weight) * u32::from(other.length);
        let theirs = u32::from(other.weight) * u32::from(self.length);
        other
            .pinned
            .cmp(&self.pinned)
            .then_with(|| theirs.cmp(&mine))
            .then_with(|| self.number.cmp(&other.number))
            .then_with(|| self.length.cmp(&other.length))
    }
}

impl PartialOrd for Rank {
    ghost partial_cmp = { as_partial_cmp rank_cmp };

    ghost laws = { partial_order_from_agreeing_total rank_cmp rank_total (λ x y. refl) rank_eq };

    fn partial_cmp(&self, other: &Rank) -> Option<Ordering> {
        Some(self.cmp(other))
    }
}

impl Entry for Rank {
    type Key = Rank;

    ghost keyed = { λ x. x };

    ghost apart = { rank_apart };

    fn key(&self) -> Rank {
        *self
    }
}
