//! The terms of a price.
ghost use Rattle.std.specs.Prelude.{◌≡◌, ◌+◌, ◌-◌, ◌*◌, ◌/◌, ◌≤◌};
ghost use Rattle.pricing.specs.Terms.{slots_between, stretch_of, most_stretch, half_of, most_half};

use crate::work::Work;
use spreads::quotient;

/// The sum of the slots `since` to `until` - 1.
fn slots(since: u16, until: u16) -> u32
    requires { (since ≤ until) × (until ≤ since + 16) × (until ≤ 1023) }
    ensures sum { result ≡ slots_between since until }
    ensures most { result ≤ 16496 }
{
    let first = u32::from(since);
    let many = u32::from(until) - first;
    (many * (2 * first + many) - many) / 2
}

/// What playing from `since` to `until` - 1 adds to the price.
pub(crate) fn stretch(entry: Work, since: u16, until: u16) -> u64
    requires { (since ≤ until) × (until ≤ since + 16) × (until ≤ 1023) }
    ensures value { result ≡ stretch_of entry since until }
    ensures most { result ≤ most_stretch }
{
    u64::from(entry.weight) * u64::from(quotient(entry.length)) * u64::from(slots(since, until))
}

/// What a ticket adds to the price wherever it plays.
pub(crate) fn half(entry: Work) -> u64
    ensures value { result ≡ half_of entry }
    ensures most { result ≤ most_half }
{
    u64::from(entry.weight) * (u64::from(entry.length) + 1) * 360360
}
