//! The least price of a spread of tickets, free or with one ticket pinned at a start.
//!
//! The builder plays the tickets in time order, from event to event: a release, or the completion of what plays.
//! Each decides what plays next: of the tickets that are released and unfinished, the one with the greatest w / p.

#![tactic(auto)]

mod build;
mod events;
mod guard;
mod keys;
mod orders;
mod prices;
mod step;
mod terms;
mod work;

pub use prices::{LAST_START, PRICE_OF_ONE, Released};
