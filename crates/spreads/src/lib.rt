//! Spreads of tickets, their prices and their least prices.
//!
//! A spread gives each ticket as many slots as its length, none before its release, and no slot twice. What a
//! spread, its price and a least price are is defined in specs/. The functions of `laws` do no work: the
//! contract of each is a theorem on those definitions.

#![tactic(auto)]

pub mod laws;
pub mod quotients;

pub use quotients::quotient;
