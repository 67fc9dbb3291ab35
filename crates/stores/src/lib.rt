//! Stores of starts.
//!
//! A store means 24 sets of starts, one a row. `Store` states its five calls by that meaning alone, so that
//! code over any store is proved once. `BitStore` is a store with a bit for each start.

#![tactic(auto)]

pub mod bit_store;
mod row;
pub mod store;
mod word;

pub use bit_store::BitStore;
pub use store::{ROWS, STARTS, Store, set_laws};
