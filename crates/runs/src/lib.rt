//! The theory of a planner over whole runs of calls.
//!
//! A planner keeps a table, which gives each ticket a set of starts, and takes seven calls. What each call does and when it is
//! refused, what a ledger of the calls says, and which starts a table supports is defined in specs/. The functions
//! of `laws` do no work: the contract of each is a theorem on those definitions.

#![tactic(auto)]

pub mod call;
pub mod laws;

pub use call::{Answer, Call, Taken};
