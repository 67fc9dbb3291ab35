//! What is only read of a table: the tickets of a collection, and a store with a row of starts for each.
//!
//! `judge` answers what a plan costs, or why it is refused. `released` has the first start of each row, and the
//! prices are those with these releases. Every call leaves all as it is.

#![tactic(auto)]

mod judging;
mod table;
mod tables;

pub use table::Table;
