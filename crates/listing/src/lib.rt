//! The listing of a table: the floor, the ceiling, and a line for each ticket with the longest unbroken ranges
//! of its row.
//!
//! The listing is written into a buffer that the caller lends. A buffer that is shorter than the listing is
//! left as it is.

#![tactic(auto)]

mod counter;
mod listing;
mod numbers;
mod page;
mod range;
mod row_lines;
mod sink;
pub mod table;

pub use table::{listing_length, one_listing, write_listing};
