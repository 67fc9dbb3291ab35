//! The whole way on bytes through the planner: from a ticket file to the listing of the pruned table.
//!
//! A file is read. Its tickets are posted and its ceiling is set, record by record; a planner is sealed over them, and
//! each ban is a call to it. After the last record the planner prunes. The outcome is a report: the listing of the
//! table that is left, or the line of the file's fault.

#![tactic(auto)]

mod bans;
mod collecting;
pub mod fault;
mod listing_text;
mod planning;
pub mod report;
#[cfg(test)]
mod tests;

pub use fault::{Fault, Refusal};
pub use report::{Report, report_on};
