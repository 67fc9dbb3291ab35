//! The whole way on bytes: from a ticket file to the text that the program prints.
//!
//! A file is read, its records are judged and posted in order, and the outcome is a report: the listing of what
//! was read, or the line of the file's fault.

#![tactic(auto)]

mod contents;
pub mod fault;
pub mod report;
mod text;

pub use fault::{Fault, Refusal};
pub use report::{Report, report_on};
