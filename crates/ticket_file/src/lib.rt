//! The ticket file: a header, then records of tickets, the ceiling and bans.
//!
//! Reading hands out the records as parts of the file, each with the place of its first byte, up to the first
//! record that is malformed or out of order.

#![tactic(auto)]

mod cursor;
mod kind;
pub mod reading;
pub mod record;
pub mod refusal;
mod stage;

pub use reading::{Reading, read};
pub use record::{Label, Placed, Record};
pub use refusal::{FileFault, FileRefusal};
