//! Tickets and collections of them.
//!
//! A ticket asks for one stretch of the machine: it starts at one of the slots `first` to `last`, plays
//! `length` slots without a break and has a `weight`. A collection is posted to, one ticket at a time, and is
//! given a cost ceiling. Whatever is outside the limits is refused with a number, and leaves the collection
//! as it was.

#![tactic(auto)]

pub mod collection;
pub mod planner_refusal;
pub mod posting;
pub mod reading;
pub mod refusal;
pub mod terms;
pub mod ticket;

pub use collection::{Collection, MOST_TICKETS};
pub use planner_refusal::PlannerRefusal;
pub use refusal::TicketRefusal;
pub use terms::Terms;
pub use ticket::Ticket;
