//! A planner of start tables, over any store of starts.
//!
//! Sealing a collection of tickets gives a planner, which keeps for each ticket the starts that are still possible
//! under a cost ceiling. `ban`, `fix` and `lower` are orders; `mark`, `keep` and `undo` open and close levels; `prune` cuts
//! the starts that no self-supporting table has. No call asks anything of its caller: what cannot be done is refused with
//! a number, and all is then as it was.

#![tactic(auto)]

mod calls;
mod cuts;
mod cutting;
mod filling;
mod levels;
mod pruning;
mod reading;
mod sealing;
mod sets;
mod starts;
pub mod state;
pub mod token;
mod trimming;

pub use state::Planner;
pub use token::{Token, TokenRefused};
