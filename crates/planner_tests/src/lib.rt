//! The planner in use: code over any store that is proved from the planner's contracts alone, and tests of whole days.

#![tactic(auto)]

pub mod judging;
pub mod plans;
#[cfg(test)]
mod tests;
pub mod trying;
