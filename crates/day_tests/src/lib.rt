//! Tests of the way from a ticket file to its report: each refusal at its edge and one step inside it.

#![tactic(auto)]

#[cfg(test)]
mod cases;
#[cfg(test)]
mod tests;
