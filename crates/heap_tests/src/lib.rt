//! Tests of the heap, with three kinds of entry.

#![tactic(auto)]

#[cfg(test)]
mod tests;
