//! Stores in use: code over any store, proved once, and tests of each store beside a plain table of flags.

#![tactic(auto)]

pub mod any_store;
#[cfg(test)]
mod calls;
#[cfg(test)]
mod plain;
#[cfg(test)]
mod tests;
