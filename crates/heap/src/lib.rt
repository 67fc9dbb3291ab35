//! A priority queue laid over slots that its user lends.
//!
//! A heap holds entries of one kind, and each entry has a key. `pop` hands out an entry with the least key that waits;
//! an empty heap answers nothing, and a full one hands a new entry back. The lent slots are all the room that a heap
//! has. Each kind of entry names its kind of key, and keys come in their `Ord`. A key that is not `Ord`, or whose order is
//! another, says as `Order` which of two comes before the other, and waits as `Ordered`.

#![tactic(auto)]

pub mod entry;
pub mod heap;
pub mod ordered;
mod sift;

pub use entry::{Entry, Order};
pub use heap::Heap;
pub use ordered::Ordered;
