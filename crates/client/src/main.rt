//! A small client of the planner, with two habits that the compiler sees to: what is posted after sealing goes to a new
//! collection, and the token of each level that is opened is spent. `.ci/rejected` has the client without them.

#![tactic(auto)]

use planner::Planner;
use std::io;
use stores::{BitStore, Store};
use tickets::{Collection, Terms};

/// The one ticket of each day.
fn ticket() -> Terms {
    Terms {
        first: 0,
        last: 10,
        length: 5,
        weight: 10,
    }
}

/// Seals a day with one ticket, and begins the next day with another.
fn seal_and_begin() -> (Planner<BitStore>, Collection) {
    let mut collection = Collection::new();
    let _ = collection.post(ticket());
    let planner = Planner::seal(collection, BitStore::empty(), 1);
    let mut collection = Collection::new();
    let _ = collection.post(ticket());
    (planner, collection)
}

/// Bans a start for a while.
fn try_ban(planner: &mut Planner<BitStore>, start: usize) {
    if let Ok(token) = planner.mark() {
        let _ = planner.ban(0, start);
        match planner.undo(token) {
            Ok(()) => {}
            Err(_refused) => unreachable!(),
        }
    }
}

fn main(rt: HostRuntime) -> io::Result<()> {
    let (mut planner, next_day) = seal_and_begin();
    try_ban(&mut planner, 10);
    let size = planner.store().size(0);
    let tickets = next_day.tickets().len();
    println!(rt; "{size} starts today, {tickets} ticket tomorrow")
}
