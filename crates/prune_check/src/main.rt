//! Prunes stored days, and compares what is left with what another program found (make_days.py).

#![tactic(auto)]

use anyhow::{Context, anyhow};
use planner::Planner;
use std::io::Read;
use std::slice::Iter;
use stores::{BitStore, ROWS, STARTS, Store};
use tickets::{Collection, Terms};

// As in `price_check`: the two programs share these readers of numbers, and no crate is made for them.

/// The next number of the file.
fn next(numbers: &mut Iter<u64>) -> anyhow::Result<u64> {
    numbers.next().copied().context("the file ends too soon")
}

/// The next number of the file, which is a byte.
fn next_byte(numbers: &mut Iter<u64>) -> anyhow::Result<u8> {
    Ok(u8::try_from(next(numbers)?)?)
}

/// What was found, and how much of it was not as it is stored.
#[derive(Clone, Copy)]
struct Tally {
    cuts: usize,
    starts: u64,
    wrong: u32,
}

impl Tally {
    fn compare<T: PartialEq + Drop>(&mut self, found: T, stored: T) {
        if found != stored {
            self.wrong = self.wrong.saturating_add(1);
        }
    }
}

/// The numbers of the file.
fn numbers_of(rt: &HostRuntime) -> anyhow::Result<Vec<u64>> {
    let mut text = String::new(rt.alloc());
    rt.stdin().read_to_string(&mut text)?;
    // Not by `try_collect`: each number would first be an `anyhow::Result`, which is much larger.
    let mut all = Vec::new(rt.alloc());
    for word in text.split_whitespace() {
        all.push(word.parse::<u64>()?)?;
    }
    Ok(all)
}

/// Posts the tickets of a day, and sets its ceiling.
fn posted(numbers: &mut Iter<u64>) -> anyhow::Result<Collection> {
    let mut collection = Collection::new();
    let count = next(numbers)?;
    for _ in 0..count {
        let terms = Terms {
            first: next_byte(numbers)?,
            last: next_byte(numbers)?,
            length: next_byte(numbers)?,
            weight: u16::try_from(next(numbers)?)?,
        };
        collection
            .post(terms)
            .map_err(|_| anyhow!("a ticket is refused"))?;
    }
    collection
        .set_ceiling(u32::try_from(next(numbers)?)?)
        .map_err(|_| anyhow!("the ceiling is refused"))?;
    Ok(collection)
}

/// Bans what the day wants banned.
fn ban_all(numbers: &mut Iter<u64>, planner: &mut Planner<BitStore>) -> anyhow::Result<()> {
    let count = next(numbers)?;
    for _ in 0..count {
        let ticket = usize::from(next_byte(numbers)?);
        let start = usize::from(next_byte(numbers)?);
        planner
            .ban(ticket, start)
            .map_err(|_| anyhow!("a ban is refused"))?;
    }
    Ok(())
}

/// Compares a row: the number of its starts, and each of them.
fn compare_row(
    numbers: &mut Iter<u64>,
    store: &BitStore,
    row: usize,
    tally: &mut Tally,
) -> anyhow::Result<()> {
    let count = next(numbers)?;
    let mut from = 0;
    for _ in 0..count {
        let start = usize::from(next_byte(numbers)?);
        tally.compare(store.after(row, from), Some(start));
        from = start + 1;
    }
    tally.compare(store.after(row, from), None);
    tally.starts = tally.starts.saturating_add(count);
    Ok(())
}

/// Prunes a day, and compares the number of cuts and the rows.
fn compare_day(numbers: &mut Iter<u64>, cuts: &mut [u16], tally: &mut Tally) -> anyhow::Result<()> {
    let mut planner = Planner::seal(posted(numbers)?, BitStore::empty(), 0);
    ban_all(numbers, &mut planner)?;
    let found = planner.prune(cuts).map_err(|refusal| anyhow!(
        "a prune is refused by {}",
        refusal.number()
    ))?;
    tally.compare(found, usize::try_from(next(numbers)?)?);
    tally.cuts = tally.cuts.saturating_add(found);
    for row in 0..planner.collection().tickets().len() {
        compare_row(numbers, planner.store(), row, tally)?;
    }
    Ok(())
}

fn main(rt: HostRuntime) -> anyhow::Result<()> {
    let all = numbers_of(&rt)?;
    let mut numbers = all.iter();
    let mut cuts = vec![in rt.alloc(); 0u16; ROWS * STARTS]?;
    let mut tally = Tally {
        cuts: 0,
        starts: 0,
        wrong: 0,
    };
    let days = next(&mut numbers)?;
    for _ in 0..days {
        compare_day(&mut numbers, &mut cuts, &mut tally)?;
    }
    let Tally {
        cuts,
        starts,
        wrong,
    } = tally;
    println!(rt; "{days} days, {cuts} cuts, {starts} starts left, {wrong} wrong")?;
    Ok(())
}
