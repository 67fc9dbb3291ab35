//! Compares prices with those of stored days, which were found by trying every spread (make_cases.py).

#![tactic(auto)]

use anyhow::{Context, anyhow};
use pricing::Released;
use std::io::Read;
use std::slice::Iter;
use tickets::{Collection, MOST_TICKETS, Terms};

/// The next number of the file.
fn next(numbers: &mut Iter<u64>) -> anyhow::Result<u64> {
    numbers.next().copied().context("the file ends too soon")
}

/// The next number of the file, which is a byte.
fn next_byte(numbers: &mut Iter<u64>) -> anyhow::Result<u8> {
    Ok(u8::try_from(next(numbers)?)?)
}

/// How many prices were compared, and how many were wrong.
#[derive(Clone, Copy)]
struct Tally {
    prices: u32,
    wrong: u32,
}

impl Tally {
    fn compare(&mut self, price: u64, other: u64) {
        self.prices = self.prices.saturating_add(1);
        if price != other {
            self.wrong = self.wrong.saturating_add(1);
        }
    }
}

/// The numbers of the file.
fn numbers_of(rt: &HostRuntime) -> anyhow::Result<Vec<u64>> {
    let mut text = String::new(rt.alloc());
    rt.stdin().read_to_string(&mut text)?;
    // Not by `try_collect`: each number would first be an `anyhow::Result`, which is much larger.
    let mut all = Vec::new(rt.alloc());
    for word in text.split_whitespace() {
        all.push(word.parse::<u64>()?)?;
    }
    Ok(all)
}

/// Posts the tickets of a day, and answers their releases.
fn posted(
    numbers: &mut Iter<u64>,
    collection: &mut Collection,
) -> anyhow::Result<[u8; MOST_TICKETS]> {
    let mut releases = [0u8; MOST_TICKETS];
    let count = next(numbers)?;
    for _ in 0..count {
        let terms = Terms {
            first: next_byte(numbers)?,
            last: next_byte(numbers)?,
            length: next_byte(numbers)?,
            weight: u16::try_from(next(numbers)?)?,
        };
        let release = next_byte(numbers)?;
        let number = collection
            .post(terms)
            .map_err(|_| anyhow!("a ticket is refused"))?;
        if let Some(place) = releases.get_mut(number) {
            *place = release;
        }
    }
    Ok(releases)
}

/// Compares the prices of one day.
fn compare_day(numbers: &mut Iter<u64>, tally: &mut Tally) -> anyhow::Result<()> {
    let mut collection = Collection::new();
    let releases = posted(numbers, &mut collection)?;
    let released = Released {
        collection: &collection,
        releases,
    };
    tally.compare(released.free_price(), next(numbers)?);
    let pins = next(numbers)?;
    for _ in 0..pins {
        let ticket = usize::from(next_byte(numbers)?);
        let start = usize::from(next_byte(numbers)?);
        let other = next(numbers)?;
        let price = released
            .pinned_price(ticket, start)
            .map_err(|_| anyhow!("a pinned price is refused"))?;
        tally.compare(price, other);
    }
    Ok(())
}

fn compare_all(rt: &HostRuntime) -> anyhow::Result<()> {
    let all = numbers_of(rt)?;
    let mut numbers = all.iter();
    let mut tally = Tally {
        prices: 0,
        wrong: 0,
    };
    let days = next(&mut numbers)?;
    for _ in 0..days {
        compare_day(&mut numbers, &mut tally)?;
    }
    let Tally { prices, wrong } = tally;
    println!(rt; "{days} days, {prices} prices, {wrong} wrong")?;
    Ok(())
}

fn main(rt: HostRuntime) -> anyhow::Result<()> {
    compare_all(&rt)
}
