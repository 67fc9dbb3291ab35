//! The listing of a table.
ghost use Rattle.std.specs.Prelude.{◌≡◌, ℕ, ◌≤◌, List, length};
ghost use Rattle.tickets.specs.Collections.{posted};
ghost use Rattle.listing.specs.Listings.{Lists, Listed, OneListing};

use crate::listing::Listing;
use crate::page::Page;
use queries::Table;
use stores::Store;
use tickets::PlannerRefusal;

// The ceiling is no part of a table: its prices do not know one.

/// How many bytes the listing has.
pub fn listing_length<S: Store>(table: &Table<'_, S>, ceiling: u32) -> usize
    ensures { (text : List ℕ) × Lists (posted table.now.collection.now) ceiling (S.rows table.now.store.now) text × (result ≡ length text) }
{
    Listing::of(table, ceiling).length()
}

/// Writes the listing into the buffer, and answers its length. Refused where the buffer is too short; it is
/// then as it was.
pub fn write_listing<S: Store>(
    table: &Table<'_, S>,
    ceiling: u32,
    buffer: &mut [u8],
) -> Result<usize, PlannerRefusal>
    ensures { Listed (posted table.now.collection.now) ceiling (S.rows table.now.store.now) buffer.old result buffer.new }
{
    let listing = Listing::of(table, ceiling);
    if buffer.len() < listing.length() {
        return Err(PlannerRefusal::TooShort);
    }
    let mut page = Page { buffer, end: 0 };
    listing.fill(&mut page);
    Ok(page.end)
}

/// There is one listing of a table.
pub fn one_listing()
    ensures { OneListing }
{}
