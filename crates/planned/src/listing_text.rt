ghost use Rattle.std.specs.Prelude.{IfOk, vec_items};
ghost use Rattle.tickets.specs.Collections.{posted};
ghost use Rattle.stores.specs.BitRows.{bit_rows};
ghost use Rattle.listing.specs.Listings.{Lists};

use listing::{listing_length, write_listing};
use planner::Planner;
use queries::Table;
use std::alloc::{AllocError, Global};
use stores::BitStore;

/// The listing of a planner's table.
pub(crate) fn listing_text(heap: Global, planner: &Planner<BitStore>) -> Result<Vec<u8>, AllocError>
    ensures { IfOk result (λ text. Lists (posted planner.now.collection) planner.now.ceiling (bit_rows planner.now.store) (vec_items text)) }
{
    let table = Table {
        collection: planner.collection(),
        store: planner.store(),
    };
    let ceiling = planner.ceiling();
    let mut text = vec![in heap; 0; listing_length(&table, ceiling)]?;
    write_listing(&table, ceiling, &mut text).unwrap();
    Ok(text)
}
