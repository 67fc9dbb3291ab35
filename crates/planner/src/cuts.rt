//! Counting starts, and the list of cuts.
ghost use Rattle.std.specs.Prelude.{◌≡◌, ◌≤◌, length};
ghost use Rattle.spreads.specs.Lines.{sum_to};
ghost use Rattle.stores.specs.Sets.{size_of};
ghost use Rattle.stores.specs.BitRows.{bit_rows};
ghost use Rattle.planner.specs.Sets.{total};
ghost use Rattle.planner.specs.Promise.{ListsCuts};

use crate::starts::Starts;
use stores::{BitStore, Store};

/// How many starts the first `tickets` rows have.
pub(crate) fn count_starts<S: Store>(store: &S, tickets: usize) -> usize
    requires { tickets ≤ 24 }
    ensures { result ≡ sum_to tickets (λ i. size_of (S.rows store.now i)) }
{
    (0..tickets).map(|row| store.size(row)).sum()
}

/// Lists the starts of the set, each as 256 × ticket + start, in the first words of the list.
pub(crate) fn list_cuts(gone: &BitStore, cuts: &mut [u16])
    requires { total (bit_rows gone.now) ≤ length cuts.old }
    ensures { ListsCuts (bit_rows gone.now) cuts.old cuts.new (total (bit_rows gone.now)) }
{
    for (place, (row, start)) in Starts::of(gone).enumerate() {
        cuts[place] = (256 * row + start) as u16;
    }
}
