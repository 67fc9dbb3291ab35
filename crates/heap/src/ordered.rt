ghost use Rattle.std.specs.Prelude.{refl};
ghost use Rattle.std.specs.Cmp as Cmp;
ghost use Rattle.std.specs.Cmp.{partial_order_from_total};
ghost use Rattle.std.proofs.lemmas.Cmp.{eq_by_cmp_equiv};
ghost use Rattle.std.specs.Ordering.{as_partial_cmp, eq_by_cmp};
ghost use Rattle.heap.specs.Keys.{ordered_cmp};
ghost use Rattle.heap.specs.Laws.{ordered_total};

use crate::entry::Order;
use std::cmp::Ordering;

/// A key in its own `Order`: less is what comes before, and equal are two of which neither does. It asks for no `==` of the key.
#[derive(Clone, Copy)]
pub struct Ordered<K>(pub K);

impl<K: Order> PartialEq for Ordered<K> {
    ghost eq = { eq_by_cmp (ordered_cmp K.before) };

    ghost laws = { Cmp.partial_equiv_from_equiv (eq_by_cmp_equiv (ordered_total K.asymmetric K.chains)) };

    fn eq(&self, other: &Ordered<K>) -> bool {
        self.cmp(other).is_eq()
    }
}

impl<K: Order> Eq for Ordered<K> {
    ghost laws = { eq_by_cmp_equiv (ordered_total K.asymmetric K.chains) };
}

impl<K: Order> PartialOrd for Ordered<K> {
    ghost partial_cmp = { as_partial_cmp (ordered_cmp K.before) };

    ghost laws = { partial_order_from_total (ordered_total K.asymmetric K.chains) };

    fn partial_cmp(&self, other: &Ordered<K>) -> Option<Ordering> {
        Some(self.cmp(other))
    }
}

impl<K: Order> Ord for Ordered<K> {
    ghost cmp = { ordered_cmp K.before };

    ghost total = { ordered_total K.asymmetric K.chains };

    ghost matches_partial_cmp = { λ x y. refl };

    ghost matches_eq = { λ x y. refl };

    fn cmp(&self, other: &Ordered<K>) -> Ordering {
        if self.0.is_before(&other.0) {
            Ordering::Less
        } else if other.0.is_before(&self.0) {
            Ordering::Greater
        } else {
            Ordering::Equal
        }
    }
}
