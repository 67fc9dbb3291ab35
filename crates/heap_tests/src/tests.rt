ghost use Rattle.std.specs.Prelude.{nat_lt};
ghost use Rattle.std.proofs.Common.{sym, Equal};
ghost use Rattle.std.proofs.lemmas.Cmp.{ranked};
ghost use Rattle.heap.proofs.Orders.{lower_asymmetric, lower_chains, lower_apart};
ghost use Rattle.heap.specs.Laws.{ordered_apart};

use heap::{Entry, Heap, Order, Ordered};
use std::cmp::{Ordering, Reverse};
use std::test::Fail;

/// A number, which is its own key: the lower comes first.
#[derive(Clone, Copy, PartialEq, Eq, PartialOrd, Ord)]
struct Number(u16);

// Each kind of entry shows its own law `apart`, so no one impl is for all that are their own keys.

impl Entry for Number {
    type Key = Number;

    ghost keyed = { λ n. n };

    ghost apart = { λ a b e i. record { 0 = ranked a.0 b.0 Equal (sym e) i } };

    fn key(&self) -> Number {
        *self
    }
}

/// A parcel, which waits by its load: the greater comes first.
#[derive(Clone, Copy)]
struct Parcel {
    label: char,
    load: u16,
}

impl Entry for Parcel {
    type Key = Reverse<u16>;

    ghost keyed = { λ p. record { 0 = p.load } };

    ghost apart = { λ a b e i. record { 0 = sym (ranked b.0 a.0 Equal (sym e)) i } };

    fn key(&self) -> Reverse<u16> {
        Reverse(self.load)
    }
}

/// A load, which has no `==`: the greater comes first.
#[derive(Clone, Copy)]
struct Load(u16);

impl Order for Load {
    ghost before = { λ a b. nat_lt b.0 a.0 };

    ghost asymmetric = { λ a b. lower_asymmetric b.0 a.0 };

    ghost chains = { λ a b c h k. lower_chains c.0 b.0 a.0 k h };

    ghost apart = { λ a b h k i. record { 0 = lower_apart a.0 b.0 k h i } };

    fn is_before(&self, other: &Load) -> bool {
        self.0 > other.0
    }
}

/// Anything with a label, which waits by a key of any kind.
#[derive(Clone, Copy)]
struct Tagged<K> {
    label: char,
    key: K,
}

impl<K: Order> Entry for Tagged<K> {
    type Key = Ordered<K>;

    ghost keyed = { λ t. record { 0 = t.key } };

    ghost apart = { ordered_apart K.apart };

    fn key(&self) -> Ordered<K> {
        Ordered(self.key)
    }
}

#[test]
fn numbers_come_in_order(rt: HostRuntime) -> Result<(), Fail> {
    let mut slots = [Number(0); 12];
    let mut heap = Heap::new(&mut slots);
    for n in [9, 4, 11, 0, 7, 2, 10, 5, 1, 8, 3, 6] {
        let _ = heap.push(Number(n));
    }
    assert_eq!(rt; heap.len(), 12);
    for n in 0..12 {
        assert_eq!(rt; heap.pop().ok_or("none")?.0, n);
    }
    assert!(rt; heap.is_empty());
    Ok(())
}

#[test]
fn heavy_parcels_come_first(rt: HostRuntime) -> Result<(), Fail> {
    let mut slots = [Parcel {
        label: ' ',
        load: 0,
    }; 3];
    let mut heap = Heap::new(&mut slots);
    assert!(rt; heap.peek().is_none() && heap.pop().is_none());
    for (label, load) in [('a', 5), ('b', 7), ('c', 6)] {
        let _ = heap.push(Parcel { label, load });
    }
    let back = heap.push(Parcel {
        label: 'd',
        load: 8,
    });
    assert_eq!(rt; back.err().ok_or("taken")?.label, 'd');
    assert_eq!(rt; heap.peek().ok_or("none")?.label, 'b');
    for label in ['b', 'c', 'a'] {
        assert_eq!(rt; heap.pop().ok_or("none")?.label, label);
    }
    assert!(rt; heap.is_empty());
    Ok(())
}

#[test]
fn heavy_tagged_come_first(rt: HostRuntime) -> Result<(), Fail> {
    let mut slots = [Tagged {
        label: ' ',
        key: Load(0),
    }; 4];
    let mut heap = Heap::new(&mut slots);
    for (label, load) in [('a', 5), ('b', 7), ('c', 4), ('d', 6)] {
        let _ = heap.push(Tagged {
            label,
            key: Load(load),
        });
    }
    assert_eq!(rt; heap.peek().ok_or("none")?.label, 'b');
    for label in ['b', 'd', 'a', 'c'] {
        assert_eq!(rt; heap.pop().ok_or("none")?.label, label);
    }
    assert!(rt; heap.is_empty());
    Ok(())
}

#[test]
fn heavy_loads_are_less(rt: HostRuntime) -> Result<(), Fail> {
    let (light, heavy) = (Ordered(Load(5)), Ordered(Load(7)));
    assert_eq!(rt; heavy.cmp(&light), Ordering::Less);
    assert_eq!(rt; light.cmp(&heavy), Ordering::Greater);
    assert_eq!(rt; light.cmp(&light), Ordering::Equal);
    assert!(rt; heavy < light && heavy == heavy && heavy != light);
    Ok(())
}
