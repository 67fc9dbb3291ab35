ghost use Rattle.std.specs.Prelude.{◌≡◌, ◌≤◌, ◌==◌, [], length, take};
ghost use Rattle.heap.specs.Trees.{below, by_key, Tree};

use crate::entry::Entry;
use crate::sift::{sift_up, take_first};

/// A heap over lent slots: what waits has room there, and is a tree.
#[derive(Drop)]
pub struct Heap<'a, E: Entry> {
    /// The entries that wait are the first `len`; what stands after them has no meaning. The slots are the caller's own
    /// (`lent`, `lender` of `new`), and no vector can be laid over those: so a count stands beside them.
    slots: &'a mut [E],
    len: usize,
    pub ghost fits: { len ≤ length slots.now },
    pub ghost tree: { Tree (by_key (below E.Key.cmp) E.keyed) (take len slots.now) },
}

impl<'a, E: Entry> Heap<'a, E> {
    ghost use Rattle.heap.specs.Waiting.{waiting, SameSlots, Pushed, Peeked, Popped};

    /// A heap over the slots, in which nothing waits.
    pub fn new(slots: &'a mut [E]) -> Heap<'a, E>
        ensures empty { waiting result ≡ [] }
        ensures lent { result.slots.now ≡ slots.old }
        ensures lender { result.slots.ghost_name ≡ slots.entry.ghost_name }
    {
        Heap { slots, len: 0 }
    }

    /// The entries that wait.
    fn waiting(&self) -> &[E]
        ensures { result.now ≡ waiting self.now }
    {
        &self.slots[0..self.len]
    }

    /// How many entries wait.
    pub fn len(&self) -> usize
        ensures { result ≡ length (waiting self.now) }
    {
        self.waiting().len()
    }

    /// Whether no entry waits.
    pub fn is_empty(&self) -> bool
        ensures { result ≡ (length (waiting self.now) == 0) }
    {
        self.waiting().is_empty()
    }

    /// Adds an entry; where there is no room for it, hands it back.
    pub fn push(&mut self, entry: E) -> Result<(), E>
        ensures slots { SameSlots self.old self.new }
        ensures pushed { Pushed self.old entry result self.new }
    {
        let at = self.len;
        if at >= self.slots.len() {
            return Err(entry);
        }
        self.slots[at] = entry;
        sift_up(&mut self.slots[0..at + 1]);
        self.len = at + 1;
        Ok(())
    }

    /// An entry with the least key that waits, which goes on waiting.
    pub fn peek(&self) -> Option<E>
        ensures { Peeked (by_key (below E.Key.cmp) E.keyed) self.now result }
    {
        self.waiting().first().copied()
    }

    /// Hands out an entry with the least key that waits.
    pub fn pop(&mut self) -> Option<E>
        ensures slots { SameSlots self.old self.new }
        ensures popped { Popped (by_key (below E.Key.cmp) E.keyed) self.old result self.new }
    {
        if self.len == 0 {
            return None;
        }
        self.len -= 1;
        Some(take_first(&mut self.slots[0..self.len + 1]))
    }
}
