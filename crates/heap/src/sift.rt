ghost use Rattle.std.specs.Prelude.{◌≡◌, ◌-◌, ◌<◌, ◌∷◌, length, take, slice_index_or, slice_set};
ghost use Rattle.std.specs.List.Sorted.{IsPermutation};
ghost use Rattle.heap.specs.Steps.{Higher, FirstChild, Lower};
ghost use Rattle.heap.specs.Trees.{below, by_key, Tree, Front};

use crate::entry::Entry;

// The slices are lent for one call and are trees before or after it, so each clause says of which what is a tree. A slice and a place in
// it are handed on as two: the place moves while the slice stays.

/// Whether the entry at `i` is before the one at `j`.
fn is_before_at<E: Entry>(slots: &[E], i: usize, j: usize) -> bool
    requires { (i < length slots.now) × (j < length slots.now) }
    ensures { (d : E) → by_key (below E.Key.cmp) E.keyed (slice_index_or slots.now i d) (slice_index_or slots.now j d) ≡ result }
{
    slots[i].key() < slots[j].key()
}

/// The parent of `at`, if the entry at `at` is before it.
fn higher<E: Entry>(slots: &[E], at: usize) -> Option<usize>
    requires { at < length slots.now }
    ensures { Higher (by_key (below E.Key.cmp) E.keyed) slots.now at result }
{
    let parent = at.checked_sub(1)? / 2;
    is_before_at(slots, at, parent).then_some(parent)
}

/// Moves the last entry up to its place in the tree of the others.
pub(crate) fn sift_up<E: Entry>(slots: &mut [E])
    requires some { 0 < length slots.old }
    requires others { Tree (by_key (below E.Key.cmp) E.keyed) (take (length slots.old - 1) slots.old) }
    ensures shuffled { IsPermutation slots.old slots.new }
    ensures tree { Tree (by_key (below E.Key.cmp) E.keyed) slots.new }
{
    let mut at = slots.len() - 1;
    while let Some(parent) = higher(slots, at) {
        slots.swap(at, parent);
        at = parent;
    }
}

/// A child of `at` that no child of `at` is before, if it has a child.
fn first_child<E: Entry>(slots: &[E], at: usize) -> Option<usize>
    ensures { FirstChild (by_key (below E.Key.cmp) E.keyed) slots.now at result }
{
    if at >= slots.len() / 2 {
        return None;
    }
    let left = at * 2 + 1;
    let right = left + 1;
    if right < slots.len() && is_before_at(slots, right, left) {
        Some(right)
    } else {
        Some(left)
    }
}

/// The first child of `at`, if it is before the entry at `at`.
fn lower<E: Entry>(slots: &[E], at: usize) -> Option<usize>
    ensures { Lower (by_key (below E.Key.cmp) E.keyed) slots.now at result }
{
    let child = first_child(slots, at)?;
    is_before_at(slots, child, at).then_some(child)
}

/// Moves the first entry down to its place; with another first entry it is a tree.
fn sift_down<E: Entry>(slots: &mut [E])
    requires { (x : E) × Tree (by_key (below E.Key.cmp) E.keyed) (slice_set slots.old 0 x) }
    ensures shuffled { IsPermutation slots.old slots.new }
    ensures tree { Tree (by_key (below E.Key.cmp) E.keyed) slots.new }
{
    let mut at = 0;
    while let Some(child) = lower(slots, at) {
        slots.swap(child, at);
        at = child;
    }
}

/// Hands out the first entry of a tree, and leaves a tree of the others in front of the last place.
pub(crate) fn take_first<E: Entry>(slots: &mut [E]) -> E
    requires some { 0 < length slots.old }
    requires tree { Tree (by_key (below E.Key.cmp) E.keyed) slots.old }
    ensures front { Front (by_key (below E.Key.cmp) E.keyed) slots.old result }
    ensures others { IsPermutation slots.old (result ∷ take (length slots.old - 1) slots.new) }
    ensures tree { Tree (by_key (below E.Key.cmp) E.keyed) (take (length slots.old - 1) slots.new) }
{
    let first = slots[0];
    let last = slots.len() - 1;
    slots[0] = slots[last];
    sift_down(&mut slots[0..last]);
    first
}
