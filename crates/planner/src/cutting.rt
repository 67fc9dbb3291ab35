//! Cutting starts out of a store.
ghost use Rattle.std.specs.Prelude.{◌≡◌, ℕ, true};
ghost use Rattle.stores.specs.Sets.{without, no_starts};
ghost use Rattle.stores.specs.BitRows.{bit_rows};
ghost use Rattle.planner.specs.Sets.{union};

use crate::sets::pour;
use stores::{BitStore, Store};

/// A store that starts are cut out of, and the set of those that were.
#[derive(Drop)]
pub(crate) struct Cutting<'a, S> {
    pub(crate) store: &'a mut S,
    pub(crate) gone: BitStore,
}

impl<'a, S: Store> Cutting<'a, S> {
    ghost use Rattle.planner.specs.Cuttings.{Cuts, Retained};

    /// Nothing is cut out of the store yet.
    pub(crate) fn of(store: &'a mut S) -> Cutting<'a, S>
        ensures name { result.store.ghost_name ≡ store.entry.ghost_name }
        ensures store { result.store.now ≡ store.old }
        ensures gone { bit_rows result.gone ≡ no_starts }
    {
        Cutting {
            store,
            gone: BitStore::empty(),
        }
    }

    /// Cuts out a start that stands.
    pub(crate) fn cut(&mut self, row: usize, start: usize)
        requires { S.rows self.old.store.now row start ≡ true }
        ensures table { S.rows self.new.store.now ≡ without (S.rows self.old.store.now) row start }
        ensures cuts { Cuts S.rows self.old self.new }
    {
        let _ = self.store.take_out(row, start);
        let _ = self.gone.put_back(row, start);
    }

    /// Cuts out each start of a row that `keep` refuses.
    pub(crate) fn retain<F: Fn(usize) -> bool>(&mut self, row: usize, keep: F)
        requires { (start : ℕ) → S.rows self.old.store.now row start ≡ true → F.pre keep start }
        ensures table { Retained (F.post keep) row (S.rows self.old.store.now) (S.rows self.new.store.now) }
        ensures cuts { Cuts S.rows self.old self.new }
    {
        // The start is counted by hand: an iterator over the row would borrow the store, which the walk changes.
        let mut next = 0;
        while let Some(start) = self.store.after(row, next) {
            if !keep(start) {
                self.cut(row, start);
            }
            next = start + 1;
        }
    }

    /// Puts back all that was cut out.
    pub(crate) fn put_back(&mut self)
        ensures name { self.new.store.ghost_name ≡ self.old.store.ghost_name }
        ensures table { S.rows self.new.store.now ≡ union (S.rows self.old.store.now) (bit_rows self.old.gone) }
    {
        pour(self.store, &self.gone);
    }
}
