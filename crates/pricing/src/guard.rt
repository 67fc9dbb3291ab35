//! The guard: while it lives, one working entry is pinned; when it goes, however it goes, the entry is as before.
ghost use Rattle.std.specs.Prelude.{◌≡◌, ◌<◌, true, length, slice_set};
ghost use Rattle.pricing.specs.Works.{moved};

use crate::work::{Work, Works};

pub(crate) struct Guard<'a> {
    works: &'a mut Works,
    ticket: usize,
    /// The entry as it was.
    old: Work,
    ghost known: { ticket < length works.now.entries.items },
}

impl Drop for Guard<'_> {
    #[tactic(auto, using(crate::proofs::Entries::written_back))]
    fn drop(self)
        ensures { self.exit.0.now.entries.items ≡ slice_set self.entry.works.now.entries.items self.entry.ticket self.entry.old }
    {
        let Guard { works, ticket, old } = self;
        works.entries[ticket] = old;
    }
}

impl<'a> Guard<'a> {
    /// Gives the ticket the release `start` and a rank above all others.
    pub(crate) fn pin(works: &'a mut Works, ticket: usize, start: u8) -> Guard<'a>
        requires { ticket < length works.old.entries.items }
        ensures name { result.works.ghost_name ≡ works.entry.ghost_name }
        ensures pinned { result.works.now.entries.items ≡ moved works.old.entries.items ticket start true }
        ensures restores { slice_set result.works.now.entries.items result.ticket result.old ≡ works.old.entries.items }
    {
        let old = works.entries[ticket];
        works.entries[ticket] = Work {
            release: start,
            weight: old.weight,
            length: old.length,
            pinned: true,
        };
        Guard { works, ticket, old }
    }

    /// The entries as they are while the guard lives.
    pub(crate) fn works(&self) -> &Works
        ensures { result.now ≡ self.now.works.now }
    {
        &*self.works
    }
}
