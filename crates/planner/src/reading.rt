ghost use Rattle.std.specs.Prelude.{◌≡◌};

use crate::state::Planner;
use tickets::Collection;

impl<S> Planner<S> {
    /// The tickets, with the ceiling that they were sealed under.
    pub fn collection(&self) -> &Collection
        ensures { result.now ≡ self.now.collection }
    {
        &self.collection
    }

    /// The ceiling as it stands.
    pub fn ceiling(&self) -> u32
        ensures { result ≡ self.now.ceiling }
    {
        self.ceiling
    }

    /// The standing table.
    pub fn store(&self) -> &S
        ensures { result.now ≡ self.now.store }
    {
        &self.store
    }
}
