use tickets::Collection;

/// The tickets of a collection, and a store with a row of starts for each.
#[derive_where(Clone, Copy)]
pub struct Table<'a, S> {
    pub collection: &'a Collection,
    pub store: &'a S,
}
