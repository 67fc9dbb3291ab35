/// The starts from `first` to `last`.
#[derive(Clone, Copy)]
pub(crate) struct Range {
    pub(crate) first: usize,
    pub(crate) last: usize,
}
