/// What is asked for a ticket, not judged yet.
#[derive(Clone, Copy, Debug, PartialEq)]
pub struct Terms {
    /// The first slot at which it may start.
    pub first: u8,
    /// The last slot at which it may start.
    pub last: u8,
    /// How many slots it plays.
    pub length: u8,
    /// What each slot of its finishing time costs.
    pub weight: u16,
}
