use tickets::PlannerRefusal;

/// An open level of a planner.
///
/// It is not `Drop`: a token cannot be let go, only spent, by keeping or undoing its level.
pub struct Token {
    pub(crate) stamp: u16,
    pub(crate) level: usize,
}

/// A token that was refused and is handed back, and why.
pub struct TokenRefused {
    pub refusal: PlannerRefusal,
    pub token: Token,
}
