use tickets::PlannerRefusal;

// A token's stamp and level stand as two: the definitions compare each with another part of the state.

/// What can be asked of a planner.
#[derive(Clone, Copy)]
pub enum Call {
    /// Takes one start out of a ticket's row.
    Ban { ticket: usize, start: usize },
    /// Takes all other starts out of a ticket's row.
    Fix { ticket: usize, start: usize },
    /// Sets a smaller ceiling.
    Lower { ceiling: u32 },
    /// Opens a level.
    Mark,
    /// Joins the newest level to the one below: the token's stamp and level.
    Keep { stamp: u16, level: usize },
    /// Puts back what was taken out since the newest mark: the token's stamp and level.
    Undo { stamp: u16, level: usize },
    /// Makes the table the largest self-supporting one: how many words there are for the cuts.
    Prune { room: usize },
}

/// What a call that was taken tells.
#[derive(Clone, Copy)]
pub enum Taken {
    /// There is nothing to tell.
    Done,
    /// A mark: its token's stamp and level.
    Marked { stamp: u16, level: usize },
    /// A prune: how many cuts it made.
    Cut { cuts: usize },
}

/// What became of a call: what it tells, or why it was refused.
pub type Answer = Result<Taken, PlannerRefusal>;
