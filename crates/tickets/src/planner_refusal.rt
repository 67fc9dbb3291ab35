ghost use Rattle.std.specs.Prelude.{◌≡◌};
ghost use Rattle.tickets.specs.Planner.{number_of};

/// Why whoever plans the tickets refuses.
#[derive(Clone, Copy, Debug, PartialEq)]
pub enum PlannerRefusal {
    /// No ticket has this number.
    NoSuchTicket = 11,
    /// A start that is not in its row, or above 255.
    NoSuchStart = 12,
    /// The start is the only one in its row.
    OnlyStart = 13,
    /// The new ceiling is not lower than the present one.
    CeilingNotLower = 14,
    /// There are 32 open levels already.
    TooManyLevels = 15,
    /// The token's level is not the newest open one, or its stamp is another planner's.
    StaleToken = 16,
    /// The memory that was lent is too short.
    TooShort = 17,
    /// A plan has more starts or fewer than there are tickets.
    PlanLength = 18,
    /// Two tickets of a plan overlap.
    Overlap = 19,
    /// A plan costs more than the ceiling.
    CostTooHigh = 20,
    /// There is no self-supporting table.
    Hopeless = 21,
}

impl PlannerRefusal {
    // Not one method of a trait for all layers: each answers by its own layer's definition.

    /// The number by which the refusal is known outside.
    pub fn number(self) -> u8
        ensures { result ≡ number_of self }
    {
        self as u8
    }
}
