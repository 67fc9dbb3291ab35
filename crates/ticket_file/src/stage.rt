ghost use Rattle.std.specs.Prelude.{◌≡◌, ℕ, List, [], ◌∷◌, ◌++◌, MatchResult};
ghost use Rattle.ticket_file.specs.Format.{Begins};
ghost use Rattle.ticket_file.specs.Readings.{letter, Follows};

use crate::kind::Kind;
use crate::refusal::FileRefusal;

/// Which records may come next.
#[derive(Clone, Copy)]
pub(crate) enum Stage {
    /// A ticket or the ceiling.
    Tickets,
    /// A ban.
    Bans,
}

impl Stage {
    /// The stage after a record of this kind, if it may come now.
    pub(crate) fn after(self, kind: Kind) -> Result<Stage, FileRefusal>
        ensures { (ks : List ℕ) → Follows self ks → MatchResult result (λ s. Follows s (ks ++ letter kind ∷ [])) (λ e. (e ≡ FileRefusal.OutOfOrder) × (Begins (ks ++ letter kind ∷ []) → ⊥)) }
    {
        match (self, kind) {
            (Stage::Tickets, Kind::Ticket) => Ok(Stage::Tickets),
            (Stage::Tickets, Kind::Ceiling) => Ok(Stage::Bans),
            (Stage::Bans, Kind::Ban) => Ok(Stage::Bans),
            _ => Err(FileRefusal::OutOfOrder),
        }
    }
}
