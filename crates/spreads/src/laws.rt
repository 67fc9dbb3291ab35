//! Theorems on spreads and their prices: the contract of each function states one.
ghost use Rattle.spreads.specs.Domination.{Domination, ServingIsLeast};
ghost use Rattle.spreads.specs.Greedy.{GreedyIsLeast, GreedyPrice};
ghost use Rattle.spreads.specs.Pinned.{PinnedAlone, PinnedPrice};
ghost use Rattle.spreads.specs.Rises.{FreeRises, PinnedRises};
ghost use Rattle.spreads.specs.Ranks.{RankByProducts};
ghost use Rattle.spreads.specs.Plans.{UnbrokenPrice, PlanIsSpread, PlanBounds};
ghost use Rattle.spreads.specs.Builder.{BuiltFree, BuiltPinned};
ghost use Rattle.spreads.specs.Exists.{FreeExists, PinnedExists, NoneFree};
ghost use Rattle.spreads.specs.Figures.{FiguresHold};

/// Who serves a set of tickets first has at any time given it no less.
pub fn domination()
    ensures { Domination }
{}

/// Who serves the tickets of greater value first has the least sum of value times slot.
pub fn serving_is_least()
    ensures { ServingIsLeast }
{}

/// A greedy spread is least, whatever the releases and the values are.
pub fn greedy_is_least()
    ensures { GreedyIsLeast }
{}

/// The price of a greedy spread is the free price.
pub fn greedy_price()
    ensures { GreedyPrice }
{}

/// A pinned ticket has exactly its slots.
pub fn pinned_alone()
    ensures { PinnedAlone }
{}

/// With a ticket released at the slot at which it is pinned, and of a value above all others, the price of a
/// greedy spread is the pinned price.
pub fn pinned_price()
    ensures { PinnedPrice }
{}

/// The free price does not fall when releases rise.
pub fn free_rises()
    ensures { FreeRises }
{}

/// A pinned price does not fall when the releases of the other tickets rise.
pub fn pinned_rises()
    ensures { PinnedRises }
{}

/// Comparing w / p by products is comparing w × (720720 / p).
pub fn rank_by_products()
    ensures { RankByProducts }
{}

/// The price of a spread without breaks is 720720 × the cost of its starts.
pub fn unbroken_price()
    ensures { UnbrokenPrice }
{}

/// A plan without overlaps, whose starts are not before the releases, is a spread with the price 720720 × its
/// cost.
pub fn plan_is_spread()
    ensures { PlanIsSpread }
{}

/// So neither the free price nor the pinned price of a ticket at its own start is above 720720 × the cost of
/// such a plan.
pub fn plan_bounds()
    ensures { PlanBounds }
{}

/// What is built in time order, by the tickets' own values, has the free price.
pub fn built_free()
    ensures { BuiltFree }
{}

/// What is built with a ticket released at its start and of a value above all others has the pinned price.
pub fn built_pinned()
    ensures { BuiltPinned }
{}

/// There is one free price.
pub fn free_exists()
    ensures { FreeExists }
{}

/// There is one pinned price of each ticket at each slot.
pub fn pinned_exists()
    ensures { PinnedExists }
{}

/// The prices of some worked days.
pub fn figures_hold()
    ensures { FiguresHold }
{}

/// With no tickets the free price is 0.
pub fn none_free()
    ensures { NoneFree }
{}
