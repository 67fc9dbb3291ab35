//! Judging a plan: one start for each ticket.
ghost use Rattle.std.specs.Prelude.{◌≡◌, ◌+◌, ◌<◌, ◌≤◌, length};
ghost use Rattle.tickets.specs.Collections.{posted};
ghost use Rattle.spreads.specs.Spreads.{ticket};
ghost use Rattle.spreads.specs.Plans.{Overlap, Apart, cost};
ghost use Rattle.queries.specs.Judging.{starts, Tells, InRows, ApartBefore, Judged};

use crate::table::Table;
use stores::Store;
use tickets::{PlannerRefusal, Ticket};

/// A plan with a start for each ticket.
#[derive(Drop)]
struct Plan<'a> {
    tickets: &'a [Ticket],
    starts: &'a [u16],
    ghost few: { length tickets.now ≤ 24 },
    ghost complete: { length starts.now ≡ length tickets.now },
}

impl Plan<'_> {
    // The bound on a number hangs on the plan that it is used with, so no type of a number states it: the clause stays on each.

    /// The first slot of ticket `i`.
    fn start(&self, i: usize) -> u32
        requires { i < length self.now.tickets.now }
        ensures value { result ≡ starts self.now.starts.now i }
        ensures low { result < 65536 }
    {
        u32::from(self.starts[i])
    }

    /// The slot after the last one of ticket `i`.
    fn end(&self, i: usize) -> u32
        requires { i < length self.now.tickets.now }
        ensures value { result ≡ starts self.now.starts.now i + (ticket self.now.tickets.now i).length }
        ensures low { result ≤ 65551 }
    {
        self.start(i) + u32::from(self.tickets[i].length)
    }

    /// Whether some slot belongs to both tickets.
    fn overlap(&self, i: usize, j: usize) -> bool
        requires { (i < length self.now.tickets.now) × (j < length self.now.tickets.now) }
        ensures { Tells result (Overlap self.now.tickets.now (starts self.now.starts.now) i j) }
    {
        self.start(i) < self.end(j) && self.start(j) < self.end(i)
    }

    /// Whether ticket `i` overlaps none of those before it.
    fn apart_before(&self, i: usize) -> bool
        requires { i < length self.now.tickets.now }
        ensures { Tells result (ApartBefore self.now.tickets.now (starts self.now.starts.now) i) }
    {
        (0..i).all(|j| !self.overlap(i, j))
    }

    /// Whether no two tickets overlap.
    fn apart(&self) -> bool
        ensures { Tells result (Apart self.now.tickets.now (starts self.now.starts.now)) }
    {
        (0..self.tickets.len()).all(|i| self.apart_before(i))
    }

    /// The weights times the ends, summed over the tickets.
    fn cost(&self) -> u32
        ensures { result ≡ cost self.now.tickets.now (starts self.now.starts.now) }
    {
        let mut sum = 0;
        for (i, ticket) in self.tickets.iter().enumerate() {
            sum += u32::from(ticket.weight) * self.end(i);
        }
        sum
    }
}

impl<S: Store> Table<'_, S> {
    /// Whether every start is in its row.
    fn in_rows(&self, plan: &[u16]) -> bool
        ensures { Tells result (InRows (S.rows self.now.store.now) plan.now) }
    {
        plan.iter()
            .enumerate()
            .all(|(row, &start)| self.store.holds(row, usize::from(start)))
    }

    /// What the plan costs, if it has a start for each ticket, each in its row, no two tickets overlap, and it
    /// costs no more than the ceiling.
    pub fn judge(&self, ceiling: u32, plan: &[u16]) -> Result<u32, PlannerRefusal>
        ensures { Judged (posted self.now.collection.now) ceiling (S.rows self.now.store.now) plan.now result }
    {
        let tickets = self.collection.tickets();
        if plan.len() != tickets.len() {
            return Err(PlannerRefusal::PlanLength);
        }
        if !self.in_rows(plan) {
            return Err(PlannerRefusal::NoSuchStart);
        }
        let plan = Plan {
            tickets,
            starts: plan,
        };
        if !plan.apart() {
            return Err(PlannerRefusal::Overlap);
        }
        let cost = plan.cost();
        if cost > ceiling {
            return Err(PlannerRefusal::CostTooHigh);
        }
        Ok(cost)
    }
}
