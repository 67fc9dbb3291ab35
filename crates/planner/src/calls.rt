//! The calls that order, and those that open and close levels.
ghost use Rattle.runs.specs.declared.call.Call.TheVariants.{Ban, Fix, Lower, Mark, Keep, Undo};
ghost use Rattle.planner.specs.States.{setting_of, done, opened, closed, HandedBack};
ghost use Rattle.planner.specs.Finding.{Found};
ghost use Rattle.planner.specs.Calls.{Moved};
ghost use Rattle.planner.specs.Closing.{Spent};

use crate::cutting::Cutting;
use crate::levels::{join, note};
use crate::sets::pour;
use crate::state::Planner;
use crate::token::{Token, TokenRefused};
use stores::{BitStore, Store};
use tickets::PlannerRefusal;

impl<S: Store> Planner<S> {
    /// Refuses a number that no ticket has, and a start that is not in the ticket's row.
    fn find(&self, ticket: usize, start: usize) -> Result<(), PlannerRefusal>
        ensures { Found (setting_of self.now) (S.rows self.now.store) ticket start result }
    {
        if ticket >= self.collection.tickets().len() {
            return Err(PlannerRefusal::NoSuchTicket);
        }
        if !self.store.holds(ticket, start) {
            return Err(PlannerRefusal::NoSuchStart);
        }
        Ok(())
    }

    /// Takes one start out of a ticket's row.
    pub fn ban(&mut self, ticket: usize, start: usize) -> Result<(), PlannerRefusal>
        ensures { Moved S.rows self.old (Ban ticket start) (done result) self.new }
    {
        self.find(ticket, start)?;
        if self.store.size(ticket) <= 1 {
            return Err(PlannerRefusal::OnlyStart);
        }
        let mut cutting = Cutting::of(&mut self.store);
        cutting.cut(ticket, start);
        note(&mut self.levels, &cutting.gone);
        Ok(())
    }

    /// Takes all other starts out of a ticket's row.
    pub fn fix(&mut self, ticket: usize, start: usize) -> Result<(), PlannerRefusal>
        ensures { Moved S.rows self.old (Fix ticket start) (done result) self.new }
    {
        self.find(ticket, start)?;
        let mut cutting = Cutting::of(&mut self.store);
        cutting.retain(ticket, |other| other == start);
        note(&mut self.levels, &cutting.gone);
        Ok(())
    }

    /// Sets a smaller ceiling.
    pub fn lower(&mut self, ceiling: u32) -> Result<(), PlannerRefusal>
        ensures { Moved S.rows self.old (Lower ceiling) (done result) self.new }
    {
        if ceiling >= self.ceiling {
            return Err(PlannerRefusal::CeilingNotLower);
        }
        self.ceiling = ceiling;
        Ok(())
    }

    /// Opens a level, and answers its token.
    pub fn mark(&mut self) -> Result<Token, PlannerRefusal>
        ensures { Moved S.rows self.old Mark (opened result) self.new }
    {
        if self.levels.is_full() {
            return Err(PlannerRefusal::TooManyLevels);
        }
        self.levels.push(BitStore::empty());
        Ok(Token {
            stamp: self.stamp,
            level: self.levels.len(),
        })
    }

    /// Joins the newest level to the one below, and spends its token.
    pub fn keep(&mut self, token: Token) -> Result<(), TokenRefused>
        ensures moved { Moved S.rows self.old (Keep token.stamp token.level) (closed result) self.new }
        ensures token { HandedBack token result }
    {
        self.spend(token)?;
        join(&mut self.levels);
        Ok(())
    }

    /// Puts back every start that was taken out since the newest level's mark, closes it, and spends its token.
    pub fn undo(&mut self, token: Token) -> Result<(), TokenRefused>
        ensures moved { Moved S.rows self.old (Undo token.stamp token.level) (closed result) self.new }
        ensures token { HandedBack token result }
    {
        self.spend(token)?;
        if let Some(newest) = self.levels.last() {
            pour(&mut self.store, newest);
            self.levels.pop();
        }
        Ok(())
    }

    /// Spends the newest level's token; any other is handed back.
    fn spend(&self, token: Token) -> Result<(), TokenRefused>
        ensures { Spent S.rows self.now token result }
    {
        if token.stamp == self.stamp && token.level > 0 && token.level == self.levels.len() {
            let Token { stamp: _, level: _ } = token;
            return Ok(());
        }
        Err(TokenRefused {
            refusal: PlannerRefusal::StaleToken,
            token,
        })
    }
}
