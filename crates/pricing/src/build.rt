//! The builder: the cheapest spread, built in time order from event to event.
ghost use Rattle.std.specs.Prelude.{◌≡◌, ◌+◌, ◌*◌, ◌<◌, ◌≤◌, true, length};
ghost use Rattle.heap.specs.Waiting.{waiting, room, SameSlots};
ghost use Rattle.pricing.specs.Works.{rank_of, moved};
ghost use Rattle.pricing.specs.Terms.{most_stretch, most_half, halves_of};
ghost use Rattle.pricing.specs.Steps.{Entered, Busy, Priced};

use crate::events::next_event;
use crate::guard::Guard;
use crate::keys::{Rank, Release};
use crate::step::{Event, Playing};
use crate::terms::{half, stretch};
use crate::work::Works;
use heap::Heap;
use tickets::MOST_TICKETS;

// Constants and no `Default`: a release or a rank that means nothing should be no default of its type.

/// What stands in a slot in which nothing waits.
const NO_RELEASE: Release = Release { slot: 0, number: 0 };

/// What stands in a slot in which nothing waits.
const NO_RANK: Rank = Rank {
    pinned: false,
    weight: 0,
    length: 1,
    number: 0,
};

impl Works {
    /// The half terms of all tickets.
    fn halves(&self) -> u64
        ensures value { result ≡ halves_of self.now.entries.items }
        ensures most { result ≤ 24 * most_half }
    {
        self.entries.iter().map(|entry| half(*entry)).sum()
    }

    // The bound on a number hangs on the works that it is used with, so no type of a number states it: the clause stays
    // here, in `build_pinned` and in `Guard::pin`.
    /// How a ticket ranks.
    fn rank(&self, ticket: usize) -> Rank
        requires { ticket < length self.now.entries.items }
        ensures { result ≡ rank_of self.now.entries.items ticket }
    {
        let entry = self.entries[ticket];
        Rank {
            pinned: entry.pinned,
            weight: entry.weight,
            length: entry.length,
            number: ticket as u8,
        }
    }

    /// Enters each ticket's release into `coming`, and what it has to play into `left`.
    fn enter(&self, coming: &mut Heap<Release>, left: &mut [u8])
        requires room { room coming.old ≡ 24 }
        requires entered { Entered self.now.entries.items 0 (waiting coming.old) left.old }
        ensures slots { SameSlots coming.old coming.new }
        ensures entered { Entered self.now.entries.items (length self.now.entries.items) (waiting coming.new) left.new }
    {
        for (number, entry) in self.entries.iter().enumerate() {
            left[number] = entry.length;
            let _ = coming.push(Release {
                slot: entry.release,
                number: number as u8,
            });
        }
    }

    /// Plays all tickets, and answers the busy terms of the price. There is room for each ticket in both lines.
    fn play(&self) -> u64
        ensures busy { Busy self.now.entries.items result }
        ensures most { result ≤ 48 * most_stretch }
    {
        let mut coming_slots = [NO_RELEASE; MOST_TICKETS];
        let mut ready_slots = [NO_RANK; MOST_TICKETS];
        // What each ticket has left stands beside the entries, since those are only lent.
        let mut left = [0u8; MOST_TICKETS];
        let mut coming = Heap::new(&mut coming_slots);
        let mut ready = Heap::new(&mut ready_slots);
        self.enter(&mut coming, &mut left);
        let mut playing: Option<Playing> = None;
        let mut spent = 0u64;
        while let Some((event, at)) = next_event(&mut coming, playing, &left) {
            match event {
                Event::Release(ticket) => match playing {
                    None => playing = Some(Playing { ticket, since: at }),
                    Some(old) => {
                        let own = self.rank(ticket);
                        let other = self.rank(old.ticket);
                        if own < other {
                            spent += stretch(self.entries[old.ticket], old.since, at);
                            left[old.ticket] -= (at - old.since) as u8;
                            let _ = ready.push(other);
                            playing = Some(Playing { ticket, since: at });
                        } else {
                            let _ = ready.push(own);
                        }
                    }
                },
                Event::Completion(old) => {
                    spent += stretch(self.entries[old.ticket], old.since, at);
                    left[old.ticket] = 0;
                    playing = ready.pop().map(|next| Playing {
                        ticket: usize::from(next.number),
                        since: at,
                    });
                }
            }
        }
        spent
    }

    /// The price of the spread that is built.
    pub(crate) fn build(&self) -> u64
        ensures { Priced self.now.entries.items result }
    {
        self.halves() + self.play()
    }

    /// The price of the spread that is built with the ticket pinned at `start`. The entries are afterwards as before.
    pub(crate) fn build_pinned(&mut self, ticket: usize, start: u8) -> u64
        requires { ticket < length self.old.entries.items }
        ensures restored { self.new.entries.items ≡ self.old.entries.items }
        ensures price { Priced (moved self.old.entries.items ticket start true) result }
    {
        let guard = Guard::pin(self, ticket, start);
        guard.works().build()
    }
}
