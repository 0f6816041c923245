//! Steps of one connection, and the limits after each.

ghost use Rattle.std.specs.Prelude.{◌≡◌, ◌<◌, ◌≤◌, ◌^◌, ◌++◌, length, ⊤, MatchOption};
ghost use Rattle.std.specs.VecDeque.{deque_capacity, deque_len};
ghost use Rattle.h2_host.specs.Bounds.{EachWithin};
ghost use Rattle.h2_host.specs.Moves.{HasSpace, HoldsAt, HoldsMost, IsMade, IsMadeOne, KeepsFrame};
ghost use Rattle.h2_host.specs.Moves.{NobodyAt, NowAt, OthersWithin, RefusesOwn};
ghost use Rattle.h2_host.specs.Sound.{IsSoundHost, IsSteady};
ghost use Rattle.h2_host.specs.Steps.{FitsAll, slots_of};
ghost use Rattle.h2_host.specs.Tokens.{IsNow};
ghost use Rattle.h2_host.specs.Turns.{queue_more, slot_queued};

use crate::party::{Answer, Bound, Own, Party};
use crate::state::HostState;
use crate::table::Slot;
use crate::token::Token;
use std::collections::VecDeque;

// rule: hosts (own) All that are ready have a turn before any has a second
/// Queues a place if its connection is ready and it is not queued.
pub(crate) fn queue_slot<P: Party>(slot: &mut Slot<P>, queue: &mut VecDeque<u32>, place: u32)
    requires { HasSpace P.ready_of slot.old (deque_len queue.old) (deque_capacity queue.old) }
    ensures slot { slot.new ≡ slot_queued P.ready_of slot.old }
    ensures queue { queue.new.items ≡ queue.old.items ++ queue_more P.ready_of slot.old place }
    ensures capacity { deque_capacity queue.new ≡ deque_capacity queue.old }
{
    let is_ready = match &slot.party {
        Some(party) => party.is_ready(),
        None => false,
    };
    if is_ready && !slot.queued {
        slot.queued = true;
        queue.push_back_reserved(place);
    }
}

impl<P: Party> HostState<P> {
    /// Makes a step of one connection. Then refuses that one if it holds more than one may, and
    /// others as long as all hold more than they may.
    pub(crate) fn make(&mut self, token: Token, own: Own, octets: &[u8]) -> Option<Answer>
        requires now { IsNow self.old.table.slots.items token }
        requires sound { IsSoundHost P.held_of P.ready_of self.old }
        ensures made { IsMade P.steps P.held_of self.old self.new token own octets.now result }
        ensures sound { IsSoundHost P.held_of P.ready_of self.new }
        ensures frame { KeepsFrame self.old self.new }
    {
        let answer = self.make_one(token, own, octets)?;
        self.fit_one(token);
        self.fit_all();
        Some(answer)
    }

    // rule: hosts (own) A connection is what its own steps make of it
    /// Makes a step of one connection, recounts what it holds, and queues it if it is ready.
    fn make_one(&mut self, token: Token, own: Own, octets: &[u8]) -> Option<Answer>
        requires now { IsNow self.old.table.slots.items token }
        requires steady { IsSteady P.held_of P.ready_of self.old }
        requires few { self.old.held < 2 ^ 66 }
        ensures made { IsMadeOne P.steps P.held_of P.ready_of self.old self.new token own
            octets.now result }
        ensures steady { IsSteady P.held_of P.ready_of self.new }
        ensures frame { KeepsFrame self.old self.new }
    {
        let slot = self.table.slots.get_mut(token.place as usize)?;
        let party = slot.party.as_mut()?;
        let before = party.held();
        let answer = party.step(own, octets, &mut self.room);
        let after = party.held();
        queue_slot(slot, &mut self.queue, token.place);
        self.held = self.held - before as u128 + after as u128;
        Some(answer)
    }

    /// Refuses a connection if it holds more than one may.
    fn fit_one(&mut self, token: Token)
        requires now { IsNow self.old.table.slots.items token }
        requires steady { IsSteady P.held_of P.ready_of self.old }
        requires few { self.old.held < 2 ^ 66 }
        requires others { OthersWithin P.held_of self.old.table.slots.items self.old.limits.held
            token.place }
        ensures refused { RefusesOwn P.steps P.held_of self.old self.new token }
        ensures steady { IsSteady P.held_of P.ready_of self.new }
        ensures few { self.new.held ≤ self.old.held }
        ensures each { EachWithin P.held_of self.new.table.slots.items self.new.limits.held }
        ensures frame { KeepsFrame self.old self.new }
    {
        let held = self.held_at(token.place as usize);
        let most = self.limits.held;
        if held <= most {
            return;
        }
        let bound = Bound::Held;
        let _ = self.make_one(token, Own::Refused { bound }, &[]);
    }

    // rule: hosts (own) Who holds most is refused until all hold what they may
    /// Refuses the connection that holds most, of equal ones that of the lowest place, until all
    /// together hold no more than they may.
    fn fit_all(&mut self)
        requires steady { IsSteady P.held_of P.ready_of self.old }
        requires few { self.old.held < 2 ^ 66 }
        requires each { EachWithin P.held_of self.old.table.slots.items self.old.limits.held }
        ensures fits { FitsAll P.steps P.held_of self.old.limits.held_in_all
            self.old.table.slots.items self.new.table.slots.items }
        ensures sound { IsSoundHost P.held_of P.ready_of self.new }
        ensures frame { KeepsFrame self.old self.new }
    {
        while self.held > self.limits.held_in_all as u128 {
            let Some(token) = self.greatest_holder() else {
                return;
            };
            let bound = Bound::HeldInAll;
            let _ = self.make_one(token, Own::Refused { bound }, &[]);
        }
    }

    /// The connection that holds most.
    fn greatest_holder(&self) -> Option<Token>
        requires steady { IsSteady P.held_of P.ready_of self.now }
        requires some { 0 < self.now.held }
        ensures { MatchOption result ⊥ (λ token. HoldsMost P.held_of self.now.table.slots.items
            token) }
    {
        let mut greatest = 0usize;
        let mut most = 0usize;
        for place in 0..self.table.slots.len() {
            let held = self.held_at(place);
            if held > most {
                most = held;
                greatest = place;
            }
        }
        self.token_at(greatest)
    }

    /// The octets that the connection at a place holds.
    fn held_at(&self, place: usize) -> usize
        ensures { HoldsAt P.held_of self.now.table.slots.items place result }
    {
        match self.table.slots.get(place) {
            Some(slot) => match &slot.party {
                Some(party) => party.held(),
                None => 0,
            },
            None => 0,
        }
    }

    /// The token of the connection at a place.
    pub(crate) fn token_at(&self, place: usize) -> Option<Token>
        requires { length self.now.table.slots.items ≤ 2 ^ 20 }
        ensures { MatchOption result (NobodyAt self.now.table.slots.items place)
            (NowAt self.now.table.slots.items place) }
    {
        let number = u32::try_from(place).ok()?;
        let slot = self.table.slots.get(place)?;
        match &slot.party {
            Some(_) => Some(Token {
                place: number,
                generation: slot.generation,
            }),
            None => None,
        }
    }
}
