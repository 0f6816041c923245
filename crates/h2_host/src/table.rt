//! The places of a host.

ghost use Rattle.std.specs.Prelude.{◌≡◌, ◌↔◌, ◌≤◌, true, [], IfOk, IfErr, OnErr, MatchOption};
ghost use Rattle.std.specs.Prelude.{length, min, ◌^◌};
ghost use Rattle.h2_host.specs.Openings.{MakesPlace, TakesPlace, EmptiesPlace};
ghost use Rattle.h2_host.specs.Tokens.{AreFree, HasNext, IsAt, IsNow, connections_at};

use crate::token::{MOST_PLACES, Token};
use std::alloc::{AllocError, Global};

/// A place: its connection, if it has one, and how many had it before.
#[derive(Drop)]
pub(crate) struct Slot<P> {
    pub(crate) generation: u32,
    pub(crate) party: Option<P>,
    /// Whether it is in the queue of turns, where it stays as connections come and go.
    pub(crate) queued: bool,
}

/// The places of a host. A place that is free again is given with the next generation; after its
/// last generation a place is no longer given.
#[derive(Drop)]
pub(crate) struct Table<P> {
    pub(crate) slots: Vec<Slot<P>>,
    /// The free places; the last is given next.
    free: Vec<u32>,
    /// The number of places taken.
    pub(crate) count: usize,
    ghost free_ones: { AreFree slots.items free.items },
    ghost next_ones: { HasNext slots.items },
    ghost counted: { count ≡ connections_at slots.items },
    ghost few: { length slots.items ≤ 2 ^ 20 },
}

impl<P: Drop> Table<P> {
    /// Creates a table without places.
    pub(crate) fn new(alloc: Global) -> Table<P>
        ensures { result.slots.items ≡ [] }
    {
        Table {
            slots: Vec::new(alloc),
            free: Vec::new(alloc),
            count: 0,
        }
    }

    /// Whether no place is free and there are `most` or more.
    pub(crate) fn is_full(&self, most: usize) -> bool
        ensures { result ≡ true → min most (2 ^ 20) ≤ length self.now.slots.items }
    {
        self.free.is_empty() && self.slots.len() >= most.min(MOST_PLACES)
    }

    /// Adds a free place, if there is none.
    ///
    /// # Errors
    ///
    /// [`AllocError`] if an allocation was refused, or there may be no more places.
    pub(crate) fn make_place(&mut self, most: usize) -> Result<(), AllocError>
        ensures { MakesPlace self.old.slots.items self.new.slots.items most }
    {
        if !self.free.is_empty() {
            return Ok(());
        }
        let bound = most.min(MOST_PLACES);
        let count = self.slots.len();
        if count >= bound {
            return Err(AllocError);
        }
        let Ok(place) = u32::try_from(count) else {
            return Err(AllocError);
        };
        // Then freeing a place needs no memory.
        let places = count.saturating_add(1);
        self.free.reserve(places)?;
        self.slots.push(Slot {
            generation: 0,
            party: None,
            queued: false,
        })?;
        self.free.push(place)?;
        Ok(())
    }

    // rule: hosts (own) No token is given twice, and an old one changes nothing
    /// Gives the next free place to a party, or hands the party back if none is free.
    pub(crate) fn take_place(&mut self, party: P) -> Result<Token, P>
        ensures ok { IfOk result (λ token. TakesPlace self.old.slots.items
            self.new.slots.items token party) }
        ensures err { IfErr result (λ back. back ≡ party) }
        ensures same { OnErr result (self.new.slots.items ≡ self.old.slots.items) }
    {
        let Some(place) = self.free.pop() else {
            return Err(party);
        };
        let Some(slot) = self.slots.get_mut(place as usize) else {
            return Err(party);
        };
        slot.party = Some(party);
        self.count = self.count.saturating_add(1);
        Ok(Token {
            place,
            generation: slot.generation,
        })
    }

    /// Whether a token names an open connection.
    pub(crate) fn is_now(&self, token: Token) -> bool
        ensures { (result ≡ true) ↔ IsNow self.now.slots.items token }
    {
        match self.slots.get(token.place as usize) {
            Some(slot) => slot.generation == token.generation && slot.party.is_some(),
            None => false,
        }
    }

    /// Frees a place, and returns its party; none if the token names no open connection.
    pub(crate) fn leave_place(&mut self, token: Token) -> Option<P>
        ensures { MatchOption result
            ((IsNow self.old.slots.items token → ⊥) × (self.new ≡ self.old))
            (λ party. EmptiesPlace self.old.slots.items self.new.slots.items token party) }
    {
        if !self.is_now(token) {
            return None;
        }
        let slot = self.slots.get_mut(token.place as usize)?;
        let party = slot.party.take()?;
        self.count = self.count.saturating_sub(1);
        slot.generation = slot.generation.saturating_add(1);
        if slot.generation < u32::MAX {
            // The list has room for each place.
            let _ = self.free.push(token.place);
        }
        Some(party)
    }
}
