//! Gives turns, and makes steps.

ghost use Rattle.std.specs.Prelude.{◌≡◌, None, MatchOption};
ghost use Rattle.h2_host.specs.Queueing.{EndsTurn, FindsFirst, HasPlaceSpace, HasReady};
ghost use Rattle.h2_host.specs.Queueing.{IsEmptyQueue, PopsPlace, QueuesPlace};
ghost use Rattle.h2_host.specs.Sound.{IsSoundHost};
ghost use Rattle.h2_host.specs.Steps.{AnswersStep, AnswersOwn, AnswersTime, GivesTurn};

use crate::host::{Reply, Step};
use crate::moving::queue_slot;
use crate::party::{Own, Party};
use crate::state::HostState;
use crate::token::Token;
use crate::turn::Turn;

impl<P: Party> HostState<P> {
    /// Makes a step.
    pub(crate) fn step(&mut self, step: Step<P>, octets: &[u8]) -> Reply<P>
        requires { IsSoundHost P.held_of P.ready_of self.old }
        ensures answers { AnswersStep P.steps P.held_of P.ready_of self.old self.new step octets.now
            result }
        ensures sound { IsSoundHost P.held_of P.ready_of self.new }
    {
        match step {
            Step::Opened { party } => self.open(party),
            Step::Own { token, own } => self.step_of(token, own, octets),
            Step::Passed { now } => self.pass(now),
            Step::Closed { token } => self.close(token),
            Step::NextTurn => Reply::Turn(self.give_turn()),
        }
    }

    /// Makes a step of one connection, if its token names an open one and the turn allows it.
    pub(crate) fn step_of(&mut self, token: Token, own: Own, octets: &[u8]) -> Reply<P>
        requires { IsSoundHost P.held_of P.ready_of self.old }
        ensures answers { AnswersOwn P.steps P.held_of self.old self.new token own octets.now
            result }
        ensures sound { IsSoundHost P.held_of P.ready_of self.new }
    {
        if !self.table.is_now(token) {
            return Reply::Stale;
        }
        let Some(turn) = self.turn.after(token, own, octets.len()) else {
            return Reply::NotNow;
        };
        self.turn = turn;
        let Some(answer) = self.make(token, own, octets) else {
            return Reply::Stale;
        };
        Reply::Own(answer)
    }

    // rule: hosts (own) Each connection sees each time that passes, once
    /// Tells each connection the time, which never decreases.
    pub(crate) fn pass(&mut self, now: u64) -> Reply<P>
        requires { IsSoundHost P.held_of P.ready_of self.old }
        ensures answers { AnswersTime P.steps self.old self.new now result }
        ensures sound { IsSoundHost P.held_of P.ready_of self.new }
    {
        let time = self.time.max(now);
        self.time = time;
        for place in 0..self.table.slots.len() {
            if let Some(token) = self.token_at(place) {
                let _ = self.make(token, Own::Passed { now: time }, &[]);
            }
        }
        Reply::Passed
    }

    /// Gives the turn to the first ready connection in the queue, if there is one.
    pub(crate) fn give_turn(&mut self) -> Option<Token>
        requires { IsSoundHost P.held_of P.ready_of self.old }
        ensures turn { GivesTurn P.ready_of self.old self.new result }
        ensures sound { IsSoundHost P.held_of P.ready_of self.new }
    {
        self.end_turn();
        self.first_ready()
    }

    /// Ends the turn: its connection goes to the end of the queue, if it is ready and not queued.
    fn end_turn(&mut self)
        requires { IsSoundHost P.held_of P.ready_of self.old }
        ensures ends { EndsTurn self.old self.new }
        ensures sound { IsSoundHost P.held_of P.ready_of self.new }
    {
        let Some(token) = self.turn.token else {
            return;
        };
        self.queue_place(token.place);
        self.turn = Turn::of(None);
    }

    /// Takes places from the queue up to the first whose connection is ready, and gives that one
    /// the turn.
    fn first_ready(&mut self) -> Option<Token>
        requires none { self.old.turn.token ≡ None }
        requires sound { IsSoundHost P.held_of P.ready_of self.old }
        ensures turn { FindsFirst P.ready_of self.old self.new result }
        ensures sound { IsSoundHost P.held_of P.ready_of self.new }
    {
        while let Some(place) = self.pop_place() {
            if let Some(token) = self.ready_at(place) {
                self.turn = Turn::of(Some(token));
                return Some(token);
            }
        }
        self.turn = Turn::of(None);
        None
    }

    /// Takes the first place from the queue.
    fn pop_place(&mut self) -> Option<u32>
        requires { IsSoundHost P.held_of P.ready_of self.old }
        ensures { MatchOption result (IsEmptyQueue self.old self.new)
            (PopsPlace self.old self.new) }
    {
        if self.queue.is_empty() {
            return None;
        }
        let place = self.queue.pop_front()?;
        if let Some(slot) = self.table.slots.get_mut(place as usize) {
            slot.queued = false;
        }
        Some(place)
    }

    /// The token of the connection at a place, if it is ready.
    fn ready_at(&self, place: u32) -> Option<Token>
        ensures { HasReady P.ready_of self.now.table.slots.items place result }
    {
        let slot = self.table.slots.get(place as usize)?;
        match &slot.party {
            Some(party) if party.is_ready() => Some(Token {
                place,
                generation: slot.generation,
            }),
            _ => None,
        }
    }

    /// Queues a place if its connection is ready and it is not queued.
    pub(crate) fn queue_place(&mut self, place: u32)
        requires { HasPlaceSpace P.ready_of self.old place }
        ensures { QueuesPlace P.ready_of self.old self.new place }
    {
        if let Some(slot) = self.table.slots.get_mut(place as usize) {
            queue_slot(slot, &mut self.queue, place);
        }
    }
}
