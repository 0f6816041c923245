//! A host: many connections that take turns. It has no clock and no socket.

ghost use Rattle.std.specs.Prelude.{◌≡◌, ◌==◌, ◌≤◌, ◌^◌, length, min, true, IfOk, OnErr};

use crate::limits::Limits;
use crate::party::{Answer, Own, Party};
use crate::state::HostState;
use crate::table::Table;
use crate::token::{MOST_PLACES, Token};
use crate::turn::{MOST_GIVEN, Turn};
use std::alloc::{AllocError, Global};
use std::collections::VecDeque;
use std::marker::Model;

/// A step of a host.
#[derive(Drop)]
pub enum Step<P> {
    /// A connection was opened.
    Opened {
        /// The connection.
        party: P,
    },
    /// A step of one connection, other than `Passed`.
    Own {
        /// Its token.
        token: Token,
        /// The step.
        own: Own,
    },
    /// Time has passed for all connections.
    Passed {
        /// The time, in milliseconds.
        now: u64,
    },
    /// The transport of a connection was closed.
    Closed {
        /// The connection's token.
        token: Token,
    },
    /// The current turn ends, and the next one begins.
    NextTurn,
}

/// The reply of a host to a step.
#[derive(Drop)]
pub enum Reply<P> {
    /// The connection has this token.
    Opened(Token),
    /// There is no place or no memory for the connection, or it holds too much: it is handed back.
    Full(P),
    /// The answer of the connection.
    Own(Answer),
    /// The token names no open connection: nothing has changed.
    Stale,
    /// It is not the connection's turn, or the turn is used up: nothing has changed.
    NotNow,
    /// Each connection was told the time.
    Passed,
    /// The place is free.
    Closed,
    /// The connection that has the turn, or `None` if no connection is ready.
    Turn(Option<Token>),
}

/// A step, and the octets received if it is [`Own::Came`].
#[derive(Drop)]
pub struct Made<P> {
    /// The step.
    pub step: Step<P>,
    /// The octets.
    pub octets: Vec<u8>,
}

/// Many connections in one thread that take turns: each ready connection has one before any has
/// a second.
#[derive(Drop)]
pub struct Host<P: Party> {
    state: HostState<P>,
}

impl<P: Party> Model for Host<P> {
    ghost use Rattle.h2_host.specs.declared.state.HostState.{HostState};
    ghost use Rattle.h2_host.specs.Sound.{IsSoundHost};

    ghost Value = { HostState P };

    ghost view = { λ host. host.state };

    ghost invariant = { λ host. IsSoundHost P.held_of P.ready_of host.state };
}

impl<P: Party> Host<P> {
    ghost use Rattle.std.specs.Prelude.{[]};
    ghost use Rattle.std.specs.Option.{option_copied};
    ghost use Rattle.h2_host.specs.Bounds.{held_in_all};
    ghost use Rattle.h2_host.specs.Readers.{LendsInTurn, TakesInTurn};
    ghost use Rattle.h2_host.specs.Runs.{IsRun};
    ghost use Rattle.h2_host.specs.Sound.{IsSoundHost};
    ghost use Rattle.h2_host.specs.Steps.{AnswersStep, GivesTurn};
    ghost use Rattle.h2_host.specs.Tokens.{IsPartyOf, connections_at};

    /// Creates a host without connections.
    ///
    /// # Errors
    ///
    /// [`AllocError`] if an allocation was refused.
    pub fn new(alloc: Global, limits: Limits) -> Result<Host<P>, AllocError>
        ensures { IfOk result (λ host. host.table.slots.items ≡ []) }
    {
        let connections = limits.connections.min(MOST_PLACES);
        Ok(Host {
            state: HostState {
                table: Table::new(alloc),
                queue: VecDeque::new(alloc),
                turn: Turn::of(None),
                held: 0,
                time: 0,
                limits: Limits {
                    connections,
                    ..limits
                },
                room: vec![in alloc; 0u8; MOST_GIVEN]?,
            },
        })
    }

    /// Returns the number of connections.
    pub fn len(&self) -> usize
        ensures { result ≡ connections_at self.now.table.slots.items }
    {
        self.state.table.count
    }

    /// Whether there are no connections.
    pub fn is_empty(&self) -> bool
        ensures { result ≡ (connections_at self.now.table.slots.items == 0) }
    {
        self.state.table.count == 0
    }

    /// Whether no place is free, so that no connection can be accepted.
    pub fn is_full(&self) -> bool
        ensures { result ≡ true
            → min self.now.limits.connections (2 ^ 20) ≤ length self.now.table.slots.items }
    {
        self.state.table.is_full(self.state.limits.connections)
    }

    /// Returns the octets that all connections hold.
    pub fn held(&self) -> usize
        ensures sum { result ≡ held_in_all P.held_of self.now.table.slots.items }
        ensures within { result ≤ self.now.limits.held_in_all }
    {
        self.state.held as usize
    }

    /// Returns the latest time that has passed, in milliseconds.
    pub fn now(&self) -> u64
        ensures { result ≡ self.now.time }
    {
        self.state.time
    }

    /// Returns the number of places that wait for a turn.
    pub fn waiting(&self) -> usize
        ensures { result ≡ length self.now.queue.items }
    {
        self.state.queue.len()
    }

    // contract: hosts (own) Who holds most is refused until all hold what they may
    // contract: hosts (own) Each connection sees each time that passes, once
    /// Makes a step. `octets` are those received, if the step is [`Own::Came`].
    pub fn step(&mut self, step: Step<P>, octets: &[u8]) -> Reply<P>
        ensures answers { AnswersStep P.steps P.held_of P.ready_of self.old self.new step octets.now
            result }
        ensures sound { IsSoundHost P.held_of P.ready_of self.new }
    {
        self.state.step(step, octets)
    }

    /// Ends the current turn and gives the next one. Returns the connection that has it, or
    /// `None` if none is ready.
    pub fn next_turn(&mut self) -> Option<Token>
        ensures turn { GivesTurn P.ready_of self.old self.new result }
        ensures sound { IsSoundHost P.held_of P.ready_of self.new }
    {
        self.state.give_turn()
    }

    // rule: hosts (own) A run makes its steps one after another
    // contract: hosts (own) A run makes its steps one after another
    /// Makes steps one after another, and returns the reply to each.
    ///
    /// # Errors
    ///
    /// [`AllocError`] if memory for the replies was refused: no step was made.
    pub fn run(
        &mut self,
        alloc: Global,
        mut steps: VecDeque<Made<P>>,
    ) -> Result<Vec<Reply<P>>, AllocError>
        ensures run { IfOk result (λ replies. IsRun P.steps P.held_of P.ready_of self.old self.new
            steps.items replies.items) }
        ensures err { OnErr result (self.new ≡ self.old) }
    {
        let mut replies = Vec::with_capacity(alloc, steps.len())?;
        while let Some(made) = steps.pop_front() {
            let reply = self.step(made.step, &made.octets);
            replies.push(reply)?;
        }
        Ok(replies)
    }

    // rule: hosts (own) Who has the turn takes octets once, if it takes any
    // contract: hosts (own) Who has the turn takes octets once, if it takes any
    /// Returns how many octets to read now for a connection, at most: what
    /// [`Party::read_size`] says, if the connection has the turn and has received none in it; 0
    /// otherwise.
    pub fn read_size(&self, token: Token) -> usize
        ensures { TakesInTurn P.takes self.now token result }
    {
        let turn = &self.state.turn;
        if !turn.is_of(token) || turn.came {
            return 0;
        }
        match self.party(token) {
            Some(party) => party.read_size(),
            None => 0,
        }
    }

    // rule: hosts (own) Who has the turn gives its own output, and nobody else any
    // contract: hosts (own) Who has the turn gives its own output, and nobody else any
    /// Returns the first two parts of the output of the connection that has the turn, together
    /// at most what is left of [`MOST_GIVEN`]. If output is queued and something is left, the
    /// first part is not empty. For any other connection both are empty.
    pub fn output(&self, token: Token) -> (&[u8], &[u8])
        ensures { LendsInTurn P.output_of self.now token result.0.now result.1.now }
    {
        if !self.state.turn.is_of(token) {
            return (&[], &[]);
        }
        let Some(party) = self.party(token) else {
            return (&[], &[]);
        };
        let (first, second) = party.output();
        let left = MOST_GIVEN.saturating_sub(self.state.turn.gave);
        let first = &first[..first.len().min(left)];
        let left = left - first.len();
        (first, &second[..second.len().min(left)])
    }

    /// Returns a connection, or `None` if the token names no open one.
    pub fn party(&self, token: Token) -> Option<&P>
        ensures { IsPartyOf self.now.table.slots.items token (option_copied result) }
    {
        let slot = self.state.table.slots.get(token.place as usize)?;
        if slot.generation != token.generation {
            return None;
        }
        slot.party.as_ref()
    }
}
