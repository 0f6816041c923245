//! Opens connections, and frees their places.

ghost use Rattle.h2_host.specs.Sound.{IsSoundHost};
ghost use Rattle.h2_host.specs.Steps.{AnswersClosing, AnswersOpening};

use crate::host::Reply;
use crate::moving::queue_slot;
use crate::party::Party;
use crate::state::HostState;
use crate::token::Token;

impl<P: Party> HostState<P> {
    /// Opens a connection at the place that was freed last, or at a new one.
    pub(crate) fn open(&mut self, party: P) -> Reply<P>
        requires { IsSoundHost P.held_of P.ready_of self.old }
        ensures answers { AnswersOpening P.steps self.old self.new party result }
        ensures sound { IsSoundHost P.held_of P.ready_of self.new }
    {
        let held = party.held();
        let most = self.limits.held;
        if held > most {
            return Reply::Full(party);
        }
        let in_all = self.held + held as u128;
        let most_in_all = self.limits.held_in_all as u128;
        if in_all > most_in_all {
            return Reply::Full(party);
        }
        let places = self.table.slots.len().saturating_add(1);
        let Ok(()) = self.queue.reserve(places) else {
            return Reply::Full(party);
        };
        let Ok(()) = self.table.make_place(self.limits.connections) else {
            return Reply::Full(party);
        };
        let token = match self.table.take_place(party) {
            Ok(token) => token,
            Err(party) => return Reply::Full(party),
        };
        self.held = in_all;
        self.queue_place(token.place);
        Reply::Opened(token)
    }

    /// Frees the place of a connection whose transport was closed.
    pub(crate) fn close(&mut self, token: Token) -> Reply<P>
        requires { IsSoundHost P.held_of P.ready_of self.old }
        ensures answers { AnswersClosing P.steps self.old self.new token result }
        ensures sound { IsSoundHost P.held_of P.ready_of self.new }
    {
        let Some(party) = self.table.leave_place(token) else {
            return Reply::Stale;
        };
        self.held = self.held - party.held() as u128;
        Reply::Closed
    }
}
