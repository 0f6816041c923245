//! Responses that come later than the request: given by a call, or for want of one by the time.

ghost use Rattle.std.specs.Prelude.{◌≡◌, ◌⊎◌, IfErr, OnErr, OnOk, false, true};
ghost use Rattle.h2_server.specs.Deferring.{Alters, ExpiresEach, IsExchangeRefused, IsUnanswered};
ghost use Rattle.h2_server.specs.Deferring.{IsPending, NoneExpires, ResetsBy, RespondsBy};
ghost use Rattle.h2_server.specs.Deferring.{is_expired_at, is_pending_at, kept_answered};
ghost use Rattle.h2_server.specs.Deferring.{kept_in_time, kept_reset};
ghost use Rattle.h2_server.specs.declared.handler.Reply.{Reply};
ghost use Rattle.h2_server.specs.Exchanges.{IsEmptied, exchange_at, handling_of};

use crate::exchanges::Exchanges;
use crate::handler::{Handler, Reply, ResponseFault};
use crate::telling::take_reply;
use h2_ends::Code;
use thiserror::Error;

/// Why a call for an exchange was refused. A refused call changes nothing.
#[derive(Clone, Copy, Debug, PartialEq, Eq, Hash, Error)]
pub enum ExchangeRefusal {
    /// The reply gives no response: it is [`Reply::Later`] or [`Reply::Deferred`].
    #[error("the reply gives no response")]
    NoResponse,
    /// There is no exchange on the stream: it is over, or it never began.
    #[error("no exchange is open on this stream")]
    Over,
    /// The exchange has a response already, or a status or a reset that is sent in its place.
    #[error("this exchange has a response already")]
    Answered,
}

impl<H: Handler> Exchanges<H> {
    // contract: handlers (own) An answer that was deferred is given by a call, once
    // rule: handlers (own) An answer that was deferred is given by a call, once
    /// Gives the response of an exchange that has none, as if the handler had returned `reply`.
    ///
    /// # Errors
    ///
    /// [`ExchangeRefusal`]: nothing has changed.
    pub(crate) fn respond(&mut self, id: u32, reply: Reply) -> Result<(), ExchangeRefusal>
        ensures responds { RespondsBy id reply (handling_of self.old) result
            (handling_of self.new) }
        ensures more { OnOk result (self.new.more ≡ true) }
        ensures err { OnErr result (self.new ≡ self.old) }
    {
        if matches!(&reply, Reply::Later | Reply::Deferred) {
            return Err(ExchangeRefusal::NoResponse);
        }
        self.check_unanswered(id)?;
        self.take_response(id, reply);
        Ok(())
    }

    /// Checks that an exchange is open, and has no response.
    fn check_unanswered(&self, id: u32) -> Result<(), ExchangeRefusal>
        ensures ok { OnOk result (IsUnanswered (exchange_at id self.now.kept.entries)) }
        ensures err { IfErr result (λ refusal. (reply : Reply)
            → IsExchangeRefused refusal reply (exchange_at id self.now.kept.entries)) }
    {
        match self.kept.get(id) {
            Some(exchange) if exchange.has_response() => Err(ExchangeRefusal::Answered),
            Some(_) => Ok(()),
            None => Err(ExchangeRefusal::Over),
        }
    }

    /// Stores the response of an exchange, if there is one.
    fn take_response(&mut self, id: u32, reply: Reply)
        ensures alters { Alters id (λ kept. kept_answered kept reply) (handling_of self.old)
            (handling_of self.new) }
        ensures more { self.new.more ≡ true }
    {
        self.more = true;
        self.first_waiting = self.first_waiting.min(id);
        if let Some(exchange) = self.kept.get_mut(id) {
            take_reply(&self.handler, id, exchange, Ok(reply));
            self.totals.count(&self.handler, exchange);
        }
    }

    /// Lets a reset with this code wait on the stream of an exchange.
    ///
    /// # Errors
    ///
    /// [`ExchangeRefusal::Over`]: nothing has changed.
    pub(crate) fn reset(&mut self, id: u32, code: Code) -> Result<(), ExchangeRefusal>
        ensures resets { ResetsBy id code (handling_of self.old) result (handling_of self.new) }
        ensures more { OnOk result (self.new.more ≡ true) }
        ensures err { OnErr result (self.new ≡ self.old) }
    {
        if self.kept.get(id).is_none() {
            return Err(ExchangeRefusal::Over);
        }
        self.take_reset(id, code);
        Ok(())
    }

    /// Lets a reset with this code wait on the stream of an exchange, if there is one.
    fn take_reset(&mut self, id: u32, code: Code)
        ensures alters { Alters id (λ kept. kept_reset kept code) (handling_of self.old)
            (handling_of self.new) }
        ensures more { self.new.more ≡ true }
    {
        self.more = true;
        self.first_waiting = self.first_waiting.min(id);
        if let Some(exchange) = self.kept.get_mut(id) {
            exchange.reset(code);
            self.totals.count(&self.handler, exchange);
        }
    }

    // contract: handlers (own) An answer that was deferred for too long is status 504
    // rule: handlers (own) An answer that was deferred for too long is status 504
    /// Notes that it is `now`: a deferred response that has been waited for `limit` milliseconds or
    /// more (0 is no limit) is replaced by status 504.
    pub(crate) fn expire(&mut self, limit: u64, now: u64)
        ensures each { ExpiresEach limit now (handling_of self.old) (handling_of self.new) }
        ensures more { NoneExpires limit now self.old.kept.entries ⊎ (self.new.more ≡ true) }
        ensures keeps { self.old.more ≡ true → self.new.more ≡ true }
        ensures emptied { IsEmptied (handling_of self.old) → IsEmptied (handling_of self.new) }
    {
        let mut above = 0u32;
        while let Some(id) = self.kept.next_above(above) {
            above = id;
            self.expire_on(id, limit, now);
        }
    }

    /// Notes the same of one exchange.
    fn expire_on(&mut self, id: u32, limit: u64, now: u64)
        ensures alters { Alters id (kept_in_time limit now) (handling_of self.old)
            (handling_of self.new) }
        ensures more { (is_expired_at limit now (exchange_at id self.old.kept.entries) ≡ false)
            ⊎ (self.new.more ≡ true) }
        ensures keeps { self.old.more ≡ true → self.new.more ≡ true }
    {
        let Some(exchange) = self.kept.get_mut(id) else {
            return;
        };
        if exchange.expire(limit, now) {
            self.more = true;
            self.first_waiting = self.first_waiting.min(id);
            self.handler.fault(id, ResponseFault::TooLate);
        }
    }

    /// Whether the response of some complete request is still to be given, or a part of one for
    /// which the handler returned [`Part::Later`](crate::Part::Later).
    pub(crate) fn is_pending(&self) -> bool
        ensures { IsPending self.now.kept.entries result }
    {
        let mut above = 0u32;
        while let Some(id) = self.kept.next_above(above) {
            above = id;
            if self.is_pending_on(id) {
                return true;
            }
        }
        false
    }

    /// Whether the same holds of the exchange on a stream.
    fn is_pending_on(&self, id: u32) -> bool
        ensures { result ≡ is_pending_at (exchange_at id self.now.kept.entries) }
    {
        match self.kept.get(id) {
            Some(exchange) => exchange.is_pending(),
            None => false,
        }
    }
}
