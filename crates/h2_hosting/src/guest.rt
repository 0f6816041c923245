//! A connection that shuts down gracefully once its host is asked to end, and whose window is
//! widened as a body comes.

ghost use Rattle.std.specs.Prelude.{◌≡◌, ⊤, ℕ, Bool, IfOk, false, is_some, true};
ghost use Rattle.h2_hosting.specs.Guests.{IsTimeStep, WidensAfter};

use crate::window::{Widened, Windows};
use h2_host::{Answer, Own, Party};
use h2_server::{Connection, Handler};
use std::alloc::{AllocError, Global};
use std::cell::Cell;

/// A connection that can be asked to shut down gracefully.
pub trait Leaves {
    /// Relates the states before and after [`Leaves::leave`].
    ghost leaves: { Self → Self → Type 0 } = { λ _ _. ⊤ };

    /// Begins a graceful shutdown: pending requests are still answered. If 65,536 octets of output
    /// or more wait, or an allocation is refused, the connection fails at once with NO_ERROR, and
    /// pending requests are not answered.
    fn leave(&mut self)
        ensures { leaves self.old self.new };
}

impl<H: Handler> Leaves for Connection<H> {
    ghost use Rattle.h2_server.specs.Connections.{ConnectionLeaves};

    ghost leaves = { λ old new. ConnectionLeaves H.Handler old new };

    fn leave(&mut self) {
        Connection::leave(self);
    }
}

/// A connection whose window can be widened.
pub trait Widens {
    /// Relates a state and what [`Widens::is_receiving`] says of it.
    ghost receives: { Self → Bool → Type 0 } = { λ _ _. ⊤ };

    /// Relates the states before and after [`Widens::widen`], with its number and its result.
    ghost widens: { Self → ℕ → Bool → Self → Type 0 } = { λ _ _ _ _. ⊤ };

    /// Whether the connection is open, octets of bodies have come, and some request is incomplete.
    fn is_receiving(&self) -> bool
        ensures { receives self.now result };

    /// Lets the peer send `count` octets more on the connection, for good. Returns false if the
    /// call was refused.
    fn widen(&mut self, count: u32) -> bool
        ensures { widens self.old count result self.new };
}

impl<H: Handler> Widens for Connection<H> {
    ghost use Rattle.h2_server.specs.Connections.{ConnectionWidens, is_open_and_receiving};

    ghost receives = { λ connection result. result ≡ is_open_and_receiving connection };

    ghost widens = { λ old count result new. ConnectionWidens old count result new };

    fn is_receiving(&self) -> bool {
        Connection::is_receiving(self)
    }

    fn widen(&mut self, count: u32) -> bool {
        Connection::widen(self, count)
    }
}

/// A connection that begins a graceful shutdown at the next tick of its host's clock once the
/// `leaving` of [`Guest::new`] is set. Its window is widened at most once, when octets of some
/// body have come and some request is incomplete.
#[derive(Drop)]
pub struct Guest<'a, P> {
    /// The connection, in a box, since a host moves its connections at each step.
    party: Box<P>,
    /// Whether all connections are to shut down.
    leaving: &'a Cell<bool>,
    /// Whether this one was asked to shut down.
    asked: bool,
    /// The windows of all connections.
    windows: &'a Windows,
    /// The octets by which this one was widened; `None` before that.
    widened: Option<Widened<'a>>,
}

impl<'a, P: Drop> Guest<'a, P> {
    /// Wraps a connection, which begins a graceful shutdown once `leaving` is set. Its window is
    /// widened as [`Windows::new`] says of `windows`.
    ///
    /// # Errors
    ///
    /// [`AllocError`] if an allocation was refused.
    pub fn new(
        alloc: Global,
        party: P,
        leaving: &'a Cell<bool>,
        windows: &'a Windows,
    ) -> Result<Guest<'a, P>, AllocError>
        ensures party { IfOk result (λ guest. guest.party.value ≡ party) }
        ensures asked { IfOk result (λ guest. guest.asked ≡ false) }
        ensures widened { IfOk result (λ guest. is_some guest.widened ≡ false) }
        ensures windows { IfOk result (λ guest. guest.windows.now ≡ windows.now) }
    {
        Ok(Guest {
            party: Box::new(alloc, party)?,
            leaving,
            asked: false,
            windows,
            widened: None,
        })
    }

    /// Whether this step asks the connection to shut down.
    fn is_to_leave(&self, own: Own) -> bool
        ensures asked { result ≡ true → self.now.asked ≡ false }
        ensures passed { result ≡ true → IsTimeStep own }
    {
        match own {
            Own::Passed { .. } => !self.asked && self.leaving.get(),
            _ => false,
        }
    }
}

impl<'a, P: Party + Widens> Guest<'a, P> {
    // rule: hosts (own) A connection is widened once, as a body comes, by what is left
    /// After octets have come: if [`Widens::is_receiving`] returns true, widens the connection by
    /// what it lacks, unless that was done before. If too little is left, or the call is refused,
    /// nothing is used up, and it may be widened later.
    fn widen_after(&mut self, own: Own)
        ensures asked { self.new.asked ≡ self.old.asked }
        ensures windows { self.new.windows ≡ self.old.windows }
        ensures widened { WidensAfter P.receives P.widens self.old.windows.now.window own
            (is_some self.old.widened) self.old.party.value (is_some self.new.widened)
            self.new.party.value }
    {
        let Own::Came = own else {
            return;
        };
        if self.widened.is_some() || !self.party.is_receiving() {
            return;
        }
        let widened = self.windows.take();
        let count = widened.count();
        if count > 0 && self.party.widen(count) {
            self.widened = Some(widened);
        }
    }
}

impl<'a, P: Party + Leaves + Widens> Party for Guest<'a, P> {
    ghost use Rattle.h2_hosting.specs.Guests.{GuestSteps};

    ghost steps = { λ old own octets answer new.
        GuestSteps P.leaves P.steps P.receives P.widens old own octets answer new };

    ghost held_of = { λ guest. P.held_of guest.party.value };

    ghost ready_of = { λ guest. P.ready_of guest.party.value };

    ghost takes = { λ guest size. P.takes guest.party.value size };

    ghost output_of = { λ guest. P.output_of guest.party.value };

    // contract: hosts (own) A connection is asked once to end in order, as time passes
    // rule: hosts (own) A connection is asked once to end in order, as time passes
    fn step(&mut self, own: Own, octets: &[u8], room: &mut [u8]) -> Answer {
        if !self.is_to_leave(own) {
            let answer = self.party.step(own, octets, room);
            self.widen_after(own);
            return answer;
        }
        self.asked = true;
        self.party.leave();
        self.party.step(own, octets, room)
    }

    fn held(&self) -> usize {
        self.party.held()
    }

    fn is_ready(&self) -> bool {
        self.party.is_ready()
    }

    fn read_size(&self) -> usize {
        self.party.read_size()
    }

    fn output(&self) -> (&[u8], &[u8]) {
        self.party.output()
    }
}
