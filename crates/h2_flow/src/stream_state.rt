//! The two sides of an active stream.

ghost use Rattle.std.specs.Prelude.{◌≡◌, true, false, ◌&&◌, OnOk, OnErr};

use crate::fault::Closed;

/// Which sides of an active stream have ended (RFC 9113, section 5.1): neither is "open", one
/// "half-closed", both "closed".
#[derive(Clone, Copy, Debug, PartialEq, Eq, Hash)]
pub struct StreamState {
    /// Whether the peer has sent END_STREAM: "half-closed (remote)".
    pub ended_in: bool,
    /// Whether this end has sent END_STREAM: "half-closed (local)".
    pub ended_out: bool,
}

impl StreamState {
    // rule: 5.1 (own) h2_flow: each side of a stream ends once, and only that side
    /// Returns the state of a stream of which neither side has ended.
    pub fn open() -> StreamState
        ensures { result ≡ record { ended_in = false; ended_out = false } }
    {
        StreamState {
            ended_in: false,
            ended_out: false,
        }
    }

    // rule: 5.1 (own) h2_flow: each side of a stream ends once, and only that side
    /// Records that the peer has sent END_STREAM.
    ///
    /// # Errors
    ///
    /// L4 [`Closed`] if it had before; nothing has changed.
    pub fn end_in(&mut self) -> Result<(), Closed>
        ensures ok { OnOk result ((self.old.ended_in ≡ false)
            × (self.new ≡ record self.old { ended_in = true })) }
        ensures err { OnErr result ((self.old.ended_in ≡ true) × (self.new ≡ self.old)) }
    {
        if self.ended_in {
            return Err(Closed);
        }
        self.ended_in = true;
        Ok(())
    }

    // rule: 5.1 (own) h2_flow: each side of a stream ends once, and only that side
    /// Records that this end has sent END_STREAM.
    ///
    /// # Errors
    ///
    /// L4 [`Closed`] if it had before; nothing has changed.
    pub fn end_out(&mut self) -> Result<(), Closed>
        ensures ok { OnOk result ((self.old.ended_out ≡ false)
            × (self.new ≡ record self.old { ended_out = true })) }
        ensures err { OnErr result ((self.old.ended_out ≡ true) × (self.new ≡ self.old)) }
    {
        if self.ended_out {
            return Err(Closed);
        }
        self.ended_out = true;
        Ok(())
    }

    // rule: 5.1 (own) h2_flow: each side of a stream ends once, and only that side
    /// Returns whether both sides have ended.
    pub fn closed(&self) -> bool
        ensures { result ≡ (self.now.ended_in && self.now.ended_out) }
    {
        self.ended_in && self.ended_out
    }
}
