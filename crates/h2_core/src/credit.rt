//! Credit that is returned to the peer (RFC 9113, section 6.9).

ghost use Rattle.std.specs.Prelude.{◌≡◌, ◌+◌, ◌≤◌, ◌<◌, ◌^◌, None, length, true};
ghost use Rattle.h2_spec_log.specs.CallRules.{returns_credit};
ghost use Rattle.h2_spec_machine.specs.Machine.{return_credit, add_unreturned};
ghost use Rattle.h2_core.specs.Endpoint.{end_of};

use crate::endpoint::Endpoint;
use h2_frame::FrameRef;
use h2_frame::limits::FULL_OUTPUT;

impl Endpoint {
    // rule: 6.9 Nothing of the window of the connection is lost
    /// Returns all unreturned credit, by WINDOW_UPDATE on stream 0, for which there is room.
    pub(crate) fn return_credit(&mut self)
        requires up { self.old.failed ≡ None }
        requires room { 13 ≤ self.old.output.spare }
        requires window { self.old.recv_window + self.old.unreturned < 2 ^ 31 }
        ensures after { end_of self.new ≡ return_credit (end_of self.old) }
        ensures list { self.new.list ≡ self.old.list }
    {
        self.output.add_frame(FrameRef::WindowUpdate {
            stream: 0,
            increment: self.unreturned,
        });
        self.recv_window += self.unreturned;
        self.unreturned = 0;
    }

    // rule: 6.9 Nothing of the window of the connection is lost
    /// Adds `more` octets of the connection's window, which nobody will release, to the
    /// unreturned credit. If `more` is not 0 and fewer than 65,536 octets are queued, all of
    /// that is returned; then there is room for a WINDOW_UPDATE.
    pub(crate) fn add_unreturned(&mut self, more: u32)
        requires up { self.old.failed ≡ None }
        requires room { returns_credit more (length self.old.output.waiting) ≡ true
            → 13 ≤ self.old.output.spare }
        requires window { self.old.recv_window + (self.old.unreturned + more) < 2 ^ 31 }
        ensures after { end_of self.new ≡ add_unreturned more (end_of self.old) }
        ensures list { self.new.list ≡ self.old.list }
    {
        self.unreturned += more;
        if more > 0 && self.output.len() < FULL_OUTPUT {
            self.return_credit();
        }
    }
}
