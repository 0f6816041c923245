//! The call that widens the window of the connection.

ghost use Rattle.std.specs.Prelude.{◌≡◌, None, OnOk, IfErr};
ghost use Rattle.h2_spec_log.specs.Acts.{Widen};
ghost use Rattle.h2_core.specs.Endpoint.{end_of, IsSoundEnd};
ghost use Rattle.h2_core.specs.Calls.{CallAccepted, CallRefused};

use crate::endpoint::Endpoint;
use h2_frame::FrameRef;
use h2_frame::limits::{GREATEST_WINDOW, SMALL_FRAME};
use h2_spec_log::Refusal;

impl Endpoint {
    // contract: 6.9.2 (own) The window of the connection is widened by a call, for good
    // rule: 6.9.2 (own) The window of the connection is widened by a call, for good
    /// Lets the peer send `count` octets more on the connection, for good (sections 6.9 and
    /// 6.9.2): WINDOW_UPDATE on stream 0 joins the output.
    ///
    /// # Errors
    ///
    /// [`Refusal::Closed`] (C1), [`Refusal::OutputFull`] (C7), [`Refusal::WindowTooLarge`] (C14)
    /// where `count` is 0, or would make the window larger than 2^31 - 1 octets, and
    /// [`Refusal::Memory`] (C12), in this order. A refused call changes nothing.
    pub fn widen(&mut self, count: u32) -> Result<(), Refusal>
        requires sound { self.old.failed ≡ None → IsSoundEnd (end_of self.old) }
        ensures ok { OnOk result (CallAccepted (end_of self.old) (Widen count)
            (end_of self.new)) }
        ensures err { IfErr result (λ refusal. CallRefused (end_of self.old) (Widen count)
            refusal (end_of self.new)) }
    {
        self.check_up()?;
        self.check_room()?;
        let most = GREATEST_WINDOW - self.granted;
        if count == 0 || count > most {
            return Err(Refusal::WindowTooLarge);
        }
        if self.output.reserve(SMALL_FRAME).is_err() {
            return Err(Refusal::Memory);
        }
        self.output.add_frame(FrameRef::WindowUpdate {
            stream: 0,
            increment: count,
        });
        self.recv_window += count;
        self.granted += count;
        Ok(())
    }
}
