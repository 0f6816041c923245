//! Streams that the peer does not process (RFC 9113, section 6.8).

ghost use Rattle.std.specs.Prelude.{◌≡◌, ◌≢◌, None, true, IfSome, IfErr, OnOk};
ghost use Rattle.h2_streams.specs.Streams.{number_or_none};
ghost use Rattle.h2_spec_log.specs.Memory.{credit_needs_memory};
ghost use Rattle.h2_spec_machine.specs.End.{end_view};
ghost use Rattle.h2_spec_machine.specs.Machine.{unprocessed_of_end, close_unprocessed};
ghost use Rattle.h2_core.specs.Endpoint.{end_of, IsSoundEnd};
ghost use Rattle.h2_core.specs.Frames.{FailsWithoutMemory};

use crate::endpoint::Endpoint;
use crate::step_error::StepError;
use crate::stream_steps::reserve_credit;
use h2_frame::Code;
use h2_spec_log::Role;

impl Endpoint {
    // rule: 6.8 Own streams above GOAWAY's last are reported as unprocessed
    /// Returns the next stream that the peer does not process (RFC 9113, section 6.8): at a
    /// client, the least active one above the last stream of the peer's GOAWAY. It takes no
    /// memory.
    pub fn unprocessed(&self) -> Option<u32>
        ensures number { number_or_none result ≡ unprocessed_of_end self.now.role
            self.now.streams.entries self.now.goaway_received }
        ensures some { IfSome result (λ id. id ≢ 0) }
    {
        match (self.role, self.goaway_received) {
            (Role::Client, Some(last)) => self.streams.next_active(last),
            _ => None,
        }
    }

    // rule: 6.8 Own streams above GOAWAY's last are reported as unprocessed
    /// Closes the next stream that the peer does not process, which is reported.
    ///
    /// # Errors
    ///
    /// INTERNAL_ERROR where what the stream owes is returned at once, and an allocation was
    /// refused; the connection has failed with it.
    pub fn close_unprocessed(&mut self, id: u32) -> Result<(), Code>
        requires sound { IsSoundEnd (end_of self.old) }
        requires up { self.old.failed ≡ None }
        requires next { id ≡ unprocessed_of_end self.old.role self.old.streams.entries
            self.old.goaway_received }
        requires some { id ≢ 0 }
        ensures ok { OnOk result (end_of self.new ≡ close_unprocessed (end_of self.old) id) }
        ensures err { IfErr result (λ code. FailsWithoutMemory (end_of self.old) code
            (end_of self.new) × (credit_needs_memory (end_view (end_of self.old)) id ≡ true)) }
    {
        let Some(stream) = self.streams.stream(id) else {
            return Ok(());
        };
        if reserve_credit(&mut self.output, stream.owed).is_err() {
            return Err(self.fail_by(StepError::OutOfMemory));
        }
        self.close_stream(id, stream);
        Ok(())
    }
}
