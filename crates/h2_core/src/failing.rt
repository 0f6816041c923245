//! How a connection fails (RFC 9113, section 5.4.1).

ghost use Rattle.std.specs.Prelude.{◌≡◌, ◌<◌, ◌^◌, None};
ghost use Rattle.h2_spec_machine.specs.Machine.{fail};
ghost use Rattle.h2_core.specs.Endpoint.{end_of, IsSoundEnd};
ghost use Rattle.h2_core.specs.Stops.{FailsBy, IsSmall};

use crate::endpoint::Endpoint;
use crate::step_error::StepError;
use h2_frame::Code;

impl Endpoint {
    // rule: 5.4.1 A connection error is answered by GOAWAY, and nothing is sent after
    /// Fails the connection for this cause, and returns the code.
    pub(crate) fn fail_by(&mut self, stop: StepError) -> Code
        requires sound { IsSoundEnd (end_of self.old) }
        requires up { self.old.failed ≡ None }
        requires opened { IsSmall stop }
        ensures { FailsBy (end_of self.old) stop result (end_of self.new) }
    {
        let (code, last) = match stop {
            StepError::Fault { code, opened } => (code, opened.max(self.last_processed)),
            StepError::OutOfMemory => (Code::InternalError, self.last_processed),
        };
        self.fail(code, last);
        code
    }

    // rule: 5.4.1 A connection error is answered by GOAWAY, and nothing is sent after
    /// Fails the connection: GOAWAY follows the queued output. It takes no memory.
    pub(crate) fn fail(&mut self, code: Code, last: u32)
        requires up { self.old.failed ≡ None }
        requires number { last < 2 ^ 31 }
        ensures { end_of self.new ≡ fail code last (end_of self.old) }
    {
        self.failed = Some(code);
        self.output.end_with_goaway(last, code.number());
    }

    // contract: 5.4.1 A connection error is answered by GOAWAY, and nothing is sent after
    /// Fails the connection with this code, for a fault of the cutter or an allocation refused
    /// to it.
    pub fn fail_with(&mut self, code: Code)
        requires sound { IsSoundEnd (end_of self.old) }
        requires up { self.old.failed ≡ None }
        ensures { end_of self.new ≡ fail code self.old.last_processed (end_of self.old) }
    {
        self.fail(code, self.last_processed);
    }
}
