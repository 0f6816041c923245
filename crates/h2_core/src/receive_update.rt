//! Received WINDOW_UPDATE (RFC 9113, section 6.9), and stream errors (section 5.4.2).

ghost use Rattle.std.specs.Prelude.{◌≡◌, ◌||◌, ◌+◌, ◌<◌, ◌^◌, None, Some};
ghost use Rattle.std.specs.Prelude.{◌≤◌};
ghost use Rattle.std.specs.Option.{option_map};
ghost use Rattle.h2_block.specs.Grouping.{alone};
ghost use Rattle.h2_frame.specs.Frames.{WindowUpdate};
ghost use Rattle.h2_streams.specs.Streams.{stream_view};
ghost use Rattle.h2_spec_machine.specs.End.{stream_at};
ghost use Rattle.h2_core.specs.Endpoint.{end_of, IsSoundEnd};
ghost use Rattle.h2_core.specs.Items.{TakesItem};
ghost use Rattle.h2_core.specs.Resets.{is_over_limits, ResetsForFault};

use crate::endpoint::Endpoint;
use crate::event::Event;
use crate::status::Status;
use crate::step_error::StepError;
use h2_frame::Code;
use h2_frame::limits::{GREATEST_WINDOW, MAX_OUTPUT, MAX_RESETS, SMALL_FRAME};
use h2_streams::Stream;

impl Endpoint {
    // rule: 5.1 On an idle stream any but HEADERS or PRIORITY is PROTOCOL_ERROR
    // rule: 6.9 WINDOW_UPDATE on an idle stream is PROTOCOL_ERROR
    // rule: 6.9 WINDOW_UPDATE on a closed stream is ignored
    // rule: 6.9 WINDOW_UPDATE after the peer's end widens the window
    /// Takes WINDOW_UPDATE: of the connection on stream 0, else of a stream.
    pub(crate) fn take_window_update<'a>(
        &mut self,
        id: u32,
        increment: u32,
    ) -> Result<Option<Event<(), &'a [u8]>>, StepError>
        requires sound { IsSoundEnd (end_of self.old) }
        requires up { self.old.failed ≡ None }
        requires number { id < 2 ^ 31 }
        requires increment { increment < 2 ^ 31 }
        ensures { TakesItem (end_of self.old) None (alone (WindowUpdate id increment))
            self.new.list result (end_of self.new) }
    {
        if id == 0 {
            return self.widen_connection(increment);
        }
        match self.status(id) {
            Status::Idle => Err(StepError::fault(Code::ProtocolError)),
            Status::ClosedByUs | Status::Closed => Ok(None),
            Status::Active(stream) => self.widen_stream(id, increment, stream),
        }
    }

    // rule: 6.9 An increment of 0 on the connection is PROTOCOL_ERROR
    // rule: 6.9.1 The connection's window above 2^31-1 is FLOW_CONTROL_ERROR
    /// Widens the connection's send window. An increment of 0, and a window above
    /// 2<sup>31</sup> - 1, are connection errors.
    fn widen_connection<'a>(
        &mut self,
        increment: u32,
    ) -> Result<Option<Event<(), &'a [u8]>>, StepError>
        requires sound { IsSoundEnd (end_of self.old) }
        requires up { self.old.failed ≡ None }
        requires increment { increment < 2 ^ 31 }
        ensures { TakesItem (end_of self.old) None (alone (WindowUpdate 0 increment))
            self.new.list result (end_of self.new) }
    {
        if increment == 0 {
            return Err(StepError::fault(Code::ProtocolError));
        }
        if increment > GREATEST_WINDOW - self.send_window {
            return Err(StepError::fault(Code::FlowControlError));
        }
        self.send_window += increment;
        Ok(None)
    }

    // rule: 6.9 An increment of 0 on a stream is a stream error PROTOCOL_ERROR
    // rule: 6.9.1 A stream's window above 2^31-1 is a stream error FLOW_CONTROL_ERROR
    /// Widens an active stream's send window; there both are stream errors.
    fn widen_stream<'a>(
        &mut self,
        id: u32,
        increment: u32,
        stream: Stream,
    ) -> Result<Option<Event<(), &'a [u8]>>, StepError>
        requires sound { IsSoundEnd (end_of self.old) }
        requires up { self.old.failed ≡ None }
        requires number { (1 ≤ id) × (id < 2 ^ 31) }
        requires increment { increment < 2 ^ 31 }
        requires active { stream_at (end_of self.old) id ≡ Some (stream_view stream) }
        ensures { TakesItem (end_of self.old) None (alone (WindowUpdate id increment))
            self.new.list result (end_of self.new) }
    {
        let window = stream.send_window + i64::from(increment);
        let code = if increment == 0 {
            Code::ProtocolError
        } else if window > i64::from(GREATEST_WINDOW) {
            Code::FlowControlError
        } else {
            let mut changed = stream;
            changed.send_window = window;
            self.streams.set(id, changed);
            return Ok(None);
        };
        self.reset_for_fault(id, Some(stream), code, 0, 0)
    }

    // rule: 5.4 (own) Being out of memory hides no other fault of the connection
    /// Resets a stream with the code of a stream error; what it owes becomes unreturned credit.
    /// The item at fault has taken `flow` octets of the connection's window, which become
    /// unreturned too, and opens the stream `opened`, or none (0).
    pub(crate) fn reset_for_fault<'a>(
        &mut self,
        id: u32,
        stream: Option<Stream>,
        code: Code,
        flow: u32,
        opened: u32,
    ) -> Result<Option<Event<(), &'a [u8]>>, StepError>
        requires sound { IsSoundEnd (end_of self.old) }
        requires up { self.old.failed ≡ None }
        requires number { (1 ≤ id) × (id < 2 ^ 31) }
        requires active { stream_at (end_of self.old) id ≡ option_map stream_view stream }
        requires connection { flow ≤ self.old.recv_window }
        ensures { ResetsForFault self.old id code flow opened result self.new }
    {
        if self.is_over_limits() {
            return Err(StepError::Fault {
                code: Code::EnhanceYourCalm,
                opened,
            });
        }
        let code = code.number();
        self.recv_window -= flow;
        if self.reset_stream(id, stream, code, flow).is_err() {
            self.recv_window += flow;
            return Err(StepError::OutOfMemory);
        }
        Ok(Some(Event::Reset {
            id,
            code,
            ours: true,
        }))
    }

    // rule: 10.5 (own) An end that resets 1,001 streams ends with ENHANCE_YOUR_CALM
    // rule: 10.5 (own) Replies above 262,144 waiting octets are ENHANCE_YOUR_CALM
    /// Whether one more RST_STREAM is over a limit: it would be the 1,001st reset, or would
    /// bring the queued output above 262,144 octets (own; section 10.5).
    pub(crate) fn is_over_limits(&self) -> bool
        ensures { result ≡ is_over_limits (end_of self.now) }
    {
        self.resets >= MAX_RESETS || self.output.len() > MAX_OUTPUT - SMALL_FRAME
    }
}
