//! Received DATA, RST_STREAM, PING and GOAWAY (RFC 9113, sections 6.1, 6.4, 6.7 and 6.8).

ghost use Rattle.std.specs.Prelude.{◌≡◌, ◌≤◌, ◌<◌, ◌^◌, ℕ, List, length, Option, None, Some};
ghost use Rattle.std.specs.Prelude.{true, false};
ghost use Rattle.h2_block.specs.Grouping.{alone};
ghost use Rattle.h2_frame.specs.Frames.{Reset as ResetFrame, Ping, GoAway as GoAwayFrame};
ghost use Rattle.h2_frame.specs.Encoding.{payload_of};
ghost use Rattle.h2_core.specs.Endpoint.{end_of, IsSoundEnd};
ghost use Rattle.h2_core.specs.Items.{TakesItem, DiscardsData};
ghost use Rattle.h2_core.specs.DataFrames.{frame_of_data};

use crate::endpoint::Endpoint;
use crate::event::Event;
use crate::status::Status;
use crate::step_error::StepError;
use crate::stream_steps::{reserve_credit, reserve_if_over};
use h2_frame::limits::{LARGE_FRAME, MAX_OUTPUT};
use h2_frame::{Code, FrameRef};

/// A received DATA frame: its stream, END_STREAM, its octets, and its payload's length with
/// padding.
#[derive(Clone, Copy)]
pub(crate) struct DataFrame<'a> {
    pub(crate) stream: u32,
    pub(crate) end: bool,
    pub(crate) octets: &'a [u8],
    pub(crate) flow: u32,
}

impl Endpoint {
    // rule: 5.1 On an idle stream any but HEADERS or PRIORITY is PROTOCOL_ERROR
    // rule: 5.1 After the peer has ended a stream DATA is STREAM_CLOSED
    // rule: 5.1 On a closed stream DATA is STREAM_CLOSED (its scope: own)
    // rule: 5.1 What comes on a stream that this end has reset is dropped
    // rule: 6.9.1 DATA above the connection's window is FLOW_CONTROL_ERROR
    // rule: 6.9.1 DATA above its stream's window is FLOW_CONTROL_ERROR (scope: own)
    // rule: 6.9.1 DATA of no octets is within any window
    /// Takes DATA (section 6.1). On an active stream it uses both windows and is reported, or,
    /// after the peer's END_STREAM, is a stream error. On a stream that this end has closed it
    /// uses the connection's window and is discarded. On an idle or a closed stream, or above a
    /// window, it fails the connection.
    pub(crate) fn take_data<'a>(
        &mut self,
        frame: DataFrame<'a>,
    ) -> Result<Option<Event<(), &'a [u8]>>, StepError>
        requires sound { IsSoundEnd (end_of self.old) }
        requires up { self.old.failed ≡ None }
        requires number { (1 ≤ frame.stream) × (frame.stream < 2 ^ 31) }
        ensures { (pad : Option ℕ)
            → frame.entry.flow ≡ length (payload_of (frame_of_data frame.entry pad))
            → TakesItem (end_of self.old) None (alone (frame_of_data frame.entry pad)) self.new.list
            result (end_of self.new) }
    {
        let stream = match self.status(frame.stream) {
            Status::Idle => return Err(StepError::fault(Code::ProtocolError)),
            Status::Closed => return Err(StepError::fault(Code::StreamClosed)),
            Status::ClosedByUs if frame.flow <= self.recv_window => {
                return self.discard_data(frame.flow);
            }
            Status::ClosedByUs => return Err(StepError::fault(Code::FlowControlError)),
            Status::Active(stream) => stream,
        };
        if frame.flow > self.recv_window {
            return Err(StepError::fault(Code::FlowControlError));
        }
        if stream.state.ended_in {
            let (id, code) = (frame.stream, Code::StreamClosed);
            return self.reset_for_fault(id, Some(stream), code, frame.flow, 0);
        }
        if frame.flow > 0 && stream.recv_window < i64::from(frame.flow) {
            return Err(StepError::fault(Code::FlowControlError));
        }
        let mut changed = stream;
        changed.recv_window -= i64::from(frame.flow);
        changed.owed += frame.flow;
        changed.state.ended_in = frame.end;
        reserve_if_over(&mut self.output, changed)?;
        self.recv_window -= frame.flow;
        self.update_stream(frame.stream, changed);
        Ok(Some(Event::Data {
            id: frame.stream,
            bytes: frame.octets,
            flow: frame.flow,
            end: frame.end,
        }))
    }

    // rule: 5.1 DATA on a stream that this end has reset counts for the connection
    /// Discards DATA on a stream that this end has closed; its octets become unreturned credit.
    fn discard_data<'a>(&mut self, flow: u32) -> Result<Option<Event<(), &'a [u8]>>, StepError>
        requires sound { IsSoundEnd (end_of self.old) }
        requires up { self.old.failed ≡ None }
        requires connection { flow ≤ self.old.recv_window }
        ensures { DiscardsData (end_of self.old) flow result (end_of self.new) }
    {
        reserve_credit(&mut self.output, flow)?;
        self.recv_window -= flow;
        self.add_unreturned(flow);
        Ok(None)
    }

    // rule: 5.1 On an idle stream any but HEADERS or PRIORITY is PROTOCOL_ERROR
    // rule: 5.4.2 RST_STREAM is not answered by RST_STREAM, nor sent twice
    // rule: 6.4 RST_STREAM on an idle stream is PROTOCOL_ERROR
    // rule: 6.4 RST_STREAM closes an active stream and is reported
    // rule: 6.4 RST_STREAM on a closed stream is ignored
    // rule: 7 A received code is any number of 32 bits, and an unknown one does nothing
    /// Takes RST_STREAM (section 6.4): it closes an active stream, and is ignored on a closed
    /// one.
    pub(crate) fn take_reset<'a>(
        &mut self,
        id: u32,
        code: u32,
    ) -> Result<Option<Event<(), &'a [u8]>>, StepError>
        requires sound { IsSoundEnd (end_of self.old) }
        requires up { self.old.failed ≡ None }
        ensures { TakesItem (end_of self.old) None (alone (ResetFrame id code)) self.new.list
            result (end_of self.new) }
    {
        match self.status(id) {
            Status::Idle => Err(StepError::fault(Code::ProtocolError)),
            Status::ClosedByUs | Status::Closed => Ok(None),
            Status::Active(stream) => {
                reserve_credit(&mut self.output, stream.owed)?;
                self.close_stream(id, stream);
                Ok(Some(Event::Reset {
                    id,
                    code,
                    ours: false,
                }))
            }
        }
    }

    // rule: 6.7 PING is answered with its octets and ACK, and an answer is not answered
    // rule: 10.5 (own) Replies above 262,144 waiting octets are ENHANCE_YOUR_CALM
    /// Takes PING (section 6.7), and answers it.
    pub(crate) fn take_ping<'a>(
        &mut self,
        octets: [u8; 8],
    ) -> Result<Option<Event<(), &'a [u8]>>, StepError>
        requires up { self.old.failed ≡ None }
        ensures { TakesItem (end_of self.old) None (alone (Ping false octets)) self.new.list result
            (end_of self.new) }
    {
        if self.output.len() > MAX_OUTPUT - LARGE_FRAME {
            return Err(StepError::fault(Code::EnhanceYourCalm));
        }
        self.output.reserve(LARGE_FRAME)?;
        self.output.add_frame(FrameRef::Ping { ack: true, octets });
        Ok(None)
    }

    // rule: 6.7 A PING's answer that is awaited is reported, others are ignored
    /// Takes the answer to a PING, and reports it if it has the octets that are awaited.
    pub(crate) fn take_pong<'a>(
        &mut self,
        octets: [u8; 8],
    ) -> Result<Option<Event<(), &'a [u8]>>, StepError>
        requires up { self.old.failed ≡ None }
        ensures { TakesItem (end_of self.old) None (alone (Ping true octets)) self.new.list result
            (end_of self.new) }
    {
        if self.ping != Some(octets) {
            return Ok(None);
        }
        self.ping = None;
        Ok(Some(Event::Pong { octets }))
    }

    // rule: 6.8 The last stream of GOAWAY never grows: the least so far is reported
    // rule: 7 A received code is any number of 32 bits, and an unknown one does nothing
    /// Takes GOAWAY (section 6.8): the least of the last streams that it has named holds.
    pub(crate) fn take_goaway<'a>(
        &mut self,
        last: u32,
        code: u32,
    ) -> Result<Option<Event<(), &'a [u8]>>, StepError>
        requires up { self.old.failed ≡ None }
        ensures { (debug : List ℕ) → TakesItem (end_of self.old) None
            (alone (GoAwayFrame last code debug)) self.new.list result (end_of self.new) }
    {
        let least = match self.goaway_received {
            Some(before) => last.min(before),
            None => last,
        };
        self.goaway_received = Some(least);
        Ok(Some(Event::GoAway { last: least, code }))
    }
}
