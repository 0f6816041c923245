//! Received field blocks (RFC 9113, sections 4.3, 5.1 and 6.2).

ghost use Rattle.std.specs.Prelude.{◌≡◌, ◌≤◌, ◌<◌, ◌^◌, None, Some};
ghost use Rattle.std.specs.Prelude.{true};
ghost use Rattle.h2_streams.specs.Streams.{stream_view};
ghost use Rattle.h2_spec_machine.specs.End.{stream_at};
ghost use Rattle.h2_spec_machine.specs.Machine.{is_fresh, new_stream};
ghost use Rattle.h2_core.specs.Endpoint.{end_of, IsSoundEnd};
ghost use Rattle.h2_core.specs.Blocks.{TakesBlock, TakesDecoded, decode_fault_code};

use crate::endpoint::Endpoint;
use crate::event::Event;
use crate::status::Status;
use crate::step_error::StepError;
use crate::stream_steps::reserve_if_over;
use h2_flow::StreamState;
use h2_frame::Code;
use h2_frame::limits::MAX_LIST;
use h2_streams::Stream;
use hpack::{Decoded, Fault};

impl Endpoint {
    // contract: 4.3 Each received block is decoded, also one that is ignored
    // rule: 4.3 Each received block is decoded, also one that is ignored
    /// Takes a complete field block: decodes it, whatever becomes of its stream, and then takes
    /// it by the state of the stream.
    ///
    /// # Errors
    ///
    /// The code with which the connection has failed.
    pub(crate) fn take_block<'a>(
        &mut self,
        id: u32,
        octets: &[u8],
        end: bool,
    ) -> Result<Option<Event<(), &'a [u8]>>, Code>
        requires sound { IsSoundEnd (end_of self.old) }
        requires up { self.old.failed ≡ None }
        requires outside { self.old.gather.begun ≡ None }
        requires number { (1 ≤ id) × (id < 2 ^ 31) }
        ensures { TakesBlock (end_of self.old) id end octets.now self.new.list result
            (end_of self.new) }
    {
        let decoded = match self.decoder.decode_into(octets, MAX_LIST, &mut self.list) {
            Ok(decoded) => decoded,
            Err(fault) => {
                // `fail` may not be called here: the decoder has failed, and until the end has
                // failed too its ghost field `decodes` does not hold, which a call would need.
                let code = code_of_fault(fault);
                self.failed = Some(code);
                self.output
                    .end_with_goaway(self.last_processed, code.number());
                return Err(code);
            }
        };
        let too_large = decoded == Decoded::TooLarge;
        match self.take_decoded(id, end, too_large) {
            Ok(reported) => Ok(reported),
            Err(stop) => Err(self.fail_by(stop)),
        }
    }

    // rule: 5.1 On an idle stream any but HEADERS or PRIORITY is PROTOCOL_ERROR
    // rule: 5.1 (own) On a closed stream a field block is PROTOCOL_ERROR
    // rule: 5.1 What comes on a stream that this end has reset is dropped
    // rule: 5.1.1 A field block on an idle number not the peer's is PROTOCOL_ERROR
    // contract: 5.4 (own) Being out of memory hides no other fault of the connection
    // rule: 5.4 (own) Being out of memory hides no other fault of the connection
    // contract: 5.4 (own) Only blocks, replies, resets and returned credit take memory
    /// Takes a decoded block, whose list is too large or else is kept.
    fn take_decoded<'a>(
        &mut self,
        id: u32,
        end: bool,
        too_large: bool,
    ) -> Result<Option<Event<(), &'a [u8]>>, StepError>
        requires sound { IsSoundEnd (end_of self.old) }
        requires up { self.old.failed ≡ None }
        requires number { (1 ≤ id) × (id < 2 ^ 31) }
        ensures { TakesDecoded self.old id end too_large result self.new }
    {
        match self.status(id) {
            Status::Idle if self.is_fresh(id) => self.take_opening(id, end, too_large),
            Status::Idle => Err(StepError::fault(Code::ProtocolError)),
            Status::Closed => Err(StepError::fault(Code::ProtocolError)),
            Status::ClosedByUs => Ok(None),
            Status::Active(stream) => self.take_further(id, end, too_large, stream),
        }
    }

    // rule: 5.1 After the peer has ended a stream a field block is STREAM_CLOSED
    // rule: 6.2 A field block on an idle odd number opens the stream at a server
    // rule: 10.5.1 A list above 65,536 octets is a stream error ENHANCE_YOUR_CALM
    /// Takes a block on an active stream.
    fn take_further<'a>(
        &mut self,
        id: u32,
        end: bool,
        too_large: bool,
        stream: Stream,
    ) -> Result<Option<Event<(), &'a [u8]>>, StepError>
        requires sound { IsSoundEnd (end_of self.old) }
        requires up { self.old.failed ≡ None }
        requires number { (1 ≤ id) × (id < 2 ^ 31) }
        requires active { stream_at (end_of self.old) id ≡ Some (stream_view stream) }
        ensures { TakesDecoded self.old id end too_large result self.new }
    {
        if stream.state.ended_in || too_large {
            let code = if stream.state.ended_in {
                Code::StreamClosed
            } else {
                Code::EnhanceYourCalm
            };
            return self.reset_for_fault(id, Some(stream), code, 0, 0);
        }
        let mut changed = stream;
        changed.state.ended_in = end;
        reserve_if_over(&mut self.output, changed)?;
        self.update_stream(id, changed);
        Ok(Some(Event::Fields { id, list: (), end }))
    }

    // rule: 5.1.1 A stream that is opened closes all lower idle ones
    // rule: 5.1.2 A stream above the limit of active ones is REFUSED_STREAM
    // rule: 6.2 A field block on an idle odd number opens the stream at a server
    // rule: 6.8 Streams above the last of an own GOAWAY are ignored
    // rule: 10.5.1 A list above 65,536 octets is a stream error ENHANCE_YOUR_CALM
    /// Takes a block on an idle stream that the peer may open (sections 5.1.1, 5.1.2 and 6.8).
    fn take_opening<'a>(
        &mut self,
        id: u32,
        end: bool,
        too_large: bool,
    ) -> Result<Option<Event<(), &'a [u8]>>, StepError>
        requires sound { IsSoundEnd (end_of self.old) }
        requires up { self.old.failed ≡ None }
        requires number { (1 ≤ id) × (id < 2 ^ 31) }
        requires fresh { is_fresh (end_of self.old) id ≡ true }
        ensures { TakesDecoded self.old id end too_large result self.new }
    {
        if self.goaway_sent.is_some() {
            self.highest = id;
            return Ok(None);
        }
        if self.is_at_capacity() {
            let reported = self.reset_for_fault(id, None, Code::RefusedStream, 0, 0)?;
            self.highest = id;
            return Ok(reported);
        }
        if too_large {
            let reported = self.reset_for_fault(id, None, Code::EnhanceYourCalm, 0, id)?;
            self.highest = id;
            self.last_processed = id;
            return Ok(reported);
        }
        let mut state = StreamState::open();
        state.ended_in = end;
        let stream = self.new_stream(state);
        self.streams.open(id, stream)?;
        self.active_count += 1;
        self.highest = id;
        self.last_processed = id;
        Ok(Some(Event::Fields { id, list: (), end }))
    }

    // rule: 6.9.2 A new stream has its initial windows
    // contract: 6.9.2 A new stream has its initial windows
    /// A new stream in this state.
    pub(crate) fn new_stream(&self, state: StreamState) -> Stream
        ensures { stream_view result
            ≡ new_stream (end_of self.now) state.ended_in state.ended_out }
    {
        Stream {
            send_window: i64::from(self.peer.initial_window_size),
            recv_window: i64::from(self.streams.recv_initial()),
            owed: 0,
            state,
        }
    }
}

// contract: 4.3 A block that does not decode is COMPRESSION_ERROR, of the connection
// rule: 4.3 A block that does not decode is COMPRESSION_ERROR, of the connection
/// The code with which the connection ends where a block cannot be decoded (section 4.3).
fn code_of_fault(fault: Fault) -> Code
    ensures { result ≡ decode_fault_code fault }
{
    match fault {
        Fault::Compression => Code::CompressionError,
        Fault::Memory | Fault::Failed => Code::InternalError,
    }
}
