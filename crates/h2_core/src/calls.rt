//! Calls that send messages: field blocks and DATA (RFC 9113, sections 6.1, 6.2 and 8.1).

ghost use Rattle.std.specs.Prelude.{◌≡◌, ◌+◌, ◌-◌, ◌*◌, ◌/◌, ◌≤◌, ◌<◌, ◌^◌, ◌==◌, Bool, List};
ghost use Rattle.std.specs.Prelude.{[], ◌∷◌, pos, ◌-ℤ◌, not, ◌&&◌, length, None, ◌≢◌, true};
ghost use Rattle.std.specs.Prelude.{Err, IsSome};
ghost use Rattle.std.specs.Prelude.{Some, false, is_some, ◌||◌, ◌++◌, IfOk, IfErr, OnOk, OnErr};
ghost use Rattle.hpack.specs.Choice.{block_of, after_block};
ghost use Rattle.hpack.specs.Lists.{list_size};
ghost use Rattle.hpack.specs.Written.{AreOctets};
ghost use Rattle.hpack.specs.declared.types.field.Field.{Field};
ghost use Rattle.h2_block.specs.Grouping.{block};
ghost use Rattle.h2_block.specs.Spread.{spread_frames, encoding_of_frames};
ghost use Rattle.h2_spec_log.specs.Acts.{Open, SendFields, SendData};
ghost use Rattle.h2_spec_log.specs.Items.{encoding_of_items};
ghost use Rattle.h2_spec_log.specs.Limits.{max_list};
ghost use Rattle.h2_spec_log.specs.CallRules.{sends_no_data};
ghost use Rattle.h2_spec_log.specs.CallRules.{refusal_of, data_frames, data_count};
ghost use Rattle.h2_spec_log.specs.CallRules.{has_all_streams, has_no_number, at_least_none};
ghost use Rattle.h2_streams.specs.Streams.{stream_view, is_far};
ghost use Rattle.h2_spec_machine.specs.End.{end_view, stream_at, number_after};
ghost use Rattle.h2_spec_machine.specs.Machine.{queue_output, with_encoder, update_stream};
ghost use Rattle.h2_core.specs.Endpoint.{end_of, IsSoundEnd};
ghost use Rattle.h2_core.specs.Calls.{CallRefused, CallAccepted, NotSendable, FramesFit, IsSizeOf};

use crate::endpoint::Endpoint;
use h2_block::spread;
use h2_flow::StreamState;
use h2_frame::HEAD_LEN;
use h2_frame::limits::{
    FULL_OUTPUT, GREATEST_STREAM, LEAST_MAX_FRAME, LEAST_MAX_STREAMS, MAX_DATA, MAX_FRAME_SENT,
    MAX_LIST, MOST_MAX_STREAMS, SMALL_FRAME,
};
use h2_output::Output;
use h2_spec_log::{Refusal, Role};
use h2_streams::Stream;
use hpack::{Encoder, Field, list_size};
use std::alloc::AllocError;

impl Endpoint {
    // contract: 5.1.1 A client opens odd numbers, each above all before it
    // rule: 5.1.1 A client opens odd numbers, each above all before it
    // contract: 5.1.1 When the numbers of 31 bits are used up no stream is opened
    // contract: 5.1.2 A client has at most as many active streams as the server allows
    // contract: 6.8 No stream is opened after GOAWAY was received
    // contract: 10.5 (own) An own list above 65,536 octets is refused
    // contract: calls (own) A call does what it says, or is refused for its first condition
    /// Opens a stream by sending a field section on it, and returns the stream's number: 1, 3,
    /// 5 and so on. `end` sets END_STREAM: this end sends no more fields or DATA on the stream.
    ///
    /// # Errors
    ///
    /// The first that holds of [`Refusal::Closed`] (C1), [`Refusal::TooManyStreams`] (C4),
    /// [`Refusal::StreamsExhausted`] (C5, at a server always), [`Refusal::GoingAway`] (C6),
    /// [`Refusal::OutputFull`] (C7), [`Refusal::ListTooLarge`] (C10) and [`Refusal::Memory`]
    /// (C12). A refused call changes nothing.
    pub fn open(&mut self, fields: &[Field], end: bool) -> Result<u32, Refusal>
        requires sound { self.old.failed ≡ None → IsSoundEnd (end_of self.old) }
        ensures ok { IfOk result (λ id. (id ≡ (end_view (end_of self.old)).next_number)
            × CallAccepted (end_of self.old) (Open fields.now end) (end_of self.new)) }
        ensures err { IfErr result (λ refusal. CallRefused (end_of self.old) (Open fields.now end)
            refusal (end_of self.new)) }
        ensures octets { AreOctets fields.now }
    {
        let size = list_size(fields);
        if let Some(refusal) = self.refusal_of_open(size) {
            return Err(refusal);
        }
        let id = self.next_number();
        let mut state = StreamState::open();
        state.ended_out = end;
        let stream = self.new_stream(state);
        if self.streams.open(id, stream).is_err() {
            return Err(Refusal::Memory);
        }
        if self.write_block(id, fields, size, end).is_err() {
            self.streams.close(id);
            return Err(Refusal::Memory);
        }
        self.active_count += 1;
        self.highest = id;
        Ok(id)
    }

    /// Returns why [`Endpoint::open`] would refuse these fields now: the first that holds of
    /// [`Refusal::Closed`] (C1), [`Refusal::TooManyStreams`] (C4),
    /// [`Refusal::StreamsExhausted`] (C5, at a server always), [`Refusal::GoingAway`] (C6),
    /// [`Refusal::OutputFull`] (C7) and [`Refusal::ListTooLarge`] (C10). It takes no memory.
    pub fn refusal_to_open(&self, fields: &[Field]) -> Option<Refusal>
        requires sound { self.now.failed ≡ None → IsSoundEnd (end_of self.now) }
        ensures refusal { (end : Bool)
            → result ≡ refusal_of (end_view (end_of self.now)) (Open fields.now end) }
        ensures octets { AreOctets fields.now }
    {
        self.refusal_of_open(list_size(fields))
    }

    // contract: 5.1 Each frame is sent only in states that allow it
    // contract: 10.5 (own) An own list above 65,536 octets is refused
    // rule: 10.5 (own) An own list above 65,536 octets is refused
    // contract: calls (own) A call does what it says, or is refused for its first condition
    /// Sends a field section on an active stream: a response's head, or trailers. `end` sets
    /// END_STREAM: this end sends no more fields or DATA on the stream.
    ///
    /// # Errors
    ///
    /// The first that holds of [`Refusal::Closed`] (C1), [`Refusal::NoSuchStream`] (C2),
    /// [`Refusal::Ended`] (C3), [`Refusal::OutputFull`] (C7), [`Refusal::ListTooLarge`] (C10)
    /// and [`Refusal::Memory`] (C12). A refused call changes nothing.
    pub fn send_fields(&mut self, id: u32, fields: &[Field], end: bool) -> Result<(), Refusal>
        requires sound { self.old.failed ≡ None → IsSoundEnd (end_of self.old) }
        ensures ok { OnOk result (CallAccepted (end_of self.old) (SendFields id fields.now end)
            (end_of self.new)) }
        ensures err { IfErr result (λ refusal. CallRefused (end_of self.old)
            (SendFields id fields.now end) refusal (end_of self.new)) }
        ensures octets { AreOctets fields.now }
    {
        let size = list_size(fields);
        let mut stream = self.sendable(id)?;
        if size > MAX_LIST as usize {
            return Err(Refusal::ListTooLarge);
        }
        if self.write_block(id, fields, size, end).is_err() {
            return Err(Refusal::Memory);
        }
        stream.state.ended_out = end;
        self.update_stream(id, stream);
        Ok(())
    }

    // contract: 5.1 Each frame is sent only in states that allow it
    // contract: 6.9.1 DATA is sent within both windows
    // rule: 6.9.1 DATA is sent within both windows
    // contract: calls (own) A call does what it says, or is refused for its first condition
    // rule: calls (own) A call that sends nothing takes no memory
    /// Sends as many octets of a body as the windows of the stream and of the connection allow,
    /// at most 65,536, and returns their number. If all of `octets` were sent and `end` is set,
    /// the last DATA frame has END_STREAM; an empty slice with `end` sends one empty DATA
    /// frame.
    ///
    /// # Errors
    ///
    /// The first that holds of [`Refusal::Closed`] (C1), [`Refusal::NoSuchStream`] (C2),
    /// [`Refusal::Ended`] (C3), [`Refusal::OutputFull`] (C7) and [`Refusal::Memory`] (C12). A
    /// refused call changes nothing.
    pub fn send_data(&mut self, id: u32, octets: &[u8], end: bool) -> Result<usize, Refusal>
        requires sound { self.old.failed ≡ None → IsSoundEnd (end_of self.old) }
        ensures closed { IsSome self.old.failed → result ≡ Err Refusal.Closed }
        ensures nothing { sends_no_data (end_view (end_of self.old)) id octets.now end ≡ true
            → result ≢ Err Refusal.Memory }
        ensures ok { IfOk result (λ count. (count ≡ data_count (end_view (end_of self.old))
            (stream_at (end_of self.old) id) (length octets.now))
            × CallAccepted (end_of self.old) (SendData id octets.now end) (end_of self.new)) }
        ensures err { IfErr result (λ refusal. CallRefused (end_of self.old)
            (SendData id octets.now end) refusal (end_of self.new)) }
    {
        let stream = self.sendable(id)?;
        let count = self.sendable_octets(&stream, octets.len());
        if sends_nothing(octets, end, count) {
            return Ok(0);
        }
        let room = count + HEAD_LEN * (1 + count / LEAST_MAX_FRAME as usize) + SMALL_FRAME;
        if self.output.reserve(room).is_err() {
            return Err(Refusal::Memory);
        }
        let ends = end && count == octets.len();
        self.write_data(id, stream, &octets[..count], ends);
        Ok(count)
    }

    // rule: 5.1 Each frame is sent only in states that allow it
    // rule: calls (own) A call does what it says, or is refused for its first condition
    /// The stream, if it may be sent on.
    #[inline(always)]
    pub(crate) fn sendable(&self, id: u32) -> Result<Stream, Refusal>
        ensures ok { IfOk result (λ stream. (self.now.failed ≡ None)
            × (stream_at (end_of self.now) id ≡ Some (stream_view stream))
            × (stream.state.ended_out ≡ false) × (length self.now.output.waiting < 65536)) }
        ensures err { IfErr result (λ refusal. NotSendable self.now id refusal) }
        ensures closed { IsSome self.now.failed → result ≡ Err Refusal.Closed }
        ensures memory { result ≢ Err Refusal.Memory }
    {
        if self.failed.is_some() {
            return Err(Refusal::Closed);
        }
        let Some(stream) = self.streams.stream(id) else {
            return Err(Refusal::NoSuchStream);
        };
        if stream.state.ended_out {
            return Err(Refusal::Ended);
        }
        if self.output.len() >= FULL_OUTPUT {
            return Err(Refusal::OutputFull);
        }
        Ok(stream)
    }

    // rule: 6.9.1 DATA is sent within both windows
    /// The number of octets, of `count`, that the windows allow on a stream now, at most
    /// 65,536.
    pub(crate) fn sendable_octets(&self, stream: &Stream, count: usize) -> usize
        requires { is_far stream.now.send_window ≡ false }
        ensures { result ≡ data_count (end_view (end_of self.now)) (Some (stream_view stream.now))
            count }
    {
        let window = stream.send_window.max(0) as usize;
        count
            .min(window)
            .min(self.send_window as usize)
            .min(MAX_DATA)
    }

    /// Sends octets, as many as both windows allow, on an active stream. There is room for
    /// their frames and for a WINDOW_UPDATE.
    fn write_data(&mut self, id: u32, mut stream: Stream, octets: &[u8], end: bool)
        requires sound { IsSoundEnd (end_of self.old) }
        requires up { self.old.failed ≡ None }
        requires active { stream_at (end_of self.old) id ≡ Some (stream_view stream) }
        requires count { length octets.now ≤ 65536 }
        requires connection { length octets.now ≤ self.old.send_window }
        requires window { length octets.now ≤ at_least_none stream.send_window }
        requires room { length octets.now + 9 * (1 + length octets.now / 16384) + 13
            ≤ self.old.output.spare }
        ensures { end_of self.new ≡ update_stream
            (record (queue_output (end_of self.old)
            (data_frames (length octets.now + 1) (end_view (end_of self.old)).max_payload id
            octets.now end)) {
              windows = record (end_of self.old).windows {
                send = self.old.send_window - length octets.now;
              };
            }) id (record (stream_view stream) {
              send_window = stream.send_window -ℤ pos (length octets.now);
              ended_out = end;
            }) }
    {
        self.add_data(id, octets, end);
        self.send_window -= octets.len() as u32;
        stream.send_window -= octets.len() as i64;
        stream.state.ended_out = end;
        self.update_stream(id, stream);
    }

    /// Adds the DATA frames of octets, for which there is room: all but the last are full, and
    /// the last has END_STREAM where `end` is set.
    fn add_data(&mut self, id: u32, octets: &[u8], end: bool)
        requires up { self.old.failed ≡ None }
        requires count { length octets.now ≤ 65536 }
        requires room { length octets.now + 9 * (1 + length octets.now / 16384)
            ≤ self.old.output.spare }
        ensures after { end_of self.new ≡ queue_output (end_of self.old)
            (data_frames (length octets.now + 1) (end_view (end_of self.old)).max_payload id
            octets.now end) }
        ensures spare { self.old.output.spare
            ≤ self.new.output.spare + (length octets.now + 9 * (1 + length octets.now / 16384)) }
    {
        let most = self.most_octets();
        add_data_frames(&mut self.output, most, id, octets, end);
    }

    // rule: 4.3 No other frame is sent between the frames of a field block
    /// Encodes the field block of a list of this size, and adds its frames, with room for a
    /// WINDOW_UPDATE after them.
    ///
    /// # Errors
    ///
    /// [`AllocError`] where an allocation was refused; nothing has changed.
    fn write_block(
        &mut self,
        id: u32,
        fields: &[Field],
        size: usize,
        end: bool,
    ) -> Result<(), AllocError>
        requires up { self.old.failed ≡ None }
        requires number { (1 ≤ id) × (id < 2 ^ 31) }
        requires size { size ≡ list_size fields.now }
        requires small { size ≤ max_list }
        ensures ok { OnOk result ((end_of self.new ≡ queue_output (with_encoder (end_of self.old)
            (after_block self.old.encoder fields.now))
            (block id end (block_of self.old.encoder fields.now) ∷ []))
            × (13 ≤ self.new.output.spare)) }
        ensures err { OnErr result (end_of self.new ≡ end_of self.old) }
    {
        let most = self.most_octets();
        let room = frames_room(size);
        self.output.reserve(room + SMALL_FRAME)?;
        encode_frames(
            &mut self.encoder,
            most,
            id,
            fields,
            size,
            end,
            room,
            &mut self.block,
            &mut self.block_frames,
        )?;
        self.output.add_octets(&self.block_frames);
        Ok(())
    }

    // rule: 4.2 (own) Payloads of at most 65,536 octets are sent, where the peer reads them
    /// The greatest payload to send, in octets: what the peer reads, at most 65,536 (section
    /// 4.2).
    pub(crate) fn most_octets(&self) -> usize
        ensures value { result ≡ (end_view (end_of self.now)).max_payload }
        ensures least { 16384 ≤ result }
        ensures small { result ≤ 65536 }
    {
        self.peer
            .max_frame_size
            .max(LEAST_MAX_FRAME)
            .min(MAX_FRAME_SENT) as usize
    }

    // rule: 5.1.1 When the numbers of 31 bits are used up no stream is opened
    // rule: 5.1.2 A client has at most as many active streams as the server allows
    // rule: 6.8 No stream is opened after GOAWAY was received
    // rule: 10.5 (own) An own list above 65,536 octets is refused
    // rule: calls (own) A call does what it says, or is refused for its first condition
    /// Why a stream cannot be opened with a list of this size, apart from a refused allocation.
    fn refusal_of_open(&self, size: usize) -> Option<Refusal>
        requires { self.now.failed ≡ None → self.now.highest < 2 ^ 31 }
        ensures { (fields : List Field) (end : Bool) → IsSizeOf size fields
            → result ≡ refusal_of (end_view (end_of self.now)) (Open fields end) }
    {
        if self.failed.is_some() {
            Some(Refusal::Closed)
        } else if self.has_all_streams() {
            Some(Refusal::TooManyStreams)
        } else if self.has_no_number() {
            Some(Refusal::StreamsExhausted)
        } else if self.is_going_away() {
            Some(Refusal::GoingAway)
        } else if self.output.len() >= FULL_OUTPUT {
            Some(Refusal::OutputFull)
        } else if size > MAX_LIST as usize {
            Some(Refusal::ListTooLarge)
        } else {
            None
        }
    }

    /// C4: a client has as many active streams as the peer allows.
    fn has_all_streams(&self) -> bool
        ensures { result ≡ has_all_streams (end_view (end_of self.now)) }
    {
        match self.role {
            Role::Client => self.active_count >= self.streams_allowed(),
            Role::Server => false,
        }
    }

    /// C5: a server opens no streams, and a client has no number left.
    fn has_no_number(&self) -> bool
        requires { self.now.highest < 2 ^ 31 }
        ensures { result ≡ has_no_number (end_view (end_of self.now)) }
    {
        match self.role {
            Role::Client => self.next_number() > GREATEST_STREAM,
            Role::Server => true,
        }
    }

    /// C6: GOAWAY was sent or received.
    fn is_going_away(&self) -> bool
        ensures { result ≡ (is_some self.now.goaway_sent || is_some self.now.goaway_received) }
    {
        self.goaway_sent.is_some() || self.goaway_received.is_some()
    }

    // rule: 5.1.2 A client has at most as many active streams as the server allows
    /// The number of streams that a client may have active at once (RFC 9113, section 5.1.2).
    pub(crate) fn streams_allowed(&self) -> u32
        ensures { result ≡ (end_of self.now).peer.max_streams }
    {
        if !self.started {
            return LEAST_MAX_STREAMS;
        }
        match self.peer.max_concurrent_streams {
            Some(count) => count.min(MOST_MAX_STREAMS),
            None => MOST_MAX_STREAMS,
        }
    }

    // rule: 5.1.1 A client opens odd numbers, each above all before it
    /// Returns the number of the next stream: 1, 3, 5 and so on (section 5.1.1). It takes no
    /// memory.
    pub fn next_number(&self) -> u32
        requires { self.now.highest < 2 ^ 31 }
        ensures { result ≡ number_after self.now.highest }
    {
        if self.highest == 0 {
            1
        } else {
            self.highest + 2
        }
    }
}

/// Whether a call sends nothing: no octet may be sent, and the slice is not an empty one that
/// ends the stream.
pub(crate) fn sends_nothing(octets: &[u8], end: bool, count: usize) -> bool
    ensures { result ≡ (count == 0 && not (length octets.now == 0 && end)) }
{
    count == 0 && !(octets.is_empty() && end)
}

/// The most octets of the frames of a field block, by the size of its list, with payloads of
/// 16,384 octets, which every peer reads.
fn frames_room(size: usize) -> usize
    requires { size ≤ max_list }
    ensures enough { (fields : List Field) → list_size fields ≡ size → FramesFit fields result }
    ensures small { result < 2 ^ 17 }
{
    let octets = size + 12;
    octets + HEAD_LEN * (1 + octets / LEAST_MAX_FRAME as usize)
}

/// Encodes a field block into frames with payloads of at most `most` octets, `room` octets
/// altogether, which replace what `frames` has.
///
/// # Errors
///
/// [`AllocError`] where an allocation was refused; the encoder has not changed.
fn encode_frames(
    encoder: &mut Encoder,
    most: usize,
    id: u32,
    fields: &[Field],
    size: usize,
    end: bool,
    room: usize,
    block: &mut Vec<u8>,
    frames: &mut Vec<u8>,
) -> Result<(), AllocError>
    requires number { (1 ≤ id) × (id < 2 ^ 31) }
    requires size { size ≡ list_size fields.now }
    requires small { size ≤ max_list }
    requires most { (16384 ≤ most) × (most ≤ 65536) }
    requires room { FramesFit fields.now room }
    ensures ok { OnOk result ((frames.new.items ≡ encoding_of_frames (spread_frames most id
        end (block_of encoder.old fields.now)))
        × (encoder.new ≡ after_block encoder.old fields.now)) }
    ensures err { OnErr result (encoder.new ≡ encoder.old) }
{
    block.clear();
    frames.clear();
    frames.reserve(room)?;
    if encoder.encode_sized(fields, size, block).is_err() {
        return Err(AllocError);
    }
    spread(id, end, block, frames, most).unwrap();
    Ok(())
}

/// Adds the DATA frames of octets, for which there is room: all but the last have `most`
/// octets, and the last has END_STREAM where `end` is set.
fn add_data_frames(output: &mut Output, most: usize, id: u32, octets: &[u8], end: bool)
    requires up { output.old.ended ≡ false }
    requires most { (16384 ≤ most) × (most ≤ 65536) }
    requires room { length octets.now + 9 * (1 + length octets.now / 16384) ≤ output.old.spare }
    ensures waiting { output.new.waiting ≡ output.old.waiting ++ encoding_of_items most
        (data_frames (length octets.now + 1) most id octets.now end) }
    ensures spare { output.old.spare
        ≤ output.new.spare + (length octets.now + 9 * (1 + length octets.now / 16384)) }
    ensures ended { output.new.ended ≡ false }
{
    let mut rest = octets;
    while rest.len() > most {
        let (first, following) = rest.split_at(most);
        output.add_data(id, first, false);
        rest = following;
    }
    output.add_data(id, rest, end);
}
