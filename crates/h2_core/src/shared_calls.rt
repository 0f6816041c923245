//! Calls that send octets of a body without a copy (RFC 9113, section 6.1).

ghost use Rattle.std.specs.Prelude.{◌≡◌, ◌+◌, ◌-◌, ◌*◌, ◌/◌, ◌≤◌, ◌<◌, List, [], pos, ◌-ℤ◌};
ghost use Rattle.std.specs.Prelude.{length, None, ◌≢◌, true, Err, IsSome, Some, false, ◌++◌};
ghost use Rattle.std.specs.Prelude.{IfOk, IfErr};
ghost use Rattle.h2_spec_log.specs.Acts.{SendData};
ghost use Rattle.h2_spec_log.specs.Items.{encoding_of_items};
ghost use Rattle.h2_spec_log.specs.CallRules.{sends_no_data};
ghost use Rattle.h2_spec_log.specs.CallRules.{data_frames, data_count, at_least_none};
ghost use Rattle.h2_streams.specs.Streams.{stream_view};
ghost use Rattle.h2_spec_machine.specs.End.{end_view, stream_at};
ghost use Rattle.h2_spec_machine.specs.Machine.{queue_output, update_stream};
ghost use Rattle.h2_core.specs.Endpoint.{end_of, IsSoundEnd};
ghost use Rattle.h2_core.specs.Calls.{CallRefused, CallAccepted};

use crate::calls::sends_nothing;
use crate::endpoint::Endpoint;
use bytes::Bytes;
use h2_frame::HEAD_LEN;
use h2_frame::limits::{LEAST_MAX_FRAME, SMALL_FRAME};
use h2_output::Output;
use h2_spec_log::Refusal;
use h2_streams::Stream;
use std::alloc::Global;

impl Endpoint {
    // contract: 5.1 Each frame is sent only in states that allow it
    // contract: 6.9.1 DATA is sent within both windows
    // rule: 6.9.1 DATA is sent within both windows
    // contract: calls (own) A call does what it says, or is refused for its first condition
    // rule: calls (own) A call that sends nothing takes no memory
    /// Sends octets of a body as [`Endpoint::send_data`] does, and doesn't copy them for a DATA
    /// frame with 4,096 octets or more: the queue shares them.
    ///
    /// # Errors
    ///
    /// The first that holds of [`Refusal::Closed`] (C1), [`Refusal::NoSuchStream`] (C2),
    /// [`Refusal::Ended`] (C3), [`Refusal::OutputFull`] (C7) and [`Refusal::Memory`] (C12). A
    /// refused call changes nothing.
    pub fn send_shared_data(
        &mut self,
        id: u32,
        mut octets: Bytes<Global>,
        end: bool,
    ) -> Result<usize, Refusal>
        requires sound { self.old.failed ≡ None → IsSoundEnd (end_of self.old) }
        ensures closed { IsSome self.old.failed → result ≡ Err Refusal.Closed }
        ensures nothing { sends_no_data (end_view (end_of self.old)) id octets end ≡ true
            → result ≢ Err Refusal.Memory }
        ensures ok { IfOk result (λ count. (count ≡ data_count (end_view (end_of self.old))
            (stream_at (end_of self.old) id) (length octets))
            × CallAccepted (end_of self.old) (SendData id octets end) (end_of self.new)) }
        ensures err { IfErr result (λ refusal. CallRefused (end_of self.old)
            (SendData id octets end) refusal (end_of self.new)) }
    {
        let stream = self.sendable(id)?;
        let length = octets.len();
        let count = self.sendable_octets(&stream, length);
        if sends_nothing(octets.as_slice(), end, count) {
            return Ok(0);
        }
        let room = count + HEAD_LEN * (1 + count / LEAST_MAX_FRAME as usize) + SMALL_FRAME;
        if self.output.reserve(room).is_err() {
            return Err(Refusal::Memory);
        }
        let ends = end && count == length;
        octets.truncate(count);
        self.write_shared_data(id, stream, octets, ends);
        Ok(count)
    }

    /// Sends octets, as many as both windows allow, on an active stream. There is room for
    /// their frames and for a WINDOW_UPDATE.
    fn write_shared_data(&mut self, id: u32, mut stream: Stream, octets: Bytes<Global>, end: bool)
        requires sound { IsSoundEnd (end_of self.old) }
        requires up { self.old.failed ≡ None }
        requires active { stream_at (end_of self.old) id ≡ Some (stream_view stream) }
        requires count { length octets ≤ 65536 }
        requires connection { length octets ≤ self.old.send_window }
        requires window { length octets ≤ at_least_none stream.send_window }
        requires room { length octets + 9 * (1 + length octets / 16384) + 13
            ≤ self.old.output.spare }
        ensures { end_of self.new ≡ update_stream
            (record (queue_output (end_of self.old)
            (data_frames (length octets + 1) (end_view (end_of self.old)).max_payload id
            octets end)) {
              windows = record (end_of self.old).windows {
                send = self.old.send_window - length octets;
              };
            }) id (record (stream_view stream) {
              send_window = stream.send_window -ℤ pos (length octets);
              ended_out = end;
            }) }
    {
        let count = octets.len();
        self.add_shared_data(id, octets, end);
        self.send_window -= count as u32;
        stream.send_window -= count as i64;
        stream.state.ended_out = end;
        self.update_stream(id, stream);
    }

    /// Adds the DATA frames of octets, for which there is room: all but the last are full, and
    /// the last has END_STREAM where `end` is set.
    fn add_shared_data(&mut self, id: u32, octets: Bytes<Global>, end: bool)
        requires up { self.old.failed ≡ None }
        requires count { length octets ≤ 65536 }
        requires room { length octets + 9 * (1 + length octets / 16384)
            ≤ self.old.output.spare }
        ensures after { end_of self.new ≡ queue_output (end_of self.old)
            (data_frames (length octets + 1) (end_view (end_of self.old)).max_payload id
            octets end) }
        ensures spare { self.old.output.spare
            ≤ self.new.output.spare + (length octets + 9 * (1 + length octets / 16384)) }
    {
        let most = self.most_octets();
        add_shared_frames(&mut self.output, most, id, octets, end);
    }
}

/// Adds the DATA frames of octets, for which there is room: all but the last have `most`
/// octets, and the last has END_STREAM where `end` is set.
fn add_shared_frames(output: &mut Output, most: usize, id: u32, octets: Bytes<Global>, end: bool)
    requires up { output.old.ended ≡ false }
    requires most { (16384 ≤ most) × (most ≤ 65536) }
    requires room { length octets + 9 * (1 + length octets / 16384) ≤ output.old.spare }
    ensures waiting { output.new.waiting ≡ output.old.waiting ++ encoding_of_items most
        (data_frames (length octets + 1) most id octets end) }
    ensures spare { output.old.spare
        ≤ output.new.spare + (length octets + 9 * (1 + length octets / 16384)) }
    ensures ended { output.new.ended ≡ false }
{
    let mut rest = octets;
    while rest.len() > most {
        match rest.split_to(most) {
            Ok(first) => output.add_shared_data(id, first, false),
            Err(_) => {
                output.add_data(id, &rest.as_slice()[..most], false);
                rest.advance(most);
            }
        }
    }
    output.add_shared_data(id, rest, end);
}
