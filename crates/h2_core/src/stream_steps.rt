//! Steps on a stream: it is changed, closed or reset (RFC 9113, section 5.1).

ghost use Rattle.std.specs.Prelude.{◌≡◌, ◌≢◌, ◌+◌, ◌≤◌, ◌<◌, ◌^◌, [], ◌∷◌};
ghost use Rattle.std.specs.Prelude.{None, Some, OnOk, OnErr, true, length};
ghost use Rattle.std.specs.Option.{option_map};
ghost use Rattle.h2_block.specs.Grouping.{alone};
ghost use Rattle.h2_frame.specs.Frames.{Reset as ResetFrame};
ghost use Rattle.h2_spec_log.specs.CallRules.{returns_credit};
ghost use Rattle.h2_streams.specs.Streams.{stream_view};
ghost use Rattle.h2_spec_machine.specs.End.{stream_at};
ghost use Rattle.h2_spec_machine.specs.Machine.{close_stream, reset_stream, update_stream};
ghost use Rattle.h2_spec_machine.specs.Machine.{queue_output};
ghost use Rattle.h2_core.specs.Endpoint.{end_of};
ghost use Rattle.h2_core.specs.Streams.{IsNear, WindowHolds, both_ended, owed_by};

use crate::endpoint::Endpoint;
use h2_frame::FrameRef;
use h2_frame::limits::{FULL_OUTPUT, SMALL_FRAME};
use h2_output::Output;
use h2_streams::Stream;
use std::alloc::AllocError;

impl Endpoint {
    /// Closes an active stream, of which nothing is kept; what it owes becomes unreturned
    /// credit. There is room for a WINDOW_UPDATE where that is returned at once.
    pub(crate) fn close_stream(&mut self, id: u32, stream: Stream)
        requires up { self.old.failed ≡ None }
        requires active { stream_at (end_of self.old) id ≡ Some (stream_view stream) }
        requires counted { 1 ≤ self.old.active_count }
        requires room { returns_credit stream.owed (length self.old.output.waiting) ≡ true
            → 13 ≤ self.old.output.spare }
        requires window { WindowHolds self.old stream.owed }
        ensures { end_of self.new ≡ close_stream (end_of self.old) id 0 }
    {
        self.streams.close(id);
        self.active_count -= 1;
        self.add_unreturned(stream.owed);
    }

    /// Changes an active stream to this one, and closes it if both sides have ended it. Then
    /// there is room for a WINDOW_UPDATE where what it owes is returned at once.
    pub(crate) fn update_stream(&mut self, id: u32, stream: Stream)
        requires up { self.old.failed ≡ None }
        requires active { stream_at (end_of self.old) id ≢ None }
        requires near { IsNear stream }
        requires counted { 1 ≤ self.old.active_count }
        requires room { both_ended stream.state ≡ true
            → returns_credit stream.owed (length self.old.output.waiting) ≡ true
            → 13 ≤ self.old.output.spare }
        requires window { WindowHolds self.old stream.owed }
        ensures after { end_of self.new
            ≡ update_stream (end_of self.old) id (stream_view stream) }
        ensures list { self.new.list ≡ self.old.list }
    {
        if stream.state.ended_in && stream.state.ended_out {
            self.streams.close(id);
            self.active_count -= 1;
            self.add_unreturned(stream.owed);
        } else {
            self.streams.set(id, stream);
        }
    }

    // rule: 5.4.2 A stream error is answered by RST_STREAM with its code, and reported
    // rule: 5.4.2 RST_STREAM is not answered by RST_STREAM, nor sent twice
    /// Resets a number: RST_STREAM joins the output, and what an active stream with it owes,
    /// and `more` octets, become unreturned credit.
    ///
    /// # Errors
    ///
    /// [`AllocError`] where an allocation was refused; nothing has changed.
    pub(crate) fn reset_stream(
        &mut self,
        id: u32,
        stream: Option<Stream>,
        code: u32,
        more: u32,
    ) -> Result<(), AllocError>
        requires up { self.old.failed ≡ None }
        requires number { (1 ≤ id) × (id < 2 ^ 31) }
        requires active { stream_at (end_of self.old) id ≡ option_map stream_view stream }
        requires counted { stream ≢ None → 1 ≤ self.old.active_count }
        requires few { self.old.resets < 1000 }
        requires window { WindowHolds self.old (more + owed_by stream) }
        ensures ok { OnOk result (end_of self.new ≡ reset_stream (queue_output (end_of self.old)
            (alone (ResetFrame id code) ∷ [])) id more) }
        ensures err { OnErr result (end_of self.new ≡ end_of self.old) }
    {
        self.output.reserve(2 * SMALL_FRAME)?;
        self.streams.reset(id)?;
        self.output.add_frame(FrameRef::Reset { stream: id, code });
        self.resets += 1;
        let mut owed = 0;
        if let Some(stream) = stream {
            self.active_count -= 1;
            owed = stream.owed;
        }
        self.add_unreturned(more + owed);
        Ok(())
    }
}

// rule: 5.4 (own) Only blocks, replies, resets and returned credit take memory
/// Reserves room for a WINDOW_UPDATE where a stream is closed, and what it owes is returned at
/// once.
///
/// # Errors
///
/// [`AllocError`] where an allocation was refused; nothing has changed.
pub(crate) fn reserve_if_over(output: &mut Output, stream: Stream) -> Result<(), AllocError>
    ensures waiting { output.new.waiting ≡ output.old.waiting }
    ensures ended { output.new.ended ≡ output.old.ended }
    ensures ok { OnOk result (both_ended stream.state ≡ true
        → returns_credit stream.owed (length output.old.waiting) ≡ true
        → 13 ≤ output.new.spare) }
    ensures err { OnErr result ((both_ended stream.state ≡ true)
        × (returns_credit stream.owed (length output.old.waiting) ≡ true)) }
{
    if stream.state.ended_in && stream.state.ended_out {
        reserve_credit(output, stream.owed)?;
    }
    Ok(())
}

// rule: 5.4 (own) Only blocks, replies, resets and returned credit take memory
/// Reserves room for a WINDOW_UPDATE where `more` octets of the connection's window are
/// returned at once.
///
/// # Errors
///
/// [`AllocError`] where an allocation was refused; nothing has changed.
pub(crate) fn reserve_credit(output: &mut Output, more: u32) -> Result<(), AllocError>
    ensures waiting { output.new.waiting ≡ output.old.waiting }
    ensures ended { output.new.ended ≡ output.old.ended }
    ensures ok { OnOk result (returns_credit more (length output.old.waiting) ≡ true
        → 13 ≤ output.new.spare) }
    ensures err { OnErr result (returns_credit more (length output.old.waiting) ≡ true) }
{
    if more > 0 && output.len() < FULL_OUTPUT {
        output.reserve(SMALL_FRAME)?;
    }
    Ok(())
}
