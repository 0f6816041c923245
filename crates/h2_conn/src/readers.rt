//! The readers of a connection. None of them takes memory.

ghost use Rattle.std.specs.Prelude.{◌≡◌, ◌≤◌, ◌<◌, Bool, IfSome, None, length};
ghost use Rattle.h2_wire.specs.Cutter.{saturated};
ghost use Rattle.hpack.specs.Written.{AreOctets};
ghost use Rattle.h2_spec_log.specs.Acts.{Values, Open};
ghost use Rattle.h2_spec_log.specs.Counted.{counted, empty_among, resets_among};
ghost use Rattle.h2_spec_log.specs.Counted.{pings_among, settings_among};
ghost use Rattle.h2_spec_log.specs.Log.{Log, active, waiting, reader_held, reader_next_live};
ghost use Rattle.h2_spec_log.specs.Log.{acked, reader_block_stream};
ghost use Rattle.h2_spec_log.specs.LogView.{log_view};
ghost use Rattle.h2_spec_log.specs.Settings.{payload_limit, value_read};
ghost use Rattle.h2_spec_log.specs.Windows.{first_window};
ghost use Rattle.h2_spec_log.specs.CallRules.{reader_room, reader_owed, reader_due};
ghost use Rattle.h2_spec_log.specs.CallRules.{reader_granted, refusal_of};
ghost use Rattle.std.specs.Option.{option_map};
ghost use Rattle.h2_conn.specs.Conn.{ConnRepresents, reader_next_number, octets_queued};
ghost use Rattle.h2_conn.specs.Counts.{last_flow};
ghost use Rattle.h2_conn.specs.Why.{IsWhy, code_of_why};

use crate::conn::Conn;
use crate::peer::PeerSettings;
use crate::why::Why;
use h2_frame::Code;
use h2_spec_log::{Refusal, Role};
use hpack::Field;

impl Conn {
    /// Returns the number of octets of queued output: at most 262,144, or 262,161 with the
    /// GOAWAY of a failed connection (RFC 9113, section 10.5). It works after a failure too.
    pub fn waiting(&self) -> usize
        ensures count { (values : Values) (log : Log) → ConnRepresents values self.now log
            → result ≡ waiting log }
        ensures bound { (values : Values) (log : Log) → ConnRepresents values self.now log
            → result ≤ 262161 }
        ensures queued { result ≡ length (octets_queued self.now) }
    {
        self.end.waiting()
    }

    // contract: 10.5 (own) What an end holds of a stream is bounded
    /// Returns the number of octets received of a preface or frame that is not complete yet: at
    /// most 9 plus [`Conn::payload_limit`], so 16,393 with the default configuration, and
    /// 1,048,585 with the greatest maximum frame size that can be configured. 0 once the
    /// connection has failed.
    pub fn held(&self) -> usize
        ensures value { (values : Values) (log : Log) → ConnRepresents values self.now log
            → result ≡ reader_held log }
        ensures bound { (values : Values) (log : Log) → ConnRepresents values self.now log
            → result ≤ 1048585 }
    {
        if self.end.failed().is_some() {
            return 0;
        }
        self.cutter.held()
    }

    /// Returns the send window in octets: the connection's where `id` is 0, else an active
    /// stream's, which may be negative after the peer's SETTINGS have lowered it (RFC 9113,
    /// section 6.9.2). `None` for other streams, and once the connection has failed.
    pub fn room(&self, id: u32) -> Option<i64>
        ensures { (values : Values) (log : Log) → ConnRepresents values self.now log
            → result ≡ reader_room (log_view log) id }
    {
        self.end.room(id)
    }

    /// Returns the number of octets of DATA on an active stream, padding included, that were
    /// reported and are not released yet. 0 for other streams, and once the connection has failed.
    pub fn owed(&self, id: u32) -> u32
        ensures { (values : Values) (log : Log) → ConnRepresents values self.now log
            → result ≡ reader_owed (log_view log) id }
    {
        self.end.owed(id)
    }

    /// Returns the number of octets that are still to be returned by WINDOW_UPDATE on stream 0
    /// (section 6.9): those of discarded DATA, and those that were owed on streams that have
    /// closed. 0 once the connection has failed.
    pub fn due(&self) -> u32
        ensures { (values : Values) (log : Log) → ConnRepresents values self.now log
            → result ≡ reader_due (log_view log) }
    {
        self.end.due()
    }

    /// Returns how many octets the peer may send on the connection before this end gives any credit
    /// back: 65,535, plus what [`Conn::widen`] has added. 0 once the connection has failed.
    pub fn granted(&self) -> u32
        ensures { (values : Values) (log : Log) → ConnRepresents values self.now log
            → result ≡ reader_granted (log_view log) }
    {
        self.end.granted()
    }

    /// Returns the largest frame payload, in octets, that this end reads (sections 4.2 and 6.5.3):
    /// the greater of the value in force and the value sent but not yet acknowledged, if there is
    /// one. Not specified once the connection has failed.
    pub fn payload_limit(&self) -> u32
        ensures { (values : Values) (log : Log) → ConnRepresents values self.now log
            → log.failed ≡ None → result ≡ payload_limit (acked log) log.sent }
    {
        self.end.payload_limit()
    }

    /// Returns the lowest number of an active stream that is greater than `above`. `None` if there
    /// is none, and once the connection has failed. The search may go over all active streams.
    pub fn next_live(&self, above: u32) -> Option<u32>
        ensures number { (values : Values) (log : Log) → ConnRepresents values self.now log
            → result ≡ reader_next_live log above }
        ensures above { IfSome result (λ number. above < number) }
    {
        self.end.next_live(above)
    }

    /// Returns the code with which the connection has failed, if it has.
    pub fn failed(&self) -> Option<Code>
        ensures { (values : Values) (log : Log) → ConnRepresents values self.now log
            → result ≡ log.failed }
    {
        let endpoint = &self.end;
        endpoint.failed()
    }

    // contract: 5.4.1 (own) A connection that has failed says why
    /// Returns why the connection has failed, if it has (section 5.4.1): the rule that the peer
    /// has broken, the limit that was reached, or what else has ended it. The reason never
    /// changes, and its code is that of [`Conn::failed`].
    pub fn why(&self) -> Option<Why>
        ensures why { (values : Values) (log : Log) → ConnRepresents values self.now log
            → IsWhy values log result }

        // The code of the reason is the code of the failure.
        ensures code { (values : Values) (log : Log) → ConnRepresents values self.now log
            → option_map code_of_why result ≡ log.failed }
    {
        self.why
    }

    // contract: 6.5.3 Settings apply in order: the first fault decides, the last value counts
    /// Returns the values of the peer's SETTINGS in force (section 6.5.2): the last ones
    /// received, or 65,535 and 16,384 before any. After a failure they are not specified.
    pub fn peer_settings(&self) -> PeerSettings
        ensures window { (values : Values) (log : Log) → ConnRepresents values self.now log
            → log.failed ≡ None
            → result.initial_window_size ≡ value_read 4 first_window log.received }
        ensures frame { (values : Values) (log : Log) → ConnRepresents values self.now log
            → log.failed ≡ None → result.max_frame_size ≡ value_read 5 16384 log.received }
    {
        let settings = self.end.peer_settings();
        PeerSettings {
            initial_window_size: settings.initial_window_size,
            max_frame_size: settings.max_frame_size,
        }
    }

    /// Returns whether a stream is active: open or half-closed (RFC 9113, section 5.1). A
    /// failure of the connection does not change that.
    pub fn is_active(&self, id: u32) -> bool
        ensures { (values : Values) (log : Log) → ConnRepresents values self.now log
            → result ≡ active log id }
    {
        self.end.is_active(id)
    }

    /// Returns the number of the stream that a client opens next: 1, 3, 5 and so on (section
    /// 5.1.1); a stream with a number above 2^31 - 1 cannot be opened (C5). `None` at a server, and
    /// once the connection has failed.
    pub fn next_number(&self) -> Option<u32>
        ensures { (values : Values) (log : Log) → ConnRepresents values self.now log
            → result ≡ reader_next_number log }
    {
        if self.end.failed().is_some() || self.end.role() == Role::Server {
            return None;
        }
        Some(self.end.next_number())
    }

    /// Returns why [`Conn::open`] would refuse these fields now: the first that holds of
    /// [`Refusal::Closed`] (C1), [`Refusal::TooManyStreams`] (C4),
    /// [`Refusal::StreamsExhausted`] (C5, at a server always), [`Refusal::GoingAway`] (C6),
    /// [`Refusal::OutputFull`] (C7) and [`Refusal::ListTooLarge`] (C10). It cannot foresee
    /// [`Refusal::Memory`] (C12).
    pub fn refusal_to_open(&self, fields: &[Field]) -> Option<Refusal>
        ensures refusal { (values : Values) (log : Log) → ConnRepresents values self.now log
            → (end : Bool) → result ≡ refusal_of (log_view log) (Open fields.now end) }
        ensures octets { AreOctets fields.now }
    {
        self.end.refusal_to_open(fields)
    }

    // contract: 6.1 The complete payload of DATA, padding included, counts for windows
    /// Returns the number of octets of the last DATA frame's payload, padding included (section
    /// 6.1), whether the frame was reported, was ignored, or made the connection fail. A frame
    /// whose header or padding is at fault (a wrong length, stream 0, too much padding), or for
    /// which memory was refused, does not count. 0 before any. After
    /// [`Event::Data`](crate::Event::Data) it is the event's `flow`: if it is not 0 and the stream
    /// is still active, release it ([`Conn::release`]) once the octets are used. It works after a
    /// failure too.
    pub fn last_flow(&self) -> u32
        ensures { (values : Values) (log : Log) → ConnRepresents values self.now log
            → result ≡ last_flow log.frames }
    {
        self.counts.flow
    }

    // contract: 10.5 (own) Frames that cost a peer little are counted
    /// Returns the number of RST_STREAM frames received (section 6.4), up to 2<sup>32</sup> - 1.
    /// One whose header is at fault (a wrong length, stream 0), or for which memory was refused,
    /// is not counted. This end sets no limit on RST_STREAM frames: a layer above may end the
    /// connection ([`Conn::fail`]) where the peer opens streams and resets them at once (section
    /// 10.5). It works after a failure too.
    pub fn resets_received(&self) -> u32
        ensures { (values : Values) (log : Log) → ConnRepresents values self.now log
            → result ≡ counted (resets_among log.frames) }
    {
        self.counts.resets
    }

    // contract: 10.5 (own) Frames that cost a peer little are counted
    /// Returns the number of empty frames received (section 10.5), up to 2<sup>32</sup> - 1: DATA
    /// without data and without END_STREAM, padded or not, and HEADERS and CONTINUATION with an
    /// empty fragment and without END_HEADERS. PRIORITY, and frames of unknown types, are not
    /// among them; nor are frames whose header or padding is at fault, or for which memory was
    /// refused. It works after a failure too.
    pub fn empty_frames_received(&self) -> u32
        ensures { (values : Values) (log : Log) → ConnRepresents values self.now log
            → result ≡ counted (empty_among log.frames) }
    {
        self.counts.empty
    }

    // contract: 10.5 (own) Frames that cost a peer little are counted
    /// Returns the number of PING frames without ACK that were received (section 6.7), at most
    /// 2<sup>32</sup> - 1. Each costs this end an answer. All queued output, answers included, is
    /// limited to 262,144 octets, but the PINGs of a peer that reads the answers are not limited
    /// (section 10.5). A PING whose header is at fault, or for which memory was refused, is not
    /// counted. It works after a failure too.
    pub fn pings_received(&self) -> u32
        ensures { (values : Values) (log : Log) → ConnRepresents values self.now log
            → result ≡ counted (pings_among log.frames) }
    {
        self.counts.pings
    }

    // contract: 10.5 (own) Frames that cost a peer little are counted
    /// Returns the number of SETTINGS frames received without ACK (section 6.5), up to
    /// 2<sup>32</sup> - 1; the first counts. One whose header is at fault, or for which memory was
    /// refused, is not counted; one with a value that is not allowed is counted. It works after a
    /// failure too.
    pub fn settings_received(&self) -> u32
        ensures { (values : Values) (log : Log) → ConnRepresents values self.now log
            → result ≡ counted (settings_among log.frames) }
    {
        self.counts.settings
    }

    // contract: 4.3 (own) A gatherer says what it holds of a block, and if it is inside one
    /// Returns the number of the stream whose field block has begun and is not complete (section
    /// 4.3): HEADERS without END_HEADERS was received, and the CONTINUATION with END_HEADERS was
    /// not. Until the block is complete the peer may send only CONTINUATION on that stream, so a
    /// layer with a clock may limit how long that lasts. `None` where no block has begun, and once
    /// the connection has failed.
    pub fn block_stream(&self) -> Option<u32>
        ensures { (values : Values) (log : Log) → ConnRepresents values self.now log
            → result ≡ reader_block_stream log }
    {
        if self.end.failed().is_some() {
            return None;
        }
        self.end.block_stream()
    }

    // rule: calls (own) An end lends its output, and says the place of a fault
    /// Returns the number of octets of input that were used, up to 2<sup>64</sup> - 1. After a
    /// fault of the peer, the last of them is the octet that made the fault.
    pub fn place(&self) -> u64
        ensures { (values : Values) (log : Log) → ConnRepresents values self.now log
            → result ≡ saturated (length log.input) }
    {
        self.cutter.place()
    }
}
