//! The readers of an end.

ghost use Rattle.std.specs.Prelude.{◌≡◌, ◌<◌, is_some, if◌then◌else◌, IfSome, length};
ghost use Rattle.std.specs.FinMap as map;
ghost use Rattle.std.specs.Option.{option_map, option_map_or};
ghost use Rattle.h2_streams.specs.Streams.{number_or_none};
ghost use Rattle.h2_spec_log.specs.ItemRules.{is_idle};
ghost use Rattle.h2_spec_machine.specs.End.{payload_limit_of, state_at, stream_at};
ghost use Rattle.h2_spec_machine.specs.Machine.{first_active};
ghost use Rattle.h2_core.specs.Endpoint.{end_of};
ghost use Rattle.h2_core.specs.Readers.{room_of, owed_of};

use crate::endpoint::Endpoint;
use crate::status::Status;
use h2_flow::Settings;
use h2_frame::Code;
use h2_spec_log::Role;
use hpack::FieldList;

impl Endpoint {
    /// Returns the code with which the connection has failed, if it has. It takes no memory.
    pub fn failed(&self) -> Option<Code>
        ensures { result ≡ self.now.failed }
    {
        self.failed
    }

    // contract: 4.2 The limit of an end is its greatest MAX_FRAME_SIZE of those in force
    // rule: 4.2 The limit of an end is its greatest MAX_FRAME_SIZE of those in force
    /// Returns the greatest payload that may be read now, in octets (RFC 9113, sections 4.2 and
    /// 6.5.3): by this end's settings in force, and by those not acknowledged yet, which the
    /// peer may have applied already. It takes no memory.
    pub fn payload_limit(&self) -> u32
        ensures { result ≡ payload_limit_of (end_of self.now).own }
    {
        match self.awaited {
            Some(config) => self.max_frame.max(config.max_frame()),
            None => self.max_frame,
        }
    }

    /// Returns the peer's settings in force (RFC 9113, section 6.5.2). It takes no memory.
    pub fn peer_settings(&self) -> Settings
        ensures window { result.initial_window_size ≡ (end_of self.now).peer.initial_window }
        ensures frame { result.max_frame_size ≡ (end_of self.now).peer.max_frame }
    {
        self.peer
    }

    /// Returns whether a first frame was taken without a fault (RFC 9113, section 3.4). It
    /// takes no memory.
    pub fn has_started(&self) -> bool
        ensures { result ≡ (end_of self.now).reading.started }
    {
        self.started
    }

    /// Returns the stream of the field block that has begun (section 6.10), if one has. It
    /// takes no memory.
    pub fn block_stream(&self) -> Option<u32>
        ensures { result ≡ option_map (λ begun. begun.stream) (end_of self.now).reading.begun }
    {
        self.gather.stream()
    }

    /// Returns the number of octets of that block that were received, or 0. It takes no memory.
    pub fn block_len(&self) -> usize
        ensures { result
            ≡ option_map_or (λ begun. length begun.octets) (end_of self.now).reading.begun 0 }
    {
        self.gather.held()
    }

    /// Returns whether a stream's number is idle (section 5.1). A failure of the connection
    /// does not change that. It takes no memory.
    pub fn is_idle(&self, id: u32) -> bool
        ensures { result ≡ is_idle (state_at (end_of self.now) id) }
    {
        match self.status(id) {
            Status::Idle => true,
            Status::Active(_) | Status::ClosedByUs | Status::Closed => false,
        }
    }

    /// Returns the connection's receive window: the octets that the peer may send (section
    /// 6.9.1). It takes no memory.
    pub fn recv_window(&self) -> u32
        ensures { result ≡ (end_of self.now).windows.recv }
    {
        self.recv_window
    }

    /// Returns the number of streams that this end has reset. It takes no memory.
    pub fn resets(&self) -> u32
        ensures { result ≡ (end_of self.now).streams.resets }
    {
        self.resets
    }

    /// Lends the fields of the field block that was read last. It takes no memory.
    pub fn fields(&self) -> &FieldList
        ensures { result.now ≡ self.now.list }
    {
        &self.list
    }

    /// Returns whether the end is the client or the server. It takes no memory.
    pub fn role(&self) -> Role
        ensures { result ≡ self.now.role }
    {
        self.role
    }

    /// Returns whether a stream is active: open or half-closed (RFC 9113, section 5.1). A
    /// failure of the connection does not change that. It takes no memory.
    pub fn is_active(&self, id: u32) -> bool
        ensures { result ≡ is_some (stream_at (end_of self.now) id) }
    {
        self.streams.stream(id).is_some()
    }

    // contract: calls (own) An end answers of its state, and of little once it has failed
    // rule: calls (own) An end answers of its state, and of little once it has failed
    /// Returns the send window in octets: the connection's where `id` is 0, else an active
    /// stream's, which may be negative after the peer's SETTINGS have lowered it. `None` for
    /// other streams, and once the connection has failed. It takes no memory.
    pub fn room(&self, id: u32) -> Option<i64>
        ensures { result ≡ room_of (end_of self.now) id }
    {
        if self.failed.is_some() {
            return None;
        }
        if id == 0 {
            return Some(i64::from(self.send_window));
        }
        let stream = self.streams.stream(id)?;
        Some(stream.send_window)
    }

    // contract: calls (own) An end answers of its state, and of little once it has failed
    // rule: calls (own) An end answers of its state, and of little once it has failed
    /// Returns the number of octets of an active stream that were reported and are not released
    /// yet. 0 for other streams, and once the connection has failed. It takes no memory.
    pub fn owed(&self, id: u32) -> u32
        ensures { result ≡ owed_of (end_of self.now) id }
    {
        if self.failed.is_some() {
            return 0;
        }
        match self.streams.stream(id) {
            Some(stream) => stream.owed,
            None => 0,
        }
    }

    // rule: calls (own) An end answers of its state, and of little once it has failed
    /// Returns the number of octets of the connection's window still to be returned; 0 once the
    /// connection has failed. It takes no memory.
    pub fn due(&self) -> u32
        ensures { result ≡ (if is_some self.now.failed then 0 else self.now.unreturned) }
    {
        if self.failed.is_some() {
            0
        } else {
            self.unreturned
        }
    }

    // rule: calls (own) An end answers of its state, and of little once it has failed
    /// The number of octets that the peer may send on the connection before any of them is
    /// returned: 65,535, and what the window was widened by. 0 once the connection has failed. It
    /// takes no memory.
    pub fn granted(&self) -> u32
        ensures { result ≡ (if is_some self.now.failed then 0 else self.now.granted) }
    {
        if self.failed.is_some() {
            0
        } else {
            self.granted
        }
    }

    /// Returns the least number above `above` of an active stream. `None` if there is none, and
    /// once the connection has failed. It takes no memory.
    pub fn next_live(&self, above: u32) -> Option<u32>
        ensures number { number_or_none result ≡ (if is_some self.now.failed then 0
            else first_active above (map.entries self.now.streams.entries)) }
        ensures above { IfSome result (λ number. above < number) }
    {
        if self.failed.is_some() {
            return None;
        }
        self.streams.next_active(above)
    }
}
