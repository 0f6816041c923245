//! The state of an end.

ghost use Rattle.std.specs.Prelude.{◌≡◌, None, false};

use h2_block::Gather;
use h2_flow::{Config, Settings};
use h2_frame::Code;
use h2_output::Output;
use h2_spec_log::Role;
use h2_streams::StreamTable;
use hpack::{Decoder, Encoder, FieldList};

/// One end of a connection.
#[derive(Drop)]
pub struct Endpoint {
    /// Whether it is the client or the server.
    pub(crate) role: Role,
    /// The code with which the connection has failed, if it has.
    pub(crate) failed: Option<Code>,
    /// Whether a first frame was taken without a fault.
    pub(crate) started: bool,
    /// The field block that has begun.
    pub(crate) gather: Gather,
    /// The decoder of field blocks, with the peer's header table.
    pub(crate) decoder: Decoder,
    /// The fields of the block that was reported last.
    pub(crate) list: FieldList,
    /// The streams.
    pub(crate) streams: StreamTable,
    /// The number of active streams.
    pub(crate) active_count: u32,
    /// The greatest stream number used.
    pub(crate) highest: u32,
    /// The last stream of the peer's that was processed.
    pub(crate) last_processed: u32,
    /// The number of streams that this end has reset.
    pub(crate) resets: u32,
    /// The connection's send window: the octets that this end may send (section 6.9).
    pub(crate) send_window: u32,
    /// The connection's receive window: the octets that the peer may send.
    pub(crate) recv_window: u32,
    /// The octets that the peer may send on the connection before any of them is returned.
    pub(crate) granted: u32,
    /// The octets of the connection's window still to be returned.
    pub(crate) unreturned: u32,
    /// The peer's settings.
    pub(crate) peer: Settings,
    /// The most streams of the peer's that may be active at once.
    pub(crate) max_streams: u32,
    /// The greatest payload, in octets, that this end reads by its settings in force.
    pub(crate) max_frame: u32,
    /// The settings of this end that are not acknowledged yet, if any.
    pub(crate) awaited: Option<Config>,
    /// The last stream of this end's GOAWAY, if it was sent.
    pub(crate) goaway_sent: Option<u32>,
    /// The least last stream of the peer's GOAWAY frames, if any was received.
    pub(crate) goaway_received: Option<u32>,
    /// The octets of this end's PING that is not answered yet, if any.
    pub(crate) ping: Option<[u8; 8]>,
    /// The encoder of field blocks, with this end's header table.
    pub(crate) encoder: Encoder,
    /// The field block that is being encoded.
    pub(crate) block: Vec<u8>,
    /// The frames of that block.
    pub(crate) block_frames: Vec<u8>,
    /// The queued output.
    pub(crate) output: Output,
    // While the connection has not failed, its parts have not.
    ghost gathers: { failed ≡ None → gather.fault ≡ None },
    ghost decodes: { failed ≡ None → decoder.failed ≡ false },
    ghost writes: { failed ≡ None → output.ended ≡ false },
    // The peer's initial window is that of the streams, and before its first SETTINGS the peer
    // has not limited the number of streams.
    ghost initial: { peer.initial_window_size ≡ streams.send_initial },
    ghost unsaid: { started ≡ false → peer.max_concurrent_streams ≡ None },
}
