//! Counts of the frames received.

ghost use Rattle.std.specs.Prelude.{◌≡◌, List, [], ◌∷◌, ◌++◌, None};
ghost use Rattle.h2_frame.specs.Frames.{Frame, frame_of};
ghost use Rattle.h2_frame.specs.Encoding.{refusal};
ghost use Rattle.h2_spec_log.specs.Counted.{is_reset_frame, is_empty_frame, is_asking_ping};
ghost use Rattle.h2_spec_log.specs.Counted.{is_asking_settings};
ghost use Rattle.h2_conn.specs.Counts.{CountsFrames, flow_after};

use h2_frame::FrameRef;

/// The numbers of frames received that cost the peer little (RFC 9113, section 10.5), each up
/// to 2<sup>32</sup> - 1, and the length of the last DATA frame's payload.
#[derive(Clone, Copy)]
pub(crate) struct Counts {
    /// RST_STREAM frames.
    pub(crate) resets: u32,
    /// Empty frames, by `says_nothing`.
    pub(crate) empty: u32,
    /// PING frames without ACK.
    pub(crate) pings: u32,
    /// SETTINGS frames without ACK.
    pub(crate) settings: u32,
    /// The octets of the last DATA frame's payload, 0 before any.
    pub(crate) flow: u32,
}

impl Counts {
    /// The counts before any frame.
    pub(crate) fn new() -> Counts
        ensures { CountsFrames result [] }
    {
        Counts {
            resets: 0,
            empty: 0,
            pings: 0,
            settings: 0,
            flow: 0,
        }
    }

    // rule: 10.5 (own) Frames that cost a peer little are counted
    /// The counts with this further frame.
    pub(crate) fn with(self, frame: FrameRef) -> Counts
        requires good { refusal (frame_of frame) ≡ None }
        ensures { (frames : List Frame) → CountsFrames self frames
            → CountsFrames result (frames ++ frame_of frame.entry ∷ []) }
    {
        Counts {
            resets: self.resets.saturating_add(u32::from(is_reset(frame))),
            empty: self.empty.saturating_add(u32::from(says_nothing(frame))),
            pings: self.pings.saturating_add(u32::from(is_asking_ping(frame))),
            settings: self
                .settings
                .saturating_add(u32::from(is_asking_settings(frame))),
            flow: flow_after(self.flow, frame),
        }
    }
}

// rule: 6.1 The complete payload of DATA, padding included, counts for windows
/// The octets of the last DATA frame's payload, after this frame.
fn flow_after(before: u32, frame: FrameRef) -> u32
    requires good { refusal (frame_of frame) ≡ None }
    ensures { result ≡ flow_after before (frame_of frame.entry) }
{
    match frame {
        FrameRef::Data { octets, pad, .. } => {
            // The pad length and the padding count too (RFC 9113, section 6.1).
            let padding = match pad {
                Some(count) => 1 + u32::from(count),
                None => 0,
            };
            octets.len() as u32 + padding
        }
        _ => before,
    }
}

/// Whether a frame is RST_STREAM.
fn is_reset(frame: FrameRef) -> bool
    ensures { result ≡ is_reset_frame (frame_of frame.entry) }
{
    matches!(frame, FrameRef::Reset { .. })
}

/// Whether a frame is PING without ACK.
fn is_asking_ping(frame: FrameRef) -> bool
    ensures { result ≡ is_asking_ping (frame_of frame.entry) }
{
    matches!(frame, FrameRef::Ping { ack: false, .. })
}

/// Whether a frame is SETTINGS without ACK.
fn is_asking_settings(frame: FrameRef) -> bool
    ensures { result ≡ is_asking_settings (frame_of frame.entry) }
{
    matches!(frame, FrameRef::Settings { ack: false, .. })
}

/// Whether a frame is empty: DATA without data and without END_STREAM, or HEADERS or
/// CONTINUATION with an empty fragment and without END_HEADERS.
fn says_nothing(frame: FrameRef) -> bool
    ensures { result ≡ is_empty_frame (frame_of frame.entry) }
{
    match frame {
        FrameRef::Data { octets, end, .. } => octets.is_empty() && !end,
        FrameRef::Headers {
            fragment,
            whole,
            ..
        } => fragment.is_empty() && !whole,
        FrameRef::Continuation {
            fragment,
            whole,
            ..
        } => fragment.is_empty() && !whole,
        _ => false,
    }
}
