//! Why a frame fails a connection: the rule that it breaks, by the state of the end before the
//! frame and the code with which the end failed.

ghost use Rattle.std.specs.Prelude.{◌≡◌, ℕ, Bool, pos, length};
ghost use Rattle.h2_frame.specs.Frames.{Data as DataFrame, frame_of};
ghost use Rattle.h2_frame.specs.Pairs.{lent_pairs};
ghost use Rattle.h2_frame.specs.Encoding.{payload_of};
ghost use Rattle.h2_block.specs.Grouping.{next_fault};
ghost use Rattle.h2_spec_log.specs.ItemRules.{exceeds};
ghost use Rattle.h2_spec_log.specs.View.{View};
ghost use Rattle.h2_spec_machine.specs.End.{end_view};
ghost use Rattle.h2_core.specs.Endpoint.{end_of};
ghost use Rattle.h2_conn.specs.Seen.{SeesBefore, SeesAfter};
ghost use Rattle.h2_conn.specs.Why.{first_at_fault, rule_of_frame, rule_by_code, rule_of_setting};
ghost use Rattle.h2_conn.specs.Why.{rule_of_streams, rule_of_windows};

use crate::why::Why;
use h2_block::BlockFault;
use h2_core::Endpoint;
use h2_flow::Settings;
use h2_frame::limits::MAX_BLOCK;
use h2_frame::{Code, FrameRef, Pairs};

/// The state of an end before a frame, as far as it decides which rule the frame breaks.
#[derive(Clone, Copy)]
pub(crate) struct Before {
    /// Whether the first frame was received.
    started: bool,
    /// The stream of the field block that has begun.
    stream: Option<u32>,
    /// The number of octets of that block received so far.
    octets: usize,
}

impl Before {
    /// The state of the end now.
    pub(crate) fn of(end: &Endpoint) -> Before
        ensures { SeesBefore (end_view (end_of end.now)) result }
    {
        Before {
            started: end.has_started(),
            stream: end.block_stream(),
            octets: end.block_len(),
        }
    }

    // rule: 5.4.1 (own) A connection that has failed says why
    /// The rule broken by a frame that has failed the end with this code.
    #[inline(never)]
    #[tactic(auto, unfolding(crate::proofs::Rules::frame_rules))]
    pub(crate) fn rule_of_frame(self, frame: FrameRef, code: Code, end: &Endpoint) -> Why
        ensures { (view : View) → SeesBefore view self → SeesAfter view (end_of end.now)
            → result ≡ rule_of_frame view (frame_of frame.entry) code }
    {
        let may_be_first = match frame {
            FrameRef::Settings { ack, .. } => !ack,
            _ => false,
        };
        if !self.started && !may_be_first {
            return Why::FirstFrameNotSettings;
        }
        match self.fault_of(frame) {
            Some(BlockFault::Interrupted) => Why::BlockInterrupted,
            Some(BlockFault::Stray) => Why::StrayContinuation,
            Some(BlockFault::TooLong) => Why::BlockTooLong,
            Some(BlockFault::Memory) => Why::OutOfMemory,
            None => rule_by_code(frame, code, end),
        }
    }

    /// The rule of field blocks (RFC 9113, section 6.10) that a frame breaks, if any.
    #[tactic(auto, unfolding(crate::proofs::Rules::place_rules))]
    fn fault_of(self, frame: FrameRef) -> Option<BlockFault>
        ensures { (view : View) → SeesBefore view self
            → result ≡ next_fault view.begun (frame_of frame.entry) }
    {
        let Some(begun) = self.stream else {
            return match frame {
                FrameRef::Headers { fragment, .. } if fragment.len() > MAX_BLOCK => {
                    Some(BlockFault::TooLong)
                }
                FrameRef::Continuation { .. } => Some(BlockFault::Stray),
                _ => None,
            };
        };
        match frame {
            FrameRef::Continuation {
                stream,
                fragment,
                ..
            } if stream == begun => {
                if self.octets.saturating_add(fragment.len()) > MAX_BLOCK {
                    Some(BlockFault::TooLong)
                } else {
                    None
                }
            }
            _ => Some(BlockFault::Interrupted),
        }
    }
}

/// The rule broken by a frame that breaks no rule of field blocks, by the code.
fn rule_by_code(frame: FrameRef, code: Code, end: &Endpoint) -> Why
    ensures { (view : View) → SeesAfter view (end_of end.now)
        → result ≡ rule_by_code view (frame_of frame.entry) code }
{
    match code {
        Code::CompressionError => Why::BlockNotDecoded,
        Code::StreamClosed => Why::DataOnClosedStream,
        Code::EnhanceYourCalm => match frame {
            FrameRef::Settings { .. } | FrameRef::Ping { .. } => Why::TooMuchOutput,
            _ => Why::of_limits(end),
        },
        Code::FlowControlError => rule_of_windows(frame, end),
        _ => rule_of_streams(frame, end),
    }
}

/// The window that a frame exceeds.
fn rule_of_windows(frame: FrameRef, end: &Endpoint) -> Why
    ensures { (view : View) → SeesAfter view (end_of end.now)
        → result ≡ rule_of_windows view (frame_of frame.entry) }
{
    match frame {
        FrameRef::Data { octets, pad, .. } => {
            if flow_of(octets, pad) > end.recv_window() as usize {
                Why::DataAboveConnectionWindow
            } else {
                Why::DataAboveStreamWindow
            }
        }
        FrameRef::Settings { pairs, .. } => first_at_fault(pairs, end),
        _ => Why::ConnectionWindowTooLarge,
    }
}

/// The octets of DATA that count for the windows, pad length and padding included (section
/// 6.1).
fn flow_of(octets: &[u8], pad: Option<u8>) -> usize
    ensures { (stream : ℕ) (end : Bool)
        → result ≡ length (payload_of (DataFrame stream end octets.now pad)) }
{
    match pad {
        Some(count) => octets.len() + (1 + usize::from(count)),
        None => octets.len(),
    }
}

/// The rule broken by a frame that failed the connection with PROTOCOL_ERROR.
fn rule_of_streams(frame: FrameRef, end: &Endpoint) -> Why
    ensures { (view : View) → SeesAfter view (end_of end.now)
        → result ≡ rule_of_streams view (frame_of frame.entry) }
{
    match frame {
        FrameRef::Headers { stream, .. } | FrameRef::Continuation { stream, .. } => {
            if end.is_idle(stream) {
                Why::BlockOnIdleNumber
            } else {
                Why::BlockOnClosedStream
            }
        }
        FrameRef::Settings { pairs, .. } => first_at_fault(pairs, end),
        FrameRef::WindowUpdate { stream: 0, .. } => Why::ZeroConnectionIncrement,
        _ => Why::FrameOnIdleStream,
    }
}

/// The rule broken by the first pair of the peer's SETTINGS that breaks one. It goes over the
/// active streams once.
fn first_at_fault(pairs: Pairs<'_>, end: &Endpoint) -> Why
    ensures { (view : View) → SeesAfter view (end_of end.now)
        → result ≡ first_at_fault view (lent_pairs pairs.entry) }
{
    let from = end.peer_role();
    let greatest = end.greatest_send_window();
    let mut settings = Settings::first();
    for (id, value) in pairs.iter() {
        if settings.apply(from, id, value).is_err() {
            return rule_of_setting(id);
        }
        if id == 4 && greatest.shifts_too_far(value) {
            return Why::ShiftTooLarge;
        }
    }
    Why::ShiftTooLarge
}

/// The rule that a setting's value breaks, by the setting's identifier.
fn rule_of_setting(id: u16) -> Why
    ensures { result ≡ rule_of_setting id }
{
    match id {
        2 => Why::BadEnablePush,
        4 => Why::BadInitialWindow,
        _ => Why::BadMaxFrameSize,
    }
}
