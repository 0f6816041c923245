//! Received frames: the first must be SETTINGS, then field blocks are gathered (RFC 9113,
//! sections 3.4 and 6.10).

ghost use Rattle.std.specs.Prelude.{◌≡◌, None, true, false, not, ◌&&◌};
ghost use Rattle.h2_frame.specs.Frames.{frame_of};
ghost use Rattle.h2_frame.specs.Encoding.{refusal};
ghost use Rattle.h2_block.specs.Grouping.{alone, is_standalone};
ghost use Rattle.h2_core.specs.Endpoint.{end_of, IsSoundEnd};
ghost use Rattle.h2_core.specs.Frames.{EndTakesFrame, IsStarted};
ghost use Rattle.h2_core.specs.Items.{TakesItem};

use crate::endpoint::Endpoint;
use crate::event::Event;
use crate::receive::DataFrame;
use crate::step_error::StepError;
use h2_block::Gathered;
use h2_frame::limits::MAX_BLOCK;
use h2_frame::{Code, FrameRef};

impl Endpoint {
    // contract: 5.5 A frame of an unknown type passes as it is, and an end ignores it
    // rule: 3.4 A first frame other than SETTINGS without ACK is PROTOCOL_ERROR
    // contract: 6.10 Inside a block any frame but its CONTINUATION is PROTOCOL_ERROR
    // contract: 4.3 A block that does not decode is COMPRESSION_ERROR, of the connection
    // contract: 5.1.1 A stream that is opened closes all lower idle ones
    // contract: 5.4.1 A connection error is answered by GOAWAY, and nothing is sent after
    // contract: 5.4 (own) Being out of memory hides no other fault of the connection
    // contract: 5.4 (own) Only blocks, replies, resets and returned credit take memory
    // contract: 6.1 The complete payload of DATA, padding included, counts for windows
    // contract: 6.5.3 Own SETTINGS hold once they are acknowledged, and not before
    // contract: 4.3 No other frame is sent between the frames of a field block
    // contract: 6.8 The last stream of GOAWAY never grows: the least so far is reported
    // contract: 6.9.2 INITIAL_WINDOW_SIZE shifts the window of each stream
    // contract: 6.9.2 A shift of a window above 2^31-1 is FLOW_CONTROL_ERROR
    // contract: 7 A received code is any number of 32 bits, and an unknown one does nothing
    // contract: 6.9.3 Until a lower own window is acknowledged the one before it holds
    /// Takes the next frame, which the cutter found without fault: its stream, a last stream
    /// and an increment have 31 bits, and its payload's length 24. If fields are reported,
    /// [`Endpoint::fields`] lends them until the next frame.
    ///
    /// # Errors
    ///
    /// The code with which the connection has failed; GOAWAY with it is the last frame of the
    /// output. INTERNAL_ERROR says that an allocation was refused, for a part of a field block
    /// or for another frame that takes memory. It never replaces a connection error, except one
    /// that shows only when a field block is decoded.
    pub fn take_frame<'a>(
        &mut self,
        frame: FrameRef<'a>,
    ) -> Result<Option<Event<(), &'a [u8]>>, Code>
        requires sound { IsSoundEnd (end_of self.old) }
        requires up { self.old.failed ≡ None }
        requires good { refusal (frame_of frame) ≡ None }
        ensures { EndTakesFrame (end_of self.old) (frame_of frame.entry) self.new.list result
            (end_of self.new) }
    {
        // The first frame must be SETTINGS, without ACK (section 3.4).
        let may_be_first = match frame {
            FrameRef::Settings { ack, .. } => !ack,
            _ => false,
        };
        if !self.started && !may_be_first {
            return Err(self.fail_by(StepError::fault(Code::ProtocolError)));
        }
        if self.gather.is_inside() {
            return self.gather_frame(frame);
        }
        match frame {
            FrameRef::Headers {
                stream,
                end,
                whole,
                fragment,
                ..
            } => {
                if whole && fragment.len() <= MAX_BLOCK {
                    self.take_block(stream, fragment, end)
                } else {
                    self.gather_frame(frame)
                }
            }
            FrameRef::Continuation { .. } => self.gather_frame(frame),
            _ => match self.take_alone(frame) {
                Ok(event) => Ok(event),
                Err(stop) => Err(self.fail_by(stop)),
            },
        }
    }

    // rule: 6.10 Inside a block any frame but its CONTINUATION is PROTOCOL_ERROR
    /// Gathers a frame that begins or continues a field block, or comes inside one.
    fn gather_frame<'a>(&mut self, frame: FrameRef<'a>) -> Result<Option<Event<(), &'a [u8]>>, Code>
        requires sound { IsSoundEnd (end_of self.old) }
        requires up { self.old.failed ≡ None }
        requires good { refusal (frame_of frame) ≡ None }
        requires started { IsStarted self.old (frame_of frame) }
        requires part { self.old.gather.begun ≡ None → is_standalone (frame_of frame) ≡ false }
        ensures { EndTakesFrame (end_of self.old) (frame_of frame.entry) self.new.list result
            (end_of self.new) }
    {
        let gathered = match self.gather.take(frame) {
            Ok(gathered) => gathered,
            Err(fault) => {
                // `fail` may not be called here: the gatherer has failed, and until the end has
                // failed too its ghost field `gathers` does not hold, which a call would need.
                let code = fault.code();
                self.failed = Some(code);
                self.output
                    .end_with_goaway(self.last_processed, code.number());
                return Err(code);
            }
        };
        match gathered {
            Gathered::More => Ok(None),
            Gathered::Pass(_) => unreachable!(),
            Gathered::Block {
                stream,
                end,
                octets,
            } => self.take_block(stream, &octets, end),
        }
    }

    // rule: 5.1 PRIORITY is ignored in every state
    // rule: 5.5 A frame of an unknown type passes as it is, and an end ignores it
    // contract: 5.4 (own) Being out of memory hides no other fault of the connection
    // contract: 5.4 (own) Only blocks, replies, resets and returned credit take memory
    // rule: 5.4 (own) Only blocks, replies, resets and returned credit take memory
    // rule: 6.1 The complete payload of DATA, padding included, counts for windows
    /// Takes a frame that is no part of a field block, outside blocks.
    fn take_alone<'a>(
        &mut self,
        frame: FrameRef<'a>,
    ) -> Result<Option<Event<(), &'a [u8]>>, StepError>
        requires sound { IsSoundEnd (end_of self.old) }
        requires up { self.old.failed ≡ None }
        requires good { refusal (frame_of frame) ≡ None }
        requires alone { is_standalone (frame_of frame) ≡ true }
        ensures { TakesItem (end_of self.old) None (alone (frame_of frame.entry)) self.new.list
            result (end_of self.new) }
    {
        match frame {
            FrameRef::Data {
                stream,
                end,
                octets,
                pad,
            } => {
                // The pad length and the padding count for the windows too (section 6.1).
                let padding = match pad {
                    Some(count) => 1 + u32::from(count),
                    None => 0,
                };
                self.take_data(DataFrame {
                    stream,
                    end,
                    octets,
                    flow: octets.len() as u32 + padding,
                })
            }
            FrameRef::Reset { stream, code } => self.take_reset(stream, code),
            FrameRef::Settings { ack: false, pairs } => self.take_settings(pairs),
            FrameRef::Settings { ack: true, .. } => self.take_acknowledgment(),
            FrameRef::Ping { ack: false, octets } => self.take_ping(octets),
            FrameRef::Ping { ack: true, octets } => self.take_pong(octets),
            FrameRef::GoAway { last, code, .. } => self.take_goaway(last, code),
            FrameRef::WindowUpdate { stream, increment } => {
                self.take_window_update(stream, increment)
            }
            FrameRef::Headers { .. }
            | FrameRef::Continuation { .. }
            | FrameRef::Priority { .. }
            | FrameRef::Unknown { .. } => Ok(None),
        }
    }
}
