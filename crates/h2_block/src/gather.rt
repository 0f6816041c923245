//! The gatherer of field blocks.

ghost use Rattle.std.specs.Prelude.{◌≡◌, ◌≤◌, [], length, IfSome, None, Some, Ok, Err, true, IsOk};
ghost use Rattle.std.specs.Option.{is_some, option_map, option_map_or};
ghost use Rattle.h2_frame.specs.Frames.{frame_of};
ghost use Rattle.h2_block.specs.Grouping.{is_standalone};
ghost use Rattle.h2_block.specs.Gather.{GatherRepresents, GatherTakes, LeavesNone};
ghost use Rattle.h2_block.specs.Gather.{ReportsFault, PassesItself};

use crate::fault::BlockFault;
use crate::gathered::Gathered;
use crate::partial_block::PartialBlock;
use h2_frame::FrameRef;
use std::alloc::Global;
use std::marker::Model;

/// Joins the fragments of field blocks, and passes on the frames outside blocks. It keeps at most
/// 65,552 octets, whatever comes.
#[derive(Debug, Drop)]
pub struct Gather {
    partial: PartialBlock,
}

impl Model for Gather {
    ghost use Rattle.h2_block.specs.Gather.{GatherState};
    ghost use Rattle.h2_block.specs.PartialBlock.{gather_state_of, PartialBlockInvariant};

    ghost Value = { GatherState };

    ghost view = { λ gather. gather_state_of gather.partial };

    ghost invariant = { λ gather. PartialBlockInvariant gather.partial };
}

impl Gather {
    /// Makes a gatherer that has taken no frame.
    pub fn new(alloc: Global) -> Gather
        ensures { GatherRepresents result [] [] }
    {
        Gather {
            partial: PartialBlock::new(alloc),
        }
    }

    // rule: 4.3 A field block ends with the frame that has END_HEADERS
    // contract: 4.3 END_STREAM of a block is that of its HEADERS
    // contract: 6.10 Inside a block any frame but its CONTINUATION is PROTOCOL_ERROR
    // contract: 10.5 (own) A block of more than 65,552 octets is ENHANCE_YOUR_CALM
    // contract: 5.4.1 After a fault each layer answers that fault and changes nothing
    /// Takes the next frame (RFC 9113, sections 4.3 and 6.10). A frame outside blocks is passed
    /// on; a block is returned when its last frame is taken.
    ///
    /// # Errors
    ///
    /// - [`BlockFault::Interrupted`] where, inside a block, any frame comes that is not a
    ///   CONTINUATION of the same stream, even one of an unknown type;
    /// - [`BlockFault::Stray`] where a CONTINUATION comes outside a block;
    /// - [`BlockFault::TooLong`] where the block, with this frame, has more than 65,552 octets;
    /// - [`BlockFault::Memory`] where an allocation was refused: nothing has changed, and the
    ///   call may be repeated.
    ///
    /// After one of the first three, every later call returns the same fault.
    pub fn take<'a>(&mut self, frame: FrameRef<'a>) -> Result<Gathered<'a>, BlockFault>
        // A fault is returned again.
        ensures failed { IfSome self.old.fault (λ fault. result ≡ Err fault) }

        // A frame at fault is reported, even without memory.
        ensures reported { self.old.fault ≡ None
            → ReportsFault self.old.begun (frame_of frame.entry) result }

        // A frame that is no part of a block is passed on outside blocks, even without memory.
        ensures alone { self.old.fault ≡ None → self.old.begun ≡ None
            → is_standalone (frame_of frame.entry) ≡ true → IsOk result }

        // What is passed on is the frame itself.
        ensures passed { PassesItself frame.entry result }

        // If it represented `frames` and `items`, it now represents `frames` with this one
        // appended, and `items` with the one returned; or `frames` with this one are at fault.
        ensures takes { GatherTakes self.old (frame_of frame.entry) result self.new }

        // After a block is returned, none has begun.
        ensures ended { LeavesNone result self.new }
    {
        self.partial.take(frame)
    }

    // contract: 4.3 (own) A gatherer says what it holds of a block, and if it is inside one
    // rule: 4.3 (own) A gatherer says what it holds of a block, and if it is inside one
    // contract: 10.5 (own) A block of more than 65,552 octets is ENHANCE_YOUR_CALM
    // contract: 10.5 (own) What an end holds of a stream is bounded
    // rule: 10.5 (own) What an end holds of a stream is bounded
    /// Returns the number of octets kept of a block that is not complete. It allocates nothing.
    pub fn held(&self) -> usize
        ensures value { result ≡ option_map_or (λ begun. length begun.octets) self.now.begun 0 }
        ensures bound { result ≤ 65552 }
    {
        self.partial.octets.len()
    }

    // contract: 4.3 (own) A gatherer says what it holds of a block, and if it is inside one
    // rule: 4.3 (own) A gatherer says what it holds of a block, and if it is inside one
    /// Returns whether a block has begun and is not complete. It allocates nothing.
    pub fn is_inside(&self) -> bool
        ensures { result ≡ is_some self.now.begun }
    {
        self.partial.opening.is_some()
    }

    // contract: 4.3 (own) A gatherer says what it holds of a block, and if it is inside one
    // rule: 4.3 (own) A gatherer says what it holds of a block, and if it is inside one
    /// Returns the stream of the block that has begun and is not complete, if there is one. It
    /// allocates nothing.
    pub fn stream(&self) -> Option<u32>
        ensures { result ≡ option_map (λ begun. begun.stream) self.now.begun }
    {
        match self.partial.opening {
            Some(opening) => Some(opening.stream),
            None => None,
        }
    }
}
