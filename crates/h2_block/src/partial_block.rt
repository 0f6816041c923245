//! What a gatherer keeps between calls.

ghost use Rattle.std.specs.Prelude.{◌≡◌, ℕ, ◌+◌, ◌<◌, ◌++◌, List, [], length, vec_len, Option};
ghost use Rattle.std.specs.Prelude.{IfSome, IfOk, IfErr, OnOk, None, Some, Ok, Err, true, IsOk};
ghost use Rattle.h2_frame.specs.Frames.{frame_of, Headers, Continuation};
ghost use Rattle.h2_block.specs.Grouping.{is_standalone};
ghost use Rattle.h2_block.specs.Gather.{GatherRepresents, GatherTakes, LeavesNone};
ghost use Rattle.h2_block.specs.Gather.{ReportsFault, PassesItself, PassesNothing};
ghost use Rattle.h2_block.specs.PartialBlock.{gather_state_of, PartialBlockInvariant};

use crate::fault::BlockFault;
use crate::gathered::Gathered;
use h2_frame::FrameRef;
use h2_frame::limits::MAX_BLOCK;
use std::alloc::Global;
use std::mem;

/// The HEADERS with which a block began.
#[derive(Clone, Copy, Debug)]
pub(crate) struct Opening {
    /// The block's stream.
    pub(crate) stream: u32,
    /// Whether END_STREAM is set: after the block the sender sends no more fields or DATA on the
    /// stream.
    pub(crate) end: bool,
}

/// What a gatherer keeps between calls.
#[derive(Debug, Drop)]
pub(crate) struct PartialBlock {
    alloc: Global,
    /// The HEADERS of the block that has begun, if one has.
    pub(crate) opening: Option<Opening>,
    /// The octets of the block that has begun.
    pub(crate) octets: Vec<u8>,
    /// The fault of the frames, if they have one.
    pub(crate) fault: Option<BlockFault>,
}

impl PartialBlock {
    /// The state before any frame.
    pub(crate) fn new(alloc: Global) -> PartialBlock
        ensures represents { GatherRepresents (gather_state_of result) [] [] }
        ensures invariant { PartialBlockInvariant result }
    {
        PartialBlock {
            alloc,
            opening: None,
            octets: Vec::new(alloc),
            fault: None,
        }
    }

    /// Takes the next frame.
    pub(crate) fn take<'a>(&mut self, frame: FrameRef<'a>) -> Result<Gathered<'a>, BlockFault>
        requires { PartialBlockInvariant self.old }
        ensures failed { IfSome self.old.fault (λ fault. result ≡ Err fault) }
        ensures reported { self.old.fault ≡ None
            → ReportsFault (gather_state_of self.old).begun (frame_of frame.entry) result }
        ensures alone { self.old.fault ≡ None → (gather_state_of self.old).begun ≡ None
            → is_standalone (frame_of frame.entry) ≡ true → IsOk result }
        ensures passed { PassesItself frame.entry result }
        ensures takes { GatherTakes (gather_state_of self.old) (frame_of frame.entry) result
            (gather_state_of self.new) }
        ensures ended { LeavesNone result (gather_state_of self.new) }
        ensures invariant { PartialBlockInvariant self.new }
    {
        if let Some(fault) = self.fault {
            return Err(fault);
        }
        match self.opening {
            None => self.take_outside(frame),
            Some(opening) => self.take_inside(opening, frame),
        }
    }

    // rule: 4.3 Frames that are no part of a block pass and need no memory
    // rule: 6.10 A CONTINUATION outside a block is PROTOCOL_ERROR
    // Takes a frame outside blocks.
    fn take_outside<'a>(&mut self, frame: FrameRef<'a>) -> Result<Gathered<'a>, BlockFault>
        requires sound { self.old.fault ≡ None }
        requires outside { self.old.opening ≡ None }
        requires invariant { PartialBlockInvariant self.old }
        ensures reported { ReportsFault None (frame_of frame.entry) result }
        ensures alone { is_standalone (frame_of frame.entry) ≡ true → IsOk result }
        ensures passed { PassesItself frame.entry result }
        ensures takes { GatherTakes (gather_state_of self.old) (frame_of frame.entry) result
            (gather_state_of self.new) }
        ensures ended { LeavesNone result (gather_state_of self.new) }
        ensures invariant { PartialBlockInvariant self.new }
    {
        match frame {
            FrameRef::Headers {
                stream,
                end,
                whole,
                fragment,
                ..
            } => self.begin(Opening { stream, end }, whole, fragment),
            FrameRef::Continuation { .. } => Err(self.fail(BlockFault::Stray)),
            other => Ok(Gathered::Pass(other)),
        }
    }

    // rule: 5.5 A frame of an unknown type inside a block is PROTOCOL_ERROR
    // rule: 6.10 Inside a block any frame but its CONTINUATION is PROTOCOL_ERROR
    // rule: 6.10 A CONTINUATION of another stream inside a block is PROTOCOL_ERROR
    // Takes a frame inside the block with this opening.
    fn take_inside<'a>(
        &mut self,
        opening: Opening,
        frame: FrameRef<'a>,
    ) -> Result<Gathered<'a>, BlockFault>
        requires sound { self.old.fault ≡ None }
        requires inside { self.old.opening ≡ Some opening }
        requires invariant { PartialBlockInvariant self.old }
        ensures reported { ReportsFault (gather_state_of self.old).begun
            (frame_of frame.entry) result }
        ensures passed { PassesNothing result }
        ensures takes { GatherTakes (gather_state_of self.old) (frame_of frame.entry) result
            (gather_state_of self.new) }
        ensures ended { LeavesNone result (gather_state_of self.new) }
        ensures invariant { PartialBlockInvariant self.new }
    {
        match frame {
            FrameRef::Continuation {
                stream,
                whole,
                fragment,
            } if stream == opening.stream => self.extend(opening, whole, fragment),
            _ => Err(self.fail(BlockFault::Interrupted)),
        }
    }

    // rule: 4.3 A field block is its HEADERS' fragment and those of CONTINUATION
    // rule: 4.3 END_STREAM of a block is that of its HEADERS
    // rule: 10.5 (own) A block of more than 65,552 octets is ENHANCE_YOUR_CALM
    // Takes HEADERS, which begins a block or is a complete one.
    fn begin<'a>(
        &mut self,
        opening: Opening,
        whole: bool,
        fragment: &[u8],
    ) -> Result<Gathered<'a>, BlockFault>
        requires sound { self.old.fault ≡ None }
        requires outside { self.old.opening ≡ None }
        requires invariant { PartialBlockInvariant self.old }
        ensures reported { 65552 < length fragment.now → result ≡ Err BlockFault.TooLong }
        ensures passed { PassesNothing result }
        ensures takes { (pad : Option ℕ) (priority : Option (List ℕ))
            → GatherTakes (gather_state_of self.old)
            (Headers opening.stream opening.end whole fragment.now pad priority) result
            (gather_state_of self.new) }
        ensures ended { LeavesNone result (gather_state_of self.new) }
        ensures invariant { PartialBlockInvariant self.new }
    {
        if fragment.len() > MAX_BLOCK {
            return Err(self.fail(BlockFault::TooLong));
        }
        if whole {
            return Ok(Gathered::Block {
                stream: opening.stream,
                end: opening.end,
                octets: self.copy(fragment)?,
            });
        }
        self.append(fragment)?;
        self.opening = Some(opening);
        Ok(Gathered::More)
    }

    // rule: 4.3 A field block is its HEADERS' fragment and those of CONTINUATION
    // rule: 4.3 END_STREAM of a block is that of its HEADERS
    // rule: 10.5 (own) A block of more than 65,552 octets is ENHANCE_YOUR_CALM
    // Takes a CONTINUATION of the block with this opening, which continues or ends it.
    fn extend<'a>(
        &mut self,
        opening: Opening,
        whole: bool,
        fragment: &[u8],
    ) -> Result<Gathered<'a>, BlockFault>
        requires sound { self.old.fault ≡ None }
        requires inside { self.old.opening ≡ Some opening }
        requires invariant { PartialBlockInvariant self.old }
        ensures reported { 65552 < vec_len self.old.octets + length fragment.now
            → result ≡ Err BlockFault.TooLong }
        ensures passed { PassesNothing result }
        ensures takes { GatherTakes (gather_state_of self.old)
            (Continuation opening.stream whole fragment.now) result (gather_state_of self.new) }
        ensures ended { LeavesNone result (gather_state_of self.new) }
        ensures invariant { PartialBlockInvariant self.new }
    {
        if fragment.len() > MAX_BLOCK - self.octets.len() {
            return Err(self.fail(BlockFault::TooLong));
        }
        self.append(fragment)?;
        if !whole {
            return Ok(Gathered::More);
        }
        Ok(Gathered::Block {
            stream: opening.stream,
            end: opening.end,
            octets: self.end(),
        })
    }

    // Copies the octets into a vector.
    fn copy(&self, octets: &[u8]) -> Result<Vec<u8>, BlockFault>
        ensures ok { IfOk result (λ copied. copied.items ≡ octets.now) }
        ensures err { IfErr result (λ fault. fault ≡ BlockFault.Memory) }
    {
        Ok(Vec::from_slice(self.alloc, octets)?)
    }

    // Appends these octets, or changes nothing.
    fn append(&mut self, octets: &[u8]) -> Result<(), BlockFault>
        ensures ok { OnOk result (self.new.octets.items ≡ self.old.octets.items ++ octets.now) }
        ensures err { IfErr result (λ fault. (fault ≡ BlockFault.Memory)
            × (self.new.octets.items ≡ self.old.octets.items)) }
        ensures same { self.new ≡ record self.old { octets = self.new.octets } }
    {
        self.octets.extend_from_slice(octets)?;
        Ok(())
    }

    // Ends the block, and returns its octets.
    fn end(&mut self) -> Vec<u8>
        ensures octets { result.items ≡ self.old.octets.items }
        ensures none { self.new.octets.items ≡ [] }
        ensures after { self.new ≡ record self.old { opening = None; octets = self.new.octets } }
    {
        self.opening = None;
        mem::replace(&mut self.octets, Vec::new(self.alloc))
    }

    // rule: 5.4.1 After a fault each layer answers that fault and changes nothing
    // Fails the frames with this fault, and drops the octets kept.
    fn fail(&mut self, fault: BlockFault) -> BlockFault
        ensures fault { result ≡ fault }
        ensures none { self.new.octets.items ≡ [] }
        ensures after { self.new ≡ record self.old {
          opening = None;
          octets = self.new.octets;
          fault = Some fault;
        } }
    {
        self.opening = None;
        self.octets.clear();
        self.fault = Some(fault);
        fault
    }
}
