//! The field blocks among frames, decoded.

ghost use Rattle.std.specs.Prelude.{◌≡◌, false, [], ◌∷◌, ◌++◌, List as Items, IfOk, IfErr, OnOk};
ghost use Rattle.std.specs.Option.{is_some};
ghost use Rattle.h2_frame.specs.Frames.{Frame, frame_of};
ghost use Rattle.hpack.specs.Lists.{DecodesInto};
ghost use Rattle.h2_show.specs.Blocks.{BlocksRepresent, BlockErrorReports, DecodingErrorReports};
ghost use Rattle.h2_show.specs.Blocks.{error_of_grouping, error_of_decoding};
ghost use Rattle.h2_show.specs.ShownLines.{ShowLine, decoded_listing, frame_shown};
ghost use Rattle.h2_show.specs.Printed.{BlocksShow};

use h2_block::{BlockFault, Gather, Gathered};
use h2_frame::limits::{FIRST_TABLE, MAX_LIST, MAX_TABLE_LIMIT};
use h2_frame::{Code, FrameRef};
use hpack::{Decoded, Decoder, Fault, FieldList};
use std::alloc::{AllocError, Global};

/// Groups the frames of one end, and decodes their field blocks.
#[derive(Debug, Drop)]
pub(crate) struct Blocks {
    gather: Gather,
    decoder: Decoder,
    /// The fields of the last block; its memory is reused.
    list: FieldList,
}

/// Why a frame is not accepted.
#[derive(Clone, Copy, Debug, PartialEq, Eq)]
pub enum BlockError {
    /// The frame is not allowed here, or ends a block that does not decode: a connection error
    /// with this code.
    Fault(Code),
    /// Out of memory.
    Memory,
}

impl From<BlockFault> for BlockError {
    ghost from_gives = { λ fault error. error ≡ error_of_grouping fault };

    fn from(fault: BlockFault) -> BlockError {
        match fault {
            BlockFault::Memory => BlockError::Memory,
            other => BlockError::Fault(other.code()),
        }
    }
}

impl From<Fault> for BlockError {
    ghost from_gives = { λ fault error. error ≡ error_of_decoding fault };

    fn from(fault: Fault) -> BlockError {
        match fault {
            Fault::Memory => BlockError::Memory,
            // A decoder that has failed is not called again.
            Fault::Compression | Fault::Failed => BlockError::Fault(Code::CompressionError),
        }
    }
}

impl Blocks {
    /// Creates a decoder for a new stream of frames.
    ///
    /// # Errors
    ///
    /// [`AllocError`] if out of memory.
    pub(crate) fn new(alloc: Global) -> Result<Blocks, AllocError>
        ensures represents { IfOk result (λ blocks. BlocksRepresent blocks []) }
        ensures shows { IfOk result (λ blocks. BlocksShow blocks [] []) }
    {
        let mut decoder = Decoder::new(alloc, FIRST_TABLE).map_err(|_| AllocError)?;
        decoder.set_limit(MAX_TABLE_LIMIT);
        Ok(Blocks {
            gather: Gather::new(alloc),
            decoder,
            list: FieldList::new(alloc),
        })
    }

    /// The maximum size of the decoder's table.
    pub(crate) fn table_maximum(&self) -> u32
        ensures { result ≡ self.now.decoder.table.maximum }
    {
        self.decoder.table().maximum()
    }

    // contract: 4.3 A block that does not decode is COMPRESSION_ERROR, of the connection
    // contract: show (own) A list above 65,536 octets has one line, without fields
    /// Takes the next frame. If it ends a block, returns whether [`Blocks::list`] has its fields.
    ///
    /// # Errors
    ///
    /// [`BlockError::Fault`] if the frame is not allowed here (RFC 9113, section 6.10), or ends
    /// a block that does not decode (section 4.3); [`BlockError::Memory`] if out of memory.
    pub(crate) fn take(&mut self, frame: FrameRef<'_>) -> Result<Option<Decoded>, BlockError>
        ensures ok { OnOk result ((frames : Items Frame) → BlocksRepresent self.old frames
            → BlocksRepresent self.new (frames ++ frame_of frame.entry ∷ [])) }
        ensures err { IfErr result (λ error. (frames : Items Frame)
            → BlocksRepresent self.old frames
            → BlockErrorReports (frames ++ frame_of frame.entry ∷ []) error) }
        ensures shown { IfOk result (λ decoded. (frames : Items Frame) (lines : Items ShowLine)
            → BlocksShow self.old frames lines
            → BlocksShow self.new (frames ++ frame_of frame.entry ∷ []) (lines
            ++ frame_shown (frame_of frame.entry) (decoded_listing decoded self.new.list) ∷ [])) }
    {
        match self.gather.take(frame)? {
            Gathered::Pass(_) | Gathered::More => Ok(None),
            Gathered::Block { octets, .. } => Ok(Some(self.decode(&octets)?)),
        }
    }

    // rule: 4.3 A block that does not decode is COMPRESSION_ERROR, of the connection
    // rule: show (own) A list above 65,536 octets has one line, without fields
    // Decodes a block into the list.
    fn decode(&mut self, octets: &[u8]) -> Result<Decoded, BlockError>
        ensures ok { IfOk result (λ decoded. (self.old.decoder.failed ≡ false)
            × DecodesInto self.old.decoder octets.now 65536 decoded self.new.list
            self.new.decoder) }
        ensures err { IfErr result (λ error. self.old.decoder.failed ≡ false
            → DecodingErrorReports self.old.decoder octets.now error) }
        ensures same { self.new.gather ≡ self.old.gather }
    {
        Ok(self.decoder.decode_into(octets, MAX_LIST, &mut self.list)?)
    }

    /// The fields of the last block; none if they were too large.
    pub(crate) fn list(&self) -> &FieldList
        ensures { result.now ≡ self.now.list }
    {
        &self.list
    }

    /// Whether a block has begun and is incomplete.
    pub(crate) fn is_inside(&self) -> bool
        ensures { result ≡ is_some self.now.gather.begun }
    {
        self.gather.is_inside()
    }
}
