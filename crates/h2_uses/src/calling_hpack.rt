//! Field lists that are encoded and decoded, which the `CALLING.md` of `hpack` quotes.

// calling: hpack
ghost use Rattle.std.specs.Prelude.{◌<◌, ◌^◌, IfOk};
ghost use Rattle.hpack.specs.Lists.{IsList, list_size};

use hpack::{Decoder, Encoder, Fault, Field, List, one_block};
use std::alloc::Global;

/// Encodes a list of fields, and decodes the block with another table: the result is the list
/// again, unless its size is above 65,536.
pub fn carry_list(alloc: Global, fields: &[Field]) -> Result<List, Fault>
    requires { list_size fields.now < 2 ^ 35 }
    ensures { IfOk result (λ list. IsList 65536 fields.now list) }
{
    one_block();
    let mut block = Vec::new(alloc);
    let mut encoder = Encoder::new(alloc, 4096)?;
    encoder.encode(fields, &mut block)?;
    let mut decoder = Decoder::new(alloc, 4096)?;
    decoder.decode(&block, 65_536)
}
// end

// calling: hpack refusals
ghost use Rattle.std.specs.Prelude.{◌≡◌, OnErr, true};

use h2_frame::Code;

/// Returns the fields of a block, or the code with which the connection fails. The decoder has
/// then failed too, and returns `Fault::Failed` for each later block.
pub fn fields_of(decoder: &mut Decoder, block: &[u8]) -> Result<List, Code>
    ensures { OnErr result (decoder.new.failed ≡ true) }
{
    match decoder.decode(block, 65_536) {
        Ok(list) => Ok(list),
        Err(Fault::Compression) => Err(Code::CompressionError),
        Err(Fault::Memory | Fault::Failed) => Err(Code::InternalError),
    }
}
// end

// calling: hpack kept
ghost use Rattle.std.specs.Prelude.{[]};

use hpack::{Decoded, FieldList};

/// Decodes a block into a list that is kept, whose memory is reused, and returns whether the
/// fields are there. If they are too large, refuse their stream alone: the decoder goes on.
pub fn fields_into(decoder: &mut Decoder, block: &[u8], list: &mut FieldList) -> Result<bool, Code>
    ensures failed { OnErr result (decoder.new.failed ≡ true) }
    ensures emptied { OnErr result (list.new ≡ []) }
{
    match decoder.decode_into(block, 65_536, list) {
        Ok(Decoded::Whole) => Ok(true),
        Ok(Decoded::TooLarge) => Ok(false),
        Err(Fault::Compression) => Err(Code::CompressionError),
        Err(Fault::Memory | Fault::Failed) => Err(Code::InternalError),
    }
}
// end
