//! An encoder of field blocks, and two decoders: one makes a list of each block, the other fills a
//! list that is kept.

use crate::case::CaseError;
use crate::fields::{add_field, add_fields, lent};
use crate::layers::tables::{add_table, are_same_tables};
use crate::text::Text;
use crate::words::Words;
use hpack::{Decoded, Decoder, Encoder, Fault, Field, FieldList, FieldRef, List, list_size};
use std::alloc::Global;

/// A limit that no list reaches.
pub(crate) const NO_LIMIT: u32 = u32::MAX;

/// An encoder and two decoders.
pub(crate) struct Coders {
    pub(crate) alloc: Global,
    encoder: Encoder,
    maker: Decoder,
    keeper: Decoder,
    kept: FieldList,
}

impl Drop for Coders {
    /// Each is dropped by a call, so that its drop is proved once.
    fn drop(self) {
        let Coders {
            alloc: _,
            encoder,
            maker,
            keeper,
            kept,
        } = self;
        let_go_of_encoder(encoder);
        let_go(maker);
        let_go(keeper);
        let_go_of_list(kept);
    }
}

// Drops the encoder.
fn let_go_of_encoder(_encoder: Encoder) {}

// Drops the decoder.
fn let_go(_decoder: Decoder) {}

// Drops the list.
fn let_go_of_list(_list: FieldList) {}

// Decodes a block.
fn decode(decoder: &mut Decoder, octets: &[u8], limit: u32) -> Result<List, Fault> {
    decoder.decode(octets, limit)
}

// Decodes a block into a list that is kept.
fn decode_into(
    decoder: &mut Decoder,
    octets: &[u8],
    limit: u32,
    list: &mut FieldList,
) -> Result<Decoded, Fault> {
    decoder.decode_into(octets, limit, list)
}

// Encodes a list, which isn't too large for that.
fn encode(encoder: &mut Encoder, words: &mut Words<'_>, fields: &[Field], out: &mut Vec<u8>) {
    if list_size(fields) >= 1 << 35 {
        words.unread();
    } else if encoder.encode(fields, out).is_err() {
        words.fail(CaseError::Memory);
    }
}

// Adds the line of a fault.
fn add_fault(text: &mut Text, fault: Fault) {
    text.push_value(fault);
    text.push_str("\n");
}

// Adds what a block was decoded to: the lines of its fields.
fn add_list(alloc: Global, text: &mut Text, found: &Result<List, Fault>) {
    match found {
        Ok(List::Whole(fields)) => add_fields(alloc, text, fields),
        Ok(List::TooLarge) => text.push_line("too large"),
        Err(fault) => add_fault(text, *fault),
    }
}

// Adds the lines of a list that is kept.
fn add_kept(alloc: Global, text: &mut Text, list: &FieldList) {
    for place in 0..list.len() {
        match list.get(place) {
            Some(field) => add_field(alloc, text, field),
            None => text.push_line("a place without a field"),
        }
    }
    if list.is_empty() != (list.len() == 0) || list.get(list.len()).is_some() {
        text.push_line("another number of fields");
    }
}

// Decodes a block into a list that is kept, and adds the lines of the list.
fn add_decoded_into(
    alloc: Global,
    text: &mut Text,
    decoder: &mut Decoder,
    octets: &[u8],
    limit: u32,
    list: &mut FieldList,
) {
    match decode_into(decoder, octets, limit, list) {
        Ok(Decoded::Whole) => {}
        Ok(Decoded::TooLarge) => text.push_line("too large"),
        Err(fault) => add_fault(text, fault),
    }
    add_kept(alloc, text, list);
}

// Whether two fields are the same.
fn is_same(one: FieldRef<'_>, other: FieldRef<'_>) -> bool {
    one.name == other.name && one.value == other.value && one.sensitive == other.sensitive
}

// Whether a block was decoded to these fields.
fn is_whole(found: &Result<List, Fault>, fields: &[Field]) -> bool {
    let Ok(List::Whole(others)) = found else {
        return false;
    };
    for (place, field) in fields.iter().enumerate() {
        match others.get(place) {
            Some(other) if is_same(lent(field), lent(other)) => {}
            _ => return false,
        }
    }
    others.len() == fields.len()
}

// Whether a list that is kept has these fields.
fn are_kept(list: &FieldList, fields: &[Field]) -> bool {
    for (place, field) in fields.iter().enumerate() {
        match list.get(place) {
            Some(other) if is_same(lent(field), other) => {}
            _ => return false,
        }
    }
    list.len() == fields.len()
}

impl Coders {
    /// New ones, with this maximum; none where memory was refused.
    pub(crate) fn new(alloc: Global, maximum: u32) -> Option<Coders> {
        let encoder = Encoder::new(alloc, maximum).ok()?;
        let maker = Decoder::new(alloc, maximum).ok()?;
        Some(Coders {
            alloc,
            encoder,
            maker,
            keeper: Decoder::new(alloc, maximum).ok()?,
            kept: FieldList::new(alloc),
        })
    }

    /// Sets the limit of all.
    pub(crate) fn set_limit(&mut self, limit: u32) {
        self.encoder.set_limit(limit);
        self.maker.set_limit(limit);
        self.keeper.set_limit(limit);
    }

    /// Writes the block of a list after what is there.
    pub(crate) fn encode(&mut self, words: &mut Words<'_>, fields: &[Field], out: &mut Vec<u8>) {
        encode(&mut self.encoder, words, fields, out);
    }

    /// Adds the lines of what a block is decoded to, by both decoders.
    pub(crate) fn add_decoded(&mut self, text: &mut Text, octets: &[u8], limit: u32) {
        let (mut made, mut kept) = (Text::new(self.alloc), Text::new(self.alloc));
        add_list(
            self.alloc,
            &mut made,
            &decode(&mut self.maker, octets, limit),
        );
        add_decoded_into(
            self.alloc,
            &mut kept,
            &mut self.keeper,
            octets,
            limit,
            &mut self.kept,
        );
        text.push_text(&made);
        if kept.as_str() != made.as_str() {
            text.push_line("and into a list that is kept:");
            text.push_text(&kept);
        }
    }

    /// Whether a block is decoded to these fields, by both decoders.
    pub(crate) fn is_decoded(&mut self, octets: &[u8], fields: &[Field]) -> bool {
        let made = decode(&mut self.maker, octets, NO_LIMIT);
        let kept = decode_into(&mut self.keeper, octets, NO_LIMIT, &mut self.kept);
        is_whole(&made, fields) && kept == Ok(Decoded::Whole) && are_kept(&self.kept, fields)
    }

    /// Whether the encoder and the decoders have the same table.
    pub(crate) fn are_in_step(&self) -> bool {
        are_same_tables(self.encoder.table(), self.maker.table())
            && are_same_tables(self.encoder.table(), self.keeper.table())
    }

    /// The number of entries in the encoder's table.
    pub(crate) fn entries(&self) -> usize {
        self.encoder.table().len()
    }

    /// Adds the lines of the decoders' table.
    pub(crate) fn add_table(&self, text: &mut Text) {
        add_table(self.alloc, text, self.maker.table());
        if !are_same_tables(self.maker.table(), self.keeper.table()) {
            text.push_line("another table where a list is kept");
        }
    }

    /// Another decoder puts a field into the list that is kept; adds the lines of the list.
    pub(crate) fn add_filled(&mut self, text: &mut Text) {
        match Decoder::new(self.alloc, 0) {
            Ok(mut decoder) => {
                add_decoded_into(
                    self.alloc,
                    text,
                    &mut decoder,
                    b"\x82",
                    NO_LIMIT,
                    &mut self.kept,
                );
                let_go(decoder);
            }
            Err(_) => text.refuse(),
        }
    }

    /// Clears the list that is kept; adds the lines of the list.
    pub(crate) fn add_cleared(&mut self, text: &mut Text) {
        self.kept.clear();
        add_kept(self.alloc, text, &self.kept);
    }
}
