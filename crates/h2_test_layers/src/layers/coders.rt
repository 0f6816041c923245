//! An encoder of field blocks, and two decoders: one makes a list of each block, the other fills a
//! list that is kept. Each call returns a plain value, without a contract, since no test needs
//! one.

use hpack::{Decoded, Decoder, Encoder, Fault, Field, FieldList, FieldRef, List, Table, list_size};
use std::alloc::Global;

/// An encoder and two decoders.
pub(crate) struct Coders {
    alloc: Global,
    encoder: Encoder,
    maker: Decoder,
    keeper: Decoder,
    kept: FieldList,
}

impl Drop for Coders {
    /// Each is dropped by a call, so that its drop is proved once.
    fn drop(self) {
        let Coders {
            alloc: _,
            encoder,
            maker,
            keeper,
            kept,
        } = self;
        let_go_of_encoder(encoder);
        let_go(maker);
        let_go(keeper);
        let_go_of_list(kept);
    }
}

// Drops the encoder.
fn let_go_of_encoder(_encoder: Encoder) {}

// Drops the decoder.
fn let_go(_decoder: Decoder) {}

// Drops the list.
fn let_go_of_list(_list: FieldList) {}

// A new decoder.
fn new_decoder(alloc: Global, maximum: u32) -> Option<Decoder> {
    Decoder::new(alloc, maximum).ok()
}

// Decodes a block.
fn decode(decoder: &mut Decoder, octets: &[u8], limit: u32) -> Result<List, Fault> {
    decoder.decode(octets, limit)
}

// Decodes a block into a list that is kept.
fn decode_into(
    decoder: &mut Decoder,
    octets: &[u8],
    limit: u32,
    list: &mut FieldList,
) -> Result<Decoded, Fault> {
    decoder.decode_into(octets, limit, list)
}

// Encodes a list, which isn't too large for that.
fn encode(encoder: &mut Encoder, fields: &[Field], out: &mut Vec<u8>) -> Result<(), Fault> {
    if list_size(fields) < 1 << 35 {
        encoder.encode(fields, out)
    } else {
        Err(Fault::Failed)
    }
}

// A field borrowed from a list.
fn lent(field: &Field) -> FieldRef<'_> {
    FieldRef {
        name: field.name.as_slice(),
        value: field.value.as_slice(),
        sensitive: field.sensitive,
    }
}

// Whether two fields are the same.
fn is_same(one: FieldRef<'_>, other: FieldRef<'_>) -> bool {
    one.name == other.name && one.value == other.value && one.sensitive == other.sensitive
}

// Whether a block was decoded to these fields.
fn is_whole(found: &Result<List, Fault>, fields: &[Field]) -> bool {
    let Ok(List::Whole(others)) = found else {
        return false;
    };
    for (place, field) in fields.iter().enumerate() {
        match others.get(place) {
            Some(other) if is_same(lent(field), lent(other)) => {}
            _ => return false,
        }
    }
    others.len() == fields.len()
}

// Whether a list that is kept has these fields.
fn are_kept(list: &FieldList, fields: &[Field]) -> bool {
    for (place, field) in fields.iter().enumerate() {
        match list.get(place) {
            Some(other) if is_same(lent(field), other) => {}
            _ => return false,
        }
    }
    list.len() == fields.len()
}

// Whether two tables have the same entry at a place.
fn have_same_entry(table: &Table, other: &Table, place: usize) -> bool {
    match (table.get(place), other.get(place)) {
        (Some(one), Some(other)) => one.0 == other.0 && one.1 == other.1,
        _ => false,
    }
}

// Whether two tables are the same.
fn are_same_tables(table: &Table, other: &Table) -> bool {
    for place in 0..table.len() {
        if !have_same_entry(table, other, place.saturating_add(1)) {
            return false;
        }
    }
    table.len() == other.len() && table.size() == other.size() && table.maximum() == other.maximum()
}

impl Coders {
    /// New ones, with this maximum.
    pub(crate) fn new(alloc: Global, maximum: u32) -> Option<Coders> {
        match (
            Encoder::new(alloc, maximum),
            new_decoder(alloc, maximum),
            new_decoder(alloc, maximum),
        ) {
            (Ok(encoder), Some(maker), Some(keeper)) => Some(Coders {
                alloc,
                encoder,
                maker,
                keeper,
                kept: FieldList::new(alloc),
            }),
            _ => None,
        }
    }

    /// Sets the limit of all.
    pub(crate) fn set_limit(&mut self, limit: u32) {
        self.encoder.set_limit(limit);
        self.maker.set_limit(limit);
        self.keeper.set_limit(limit);
    }

    /// Appends the block of a list.
    pub(crate) fn encode(&mut self, fields: &[Field], out: &mut Vec<u8>) -> Result<(), Fault> {
        encode(&mut self.encoder, fields, out)
    }

    /// The encoder's table.
    pub(crate) fn table(&self) -> &Table {
        self.encoder.table()
    }

    // Whether all have the same table.
    fn are_in_step(&self) -> bool {
        are_same_tables(self.encoder.table(), self.maker.table())
            && are_same_tables(self.encoder.table(), self.keeper.table())
    }

    // Whether a block is decoded to these fields, by both decoders.
    fn is_decoded(&mut self, octets: &[u8], fields: &[Field]) -> bool {
        let made = decode(&mut self.maker, octets, u32::MAX);
        let kept = decode_into(&mut self.keeper, octets, u32::MAX, &mut self.kept);
        is_whole(&made, fields) && kept == Ok(Decoded::Whole) && are_kept(&self.kept, fields)
    }

    // Whether a block's list is above a limit, for both decoders.
    fn is_above(&mut self, octets: &[u8], limit: u32) -> bool {
        let made = decode(&mut self.maker, octets, limit);
        let kept = decode_into(&mut self.keeper, octets, limit, &mut self.kept);
        matches!(&made, Ok(List::TooLarge)) && kept == Ok(Decoded::TooLarge) && self.kept.is_empty()
    }

    /// Whether a list is encoded and decoded, and the tables are the same then.
    pub(crate) fn pass_whole(&mut self, fields: &[Field]) -> bool {
        let mut block = Vec::new(self.alloc);
        self.encode(fields, &mut block).is_ok()
            && self.is_decoded(&block, fields)
            && self.are_in_step()
    }

    /// Whether a list is encoded, and above this limit, and the tables are the same then.
    pub(crate) fn pass_above(&mut self, fields: &[Field], limit: u32) -> bool {
        let mut block = Vec::new(self.alloc);
        self.encode(fields, &mut block).is_ok()
            && self.is_above(&block, limit)
            && self.are_in_step()
    }

    /// Whether a block is decoded into the list that is kept, with `fields` fields; or, where that
    /// is `None`, it is above the limit.
    pub(crate) fn keeps(&mut self, octets: &[u8], limit: u32, fields: Option<usize>) -> bool {
        let found = decode_into(&mut self.keeper, octets, limit, &mut self.kept);
        match fields {
            Some(count) => found == Ok(Decoded::Whole) && self.kept.len() == count,
            None => found == Ok(Decoded::TooLarge) && self.kept.is_empty(),
        }
    }

    /// The debug form of the list that is kept.
    pub(crate) fn shown_list(&self) -> Option<String> {
        format!(in self.alloc; "{:?}", self.kept).ok()
    }

    /// The debug form of the newest entry of the table of the decoder that fills the list.
    pub(crate) fn shown_entry(&self) -> Option<String> {
        match self.keeper.table().ring().front() {
            Some(entry) => format!(in self.alloc; "{entry:?}").ok(),
            None => None,
        }
    }

    /// The debug form of the encoder.
    pub(crate) fn shown_encoder(&self) -> Option<String> {
        format!(in self.alloc; "{:?}", self.encoder).ok()
    }
}
