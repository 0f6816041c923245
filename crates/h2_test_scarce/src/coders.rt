//! Decoders and encoders of field blocks: a decoder that was refused memory has failed, an encoder
//! and its output are unchanged.

use crate::lists::{Pair, fields};
use crate::record::{Record, Scenario, holds};
use hpack::{Decoded, Decoder, Encoder, Fault, Field, FieldList, List, Table, list_size};
use std::alloc::{AllocError, Global};

/// Blocks, one after another.
type Blocks = &'static [&'static [u8]];

/// Three requests (RFC 7541, appendix C.4).
const REQUESTS: Blocks = &[
    b"\x82\x86\x84\x41\x8c\xf1\xe3\xc2\xe5\xf2\x3a\x6b\xa0\xab\x90\xf4\xff",
    b"\x82\x86\x84\xbe\x58\x86\xa8\xeb\x10\x64\x9c\xbf",
    b"\x82\x87\x85\xbf\x40\x88\x25\xa8\x49\xe9\x5b\xa9\x7d\x7f\x89\x25\xa8\x49\xe9\x5b\xb8\xe8\xb4\
    \xbf",
];

/// Three responses (appendix C.6).
const RESPONSES: Blocks = &[
    b"\x48\x82\x64\x02\x58\x85\xae\xc3\x77\x1a\x4b\x61\x96\xd0\x7a\xbe\x94\x10\x54\xd4\x44\xa8\x20\
    \x05\x95\x04\x0b\x81\x66\xe0\x82\xa6\x2d\x1b\xff\x6e\x91\x9d\x29\xad\x17\x18\x63\xc7\x8f\x0b\
    \x97\xc8\xe9\xae\x82\xae\x43\xd3",
    b"\x48\x83\x64\x0e\xff\xc1\xc0\xbf",
    b"\x88\xc1\x61\x96\xd0\x7a\xbe\x94\x10\x54\xd4\x44\xa8\x20\x05\x95\x04\x0b\x81\x66\xe0\x84\xa6\
    \x2d\x1b\xff\xc0\x5a\x83\x9b\xd9\xab\x77\xad\x94\xe7\x82\x1d\xd7\xf2\xe6\xc7\xb3\x35\xdf\xdf\
    \xcd\x5b\x39\x60\xd5\xaf\x27\x08\x7f\x36\x72\xc1\xab\x27\x0f\xb5\x29\x1f\x95\x87\x31\x60\x65\
    \xc0\x03\xed\x4e\xe5\xb1\x06\x3d\x50\x07",
];

/// The lists of the requests.
const ASKED: [&[Pair]; 3] = [
    &[
        (b":method", b"GET"),
        (b":scheme", b"http"),
        (b":path", b"/"),
        (b":authority", b"www.example.com"),
    ],
    &[
        (b":method", b"GET"),
        (b":scheme", b"http"),
        (b":path", b"/"),
        (b":authority", b"www.example.com"),
        (b"cache-control", b"no-cache"),
    ],
    &[
        (b":method", b"GET"),
        (b":scheme", b"https"),
        (b":path", b"/index.html"),
        (b":authority", b"www.example.com"),
        (b"custom-key", b"custom-value"),
    ],
];

/// Those of the responses.
const ANSWERED: [&[Pair]; 3] = [
    &[
        (b":status", b"302"),
        (b"cache-control", b"private"),
        (b"date", b"Mon, 21 Oct 2013 20:13:21 GMT"),
        (b"location", b"https://www.example.com"),
    ],
    &[
        (b":status", b"307"),
        (b"cache-control", b"private"),
        (b"date", b"Mon, 21 Oct 2013 20:13:21 GMT"),
        (b"location", b"https://www.example.com"),
    ],
    &[
        (b":status", b"200"),
        (b"cache-control", b"private"),
        (b"date", b"Mon, 21 Oct 2013 20:13:22 GMT"),
        (b"location", b"https://www.example.com"),
        (b"content-encoding", b"gzip"),
        (
            b"set-cookie",
            b"foo=ASDJKHQKBZXOQWEOPIUAXQWEOIU; max-age=3600; version=1",
        ),
    ],
];

/// Notes what can be read of a table.
fn note_table(table: &Table, record: &mut Record) {
    record.note(u64::try_from(table.len()).unwrap_or(0));
    record.note(u64::try_from(table.size()).unwrap_or(0));
    record.note(u64::from(table.maximum()));
}

/// Notes a field.
fn note_field(name: &[u8], value: &[u8], record: &mut Record) {
    record.note_octets(name);
    record.note_octets(value);
}

/// Decodes a block, and notes its list.
fn decode(decoder: &mut Decoder, block: &[u8], record: &mut Record) -> Result<(), Fault> {
    match decoder.decode(block, 65_536)? {
        List::Whole(fields) => {
            for field in &fields {
                note_field(field.name.as_slice(), field.value.as_slice(), record);
            }
        }
        List::TooLarge => record.check(false),
    }
    Ok(())
}

/// Decodes a block into a list that is kept, and notes it.
fn decode_into(
    decoder: &mut Decoder,
    block: &[u8],
    list: &mut FieldList,
    record: &mut Record,
) -> Result<(), Fault> {
    let decoded = decoder.decode_into(block, 65_536, list);
    record.check(decoded.is_ok() || list.is_empty());
    record.check(decoded? == Decoded::Whole);
    for place in 0..list.len() {
        if let Some(field) = list.get(place) {
            note_field(field.name, field.value, record);
        }
    }
    Ok(())
}

/// A new decoder, which is made again where memory is refused.
fn new_decoder(maximum: u32, record: &mut Record) -> Option<Decoder> {
    for _ in 0..2 {
        match Decoder::new(record.alloc, maximum) {
            Ok(decoder) => return Some(decoder),
            Err(fault) => {
                record.check(fault == Fault::Memory);
                record.again();
            }
        }
    }
    record.check(false);
    None
}

/// Blocks that are decoded.
#[derive(Drop)]
struct Decoding {
    maximum: u32,
    blocks: Blocks,
    into: bool,
}

impl Decoding {
    /// Decodes a block; where memory is refused, the decoder has failed.
    fn decode(
        &self,
        decoder: &mut Decoder,
        block: &[u8],
        list: &mut FieldList,
        record: &mut Record,
    ) {
        let decoded = if self.into {
            decode_into(decoder, block, list, record)
        } else {
            decode(decoder, block, record)
        };
        if decoded.is_ok() {
            return note_table(decoder.table(), record);
        }
        record.check(decoded == Err(Fault::Memory));
        record.fail();
        let (once, again) = (decode(decoder, block, record), decode(decoder, b"", record));
        record.check(once == Err(Fault::Failed) && again == Err(Fault::Failed));
    }
}

impl Scenario for Decoding {
    fn run(&mut self, record: &mut Record) {
        let Some(mut decoder) = new_decoder(self.maximum, record) else {
            return;
        };
        let mut list = FieldList::new(record.alloc);
        for block in self.blocks {
            if !record.failed {
                self.decode(&mut decoder, block, &mut list, record);
            }
        }
    }
}

/// Encodes a list, which is not too large for that.
fn encode(encoder: &mut Encoder, fields: &[Field], out: &mut Vec<u8>) -> Result<(), Fault> {
    if list_size(fields) < 1 << 35 {
        encoder.encode(fields, out)
    } else {
        Err(Fault::Failed)
    }
}

/// The length, the size and the maximum of an encoder's table.
fn table_of(encoder: &Encoder) -> (usize, usize, u32) {
    let table = encoder.table();
    (table.len(), table.size(), table.maximum())
}

/// Encodes a list, and once more where memory is refused.
fn encode_twice(encoder: &mut Encoder, fields: &[Field], out: &mut Vec<u8>, record: &mut Record) {
    let (before, len) = (table_of(encoder), out.len());
    let mut encoded = encode(encoder, fields, out);
    if encoded == Err(Fault::Memory) {
        record.again();
        record.check(table_of(encoder) == before && out.len() == len);
        encoded = encode(encoder, fields, out);
    }
    record.check(encoded.is_ok());
    note_table(encoder.table(), record);
}

/// A new encoder, which is made again where memory is refused.
fn new_encoder(maximum: u32, record: &mut Record) -> Option<Encoder> {
    for _ in 0..2 {
        match Encoder::new(record.alloc, maximum) {
            Ok(encoder) => return Some(encoder),
            Err(fault) => {
                record.check(fault == Fault::Memory);
                record.again();
            }
        }
    }
    record.check(false);
    None
}

/// Lists that are encoded, one after another, and then once more at another limit.
#[derive(Drop)]
struct Encoding<'a> {
    maximum: u32,
    lists: &'a [Vec<Field>],
}

impl Scenario for Encoding<'_> {
    fn run(&mut self, record: &mut Record) {
        let Some(mut encoder) = new_encoder(self.maximum, record) else {
            return;
        };
        let mut out = Vec::new(record.alloc);
        for fields in self.lists {
            encode_twice(&mut encoder, fields, &mut out, record);
        }
        encoder.set_limit(100);
        for fields in self.lists {
            encode_twice(&mut encoder, fields, &mut out, record);
        }
        record.put_out(&out);
    }
}

/// Lists of fields.
fn lists(alloc: Global, all: &[&[Pair]; 3]) -> Result<Vec<Vec<Field>>, AllocError> {
    let mut lists = Vec::new(alloc);
    for pairs in all {
        lists.push(fields(alloc, pairs)?)?;
    }
    Ok(lists)
}

/// Whether a decoder withstands refused memory.
fn decoder_bears(alloc: Global, maximum: u32, blocks: Blocks, into: bool) -> bool {
    let mut first = Decoding {
        maximum,
        blocks,
        into,
    };
    let mut second = Decoding {
        maximum,
        blocks,
        into,
    };
    holds(alloc, &mut first, &mut second)
}

/// Whether an encoder does.
fn encoder_bears(alloc: Global, maximum: u32, all: &[&[Pair]; 3]) -> Result<bool, AllocError> {
    let lists = lists(alloc, all)?;
    let mut first = Encoding {
        maximum,
        lists: &lists,
    };
    let mut second = Encoding {
        maximum,
        lists: &lists,
    };
    Ok(holds(alloc, &mut first, &mut second))
}

#[test]
fn decoder_of_requests(rt: HostRuntime) {
    assert!(rt; decoder_bears(rt.alloc(), 4_096, REQUESTS, false));
}

#[test]
fn decoder_of_requests_into_a_list(rt: HostRuntime) {
    assert!(rt; decoder_bears(rt.alloc(), 4_096, REQUESTS, true));
}

#[test]
fn decoder_of_responses(rt: HostRuntime) {
    assert!(rt; decoder_bears(rt.alloc(), 256, RESPONSES, false));
}

#[test]
fn decoder_of_responses_into_a_list(rt: HostRuntime) {
    assert!(rt; decoder_bears(rt.alloc(), 256, RESPONSES, true));
}

#[test]
fn encoder_of_requests(rt: HostRuntime) {
    assert!(rt; encoder_bears(rt.alloc(), 4_096, &ASKED).unwrap_or(false));
}

#[test]
fn encoder_of_responses(rt: HostRuntime) {
    assert!(rt; encoder_bears(rt.alloc(), 256, &ANSWERED).unwrap_or(false));
}
