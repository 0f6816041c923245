//! Decoding.

use crate::counts::Counts;
use crate::input::text;
use hpack::{Decoded, Decoder, Fault, FieldList, List};
use std::alloc::Global;

/// The maximum and the limit of the table.
const MAXIMUM: u32 = 4_096;

/// Decodes the blocks `rounds` times, into lists of their own.
pub(crate) fn decode_rounds(alloc: Global, blocks: &[u8], rounds: u32, counts: &mut Counts) -> i32 {
    for _ in 0..rounds {
        if decode_round(alloc, blocks, counts).is_err() {
            return 1;
        }
    }
    0
}

fn decode_round(alloc: Global, blocks: &[u8], counts: &mut Counts) -> Result<(), Fault> {
    let mut decoder = Decoder::new(alloc, MAXIMUM)?;
    decode_blocks(&mut decoder, blocks, counts)
}

fn decode_blocks(decoder: &mut Decoder, blocks: &[u8], counts: &mut Counts) -> Result<(), Fault> {
    let mut unread = blocks;
    for _ in 0..blocks.len() {
        let Some((block, following)) = text(unread) else {
            break;
        };
        unread = following;
        let list = decoder.decode(block, u32::MAX)?;
        count_fields(&list, counts);
    }
    Ok(())
}

/// Counts the fields of a list, and their octets.
fn count_fields(list: &List, counts: &mut Counts) {
    if let List::Whole(fields) = list {
        for field in fields {
            counts.add_one();
            counts.add_octets(field.name.as_slice().len());
            counts.add_octets(field.value.as_slice().len());
        }
    }
}

/// Decodes the blocks `rounds` times, into a list that is kept.
pub(crate) fn decode_into_rounds(
    alloc: Global,
    blocks: &[u8],
    rounds: u32,
    counts: &mut Counts,
) -> i32 {
    let mut list = FieldList::new(alloc);
    for _ in 0..rounds {
        if decode_into_round(alloc, blocks, &mut list, counts).is_err() {
            return 1;
        }
    }
    0
}

fn decode_into_round(
    alloc: Global,
    blocks: &[u8],
    list: &mut FieldList,
    counts: &mut Counts,
) -> Result<(), Fault> {
    let mut decoder = Decoder::new(alloc, MAXIMUM)?;
    decode_blocks_into(&mut decoder, blocks, list, counts)
}

fn decode_blocks_into(
    decoder: &mut Decoder,
    blocks: &[u8],
    list: &mut FieldList,
    counts: &mut Counts,
) -> Result<(), Fault> {
    let mut unread = blocks;
    for _ in 0..blocks.len() {
        let Some((block, following)) = text(unread) else {
            break;
        };
        unread = following;
        if let Decoded::Whole = decoder.decode_into(block, u32::MAX, list)? {
            count_list(list, counts);
        }
    }
    Ok(())
}

/// Counts the fields of a list that is kept, and their octets.
fn count_list(list: &FieldList, counts: &mut Counts) {
    for field in list.iter() {
        counts.add_one();
        counts.add_octets(field.name.len());
        counts.add_octets(field.value.len());
    }
}
