//! Encoding.

ghost use Rattle.std.specs.Prelude.{◌^◌, ◌<◌};
ghost use Rattle.hpack.specs.Lists.{list_size as size_of_list};

use crate::counts::Counts;
use crate::input::{number, text};
use hpack::{Encoder, Fault, Field, list_size};
use std::alloc::Global;

/// The maximum and the limit of the table.
const MAXIMUM: u32 = 4_096;

/// Room for the greatest block.
const BLOCK_ROOM: usize = 1 << 20;

/// A list of a size that an encoder takes.
#[derive(Drop)]
struct Encodable {
    fields: Vec<Field>,
    ghost small: { size_of_list fields.items < 2 ^ 35 },
}

/// Encodes the lists `rounds` times.
pub(crate) fn encode_rounds(alloc: Global, lists: &[u8], rounds: u32, counts: &mut Counts) -> i32 {
    match read_lists(alloc, lists) {
        Ok(lists) => encode_lists(alloc, &lists, rounds, counts),
        Err(_) => 1,
    }
}

fn encode_lists(alloc: Global, lists: &[Encodable], rounds: u32, counts: &mut Counts) -> i32 {
    let Ok(mut block) = Vec::with_capacity(alloc, BLOCK_ROOM) else {
        return 1;
    };
    for _ in 0..rounds {
        if encode_round(alloc, lists, &mut block, counts).is_err() {
            return 1;
        }
    }
    0
}

fn encode_round(
    alloc: Global,
    lists: &[Encodable],
    block: &mut Vec<u8>,
    counts: &mut Counts,
) -> Result<(), Fault> {
    let mut encoder = Encoder::new(alloc, MAXIMUM)?;
    encode_each(&mut encoder, lists, block, counts)
}

fn encode_each(
    encoder: &mut Encoder,
    lists: &[Encodable],
    block: &mut Vec<u8>,
    counts: &mut Counts,
) -> Result<(), Fault> {
    for list in lists {
        block.clear();
        encoder.encode(list.fields.as_slice(), block)?;
        counts.add_octets(block.len());
        for _ in &list.fields {
            counts.add_one();
        }
    }
    Ok(())
}

/// Encodes the lists into blocks, and returns the number of their octets, or 0 where they don't
/// fit.
pub(crate) fn write_blocks(alloc: Global, lists: &[u8], blocks: &mut [u8]) -> usize {
    match encode_all(alloc, lists) {
        Ok(octets) if octets.len() <= blocks.len() => {
            let count = octets.len();
            blocks[..count].copy_from_slice(&octets);
            count
        }
        _ => 0,
    }
}

fn encode_all(alloc: Global, lists: &[u8]) -> Result<Vec<u8>, Fault> {
    let lists = read_lists(alloc, lists)?;
    let mut encoder = Encoder::new(alloc, MAXIMUM)?;
    encode_blocks(alloc, &mut encoder, &lists)
}

fn encode_blocks(
    alloc: Global,
    encoder: &mut Encoder,
    lists: &[Encodable],
) -> Result<Vec<u8>, Fault> {
    let mut octets = Vec::new(alloc);
    for list in lists {
        add_block(alloc, encoder, list, &mut octets)?;
    }
    Ok(octets)
}

/// Adds the size of a list's block, and the block.
fn add_block(
    alloc: Global,
    encoder: &mut Encoder,
    list: &Encodable,
    octets: &mut Vec<u8>,
) -> Result<(), Fault> {
    let mut block = Vec::new(alloc);
    encoder.encode(list.fields.as_slice(), &mut block)?;
    let size = (block.len() as u64).to_be_bytes();
    octets.extend_from_slice(&size[4..])?;
    octets.extend_from_slice(&block)?;
    Ok(())
}

fn read_lists(alloc: Global, lists: &[u8]) -> Result<Vec<Encodable>, Fault> {
    let mut all = Vec::new(alloc);
    let mut unread = lists;
    for _ in 0..lists.len() {
        let Some((count, following)) = number(unread) else {
            break;
        };
        let mut fields = Vec::new(alloc);
        unread = read_fields(alloc, count, following, &mut fields)?;
        if list_size(&fields) >= 1 << 35 {
            break;
        }
        all.push(Encodable { fields })?;
    }
    Ok(all)
}

/// Adds `count` fields, and returns what follows them.
fn read_fields<'a>(
    alloc: Global,
    count: u32,
    octets: &'a [u8],
    fields: &mut Vec<Field>,
) -> Result<&'a [u8], Fault> {
    let mut unread = octets;
    for _ in 0..count {
        let Some((name, after_name)) = text(unread) else {
            break;
        };
        let Some((value, following)) = text(after_name) else {
            break;
        };
        unread = following;
        fields.push(Field::copy_of(alloc, name, value, false)?)?;
    }
    Ok(unread)
}
