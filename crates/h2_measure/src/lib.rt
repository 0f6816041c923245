//! The calls of `bench/measure.h` over the crates, for a driver in C (see `bench/README.md`).
#![tactic(auto)]

mod answering;
mod counts;
mod cutting;
mod decoding;
mod encoding;
mod input;
mod serving;
mod streaming;

use counts::Counts;
use std::alloc::Global;

/// Encodes the lists into blocks, and returns the number of their octets, or 0 where they don't
/// fit.
#[unsafe(no_mangle)]
pub extern "C" fn measure_blocks(alloc: Global, lists: &[u8], blocks: &mut [u8]) -> usize {
    encoding::write_blocks(alloc, lists, blocks)
}

/// Encodes the lists `rounds` times.
#[unsafe(no_mangle)]
pub extern "C" fn measure_encode(
    alloc: Global,
    lists: &[u8],
    rounds: u32,
    counts: &mut Counts,
) -> i32 {
    encoding::encode_rounds(alloc, lists, rounds, counts)
}

/// Decodes the blocks `rounds` times, into lists of their own.
#[unsafe(no_mangle)]
pub extern "C" fn measure_decode(
    alloc: Global,
    blocks: &[u8],
    rounds: u32,
    counts: &mut Counts,
) -> i32 {
    decoding::decode_rounds(alloc, blocks, rounds, counts)
}

/// Decodes the blocks `rounds` times, into a list that is kept.
#[unsafe(no_mangle)]
pub extern "C" fn measure_decode_into(
    alloc: Global,
    blocks: &[u8],
    rounds: u32,
    counts: &mut Counts,
) -> i32 {
    decoding::decode_into_rounds(alloc, blocks, rounds, counts)
}

/// Cuts a client's octets, in pieces of `piece`, and decodes their field blocks, `rounds` times.
#[unsafe(no_mangle)]
pub extern "C" fn measure_cut(
    alloc: Global,
    octets: &[u8],
    piece: usize,
    rounds: u32,
    counts: &mut Counts,
) -> i32 {
    cutting::cut_rounds(alloc, octets, piece, rounds, counts)
}

/// Serves a client's octets, in pieces of `piece`: each request is answered as it ends, with a
/// body of `body` octets, 65,536 at most.
#[unsafe(no_mangle)]
pub extern "C" fn measure_serve(
    alloc: Global,
    octets: &[u8],
    piece: usize,
    body: usize,
    counts: &mut Counts,
) -> i32 {
    serving::serve_octets(alloc, octets, piece, body, counts)
}

/// Serves a client's octets with a server of messages: each request is answered as it comes, with a
/// body of `body` octets, whole or, where `parts` isn't 0, in parts of 16,384.
#[unsafe(no_mangle)]
pub extern "C" fn measure_answers(
    alloc: Global,
    octets: &[u8],
    body: usize,
    parts: u32,
    counts: &mut Counts,
) -> i32 {
    answering::answer_octets(alloc, octets, body, parts != 0, counts)
}

/// Serves a client's octets with the README's server. The octets that are counted are those of the
/// output.
#[unsafe(no_mangle)]
pub extern "C" fn measure_server(alloc: Global, octets: &[u8], counts: &mut Counts) -> i32 {
    let mut from = octets;
    let mut to = Vec::new(alloc);
    let served = h2_uses::serve(alloc, &mut from, &mut to, &mut h2_uses::Hello);
    counts.add_octets(to.len());
    if served.is_err() { 1 } else { 0 }
}

/// Asks a server whose octets these are for `/`, with the README's client. The octets that are
/// counted are those of the response's body.
#[unsafe(no_mangle)]
pub extern "C" fn measure_client(alloc: Global, octets: &[u8], counts: &mut Counts) -> i32 {
    let mut from = octets;
    let mut to = Vec::new(alloc);
    let Ok(responses) = h2_uses::get(alloc, &mut from, &mut to, &[b"/".as_slice()]) else {
        return 1;
    };
    match responses.get(&1) {
        Some(response) if response.is_whole => {
            counts.add_octets(response.body.len());
            0
        }
        _ => 1,
    }
}

/// Serves a file of `length` octets, which is made as it is read, with the file server of
/// `h2_uses` to a client in memory. The units are the bodies that have come whole, and the octets
/// those of them.
#[unsafe(no_mangle)]
pub extern "C" fn measure_stream(alloc: Global, length: u64, counts: &mut Counts) -> i32 {
    streaming::stream_octets(alloc, length, counts)
}
