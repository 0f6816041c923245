//! The callers of frames, of field blocks and of the rules of messages.

use super::shown::is_shown;
use anyhow::Result;
use h2_frame::FrameRef;
use h2_message::Message;
use h2_uses::{check_forwarded, chosen_config, fields_into, pass_on, read_on};
use hpack::{Decoder, FieldList, Octets};
use std::alloc::Global;
use std::test::Fail;

/// Heads and payloads, of which those on stream 1 are read, and what comes of it.
const FRAMES: &[(&[u8; 9], &[u8], &str)] = &[
    (b"\x00\x00\x02\x00\x01\x00\x00\x00\x01", b"hi", "passed"),
    (b"\x00\x00\x02\x00\x01\x00\x00\x00\x01", b"h", "left"),
    (b"\x00\x00\x02\x00\x01\x00\x00\x00\x03", b"hi", "left"),
    (
        b"\x00\x00\x02\x00\x09\x00\x00\x00\x03",
        b"\x02x",
        "PROTOCOL_ERROR",
    ),
    (
        b"\x00\x00\x02\x03\x00\x00\x00\x00\x01",
        b"\x00\x02",
        "FRAME_SIZE_ERROR",
    ),
];

/// Whether a frame is passed on as it was read, in a word.
fn word_of(alloc: Global, nine: &[u8; 9], payload: &[u8]) -> &'static str {
    let mut out = Vec::new(alloc);
    match read_on(1, nine, payload) {
        Ok(Some(frame)) => match pass_on(frame, &mut out) {
            Ok(true) if out[..].starts_with(nine) && out[..].ends_with(payload) => "passed",
            _ => "changed",
        },
        Ok(None) => "left",
        Err(code) => code.name(),
    }
}

/// Whether each frame is passed on, left or refused as it must be, and one on no stream refused.
fn frames_are_passed_on(alloc: Global) -> bool {
    let on_none = FrameRef::Data {
        stream: 0,
        end: false,
        octets: b"",
        pad: None,
    };
    let mut holds = pass_on(on_none, &mut Vec::new(alloc)).is_err();
    for (nine, payload, wanted) in FRAMES {
        holds = holds && word_of(alloc, nine, payload) == *wanted;
    }
    holds
}

/// Field blocks that a decoder takes one after another, and what comes of each.
const BLOCKS: &[(&[u8], &str)] = &[
    (b"\x82\x86\x84", "Ok(true)"),
    (b"\xff\xff\xff\xff\xff\xff", "Err(CompressionError)"),
    (b"\x82\x86\x84", "Err(InternalError)"),
];

/// Whether each block is decoded or refused as it must be.
fn blocks_are_decoded(alloc: Global) -> Result<bool> {
    let mut decoder = Decoder::new(alloc, 4_096)?;
    let mut list = FieldList::new(alloc);
    let mut holds = true;
    for (block, wanted) in BLOCKS {
        let decoded = fields_into(&mut decoder, block, &mut list);
        holds = holds && is_shown(alloc, &decoded, wanted) && list.is_empty() == decoded.is_err();
    }
    Ok(holds)
}

/// Methods of requests, and the status with which a gateway answers each, 0 where it goes on.
const METHODS: &[(&[u8], u16)] = &[(b"PUT", 0), (b"CONNECT", 501), (b" PUT", 400)];

/// The status for a request with a method.
fn status_of(alloc: Global, method: &[u8]) -> Result<u16> {
    let mut request = Message::get(alloc, b"localhost", b"/")?;
    if let Some(field) = request.head.first_mut() {
        field.value = Octets::copy_of(alloc, method)?;
    }
    Ok(check_forwarded(&request).err().unwrap_or(0))
}

/// Whether each method gets its status.
fn requests_are_checked(alloc: Global) -> bool {
    for (method, status) in METHODS {
        if !matches!(status_of(alloc, method), Ok(found) if found == *status) {
            return false;
        }
    }
    true
}

/// Whether settings are those that an end may have.
fn settings_are_chosen() -> bool {
    chosen_config(65_535, 100).is_ok()
        && chosen_config(0, 100).is_err()
        && chosen_config(65_535, 99).is_err()
}

#[test]
fn frames_and_blocks(rt: HostRuntime) -> Result<(), Fail> {
    assert!(rt; frames_are_passed_on(rt.alloc()));
    assert!(rt; blocks_are_decoded(rt.alloc()).unwrap_or(false));
    Ok(())
}

#[test]
fn requests_and_settings(rt: HostRuntime) -> Result<(), Fail> {
    assert!(rt; requests_are_checked(rt.alloc()));
    assert!(rt; settings_are_chosen());
    Ok(())
}
