//! What takes no memory, with all allocations refused.

use crate::end::{End, Kind, new_end};
use crate::record::{Record, Scenario, takes_no_memory};
use crate::walk::take_all;
use h2_block::{Gather, Gathered};
use h2_flow::{Settings, StreamState, Window};
use h2_frame::{FrameRef, write_ref};
use h2_spec_log::Role;
use h2_wire::Cutter;
use hpack_text::{huff_read, read_string};
use std::alloc::{AllocError, Global};

/// A complete frame of each type, whatever a connection does with it.
const FRAMES: &[&[u8]] = &[
    b"\x00\x00\x03\x00\x01\x00\x00\x00\x01abc",
    b"\x00\x00\x05\x00\x09\x00\x00\x00\x01\x02ab\x00\x00",
    b"\x00\x00\x01\x01\x05\x00\x00\x00\x01\x82",
    b"\x00\x00\x05\x02\x00\x00\x00\x00\x01\x00\x00\x00\x00\x0f",
    b"\x00\x00\x04\x03\x00\x00\x00\x00\x01\x00\x00\x00\x08",
    b"\x00\x00\x06\x04\x00\x00\x00\x00\x00\x00\x04\x00\x00\xff\xff",
    b"\x00\x00\x08\x06\x00\x00\x00\x00\x00abcdefgh",
    b"\x00\x00\x08\x07\x00\x00\x00\x00\x00\x00\x00\x00\x01\x00\x00\x00\x00",
    b"\x00\x00\x04\x08\x00\x00\x00\x00\x00\x00\x00\x00\x01",
    b"\x00\x00\x01\x09\x04\x00\x00\x00\x01\x84",
    b"\x00\x00\x03\x20\x00\x00\x00\x00\x01abc",
];

/// A cutter that holds nothing and expects no preface lends a complete frame from its piece.
#[derive(Drop)]
struct Lending;

/// Whether a cutter lends a frame that is all of the piece.
fn lends(cutter: &mut Cutter, piece: &[u8]) -> bool {
    match cutter.cut(piece) {
        Ok(cut) => cut.used == piece.len() && cut.frame.is_some(),
        Err(_) => false,
    }
}

/// Notes the frame that a cutter lends of a piece that has it and more.
fn note_lent(cutter: &mut Cutter, piece: &[u8], record: &mut Record) {
    if let Ok(cut) = cutter.cut(piece)
        && let Some(FrameRef::Data { octets, .. }) = cut.frame
    {
        record.note_octets(octets);
    }
}

/// The preface but for its last octet, cut in two.
const PREFACE: [&[u8]; 2] = [b"PRI * HTTP/2", b".0\r\n\r\nSM\r\n\r"];

/// Notes how much of the preface a cutter that expects it holds.
fn note_preface(cutter: &mut Cutter, record: &mut Record) {
    for piece in PREFACE {
        record.check(cutter.cut(piece).is_ok());
    }
    record.check(cutter.held() == 23 && !cutter.is_past_preface());
}

impl Scenario for Lending {
    fn run(&mut self, record: &mut Record) {
        note_preface(&mut Cutter::new(record.alloc, 16_384, true), record);
        let mut cutter = Cutter::new(record.alloc, 16_384, false);
        for piece in FRAMES {
            record.check(lends(&mut cutter, piece));
            record.check(cutter.held() == 0);
        }
        note_lent(&mut cutter, b"\0\0\x01\0\0\0\0\0\x01a\0", record);
    }
}

/// A frame that is no part of a field block.
const PING: FrameRef<'static> = FrameRef::Ping {
    ack: false,
    octets: *b"abcdefgh",
};

/// A frame that a gatherer passes on, and that is written to an output with room for it.
#[derive(Drop)]
struct Passing {
    out: Vec<u8>,
}

/// Whether a gatherer passes a frame on.
fn passes(gather: &mut Gather, frame: FrameRef<'_>) -> bool {
    matches!(gather.take(frame), Ok(Gathered::Pass(passed)) if passed == frame)
}

impl Scenario for Passing {
    fn run(&mut self, record: &mut Record) {
        record.check(passes(&mut Gather::new(record.alloc), PING));
        record.check(write_ref(PING, &mut self.out).is_ok());
        record.put_out(&self.out);
    }
}

/// What `h2_flow` decides, and texts that have no octets.
#[derive(Drop)]
struct Flow;

/// Notes windows.
fn note_windows(record: &mut Record) {
    let mut window = Window::new(65_535);
    record.check(window.take(65_535).is_ok() && window.take(1).is_err());
    record.check(window.give(70_000).is_ok() && window.give(u32::MAX).is_err());
    record.check(window.shift(-70_001).is_ok() && window.value() == -1);
}

/// Notes settings.
fn note_settings(record: &mut Record) {
    let mut settings = Settings::first();
    for id in 0..8 {
        let applied = settings.apply(Role::Client, id, 20_000);
        record.check(applied.is_ok() == (id != 2));
    }
    record.check(settings.initial_window_size == 20_000 && settings.max_frame_size == 20_000);
    record.check(settings.max_concurrent_streams == Some(20_000));
}

/// Notes the state of a stream.
fn note_states(record: &mut Record) {
    let mut state = StreamState::open();
    record.check(state.end_in().is_ok() && state.end_in().is_err() && !state.closed());
    record.check(state.end_out().is_ok() && state.end_out().is_err() && state.closed());
}

/// Whether no octets encode the empty text.
fn is_empty_text(alloc: Global) -> bool {
    match huff_read(alloc, b"") {
        Ok(text) => text.is_empty(),
        Err(_) => false,
    }
}

/// Whether an octet is the empty string.
fn is_empty_string(alloc: Global, octet: &[u8]) -> bool {
    match read_string(alloc, octet) {
        Ok((text, count)) => text.is_empty() && count == 1,
        Err(_) => false,
    }
}

/// Notes texts that have no octets.
fn note_texts(record: &mut Record) {
    record.check(is_empty_text(record.alloc));
    record.check(is_empty_string(record.alloc, b"\x00"));
    record.check(is_empty_string(record.alloc, b"\x80"));
}

impl Scenario for Flow {
    fn run(&mut self, record: &mut Record) {
        note_texts(record);
        note_windows(record);
        note_settings(record);
        note_states(record);
    }
}

/// What a client sends first: the preface with SETTINGS, and POST on stream 1.
const OPENING: &[u8] = b"PRI * HTTP/2.0\r\n\r\nSM\r\n\r\n\x00\x00\x00\x04\x00\x00\x00\x00\x00";

const POST_1: &[u8] = b"\x00\x00\x03\x01\x04\x00\x00\x00\x01\x83\x86\x84";

/// Frames that need no memory: PRIORITY, two of an unknown type, of which one is long, the answer
/// to PING and another one, WINDOW_UPDATE of the connection and of stream 1, and DATA on stream 1,
/// with octets, padded, and empty.
const FREE: &[&[u8]] = &[
    b"\x00\x00\x05\x02\x00\x00\x00\x00\x01\x00\x00\x00\x00\x0f",
    b"\x00\x00\x03\x20\x00\x00\x00\x00\x00abc",
    b"\x00\x00\x64\x20\xff\x00\x00\x00\x01\
        0123456789012345678901234567890123456789012345678901234567890123456789\
        012345678901234567890123456789",
    b"\x00\x00\x08\x06\x01\x00\x00\x00\x0012345678",
    b"\x00\x00\x08\x06\x01\x00\x00\x00\x00abcdefgh",
    b"\x00\x00\x04\x08\x00\x00\x00\x00\x00\x00\x00\x00\x01",
    b"\x00\x00\x04\x08\x00\x00\x00\x00\x01\x00\x00\x00\x01",
    b"\x00\x00\x03\x00\x00\x00\x00\x00\x01abc",
    b"\x00\x00\x04\x00\x08\x00\x00\x00\x01\x01ab\x00",
    b"\x00\x00\x00\x00\x00\x00\x00\x00\x01",
];

/// An end that has a stream open, awaits the answer to PING, and holds no octets.
#[derive(Drop)]
struct Ready {
    end: Option<End>,
}

/// Whether an end takes all of a frame.
fn takes(end: &mut End, frame: &[u8], record: &mut Record) -> bool {
    match end.take(frame, record) {
        Ok((used, _)) => used == frame.len(),
        Err(_) => false,
    }
}

/// Takes the frames that need no memory, of which three, with seven octets, are reported as DATA.
fn take_free(end: &mut End, record: &mut Record) {
    record.check(end.conn().held() == 0);
    for frame in FREE {
        let is_taken = takes(end, frame, record);
        record.check(is_taken);
    }
    record.check(end.conn().owed(1) == 7);
}

impl Scenario for Ready {
    fn run(&mut self, record: &mut Record) {
        match &mut self.end {
            Some(end) => take_free(end, record),
            None => record.check(false),
        }
    }
}

/// Opens a stream at an end, sends PING, and puts all out.
fn open_stream(end: &mut End, record: &mut Record) {
    take_all(end, OPENING, record);
    take_all(end, POST_1, record);
    let _pinged = end.ping();
    let _given = end.put_out(usize::MAX, record);
}

/// A server's connection, or a server, that is ready.
fn new_ready(kind: Kind, record: &mut Record) -> Ready {
    let mut end = new_end(kind, record);
    if let Some(made) = &mut end {
        open_stream(made, record);
    }
    Ready { end }
}

/// Whether another end takes frames that need no memory without any, and the first as it does.
fn takes_as(first: &mut Ready, kind: Kind, record: &mut Record) -> bool {
    let mut second = new_ready(kind, record);
    takes_no_memory(record.alloc, first, &mut second)
}

/// Whether one of two ends takes frames that need no memory without any.
fn one_takes(kind: Kind, record: &mut Record) -> bool {
    let mut first = new_ready(kind, record);
    takes_as(&mut first, kind, record)
}

/// Whether an end takes frames that need no memory without any.
fn end_keeps(alloc: Global, kind: Kind) -> bool {
    match Record::new(alloc) {
        Ok(mut record) => one_takes(kind, &mut record),
        Err(AllocError) => false,
    }
}

/// Whether a cutter lends without memory.
fn cutter_keeps(alloc: Global) -> bool {
    takes_no_memory(alloc, &mut Lending, &mut Lending)
}

/// An output with room for a frame.
fn new_passing(alloc: Global) -> Result<Passing, AllocError> {
    Ok(Passing {
        out: Vec::with_capacity(alloc, 17)?,
    })
}

/// Whether a frame is passed on and written without memory.
fn passing_keeps(alloc: Global) -> Result<bool, AllocError> {
    Ok(takes_no_memory(alloc, &mut new_passing(alloc)?, &mut new_passing(alloc)?))
}

/// Whether `h2_flow` and texts that have no octets take no memory.
fn flow_keeps(alloc: Global) -> bool {
    takes_no_memory(alloc, &mut Flow, &mut Flow)
}

// rule: 3.4 (own) No octet of the preface is stored, so memory is not refused in it
// rule: 4.1 (own) A frame whole in its piece is lent from there and takes no memory
#[test]
fn a_cutter_without_memory(rt: HostRuntime) {
    assert!(rt; cutter_keeps(rt.alloc()));
}

// rule: 4.1 (own) With room in the output memory is not refused to a frame
// rule: 4.3 Frames that are no part of a block pass and need no memory
#[test]
fn a_frame_without_memory(rt: HostRuntime) {
    assert!(rt; passing_keeps(rt.alloc()).unwrap_or(false));
}

// rule: HPACK 5.2 (own) A text without octets is read without memory
#[test]
fn windows_settings_and_texts_without_memory(rt: HostRuntime) {
    assert!(rt; flow_keeps(rt.alloc()));
}

// rule: 5.4 (own) A frame whole in its piece that needs no memory is never refused any
#[test]
fn a_connection_without_memory(rt: HostRuntime) {
    assert!(rt; end_keeps(rt.alloc(), Kind::ConnOfServer));
}

// rule: 5.4 (own) A frame whole in its piece that needs no memory is never refused any
#[test]
fn a_server_without_memory(rt: HostRuntime) {
    assert!(rt; end_keeps(rt.alloc(), Kind::Server));
}
