//! The texts of errors that no case prints, and their codes.

use h2_block::BlockFault;
use h2_frame::{Code, PayloadError, Unwritable};
use h2_spec_log::{Refusal, Role};
use h2_wire::WireFault;
use hpack::Fault;
use hpack_text::TextFault;
use std::alloc::Global;
use std::fmt::Display;

// Whether a value is printed so.
fn is_printed(alloc: Global, value: &impl Display, expected: &str) -> bool {
    match format!(in alloc; "{value}") {
        Ok(text) => text.as_str() == expected,
        Err(_) => false,
    }
}

// Whether the errors of refused allocations in HPACK have their texts.
fn are_printed_in_hpack(alloc: Global) -> bool {
    is_printed(alloc, &TextFault::Memory, "X5 Memory: out of memory")
        && is_printed(alloc, &Fault::Memory, "P2 Memory: out of memory")
}

// Whether those of refused allocations in frames have.
fn are_printed_in_frames(alloc: Global) -> bool {
    is_printed(alloc, &Unwritable::Memory, "F4 Memory: out of memory")
        && is_printed(alloc, &WireFault::Memory, "V4 Memory: out of memory")
        && is_printed(alloc, &BlockFault::Memory, "B4 Memory: out of memory")
}

#[test]
fn refused_allocations_have_their_texts(rt: HostRuntime) {
    assert!(rt; are_printed_in_hpack(rt.alloc()) && are_printed_in_frames(rt.alloc()));
}

// rule: 5.4 (own) Out of memory is INTERNAL_ERROR
#[test]
fn refused_allocations_have_their_code(rt: HostRuntime) {
    assert!(rt;
        WireFault::Memory.code() == Code::InternalError
            && BlockFault::Memory.code() == Code::InternalError
    );
}

#[test]
fn faults_of_payloads_have_their_texts(rt: HostRuntime) {
    let error = PayloadError::Code(Code::ProtocolError);
    assert!(rt; is_printed(rt.alloc(), &error, "invalid payload: PROTOCOL_ERROR"));
    let text = "F1 TooLong: the payload is longer than 16777215 octets";
    assert!(rt; is_printed(rt.alloc(), &Unwritable::TooLong, text));
}

// Refusals and their texts: cases print their names alone.
const REFUSALS: &[(Refusal, &str)] = &[
    (Refusal::Closed, "C1 Closed: the connection has failed"),
    (
        Refusal::NoSuchStream,
        "C2 NoSuchStream: the stream is idle or closed",
    ),
    (
        Refusal::Ended,
        "C3 Ended: END_STREAM was already sent on the stream",
    ),
    (
        Refusal::TooManyStreams,
        "C4 TooManyStreams: the peer allows no more concurrent streams",
    ),
    (
        Refusal::StreamsExhausted,
        "C5 StreamsExhausted: no stream number is left",
    ),
    (
        Refusal::GoingAway,
        "C6 GoingAway: GOAWAY was sent or received",
    ),
    (
        Refusal::OutputFull,
        "C7 OutputFull: 65,536 octets of output or more are waiting",
    ),
    (
        Refusal::PingWaits,
        "C8 PingWaits: the last PING is not answered yet",
    ),
    (
        Refusal::TooManyResets,
        "C9 TooManyResets: 1,000 streams were already reset",
    ),
    (
        Refusal::ListTooLarge,
        "C10 ListTooLarge: the field list is larger than 65,536 octets",
    ),
    (
        Refusal::NotOwed,
        "C11 NotOwed: the count is 0, or more than is owed on the stream",
    ),
    (Refusal::Memory, "C12 Memory: out of memory"),
    (
        Refusal::SettingsWait,
        "C13 SettingsWait: the last SETTINGS are not acknowledged yet",
    ),
    (
        Refusal::WindowTooLarge,
        "C14 WindowTooLarge: the count is 0, or would widen the window above 2^31 - 1",
    ),
];

// The place of the first refusal whose text is another.
fn first_wrong(alloc: Global) -> Option<usize> {
    for (place, (refusal, text)) in REFUSALS.iter().enumerate() {
        if !is_printed(alloc, refusal, text) {
            return Some(place);
        }
    }
    None
}

#[test]
fn refusals_have_their_texts(rt: HostRuntime) {
    assert_eq!(rt; first_wrong(rt.alloc()), None);
}

#[test]
fn roles_differ(rt: HostRuntime) {
    assert!(rt; Role::Client != Role::Server);
}
