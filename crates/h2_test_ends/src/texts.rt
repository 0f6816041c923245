//! The texts of refusals and faults, of which cases print the names alone, or nothing.

use h2_ends::{Code, ConnFault, EndRefusal, Malformed, Refusal};
use h2_engines::LinkFault;
use std::alloc::Global;
use std::fmt::Display;

// The rules of messages, and their texts.
const MALFORMED: &[(Malformed, &str)] = &[
    (
        Malformed::BadName,
        "M1 BadName: a field name is empty or has a forbidden octet",
    ),
    (
        Malformed::BadValue,
        "M2 BadValue: a field value has a forbidden octet, or a blank at either end",
    ),
    (
        Malformed::PseudoPlace,
        "M3 PseudoPlace: a pseudo-header field after a regular field, or in trailers",
    ),
    (
        Malformed::PseudoUnknown,
        "M4 PseudoUnknown: a pseudo-header field that this message may not have",
    ),
    (
        Malformed::PseudoTwice,
        "M5 PseudoTwice: a pseudo-header field occurs twice",
    ),
    (
        Malformed::PseudoMissing,
        "M6 PseudoMissing: a required pseudo-header field is missing",
    ),
    (
        Malformed::BadMethod,
        "M7 BadMethod: the method is not a token, or is CONNECT",
    ),
    (
        Malformed::BadPath,
        "M8 BadPath: the path neither begins with '/' nor is '*' with OPTIONS",
    ),
    (
        Malformed::BadStatus,
        "M9 BadStatus: the status is not valid here",
    ),
    (
        Malformed::ConnectionField,
        "M10 ConnectionField: a connection-specific field",
    ),
    (
        Malformed::BadLength,
        "M11 BadLength: content-length is invalid, or not the length of the body",
    ),
    (
        Malformed::BadOrder,
        "M12 BadOrder: the parts of the message are out of order",
    ),
];

// Refusals of a client and a server, and their texts.
const REFUSALS: &[(EndRefusal, &str)] = &[
    (
        EndRefusal::BadMessage(Malformed::PseudoTwice),
        "E1 BadMessage: M5 PseudoTwice: a pseudo-header field occurs twice",
    ),
    (
        EndRefusal::Conn(Refusal::Closed),
        "E2 Conn: C1 Closed: the connection has failed",
    ),
    (
        EndRefusal::NotAsked,
        "E3 NotAsked: the stream has no request to answer, or no open message",
    ),
    (
        EndRefusal::Answered,
        "E4 Answered: the request was answered already",
    ),
];

// Whether a value is printed so.
fn is_printed(alloc: Global, value: &impl Display, expected: &str) -> bool {
    match format!(in alloc; "{value}") {
        Ok(text) => text.as_str() == expected,
        Err(_) => false,
    }
}

// The place of the first value whose text is another.
fn first_wrong<T: Display>(alloc: Global, rows: &[(T, &str)]) -> Option<usize> {
    for (place, (value, text)) in rows.iter().enumerate() {
        if !is_printed(alloc, value, text) {
            return Some(place);
        }
    }
    None
}

#[test]
fn refusals_have_their_texts(rt: HostRuntime) {
    assert_eq!(rt; first_wrong(rt.alloc(), MALFORMED), None);
    assert_eq!(rt; first_wrong(rt.alloc(), REFUSALS), None);
}

#[test]
fn faults_have_their_texts(rt: HostRuntime) {
    let fault = ConnFault {
        code: Code::ProtocolError,
    };
    assert!(rt;
        is_printed(
            rt.alloc(),
            &fault,
            "the connection has failed: PROTOCOL_ERROR"
        )
    );
    assert!(rt; is_printed(rt.alloc(), &LinkFault, "a read or a write has failed"));
}
