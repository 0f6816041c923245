//! Where a handler that answers with what was asked doesn't do as `serve_link`.

ghost use Rattle.std.specs.Prelude.{◌≡◌};

use crate::asked::{link_of, place_of};
use crate::serve::echoing::echoes;
use h2_ends::Config;
use h2_engines::serve_link;
use h2_link::LinkError;
use std::alloc::Global;

/// What a client sends that asks for `/` at `u@h`, an authority that names a user: the preface,
/// SETTINGS that change nothing, and HEADERS on stream 1.
const OF_USER: &[u8] = b"\
    PRI * HTTP/2.0\r\n\r\nSM\r\n\r\n\
    \x00\x00\x00\x04\x00\x00\x00\x00\x00\
    \x00\x00\x08\x01\x05\x00\x00\x00\x01\x82\x86\x84\x41\x03u@h";

/// Whether the answer to it is status 400 by a handler's server, and what was asked by
/// `serve_link`. Status 200 is octet 0x88, and 400 0x8c, at the beginning of a block (RFC 7541,
/// appendix A).
fn is_user_refused(alloc: Global) -> bool {
    let (Ok(mut first), Ok(mut second)) = (
        link_of(alloc, OF_USER, 16_384),
        link_of(alloc, OF_USER, 16_384),
    ) else {
        return false;
    };
    let served = serve_link(alloc, &mut first, Config::default());
    let handled = echoes(alloc, &mut second);
    let asked = place_of(first.output(), b"\x00\x00\x00\x01\x88").is_some();
    let refused = place_of(second.output(), b"\x00\x00\x00\x01\x8c").is_some();
    served == Ok(1) && handled == Ok(1) && asked && refused
}

// rule: handlers (own) An authority that names a user is a 400 of which no handler is told
#[test]
fn user_in_an_authority(rt: HostRuntime) {
    assert!(rt; is_user_refused(rt.alloc()));
}

/// What a client sends whose input ends inside a field block: the preface, SETTINGS that change
/// nothing, and HEADERS on stream 1 without END_HEADERS.
const IN_BLOCK: &[u8] = b"\
    PRI * HTTP/2.0\r\n\r\nSM\r\n\r\n\
    \x00\x00\x00\x04\x00\x00\x00\x00\x00\
    \x00\x00\x02\x01\x01\x00\x00\x00\x01\x82\x86";

/// Whether an input that ends there is N4 for a handler's server, and not for `serve_link`.
fn is_cut_in_block(alloc: Global) -> bool {
    let (Ok(mut first), Ok(mut second)) = (
        link_of(alloc, IN_BLOCK, 16_384),
        link_of(alloc, IN_BLOCK, 16_384),
    ) else {
        return false;
    };
    let served = serve_link(alloc, &mut first, Config::default());
    let handled = echoes(alloc, &mut second);
    served == Ok(0) && handled == Err(LinkError::CutOff)
}

// rule: engines (own) N4 comes only where the input ended early
#[test]
fn input_that_ends_in_a_field_block(rt: HostRuntime) {
    assert!(rt; is_cut_in_block(rt.alloc()));
}
