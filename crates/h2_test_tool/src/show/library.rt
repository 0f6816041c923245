//! The library as the README shows it.

use h2_block::{Gather, Gathered};
use h2_wire::Cutter;
use hpack::{Decoder, Field, List};
use std::alloc::Global;
use std::test::Fail;

// The fields of each block that a client sends, whose octets come in pieces of any length.
fn lists_of(alloc: Global, pieces: &[&[u8]]) -> Result<Vec<Vec<Field>>, Fail> {
    let mut cutter = Cutter::new(alloc, 16_384, true);
    let mut gather = Gather::new(alloc);
    let mut decoder = Decoder::new(alloc, 4_096)?;
    let mut lists = Vec::new(alloc);
    for piece in pieces {
        let mut rest = *piece;
        for _ in 0..piece.len() {
            let cut = cutter.cut(rest)?;
            rest = &rest[cut.used..];
            let Some(frame) = cut.frame else { continue };
            if let Gathered::Block { octets, .. } = gather.take(frame)? {
                if let List::Whole(fields) = decoder.decode(&octets, 65_536)? {
                    lists.push(fields)?;
                }
            }
        }
    }
    Ok(lists)
}

#[test]
fn fields_of_a_client(rt: HostRuntime) -> Result<(), Fail> {
    let pieces = [
        b"PRI * HTTP/2.0\r\n\r\nSM\r\n".as_slice(),
        b"\r\n\x00\x00\x00\x04\x00\x00\x00\x00\x00".as_slice(),
        b"\x00\x00\x03\x01\x05\x00\x00\x00\x01\x82\x86\x84".as_slice(),
    ];
    let lists = lists_of(rt.alloc(), pieces.as_slice())?;
    assert_eq!(rt; lists.len(), 1);
    assert_eq!(rt; lists[0].len(), 3);
    assert_eq!(rt; lists[0][0].name.as_slice(), b":method".as_slice());
    assert_eq!(rt; lists[0][0].value.as_slice(), b"GET".as_slice());
    Ok(())
}
