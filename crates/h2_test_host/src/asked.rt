//! What a client sends, and links that give it.

ghost use Rattle.std.specs.Prelude.{◌≡◌, IfOk};

use h2_ends::{Client, Config, Message};
use h2_link::MemoryLink;
use h2_serve::Field;
use std::alloc::{AllocError, Global};

/// All that a client sends that makes these requests at once; none when out of memory.
pub(crate) fn asked(alloc: Global, messages: Vec<Message>) -> Option<Vec<u8>> {
    let mut client = Client::new(alloc, Config::default()).ok()?;
    ask_all(alloc, &mut client, messages)
}

fn ask_all(alloc: Global, client: &mut Client, messages: Vec<Message>) -> Option<Vec<u8>> {
    for message in messages {
        client.request(message).ok()?;
    }
    client.pump().ok()?;
    output_of(alloc, client)
}

/// All output of a client; none when out of memory.
pub(crate) fn output_of(alloc: Global, client: &mut Client) -> Option<Vec<u8>> {
    let mut octets = Vec::new(alloc);
    client.put_out(usize::MAX, &mut octets).ok()?;
    Some(octets)
}

/// A link that gives these octets, at most `most` a read.
pub(crate) fn link_of(alloc: Global, octets: &[u8], most: usize) -> Result<MemoryLink, AllocError>
    ensures { IfOk result (λ link. link.failures ≡ 0) }
{
    let input = Vec::from_slice(alloc, octets)?;
    Ok(MemoryLink::new(alloc, input).with_most(most, usize::MAX))
}

/// The head of a response with status 200.
pub(crate) fn ok_head(alloc: Global) -> Result<Vec<Field>, AllocError> {
    let mut head = Vec::new(alloc);
    head.push(Field::copy_of(alloc, b":status", b"200", false)?)?;
    Ok(head)
}

/// The place of some octets in others, the first one.
pub(crate) fn place_of(octets: &[u8], some: &[u8]) -> Option<usize> {
    for place in 0..octets.len() {
        if octets[place..].starts_with(some) {
            return Some(place);
        }
    }
    None
}
