//! Fields and messages.

use h2_ends::{Field, Message};
use std::alloc::{AllocError, Global};

/// A name and a value.
pub(crate) type Pair = (&'static [u8], &'static [u8]);

/// A request with GET (RFC 7541, appendix C.4.1).
const GET: &[Pair] = &[
    (b":method", b"GET"),
    (b":scheme", b"http"),
    (b":path", b"/"),
    (b":authority", b"www.example.com"),
];

/// A response.
const ANSWER: &[Pair] = &[(b":status", b"200"), (b"server", b"belkjoef")];

/// Trailers.
const TRAILERS: &[Pair] = &[(b"x-sum", b"0123456789")];

/// The number of octets of a long body.
const LONG: usize = 70_000;

/// Fields.
pub(crate) fn fields(alloc: Global, pairs: &[Pair]) -> Result<Vec<Field>, AllocError> {
    let mut list = Vec::with_capacity(alloc, pairs.len())?;
    for (name, value) in pairs {
        list.push(Field::copy_of(alloc, name, value, false)?)?;
    }
    Ok(list)
}

/// A part of a body. No power of two divides its length.
const PART: &[u8] = b"The quick brown fox jumps over the lazy dog. ";

/// `count` octets of a body.
fn octets(alloc: Global, count: usize) -> Result<Vec<u8>, AllocError> {
    let mut octets = Vec::with_capacity(alloc, count)?;
    for _ in 0..count {
        let others = count.saturating_sub(octets.len());
        octets.extend_from_slice(PART.get(..others).unwrap_or(PART))?;
        if octets.len() >= count {
            break;
        }
    }
    Ok(octets)
}

/// Fields and octets that are sent.
#[derive(Drop)]
pub(crate) struct Lists {
    pub(crate) request: Vec<Field>,
    pub(crate) answer: Vec<Field>,
    pub(crate) trailers: Vec<Field>,
    pub(crate) body: Vec<u8>,
}

impl Lists {
    /// Those of a GET, its response, trailers, and a long body.
    pub(crate) fn new(alloc: Global) -> Result<Lists, AllocError> {
        Ok(Lists {
            request: fields(alloc, GET)?,
            answer: fields(alloc, ANSWER)?,
            trailers: fields(alloc, TRAILERS)?,
            body: octets(alloc, LONG)?,
        })
    }
}

/// A request without a body.
pub(crate) fn get(alloc: Global) -> Result<Message, AllocError> {
    Ok(Message {
        head: fields(alloc, GET)?,
        body: Vec::new(alloc),
        trailers: None,
    })
}

/// A request with a body of `count` octets, and trailers.
pub(crate) fn request(alloc: Global, count: usize) -> Result<Message, AllocError> {
    Ok(Message {
        head: fields(alloc, GET)?,
        body: octets(alloc, count)?,
        trailers: Some(fields(alloc, TRAILERS)?),
    })
}

/// A response with a body of `count` octets, and trailers.
pub(crate) fn answer(alloc: Global, count: usize) -> Result<Message, AllocError> {
    Ok(Message {
        head: fields(alloc, ANSWER)?,
        body: octets(alloc, count)?,
        trailers: Some(fields(alloc, TRAILERS)?),
    })
}

/// Whether two lists of fields are the same.
fn are_same(one: &[Field], other: &[Field]) -> bool {
    let mut same = one.len() == other.len();
    for (first, second) in one.iter().zip(other.iter()) {
        same = first.name.as_slice() == second.name.as_slice() && same;
        same = first.value.as_slice() == second.value.as_slice() && same;
        same = first.sensitive == second.sensitive && same;
    }
    same
}

/// The trailers of a message; none where it has none.
pub(crate) fn trailers_of(message: &Message) -> &[Field] {
    match &message.trailers {
        Some(fields) => fields,
        None => &[],
    }
}

/// Whether two messages are the same.
pub(crate) fn is_same(one: &Message, other: &Message) -> bool {
    are_same(&one.head, &other.head)
        && one.body.as_slice() == other.body.as_slice()
        && are_same(trailers_of(one), trailers_of(other))
}
