//! A request to a handler, and all that it answers.

use h2_server::{Cause, Field, FieldList, Handler, Part, Reply};
use hpack::{Decoder, Encoder, list_size};
use std::alloc::Global;

/// What a request was answered with.
#[derive(Drop)]
pub struct Answer {
    /// The status.
    pub status: Vec<u8>,
    /// The entity tag; nothing where there is none.
    pub tag: Vec<u8>,
    /// The octets of the body.
    pub body: Vec<u8>,
}

/// The list of fields with these names and values.
pub fn list_of(alloc: Global, rows: &[(&[u8], &[u8])]) -> Option<FieldList> {
    let mut fields = Vec::new(alloc);
    for (name, value) in rows {
        let field = Field::copy_of(alloc, name, value, false).ok()?;
        fields.push(field).ok()?;
    }
    if list_size(&fields) >= 1 << 35 {
        return None;
    }
    let mut block = Vec::new(alloc);
    let mut encoder = Encoder::new(alloc, 0).ok()?;
    encoder.encode(&fields, &mut block).ok()?;
    let mut list = FieldList::new(alloc);
    let mut decoder = Decoder::new(alloc, 0).ok()?;
    decoder.decode_into(&block, 65_536, &mut list).ok()?;
    Some(list)
}

/// What a handler answers to a request without a body, with room for so many octets at once.
pub fn ask<W: Drop, H: Handler<Work = W>>(
    alloc: Global,
    handler: &mut H,
    list: &FieldList,
    room: &mut [u8],
) -> Option<Answer> {
    let (mut work, reply) = handler.head(alloc, 1, list, true).ok()?;
    let answer = match reply {
        Reply::Whole(message) | Reply::Refuse(message) => Answer {
            status: status_of(alloc, &message.head)?,
            tag: tag_of(alloc, &message.head)?,
            body: message.body,
        },
        Reply::Parts(head) => Answer {
            status: status_of(alloc, &head)?,
            tag: tag_of(alloc, &head)?,
            body: body_of(alloc, handler, &mut work, room)?,
        },
        _ => return None,
    };
    handler.over(work, Cause::Done);
    Some(answer)
}

/// The body that a handler gives in parts.
fn body_of<W: Drop, H: Handler<Work = W>>(
    alloc: Global,
    handler: &mut H,
    work: &mut W,
    room: &mut [u8],
) -> Option<Vec<u8>> {
    let mut body = Vec::new(alloc);
    for _ in 0..100_000u32 {
        match handler.part(alloc, work, room).ok()? {
            Part::Octets(count) => body.extend_from_slice(room.get(..count)?).ok()?,
            Part::Last(count) => {
                body.extend_from_slice(room.get(..count)?).ok()?;
                return Some(body);
            }
            _ => return None,
        }
    }
    None
}

/// The value of the first field.
fn status_of(alloc: Global, head: &[Field]) -> Option<Vec<u8>> {
    let field = head.first()?;
    Vec::from_slice(alloc, field.value.as_slice()).ok()
}

/// The value of the field `etag`; nothing where there is none.
fn tag_of(alloc: Global, head: &[Field]) -> Option<Vec<u8>> {
    for field in head {
        if field.name.as_slice() == b"etag".as_slice() {
            return Vec::from_slice(alloc, field.value.as_slice()).ok();
        }
    }
    Some(Vec::new(alloc))
}
