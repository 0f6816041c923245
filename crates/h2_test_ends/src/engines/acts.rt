//! Messages and acts.

use h2_joined::{Field, JointAct, Message, Side};
use std::alloc::{AllocError, Global};

/// A request with GET (RFC 7541, appendix C.4.1).
const GET: &[(&[u8], &[u8])] = &[
    (b":method", b"GET"),
    (b":scheme", b"http"),
    (b":path", b"/"),
    (b":authority", b"www.example.com"),
];

/// Fields.
fn fields(alloc: Global, pairs: &[(&[u8], &[u8])]) -> Result<Vec<Field>, AllocError> {
    let mut list = Vec::new(alloc);
    for (name, value) in pairs {
        list.push(Field::copy_of(alloc, name, value, false)?)?;
    }
    Ok(list)
}

/// The request with GET.
pub(crate) fn get(alloc: Global) -> Result<Message, AllocError> {
    Ok(Message {
        head: fields(alloc, GET)?,
        body: Vec::new(alloc),
        trailers: None,
    })
}

/// A response with four octets of body and trailers.
pub(crate) fn answer(alloc: Global) -> Result<Message, AllocError> {
    Ok(Message {
        head: fields(alloc, &[(b":status", b"200")])?,
        body: Vec::from_slice(alloc, &[0, 1, 2, 3])?,
        trailers: Some(fields(alloc, &[(b"x", b"y")])?),
    })
}

/// A request whose answer is on its way; a refused act stands among them.
pub(crate) fn acts(alloc: Global) -> Result<Vec<JointAct>, AllocError> {
    let mut acts = Vec::new(alloc);
    acts.push(JointAct::Respond {
        id: 1,
        message: answer(alloc)?,
    })?;
    acts.push(JointAct::Request(get(alloc)?))?;
    acts.push(JointAct::Move {
        from: Side::Client,
        count: 100,
    })?;
    acts.push(JointAct::Deliver {
        to: Side::Server,
        count: 100,
    })?;
    acts.push(JointAct::Respond {
        id: 1,
        message: answer(alloc)?,
    })?;
    acts.push(JointAct::Pump(Side::Server))?;
    acts.push(JointAct::Move {
        from: Side::Server,
        count: 70,
    })?;
    acts.push(JointAct::Deliver {
        to: Side::Client,
        count: 60,
    })?;
    acts.push(JointAct::Move {
        from: Side::Client,
        count: 5,
    })?;
    Ok(acts)
}
