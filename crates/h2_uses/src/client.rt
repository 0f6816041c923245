//! A client over any reader and writer.

use anyhow::Result;
use h2_ends::{Client, Config, EndEvent, EndRefusal, FieldList, Message, Refusal};
use std::alloc::Global;
use std::collections::BTreeMap;
use std::io::{Read, Write};

/// The part of a response that has come so far.
#[derive(Drop)]
pub struct Response {
    /// Its status, such as `200`.
    pub status: Vec<u8>,
    /// The octets of its body.
    pub body: Vec<u8>,
    /// Whether it is complete.
    pub is_whole: bool,
    /// Whether no more of it comes: it is complete, its stream was reset, or the server has not
    /// processed the request.
    pub is_over: bool,
}

/// Sends a GET for each path on one connection. Returns what has come, by stream (1, 3, 5 and
/// so on), once all responses are over or the input has ended.
///
/// # Errors
///
/// The connection failed, and its GOAWAY was written; or a read, a write or an allocation
/// failed; or there are more paths than streams that the server takes: 100 until its SETTINGS
/// have come.
pub fn get<R: Read, W: Write>(
    alloc: Global,
    from: &mut R,
    to: &mut W,
    paths: &[&[u8]],
) -> Result<BTreeMap<u32, Response>> {
    let mut input = vec![in alloc; 0u8; 16_384]?;
    let mut responses = BTreeMap::new(alloc);
    let mut client = Client::new(alloc, Config::default())?;
    for path in paths {
        ask(alloc, &mut client, path, &mut responses)?;
    }
    read_responses(alloc, &mut client, &mut input, from, to, &mut responses)?;
    Ok(responses)
}

/// Takes what is read, a piece at a time, until the responses are over.
fn read_responses<R: Read, W: Write>(
    alloc: Global,
    client: &mut Client,
    input: &mut [u8],
    from: &mut R,
    to: &mut W,
    responses: &mut BTreeMap<u32, Response>,
) -> Result<()> {
    send(alloc, client, to)?; // the preface, SETTINGS and the requests
    for _ in 0..u64::MAX {
        let count = from.read(input)?;
        let taken = take_piece(alloc, client, &input[..count], to, responses);
        let sent = send(alloc, client, to); // GOAWAY at last, where the connection failed
        taken?;
        sent?;
        if count == 0 || are_over(responses) {
            break;
        }
    }
    Ok(())
}

/// Returns whether all responses are over.
fn are_over(responses: &BTreeMap<u32, Response>) -> bool {
    responses.values().all(|response| response.is_over)
}

/// Asks for a path.
fn ask(
    alloc: Global,
    client: &mut Client,
    path: &[u8],
    responses: &mut BTreeMap<u32, Response>,
) -> Result<()> {
    match client.request(Message::get(alloc, b"localhost", path)?) {
        Ok(id) => {
            responses.insert(id, Response::new(alloc))?;
            Ok(())
        }
        Err((_, refusal)) => Err(refusal.into()),
    }
}

/// Takes what was read, and keeps what it adds to the responses.
fn take_piece<W: Write>(
    alloc: Global,
    client: &mut Client,
    piece: &[u8],
    to: &mut W,
    responses: &mut BTreeMap<u32, Response>,
) -> Result<()> {
    let mut unused = piece;
    for _ in 0..u64::MAX {
        let taken = client.take(unused)?;
        unused = &unused[taken.used..];
        match taken.event {
            Some(event) => keep(responses, event)?,
            None if unused.is_empty() => break, // an event need not use octets
            None => {}
        }
    }
    release(alloc, client, to)
}

/// Keeps what an event adds to the response on its stream.
fn keep(responses: &mut BTreeMap<u32, Response>, event: EndEvent<&FieldList, &[u8]>) -> Result<()> {
    let id = match event {
        EndEvent::Head { id, .. } | EndEvent::Body { id, .. } | EndEvent::Trailers { id, .. } => id,
        EndEvent::Reset { id, .. } | EndEvent::Unprocessed { id } => id,
        _ => return Ok(()),
    };
    match responses.get_mut(&id) {
        Some(response) => response.keep(event),
        None => Ok(()),
    }
}

impl Response {
    fn new(alloc: Global) -> Response {
        Response {
            status: Vec::new(alloc),
            body: Vec::new(alloc),
            is_whole: false,
            is_over: false,
        }
    }

    /// Keeps what an event adds.
    fn keep(&mut self, event: EndEvent<&FieldList, &[u8]>) -> Result<()> {
        match event {
            EndEvent::Head { list, end, .. } => {
                self.status
                    .extend_from_slice(list.value(b":status").unwrap_or(b""))?;
                self.is_whole = end;
            }
            EndEvent::Body { bytes, end, .. } => {
                self.body.extend_from_slice(bytes)?;
                self.is_whole = end;
            }
            EndEvent::Trailers { .. } => self.is_whole = true,
            _ => self.is_over = true,
        }
        self.is_over = self.is_over || self.is_whole;
        Ok(())
    }
}

/// Returns all credit. A full output is sent first, so that there is room for it.
fn release<W: Write>(alloc: Global, client: &mut Client, to: &mut W) -> Result<()> {
    match client.release_all() {
        Err(EndRefusal::Conn(Refusal::OutputFull)) => {
            send(alloc, client, to)?;
            Ok(client.release_all()?)
        }
        released => Ok(released?),
    }
}

/// Sends what windows allow, and writes all queued output.
fn send<W: Write>(alloc: Global, client: &mut Client, to: &mut W) -> Result<()> {
    let mut output = Vec::new(alloc);
    send_into(client, &mut output, to)
}

fn send_into<W: Write>(client: &mut Client, output: &mut Vec<u8>, to: &mut W) -> Result<()> {
    for _ in 0..u64::MAX {
        let pumped = client.pump();
        let count = write_out(client, output, to)?;
        pumped?; // after a fault of the connection, once its GOAWAY is written
        if count == 0 {
            break;
        }
    }
    Ok(())
}

/// Writes all queued output, and returns its number of octets.
fn write_out<W: Write>(client: &mut Client, output: &mut Vec<u8>, to: &mut W) -> Result<usize> {
    output.clear();
    let count = client.put_out(usize::MAX, output)?;
    to.write_all(output)?;
    to.flush()?;
    Ok(count)
}
