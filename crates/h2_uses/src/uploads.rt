//! An upload over any reader and writer, with back-pressure.

use anyhow::{Result, bail, ensure};
use h2_ends::{Client, Code, Config, EndEvent, FieldList, Message, Refusal};
use std::alloc::Global;
use std::io::{BufRead, BufReader, Read, Write};

/// The most octets of the source that are kept.
const PART: usize = 16_384;

/// The server's response to an upload.
#[derive(Drop)]
pub struct Uploaded {
    /// The status, such as `200`.
    pub status: Vec<u8>,
    /// The octets of the body.
    pub body: Vec<u8>,
}

/// The part of a response that has come so far.
#[derive(Drop)]
struct Coming {
    uploaded: Uploaded,
    /// How many more octets the body may have.
    room: usize,
    is_whole: bool,
}

/// An upload under way. The reader's buffer holds what was read of its source and not yet sent.
#[derive(Drop)]
struct Sending<S> {
    client: Client,
    id: u32,
    source: BufReader<S>,
    is_sent: bool,
    output: Vec<u8>,
    coming: Coming,
}

/// Posts what a source gives, whose length need not be known, on a new connection. Returns the
/// response, whose body has at most `limit` octets. The source is read no faster than the
/// server takes it, and input is read where nothing can be sent. A server may respond before it
/// has read all (RFC 9113, section 8.1): then the rest is not sent.
///
/// # Errors
///
/// The connection failed; the stream was reset or not processed; the input ended before the
/// response; the response is too long; or a read, a write or an allocation failed. The stream
/// is reset, where it can be.
pub fn upload<R: Read, W: Write, S: Read + Drop>(
    alloc: Global,
    from: &mut R,
    to: &mut W,
    authority: &[u8],
    path: &[u8],
    source: S,
    limit: usize,
) -> Result<Uploaded> {
    let mut input = vec![in alloc; 0u8; 16_384]?;
    let source = BufReader::with_capacity(alloc, PART, source)?;
    let (client, id) = begun(alloc, authority, path)?;
    let mut sending = Sending {
        client,
        id,
        source,
        is_sent: false,
        output: Vec::new(alloc),
        coming: Coming::new(alloc, limit),
    };
    sending.run(from, to, &mut input)?;
    Ok(sending.coming.uploaded)
}

/// Makes a client and begins the request; returns the client and the stream.
fn begun(alloc: Global, authority: &[u8], path: &[u8]) -> Result<(Client, u32)> {
    let request = Message::request(alloc, b"POST", authority, path)?;
    let mut client = Client::new(alloc, Config::default())?;
    let id = client.begin(&request.head)?;
    Ok((client, id))
}

impl Coming {
    fn new(alloc: Global, limit: usize) -> Coming {
        Coming {
            uploaded: Uploaded {
                status: Vec::new(alloc),
                body: Vec::new(alloc),
            },
            room: limit,
            is_whole: false,
        }
    }

    /// Keeps what an event adds. There is one stream.
    fn keep(&mut self, event: EndEvent<&FieldList, &[u8]>) -> Result<()> {
        match event {
            EndEvent::Head { list, end, .. } => {
                let status = list.value(b":status").unwrap_or(b"");
                self.uploaded.status.extend_from_slice(status)?;
                self.is_whole = end;
            }
            EndEvent::Body { bytes, end, .. } => {
                ensure!(bytes.len() <= self.room, "the answer is too long");
                self.room -= bytes.len();
                self.uploaded.body.extend_from_slice(bytes)?;
                self.is_whole = end;
            }
            EndEvent::Trailers { .. } => self.is_whole = true,
            EndEvent::Reset { code, .. } => bail!("the stream was reset with code {code}"),
            EndEvent::Unprocessed { .. } => bail!("the server has not processed the request"),
            _ => {}
        }
        Ok(())
    }
}

impl<S: Read + Drop> Sending<S> {
    /// Sends and reads until the response is complete or the upload fails. Then resets the
    /// stream, unless both sides have ended it.
    fn run<R: Read, W: Write>(&mut self, from: &mut R, to: &mut W, input: &mut [u8]) -> Result<()> {
        match self.exchange(from, to, input) {
            Ok(()) => self.leave(to, Code::NoError),
            Err(error) => {
                let _ = self.leave(to, Code::Cancel);
                Err(error)
            }
        }
    }

    /// Sends and reads in turn, until the response is complete.
    fn exchange<R: Read, W: Write>(
        &mut self,
        from: &mut R,
        to: &mut W,
        input: &mut [u8],
    ) -> Result<()> {
        for _ in 0..u64::MAX {
            self.send(to)?;
            let count = from.read(input)?;
            ensure!(count > 0, "the input has ended before the answer");
            self.take_piece(&input[..count])?;
            if self.coming.is_whole {
                break;
            }
        }
        Ok(())
    }

    /// Sends and writes until nothing can go.
    fn send<W: Write>(&mut self, to: &mut W) -> Result<()> {
        for _ in 0..u64::MAX {
            self.send_part()?;
            if self.write_out(to)? == 0 {
                break;
            }
        }
        Ok(())
    }

    /// Sends the next octets of the body, or its end, as far as the windows allow.
    fn send_part(&mut self) -> Result<()> {
        if !self.is_sent {
            let octets = self.source.fill_buf()?;
            let is_end = octets.is_empty();
            let count = self.client.send_body(self.id, octets, is_end)?;
            self.source.consume(count);
            self.is_sent = is_end;
        }
        Ok(())
    }

    /// Takes what was read, up to the end of the response, and returns credit.
    fn take_piece(&mut self, piece: &[u8]) -> Result<()> {
        let mut unused = piece;
        for _ in 0..u64::MAX {
            let taken = self.client.take(unused)?;
            unused = &unused[taken.used..];
            match taken.event {
                Some(event) => self.coming.keep(event)?,
                None if unused.is_empty() => break, // an event need not use octets
                None => {}
            }
            if self.coming.is_whole {
                break;
            }
        }
        Ok(self.client.release_all()?)
    }

    /// Resets the stream, unless both sides have ended it, and writes what waits.
    fn leave<W: Write>(&mut self, to: &mut W, code: Code) -> Result<()> {
        match self.client.reset(self.id, code.number()) {
            Ok(()) | Err(Refusal::NoSuchStream | Refusal::Closed) => {}
            Err(refusal) => return Err(refusal.into()),
        }
        self.write_out(to)?;
        Ok(())
    }

    /// Writes all queued output, and returns its number of octets.
    fn write_out<W: Write>(&mut self, to: &mut W) -> Result<usize> {
        self.output.clear();
        let count = self.client.put_out(usize::MAX, &mut self.output)?;
        to.write_all(&self.output)?;
        to.flush()?;
        Ok(count)
    }
}
