//! A file server over any reader and writer, in bounded memory.

use anyhow::Result;
use h2_ends::{Code, Config, EndEvent, EndRefusal, FieldList, Message, Refusal, Server};
use h2_message::{list_asks_head, names_user};
use std::alloc::Global;
use std::io::{BufRead, BufReader, Read, Write};

/// The most octets of a file that are kept.
const PART: usize = 16_384;

/// Where files come from.
pub trait Opener {
    /// A file, whose length need not be known. If a read fails, its stream is reset.
    type File: Read + Drop;

    /// Opens what a request asks for, by the fields of its head; `None` is answered with status
    /// 404, an error with 500.
    fn open(&mut self, head: &FieldList) -> Result<Option<Self::File>>;
}

/// A file under way on a stream. The reader's buffer holds what was read of it and not yet
/// sent.
#[derive(Drop)]
struct Download<F> {
    id: u32,
    file: BufReader<F>,
}

/// The result of sending a part of a file.
#[derive(Clone, Copy)]
enum Part {
    /// The part was sent completely.
    Sent,
    /// Some of the part waits, until the client widens a window or the output is written.
    Waits,
    /// No part is left: the file has ended, or its stream is closed.
    Over,
}

/// The answer to a request.
#[derive(Drop)]
enum Answer<F> {
    /// Status 200, and the file as the body.
    File(F),
    /// A status without a body.
    Status(u16),
}

/// The server of one connection, and the files under way.
#[derive(Drop)]
struct Files<F> {
    alloc: Global,
    server: Server,
    output: Vec<u8>,
    downloads: Vec<Download<F>>,
}

/// Answers each GET on a connection with a file, in parts, and each HEAD with its head, until
/// the input ends. The files take turns, a part each, so that no long one keeps the others
/// waiting, and no input is read while a part can be sent. Memory is bounded by the number of
/// streams, of which a client may have 100 open: 16,384 octets and the open file for each, and
/// the output.
///
/// # Errors
///
/// The connection failed, and its GOAWAY was written; or a read of `from`, a write or an
/// allocation failed; or the server refuses a call, such as the 1,001st reset.
pub fn serve_files<R: Read, W: Write, O: Opener>(
    alloc: Global,
    from: &mut R,
    to: &mut W,
    opener: &mut O,
) -> Result<()> {
    let mut input = vec![in alloc; 0u8; 16_384]?;
    let mut files = Files {
        alloc,
        server: Server::new(alloc, Config::default())?,
        output: Vec::new(alloc),
        downloads: Vec::new(alloc),
    };
    files.serve(&mut input, from, to, opener)
}

// calling: h2_ends parts
/// Sends the next part of a file whose length isn't known before its end. What the windows
/// don't allow stays in the reader's buffer, and nothing is read while the output is full.
fn send_part<F: Read>(server: &mut Server, download: &mut Download<F>) -> Result<Part> {
    if server.is_full() {
        return Ok(Part::Waits);
    }
    let Ok(octets) = download.file.fill_buf() else {
        return give_up(server, download.id);
    };
    let (count, is_end) = (octets.len(), octets.is_empty());
    match server.send_body(download.id, octets, is_end) {
        Ok(_) if is_end => Ok(Part::Over),
        Ok(sent) => {
            download.file.consume(sent);
            Ok(if sent == count {
                Part::Sent
            } else {
                Part::Waits
            })
        }
        Err(EndRefusal::NotAsked) => Ok(Part::Over), // the stream is over
        Err(refusal) => Err(refusal.into()),
    }
}
// end

// calling: h2_ends failing
/// Gives up a response that was begun and can't be ended: the client sees that it is
/// incomplete, and other streams go on.
fn give_up(server: &mut Server, id: u32) -> Result<Part> {
    match server.reset(id, Code::InternalError.number()) {
        Ok(()) | Err(Refusal::NoSuchStream) => Ok(Part::Over),
        Err(refusal) => Err(refusal.into()),
    }
}
// end

/// Returns the answer to a request, by the fields of its head.
fn answer_to<O: Opener>(head: &FieldList, opener: &mut O) -> Answer<O::File> {
    if names_user(head.value(b":authority").unwrap_or(b"")) {
        return Answer::Status(400); // section 8.3.1
    }
    let is_head = list_asks_head(head);
    if !is_head && head.value(b":method") != Some(b"GET") {
        return Answer::Status(501);
    }
    match opener.open(head) {
        Ok(Some(_)) if is_head => Answer::Status(200),
        Ok(Some(file)) => Answer::File(file),
        Ok(None) => Answer::Status(404),
        Err(_) => Answer::Status(500),
    }
}

impl<F: Read + Drop> Files<F> {
    /// Takes what is read, a piece at a time, and sends what can go before each.
    fn serve<R: Read, W: Write, O: Opener<File = F>>(
        &mut self,
        input: &mut [u8],
        from: &mut R,
        to: &mut W,
        opener: &mut O,
    ) -> Result<()> {
        for _ in 0..u64::MAX {
            self.send(to)?;
            let count = from.read(input)?;
            if count == 0 {
                break;
            }
            let taken = self.take_piece(&input[..count], to, opener);
            self.write_out(to)?; // GOAWAY at last, where the connection failed
            taken?;
        }
        Ok(())
    }

    /// Takes what was read, and answers the requests whose heads are in it. Drops the file of a
    /// stream that the client resets.
    fn take_piece<W: Write, O: Opener<File = F>>(
        &mut self,
        piece: &[u8],
        to: &mut W,
        opener: &mut O,
    ) -> Result<()> {
        let mut unused = piece;
        for _ in 0..u64::MAX {
            let taken = self.server.take(unused)?;
            unused = &unused[taken.used..];
            match taken.event {
                Some(EndEvent::Head { id, list, .. }) => {
                    let answer = answer_to(list, opener);
                    self.answer(id, answer, to)?;
                }
                Some(EndEvent::Reset { id, .. }) => {
                    self.downloads.retain(|download| download.id != id);
                }
                None if unused.is_empty() => break, // an event need not use octets
                _ => {}
            }
        }
        self.release(to)
    }

    /// Answers a request. Writes a full output first, which takes no response.
    fn answer<W: Write>(&mut self, id: u32, answer: Answer<F>, to: &mut W) -> Result<()> {
        if self.server.is_full() {
            self.write_out(to)?;
        }
        match answer {
            Answer::Status(status) => {
                let message = Message::response(self.alloc, status)?;
                self.server
                    .respond(id, message)
                    .map_err(|(_, refusal)| refusal)?;
            }
            Answer::File(file) => {
                let file = BufReader::with_capacity(self.alloc, PART, file)?;
                let message = Message::response(self.alloc, 200)?;
                self.server.begin(id, &message.head)?;
                self.downloads.push(Download { id, file })?;
            }
        }
        Ok(())
    }

    /// Returns all credit of bodies, which are dropped.
    fn release<W: Write>(&mut self, to: &mut W) -> Result<()> {
        if self.server.is_full() {
            self.write_out(to)?;
        }
        Ok(self.server.release_all()?)
    }

    /// Sends and writes until no part can go.
    fn send<W: Write>(&mut self, to: &mut W) -> Result<()> {
        for _ in 0..u64::MAX {
            self.send_parts()?;
            if self.write_out(to)? == 0 {
                break;
            }
        }
        Ok(())
    }

    /// Sends a part of each file while the output has room. The next round goes on with the
    /// next file.
    fn send_parts(&mut self) -> Result<()> {
        let mut waiting = 0; // so many wait at the front, and keep their turn
        for _ in 0..self.downloads.len() {
            let Some(download) = self.downloads.get_mut(waiting) else {
                break;
            };
            match send_part(&mut self.server, download)? {
                Part::Waits => waiting += 1,
                Part::Sent => self.downloads[waiting..].rotate_left(1),
                Part::Over => drop(self.downloads.remove(waiting)),
            }
        }
        Ok(())
    }

    /// Writes all queued output, and returns its number of octets.
    fn write_out<W: Write>(&mut self, to: &mut W) -> Result<usize> {
        self.output.clear();
        let count = self.server.put_out(usize::MAX, &mut self.output)?;
        to.write_all(&self.output)?;
        to.flush()?;
        Ok(count)
    }
}
