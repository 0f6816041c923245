//! Serving requests, as a server's end of a connection does.

use crate::counts::Counts;
use h2_conn::{BadConfig, Config, Conn, ConnFault, Event, Refusal};
use hpack::Field;
use std::alloc::{AllocError, Global};

/// Room for the output of a piece.
const OUTPUT_ROOM: usize = 1 << 18;

/// The greatest frame that is read.
const MAX_FRAME: u32 = 1_048_576;

/// The fields of each response, but for its length.
const HEAD: [(&[u8], &[u8]); 2] = [(b":status", b"200"), (b"content-type", b"text/plain")];

/// An allocation of this size shows the driver when to look at what is held.
const MARK: usize = 0x00BE_1C0E;

/// Why no more of the octets is served.
#[derive(Drop)]
enum Stop {
    /// There are no such settings.
    Config,
    /// The connection has failed.
    Connection,
    /// A call was refused.
    Refused,
    /// Out of memory.
    Memory,
}

impl From<BadConfig> for Stop {
    fn from(_bad: BadConfig) -> Stop {
        Stop::Config
    }
}

impl From<ConnFault> for Stop {
    fn from(_fault: ConnFault) -> Stop {
        Stop::Connection
    }
}

impl From<Refusal> for Stop {
    fn from(_refusal: Refusal) -> Stop {
        Stop::Refused
    }
}

impl From<AllocError> for Stop {
    fn from(_error: AllocError) -> Stop {
        Stop::Memory
    }
}

/// The responses, and where output goes.
#[derive(Drop)]
struct Answers {
    head: Vec<Field>,
    body: Vec<u8>,
    output: Vec<u8>,
}

/// Serves the octets.
pub(crate) fn serve_octets(
    alloc: Global,
    octets: &[u8],
    piece: usize,
    body: usize,
    counts: &mut Counts,
) -> i32 {
    match serve(alloc, octets, piece, body, counts) {
        Ok(()) => 0,
        Err(_) => 1,
    }
}

fn serve(
    alloc: Global,
    octets: &[u8],
    piece: usize,
    body: usize,
    counts: &mut Counts,
) -> Result<(), Stop> {
    let mut answers = Answers::new(alloc, body)?;
    answers.serve(alloc, octets, piece, counts)
}

/// A server's end.
fn new_conn(alloc: Global) -> Result<Box<Conn>, Stop> {
    let config = Config::new(4_096, 65_535, 1_000)?.with_max_frame(MAX_FRAME)?;
    let conn = Conn::server(alloc, config)?;
    Box::new(alloc, conn).map_err(|_| Stop::Memory)
}

/// Shows the driver when to look.
pub(crate) fn mark(alloc: Global) -> Result<(), AllocError> {
    let _mark: Vec<u8> = Vec::with_capacity(alloc, MARK)?;
    Ok(())
}

/// Those fields, owned, and the length of the body.
fn answer_head(alloc: Global, body: usize) -> Result<Vec<Field>, AllocError> {
    let mut head = Vec::new(alloc);
    for (name, value) in HEAD {
        head.push(Field::copy_of(alloc, name, value, false)?)?;
    }
    let mut length = String::new(alloc);
    write!(length, "{body}")?;
    head.push(Field::copy_of(alloc, b"content-length", length.as_bytes(), false)?)?;
    Ok(head)
}

impl Answers {
    fn new(alloc: Global, length: usize) -> Result<Answers, AllocError> {
        let body = vec![in alloc; 0x61u8; length]?;
        let output = Vec::with_capacity(alloc, OUTPUT_ROOM)?;
        let head = answer_head(alloc, length)?;
        Ok(Answers { head, body, output })
    }

    /// Serves the octets at a new end. The driver looks before it is made, and at last.
    fn serve(
        &mut self,
        alloc: Global,
        octets: &[u8],
        piece: usize,
        counts: &mut Counts,
    ) -> Result<(), Stop> {
        mark(alloc)?;
        let mut conn = new_conn(alloc)?;
        self.take_all(alloc, &mut conn, octets, piece, counts)
    }

    fn take_all(
        &mut self,
        alloc: Global,
        conn: &mut Conn,
        octets: &[u8],
        piece: usize,
        counts: &mut Counts,
    ) -> Result<(), Stop> {
        let mut unserved = octets;
        for _ in 0..octets.len() {
            if unserved.is_empty() {
                break;
            }
            let (one, following) = unserved.split_at_checked(piece).unwrap_or((unserved, &[]));
            unserved = following;
            self.take_piece(conn, one, counts)?;
        }
        mark(alloc)?;
        Ok(())
    }

    /// Takes a piece, answers the requests that end in it, and puts out.
    fn take_piece(
        &mut self,
        conn: &mut Conn,
        piece: &[u8],
        counts: &mut Counts,
    ) -> Result<(), Stop> {
        let mut used = 0;
        for _ in 0..piece.len() {
            if used >= piece.len() {
                break;
            }
            let taken = conn.take(&piece[used..])?;
            used += taken.used;
            match taken.event {
                Some(Event::Fields { id, end: true, .. }) => self.answer(conn, id, counts)?,
                Some(Event::Data { id, flow, end, .. }) => {
                    self.take_data(conn, id, flow, end, counts)?;
                }
                _ => {}
            }
        }
        self.put_out(conn, counts)
    }

    /// Releases what DATA has taken, and answers the request that it ends.
    fn take_data(
        &mut self,
        conn: &mut Conn,
        id: u32,
        flow: u32,
        end: bool,
        counts: &mut Counts,
    ) -> Result<(), Stop> {
        conn.release(id, flow)?;
        if end {
            self.answer(conn, id, counts)?;
        }
        Ok(())
    }

    /// Answers a request, and puts the response out.
    fn answer(&mut self, conn: &mut Conn, id: u32, counts: &mut Counts) -> Result<(), Stop> {
        conn.fields(id, &self.head, false)?;
        conn.data(id, &self.body, true)?;
        counts.add_one();
        self.put_out(conn, counts)
    }

    fn put_out(&mut self, conn: &mut Conn, counts: &mut Counts) -> Result<(), Stop> {
        self.output.clear();
        let given = conn.put_out(usize::MAX, &mut self.output)?;
        counts.add_octets(given);
        Ok(())
    }
}
