//! Serving requests, as a server of messages does: bodies given whole, or in parts.

use crate::counts::Counts;
use anyhow::{Result, bail};
use h2_ends::{Config, EndEvent, Field, Message, Server};
use std::alloc::Global;

/// The octets of a body that are given at once, where it is given in parts.
const PART: usize = 16_384;

/// A server, and what it answers.
#[derive(Drop)]
struct Answers {
    alloc: Global,
    server: Server,
    head: Vec<Field>,
    body: Vec<u8>,
    in_parts: bool,
}

/// Serves the octets.
pub(crate) fn answer_octets(
    alloc: Global,
    octets: &[u8],
    body: usize,
    in_parts: bool,
    counts: &mut Counts,
) -> i32 {
    match serve(alloc, octets, body, in_parts, counts) {
        Ok(()) => 0,
        Err(_) => 1,
    }
}

fn serve(
    alloc: Global,
    octets: &[u8],
    body: usize,
    in_parts: bool,
    counts: &mut Counts,
) -> Result<()> {
    let config = Config::new(4_096, 65_535, 1_000)?;
    let head = Message::response(alloc, 200)?.head;
    let body = vec![in alloc; 0x61u8; body]?;
    let mut answers = Answers {
        alloc,
        server: Server::new(alloc, config)?,
        head,
        body,
        in_parts,
    };
    answers.take_all(octets, counts)
}

impl Answers {
    /// Takes the octets, and answers each request as its head comes.
    fn take_all(&mut self, octets: &[u8], counts: &mut Counts) -> Result<()> {
        let mut unused = octets;
        for _ in 0..u64::MAX {
            let taken = self.server.take(unused)?;
            unused = &unused[taken.used..];
            match taken.event {
                Some(EndEvent::Head { id, .. }) => self.answer(id, counts)?,
                None if unused.is_empty() => break,
                _ => {}
            }
        }
        self.put_out(counts)
    }

    /// Answers a request, and puts the response out.
    fn answer(&mut self, id: u32, counts: &mut Counts) -> Result<()> {
        counts.add_one();
        if self.in_parts {
            self.answer_in_parts(id, counts)
        } else {
            self.answer_whole(id, counts)
        }
    }

    /// Gives a response with a copy of the body.
    fn answer_whole(&mut self, id: u32, counts: &mut Counts) -> Result<()> {
        let message = Message::response(self.alloc, 200)?.body(&self.body)?;
        if let Err((_, refusal)) = self.server.respond(id, message) {
            return Err(refusal.into());
        }
        self.server.pump()?;
        self.put_out(counts)
    }

    /// Gives the body in parts, from where it lies.
    fn answer_in_parts(&mut self, id: u32, counts: &mut Counts) -> Result<()> {
        self.server.begin(id, &self.head)?;
        let mut given = 0usize;
        for _ in 0..u64::MAX {
            let rest = self.body.get(given..).unwrap_or(&[]);
            let (part, following) = rest.split_at_checked(PART).unwrap_or((rest, &[]));
            let (length, ends) = (part.len(), following.is_empty());
            let sent = self.server.send_body(id, part, ends)?;
            self.put_out(counts)?;
            if sent == length && ends {
                return Ok(());
            }
            if sent == 0 {
                bail!("no window is open");
            }
            given = given.saturating_add(sent);
        }
        Ok(())
    }

    /// Takes the output away, from where it lies.
    fn put_out(&mut self, counts: &mut Counts) -> Result<()> {
        self.server.ready()?;
        counts.add_octets(self.server.consume(usize::MAX)?);
        Ok(())
    }
}
