//! A handler that logs a line for each exchange.

ghost use Rattle.std.specs.Prelude.{◌≡◌, IfOk, OnErr, OnOk};
ghost use Rattle.std.specs.Io.KnownBytes.{Keeps};
ghost use Rattle.std.specs.Net.Socket.{socket_ip};
ghost use Rattle.h2_hosting.specs.Logging.{AddsLine, IsNoteLine, WritesLine};

use crate::journal::TakesLines;
use crate::note::{noted, octets_after, octets_at_once, octets_with_part, status_after, status_in};
use h2_folder::{LogEntry, log_line, value_in};
use h2_server::{Cause, FieldList, Handler, HandlerFault, Part, Reply, ResponseFault};
use std::alloc::{AllocError, Global};
use std::net::SocketAddr;
use std::time::Clock;

/// A handler that, if there is a journal, logs each exchange once its `over` is called. The line
/// has the status that `handler` gave, and the length of the body that it gave. So a body to HEAD
/// counts, though it is not sent; and where the client gets status 500 in place of a bad response,
/// the line has the status of the bad response. If `handler` failed in `body` or `trailers` before
/// it gave a status, the line has 500. An exchange whose `head` failed has no line.
#[derive(Drop)]
pub struct Logged<'a, R, J, H> {
    /// The clock.
    pub clock: &'a R,
    /// Where lines go; `None` for no log.
    pub journal: Option<J>,
    /// The allocator.
    pub alloc: Global,
    /// The peer's address.
    pub peer: SocketAddr,
    /// The handler that answers.
    pub handler: H,
    /// The number of lines lost because an allocation was refused.
    pub lost: u64,
}

/// What is recorded of an exchange.
#[derive(Drop)]
pub struct Note<W> {
    /// What the handler keeps.
    work: W,
    method: Vec<u8>,
    path: Vec<u8>,
    status: Option<u16>,
    octets: u64,
}

impl<'a, R: Clock, J: TakesLines + Drop, H: Drop> Logged<'a, R, J, H> {
    // contract: hosts (own) Each request that has ended has one line in the log
    // rule: hosts (own) Each request that has ended has one line in the log
    /// Logs an exchange that is over; its line is lost if an allocation is refused.
    fn write_down<W: Drop>(&mut self, note: &Note<W>)
        ensures line { WritesLine J.lines_of (socket_ip self.old.peer) note.now self.old.journal
            self.new.journal self.old.lost self.new.lost }
        ensures peer { self.new.peer ≡ self.old.peer }
        ensures handler { self.new.handler ≡ self.old.handler }
    {
        let Some(journal) = &mut self.journal else {
            return;
        };
        if add_line(journal, self.alloc, self.clock, self.peer, note).is_err() {
            self.lost = self.lost.saturating_add(1);
        }
    }
}

/// Adds the line of an exchange.
///
/// # Errors
///
/// [`AllocError`] if an allocation was refused: nothing is added.
fn add_line<R: Clock, J: TakesLines, W>(
    journal: &mut J,
    alloc: Global,
    clock: &R,
    peer: SocketAddr,
    note: &Note<W>,
) -> Result<(), AllocError>
    ensures added { OnOk result (AddsLine (socket_ip peer) note.now (J.lines_of journal.old)
        (J.lines_of journal.new)) }
    ensures lost { OnErr result (Keeps (J.lines_of journal.old) (J.lines_of journal.new)) }
{
    let line = line_of(alloc, clock, peer, note)?;
    journal.add(&line)
}

/// The line of an exchange.
fn line_of<R: Clock, W>(
    alloc: Global,
    clock: &R,
    peer: SocketAddr,
    note: &Note<W>,
) -> Result<Vec<u8>, AllocError>
    ensures { IfOk result (λ line. IsNoteLine (socket_ip peer) note.now line.items) }
{
    let peer = peer.ip().to_string(alloc)?;
    let entry = LogEntry {
        peer: peer.as_str(),
        time: seconds_now(clock),
        method: &note.method,
        path: &note.path,
        status: note.status,
        octets: note.octets,
    };
    log_line(alloc, entry)
}

/// The time in seconds since 1970; 0 if it is unknown.
fn seconds_now<R: Clock>(clock: &R) -> u64 {
    match clock.since_1970() {
        Ok(time) => time.as_secs(),
        Err(_) => 0,
    }
}

impl<'a, R: Clock, J: TakesLines + Drop, W: Drop, H: Handler<Work = W>> Handler
    for Logged<'a, R, J, H> {
    ghost use Rattle.h2_hosting.specs.Logging.{EndsLogged, GivesLogged, HeadsLogged, MoreLogged};

    type Work = Note<W>;

    ghost heads = { λ old id list end result new. HeadsLogged
        (λ handler list end result after. H.heads handler id list end result after) old list end
        result new };

    ghost bodies = { λ old note octets end reply after new. MoreLogged
        (λ handler work reply after then. H.bodies handler work octets end reply after then) old
        note reply after new };

    ghost trails = { λ old note list reply after new. MoreLogged
        (λ handler work reply after then. H.trails handler work list reply after then) old note
        reply after new };

    ghost gives = { λ old note part room after new.
        GivesLogged H.gives old note part room after new };

    ghost ends = { λ old note cause new. EndsLogged J.lines_of H.ends old note cause new };

    fn head(
        &mut self,
        alloc: Global,
        id: u32,
        list: &FieldList,
        end: bool,
    ) -> Result<(Note<W>, Reply), HandlerFault> {
        let is_noted = self.journal.is_some();
        let method = noted(alloc, value_in(list, b":method"), is_noted)?;
        let path = noted(alloc, value_in(list, b":path"), is_noted)?;
        let (work, reply) = self.handler.head(alloc, id, list, end)?;
        let note = Note {
            work,
            method,
            path,
            status: status_in(&reply),
            octets: octets_at_once(&reply),
        };
        Ok((note, reply))
    }

    fn body(
        &mut self,
        alloc: Global,
        work: &mut Note<W>,
        octets: &[u8],
        end: bool,
    ) -> Result<Reply, HandlerFault> {
        let reply = self.handler.body(alloc, &mut work.work, octets, end);
        work.status = status_after(work.status, &reply);
        work.octets = octets_after(work.octets, &reply);
        reply
    }

    fn trailers(
        &mut self,
        alloc: Global,
        work: &mut Note<W>,
        list: &FieldList,
    ) -> Result<Reply, HandlerFault> {
        let reply = self.handler.trailers(alloc, &mut work.work, list);
        work.status = status_after(work.status, &reply);
        work.octets = octets_after(work.octets, &reply);
        reply
    }

    fn part(
        &mut self,
        alloc: Global,
        work: &mut Note<W>,
        room: &mut [u8],
    ) -> Result<Part, HandlerFault> {
        let part = self.handler.part(alloc, &mut work.work, room);
        work.octets = octets_with_part(work.octets, &part);
        part
    }

    fn held(&self, work: &Note<W>) -> usize {
        let noted = work.method.len().saturating_add(work.path.len());
        self.handler.held(&work.work).saturating_add(noted)
    }

    fn unused(&self, work: &Note<W>) -> u32 {
        self.handler.unused(&work.work)
    }

    fn fault(&self, id: u32, fault: ResponseFault) {
        self.handler.fault(id, fault);
    }

    fn over(&mut self, work: Note<W>, cause: Cause) {
        self.write_down(&work);
        self.handler.over(work.work, cause);
    }
}
