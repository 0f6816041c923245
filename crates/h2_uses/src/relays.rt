//! A proxy in memory: passes one request of a client on to another server, and the response
//! back.

use anyhow::Result;
use h2_ends::{
    Client, Code, Config, Conn, EndEvent, EndRefusal, Field, FieldList, Refusal, Server,
};
use std::alloc::Global;

/// The most octets of output that are put into a queue.
const QUEUE: usize = 65_536;

/// The octets between a relay and one of its peers.
#[derive(Drop)]
pub struct Wire {
    /// Octets from the peer; a step takes all of them.
    pub input: Vec<u8>,
    /// Octets for the peer, which takes them as fast as it likes.
    pub output: Vec<u8>,
}

/// How a message ends, as far as that is known.
#[derive(Drop)]
enum Ending {
    /// Not yet.
    Open,
    /// With its head or its body.
    Body,
    /// With trailers.
    Trailers(Vec<Field>),
    /// It was passed on completely.
    Passed,
}

/// A message on its way from one end to the other: what was received of it and not yet passed
/// on.
#[derive(Drop)]
struct Passage {
    head: Option<Vec<Field>>,
    body: Vec<u8>,
    ending: Ending,
    /// The code with which its stream was reset.
    reset: Option<u32>,
}

/// A server towards a client, and a client towards another server. One request is passed on, in
/// parts, and its response back. What one side doesn't take is kept, and the other side gets
/// credit only for what was taken: so at most 65,535 octets of either body are kept.
#[derive(Drop)]
pub struct Relay {
    alloc: Global,
    front: Server,
    back: Client,
    /// The stream of the request at either end.
    front_id: Option<u32>,
    back_id: Option<u32>,
    request: Passage,
    response: Passage,
}

/// What both ends do with a message that is passed on.
trait Side {
    fn conn(&self) -> &Conn;

    fn is_full(&self) -> bool;

    fn send_body(&mut self, id: u32, octets: &[u8], ends: bool) -> Result<usize, EndRefusal>;

    fn send_trailers(&mut self, id: u32, trailers: &[Field]) -> Result<(), EndRefusal>;

    fn release(&mut self, id: u32, count: u32) -> Result<(), Refusal>;

    fn reset(&mut self, id: u32, code: u32) -> Result<(), Refusal>;
}

/// Takes what has come from both peers, passes on what can go, and puts out as much as the
/// queues have room for. Returns whether anything has moved. If not, make the next step once
/// more has come, or a peer has taken some of its queue.
///
/// # Errors
///
/// A connection failed, and its GOAWAY is in its queue; or an allocation or a call was refused.
/// Both connections are then closed.
pub fn relay_step(relay: &mut Relay, front: &mut Wire, back: &mut Wire) -> Result<bool> {
    let has_come = !front.input.is_empty() || !back.input.is_empty();
    let passed = relay.pass(&front.input, &back.input);
    front.input.clear();
    back.input.clear();
    let room = QUEUE.saturating_sub(front.output.len());
    let to_front = relay.front.put_out(room, &mut front.output)?;
    let room = QUEUE.saturating_sub(back.output.len());
    let to_back = relay.back.put_out(room, &mut back.output)?;
    passed?; // after a fault of a connection, once its GOAWAY is put out
    Ok(has_come || to_front > 0 || to_back > 0)
}

impl Relay {
    /// Returns a relay of two new connections.
    ///
    /// # Errors
    ///
    /// An allocation was refused.
    pub fn new(alloc: Global) -> Result<Relay> {
        let front = Server::new(alloc, Config::default())?;
        let back = Client::new(alloc, Config::default())?;
        Ok(Relay {
            alloc,
            front,
            back,
            front_id: None,
            back_id: None,
            request: Passage::new(alloc),
            response: Passage::new(alloc),
        })
    }

    /// Returns how many octets are kept: of bodies, and of output that is not yet put out.
    pub fn kept(&self) -> usize {
        let output = self.back.conn().waiting();
        let output = output.saturating_add(self.front.conn().waiting());
        output
            .saturating_add(self.request.body.len())
            .saturating_add(self.response.body.len())
    }

    /// Takes what has come, and passes on what can go. A reset of the request is passed on at
    /// once; one that follows a complete response, once that was passed on (RFC 9113, section
    /// 8.1).
    fn pass(&mut self, from_front: &[u8], from_back: &[u8]) -> Result<()> {
        self.take_front(from_front)?;
        self.take_back(from_back)?;
        if let Some(code) = self.request.reset {
            return reset(&mut self.back, self.back_id, code);
        }
        if self.response.reset.is_none() {
            self.pass_request()?;
        }
        self.pass_response()?;
        match self.response.reset {
            Some(code) if !self.response.is_held() => reset(&mut self.front, self.front_id, code),
            _ => Ok(()),
        }
    }

    /// Takes octets of the client, and keeps what they add to the one request. Later requests
    /// are ignored after GOAWAY, and may be made on another connection.
    fn take_front(&mut self, piece: &[u8]) -> Result<()> {
        let mut unused = piece;
        for _ in 0..u64::MAX {
            let taken = self.front.take(unused)?;
            unused = &unused[taken.used..];
            match taken.event {
                Some(EndEvent::Head { id, list, end }) => {
                    self.request.begin(list.to_vec(self.alloc)?, end);
                    self.front_id = Some(id);
                    self.front.go_away()?;
                }
                Some(EndEvent::Reset { id, .. }) if self.front_id != Some(id) => {}
                Some(event) => self.request.keep(self.alloc, event)?,
                None if unused.is_empty() => break, // an event need not use octets
                None => {}
            }
        }
        Ok(())
    }

    /// Takes octets of the other server, and keeps what they add to the response.
    fn take_back(&mut self, piece: &[u8]) -> Result<()> {
        let mut unused = piece;
        for _ in 0..u64::MAX {
            let taken = self.back.take(unused)?;
            unused = &unused[taken.used..];
            match taken.event {
                Some(event) => self.response.keep(self.alloc, event)?,
                None if unused.is_empty() => break, // an event need not use octets
                None => {}
            }
        }
        Ok(())
    }

    /// Passes on what can go of the request, and returns credit for it to the client.
    fn pass_request(&mut self) -> Result<()> {
        if let Some(head) = &self.request.head
            && !self.back.is_full()
        {
            self.back_id = Some(self.back.begin(head)?);
            self.request.head = None;
        }
        if let Some(id) = self.back_id {
            self.request.pass_on(&mut self.back, id)?;
        }
        if let Some(id) = self.front_id {
            self.request.release(&mut self.front, id)?;
        }
        Ok(())
    }

    /// Passes on what can go of the response, and returns credit for it to the other server.
    fn pass_response(&mut self) -> Result<()> {
        let (Some(front_id), Some(back_id)) = (self.front_id, self.back_id) else {
            return Ok(());
        };
        if let Some(head) = &self.response.head
            && !self.front.is_full()
        {
            self.front.begin(front_id, head)?;
            self.response.head = None;
        }
        self.response.pass_on(&mut self.front, front_id)?;
        self.response.release(&mut self.back, back_id)?;
        Ok(())
    }
}

impl Passage {
    fn new(alloc: Global) -> Passage {
        Passage {
            head: None,
            body: Vec::new(alloc),
            ending: Ending::Open,
            reset: None,
        }
    }

    /// Returns whether the message is complete and not yet passed on.
    fn is_held(&self) -> bool {
        matches!(self.ending, Ending::Body | Ending::Trailers(_))
    }

    /// Keeps its head, which may be all of it.
    fn begin(&mut self, head: Vec<Field>, end: bool) {
        self.head = Some(head);
        if end {
            self.ending = Ending::Body;
        }
    }

    /// Keeps what an event adds. Interim responses (1xx) aren't passed on.
    fn keep(&mut self, alloc: Global, event: EndEvent<&FieldList, &[u8]>) -> Result<()> {
        match event {
            EndEvent::Head { list, end, .. } => self.begin(list.to_vec(alloc)?, end),
            EndEvent::Body { bytes, end, .. } => {
                self.body.extend_from_slice(bytes)?;
                if end {
                    self.ending = Ending::Body;
                }
            }
            EndEvent::Trailers { list, .. } => {
                self.ending = Ending::Trailers(list.to_vec(alloc)?);
            }
            EndEvent::Reset { code, .. } => self.stop(code),
            EndEvent::Unprocessed { .. } => self.stop(Code::RefusedStream.number()),
            _ => {}
        }
        Ok(())
    }

    /// Keeps the code of a reset, after which nothing more comes, and drops a message that is
    /// incomplete.
    fn stop(&mut self, code: u32) {
        self.reset = Some(code);
        if !self.is_held() {
            self.head = None;
            self.body.clear();
        }
    }

    /// Passes on what the windows and the output allow of its body, and then its end.
    fn pass_on<S: Side>(&mut self, to: &mut S, id: u32) -> Result<(), EndRefusal> {
        if self.head.is_some() || to.is_full() {
            return Ok(());
        }
        let ends = matches!(self.ending, Ending::Body);
        if ends || !self.body.is_empty() {
            let count = to.send_body(id, &self.body, ends)?;
            self.body.drain(..count.min(self.body.len()));
        }
        if !self.body.is_empty() {
            return Ok(());
        }
        let is_passed = match &self.ending {
            Ending::Body => true,
            Ending::Trailers(trailers) => end_with(to, id, trailers)?,
            Ending::Open | Ending::Passed => false,
        };
        if is_passed {
            self.ending = Ending::Passed;
        }
        Ok(())
    }

    /// Returns credit to the side that sends the message: all that is owed, padding of DATA
    /// included, except for what is kept.
    fn release<S: Side>(&self, from: &mut S, id: u32) -> Result<(), Refusal> {
        let kept = u32::try_from(self.body.len()).unwrap_or(u32::MAX);
        let passed = from.conn().owed(id).saturating_sub(kept);
        if passed == 0 || from.is_full() {
            return Ok(());
        }
        from.release(id, passed)
    }
}

// calling: h2_ends trailers
/// Ends a message, whose body was sent, with trailers. Returns whether that is done: if the
/// output is full, write it and make the call again.
fn end_with<S: Side>(to: &mut S, id: u32, trailers: &[Field]) -> Result<bool, EndRefusal> {
    match to.send_trailers(id, trailers) {
        Ok(()) => Ok(true),
        Err(EndRefusal::Conn(Refusal::OutputFull)) => Ok(false),
        Err(refusal) => Err(refusal),
    }
}
// end

/// Resets a stream, if there is one and it isn't closed; at the next step if the output is
/// full.
fn reset<S: Side>(end: &mut S, id: Option<u32>, code: u32) -> Result<()> {
    let Some(id) = id else {
        return Ok(());
    };
    match end.reset(id, code) {
        Ok(()) | Err(Refusal::NoSuchStream | Refusal::OutputFull) => Ok(()),
        Err(refusal) => Err(refusal.into()),
    }
}

impl Side for Server {
    fn conn(&self) -> &Conn {
        self.conn()
    }

    fn is_full(&self) -> bool {
        self.is_full()
    }

    fn send_body(&mut self, id: u32, octets: &[u8], ends: bool) -> Result<usize, EndRefusal> {
        self.send_body(id, octets, ends)
    }

    fn send_trailers(&mut self, id: u32, trailers: &[Field]) -> Result<(), EndRefusal> {
        self.send_trailers(id, trailers)
    }

    fn release(&mut self, id: u32, count: u32) -> Result<(), Refusal> {
        self.release(id, count)
    }

    fn reset(&mut self, id: u32, code: u32) -> Result<(), Refusal> {
        self.reset(id, code)
    }
}

impl Side for Client {
    fn conn(&self) -> &Conn {
        self.conn()
    }

    fn is_full(&self) -> bool {
        self.is_full()
    }

    fn send_body(&mut self, id: u32, octets: &[u8], ends: bool) -> Result<usize, EndRefusal> {
        self.send_body(id, octets, ends)
    }

    fn send_trailers(&mut self, id: u32, trailers: &[Field]) -> Result<(), EndRefusal> {
        self.send_trailers(id, trailers)
    }

    fn release(&mut self, id: u32, count: u32) -> Result<(), Refusal> {
        self.release(id, count)
    }

    fn reset(&mut self, id: u32, code: u32) -> Result<(), Refusal> {
        self.reset(id, code)
    }
}
