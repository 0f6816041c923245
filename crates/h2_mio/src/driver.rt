//! The loop over a listener, a host and its sockets.

use crate::opens::Opens;
use crate::sockets::Sockets;
use crate::turn::{Fate, give_turn, own_step};
use crate::waiting::{TICK, wait_of};
use h2_host::{Host, Limits, MOST_TAKEN, Own, Party, Reply, Step, Token};
use mio::net::{TcpListener, TcpStream};
use mio::unix::SourceFd;
use mio::{Events, Interest, Poll, Token as Name};
use std::alloc::Global;
use std::io::{self, ErrorKind, Read};
use std::net::{Net, Shutdown, SocketAddr};
use std::time::{Clock, Duration, Instant};

/// The name of the listener at `mio`; no token of a host has this number.
const LISTENER: usize = usize::MAX;

/// The name of standard input.
const STANDARD_INPUT: usize = usize::MAX - 1;

/// The descriptor of standard input.
const INPUT_DESCRIPTOR: i32 = 0;

/// The maximum number of events per wait, few enough that the state of their connections is
/// still in the processor's cache when each has its turn.
const MOST_EVENTS: usize = 64;

/// The maximum number of connections accepted in a round.
const MOST_ACCEPTED: usize = 64;

/// The maximum number of reads that are discarded of a connection that is over.
const MOST_DROPPED: usize = 8;

/// Where a host listens, and its limits.
#[derive(Clone, Copy, Debug)]
pub struct Place {
    /// The address and the port.
    pub address: SocketAddr,
    /// The limits of connections, and of the octets that they hold.
    pub limits: Limits,
    /// Whether the host shuts down gracefully once standard input, a pipe, is closed.
    pub until_closed: bool,
}

/// A host with its listener and its sockets.
#[derive(Drop)]
pub struct Driver<P: Party> {
    alloc: Global,
    poll: Poll,
    /// `None` once no more connections are accepted.
    listener: Option<TcpListener>,
    host: Host<P>,
    sockets: Sockets<TcpStream>,
    /// The buffer into which all connections are read.
    input: Vec<u8>,
    /// Whether connections may wait to be accepted.
    accepting: bool,
    /// Whether all connections are to shut down.
    leaving: bool,
}

impl<P: Party> Driver<P> {
    /// Opens a listening host.
    ///
    /// # Errors
    ///
    /// The address is not available, standard input cannot be polled (it is a file, for example)
    /// though `until_closed` is set, or an allocation was refused.
    pub fn open<N: Net>(net: &N, alloc: Global, place: Place) -> io::Result<Driver<P>> {
        let mut listener = TcpListener::bind(net, place.address)?;
        let poll = Poll::new(net)?;
        let registry = poll.registry();
        registry.register(&mut listener, Name(LISTENER), Interest::READABLE)?;
        if place.until_closed {
            let mut pipe = SourceFd(&INPUT_DESCRIPTOR);
            registry.register(&mut pipe, Name(STANDARD_INPUT), Interest::READABLE)?;
        }
        Ok(Driver {
            alloc,
            poll,
            listener: Some(listener),
            host: Host::new(alloc, place.limits)?,
            sockets: Sockets::new(alloc),
            input: vec![in alloc; 0u8; MOST_TAKEN]?,
            accepting: true,
            leaving: false,
        })
    }

    /// Serves until standard input is closed, if `until_closed` is set, and all connections have
    /// ended.
    ///
    /// # Errors
    ///
    /// Those of the clock, of the wait for sockets and of [`Opens::turned`].
    pub fn run<C: Clock, O: Opens<P>>(&mut self, clock: &C, opens: &mut O) -> io::Result<()> {
        let mut events = Events::with_capacity(self.alloc, MOST_EVENTS)?;
        let start = Instant::now(clock)?;
        let mut told = 0u64;
        for _ in 0..u64::MAX {
            let wait = wait_of(self.host.waiting() > 0, self.accepts());
            self.poll
                .poll(&mut events, Some(Duration::from_millis(wait)))?;
            let was_leaving = self.leaving;
            for event in events.iter() {
                let Name(number) = event.token();
                let ended = event.is_read_closed();
                self.note(number, event.is_readable(), event.is_writable(), ended);
            }
            self.accept(opens);
            self.give_turns(opens)?;
            let now = millis_since(clock, &start)?;
            let leaves = self.leaving && !was_leaving;
            if leaves {
                self.listener = None;
                opens.leave();
            }
            if leaves || now.saturating_sub(told) >= TICK {
                told = now;
                let _ = self.host.step(Step::Passed { now }, &[]);
                self.accepting = true;
            }
            if self.leaving && self.host.is_empty() {
                break;
            }
        }
        Ok(())
    }

    /// Whether a connection can be accepted.
    fn accepts(&self) -> bool {
        self.accepting && self.listener.is_some() && !self.host.is_full()
    }

    /// Notes that something is ready.
    fn note(&mut self, number: usize, reads: bool, writes: bool, ended: bool) {
        match number {
            LISTENER => self.accepting = true,
            STANDARD_INPUT => self.leaving = self.leaving || ended,
            _ => {
                let token = Token::from_number(number as u64);
                if ended && let Some(socket) = self.sockets.get_mut(token) {
                    socket.hung_up = true;
                }
                // One that is over is ready: it is closed in its turn.
                let _ = own_step(&mut self.host, token, Own::Ready { reads, writes });
            }
        }
    }

    /// Accepts connections, as long as there are places for them.
    fn accept<O: Opens<P>>(&mut self, opens: &mut O) {
        for _ in 0..MOST_ACCEPTED {
            if !self.accepts() {
                break;
            }
            let Some(listener) = &self.listener else {
                break;
            };
            match listener.accept() {
                Ok((stream, peer)) => self.open_one(stream, peer, opens),
                // This one is gone, and the next may be there.
                Err(error) if is_of_one(error.kind()) => {}
                // None is pending, or no descriptor is left until a connection ends or time passes.
                Err(_) => self.accepting = false,
            }
        }
    }

    /// Gives a connection its place.
    fn open_one<O: Opens<P>>(&mut self, stream: TcpStream, peer: SocketAddr, opens: &mut O) {
        let mut stream = stream;
        // A failure makes responses late, not wrong.
        let _ = stream.set_nodelay(true);
        let Some(party) = opens.open(self.alloc, self.host.now(), peer) else {
            return;
        };
        let Reply::Opened(token) = self.host.step(Step::Opened { party }, &[]) else {
            return;
        };
        let name = Name(token.to_number() as usize);
        let both = Interest::READABLE | Interest::WRITABLE;
        let registered = self.poll.registry().register(&mut stream, name, both);
        if registered.is_err() || self.sockets.put(token, stream).is_err() {
            self.close(token);
        }
    }

    /// Gives each connection that is ready now its turn.
    ///
    /// # Errors
    ///
    /// Those of [`Opens::turned`].
    fn give_turns<O: Opens<P>>(&mut self, opens: &mut O) -> io::Result<()> {
        let count = self.host.waiting();
        for _ in 0..count {
            let Some(token) = self.host.next_turn() else {
                break;
            };
            let fate = match self.sockets.get_mut(token) {
                Some(socket) => give_turn(&mut self.host, token, socket, &mut self.input),
                None => Fate::Over,
            };
            if fate == Fate::Over {
                self.close(token);
            }
            opens.turned(true)?;
        }
        opens.turned(false)
    }

    /// Closes a connection and its socket. Unread input is discarded first, so that the peer can
    /// read what was sent last.
    fn close(&mut self, token: Token) {
        // For one that is over already this does nothing.
        let _ = own_step(&mut self.host, token, Own::Lost);
        let _ = self.host.step(Step::Closed { token }, &[]);
        let Some(mut stream) = self.sockets.take(token) else {
            return;
        };
        let _ = stream.shutdown(Shutdown::Write);
        for _ in 0..MOST_DROPPED {
            match stream.read(&mut self.input) {
                Ok(count) if count > 0 => {}
                _ => break,
            }
        }
        let _ = self.poll.registry().deregister(&mut stream);
        self.accepting = true;
    }
}

/// Whether an error of `accept` concerns only the connection that was to be accepted.
fn is_of_one(kind: ErrorKind) -> bool {
    matches!(
        kind,
        ErrorKind::ConnectionAborted | ErrorKind::ConnectionReset | ErrorKind::Interrupted
    )
}

/// The time since the start, in milliseconds.
fn millis_since<C: Clock>(clock: &C, start: &Instant) -> io::Result<u64> {
    let passed = start.elapsed(clock)?;
    let seconds = passed.as_secs().saturating_mul(1_000);
    Ok(seconds.saturating_add(u64::from(passed.subsec_millis())))
}
