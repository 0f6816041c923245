//! What a run of the program has in memory: connections, a clock, and its own streams.
//!
//! A connection gives octets and then the end, and keeps what is written to it. One call may fail.

use h2_net::WriteParts;
use std::alloc::Global;
use std::cell::Cell;
use std::io::{self, ErrorKind, IoSlice, Read, Write};
use std::net::{Ipv4Addr, Net, OpenListener, OpenStream, Shutdown, SocketAddr};
use std::os::fd::{AsRawFd, RawFd};
use std::time::{Clock, Duration};

/// A kind of calls.
#[derive(Clone, Copy, PartialEq, Eq)]
pub(crate) enum Call {
    /// Of the network.
    Lookup,
    Connect,
    Bind,
    Accept,
    /// Of a connection.
    Nodelay,
    Shut,
    Read,
    Write,
    /// Of a link in memory: reads and writes.
    Link,
    /// Writes of a file.
    File,
    /// Reads of standard input, and writes of standard output and standard error.
    In,
    Out,
    Err,
    /// Octets of standard output, which takes none after so many others.
    Room,
}

/// The call that fails, with this kind of error: the one after so many others of its kind.
#[derive(Clone, Copy)]
pub(crate) struct Failing {
    pub(crate) call: Call,
    pub(crate) after: u64,
    pub(crate) kind: ErrorKind,
}

/// What a run is given.
#[derive(Drop)]
pub(crate) struct Setup {
    pub(crate) alloc: Global,
    /// The octets of each connection, in the order in which they are made.
    pub(crate) peers: Vec<Vec<u8>>,
    /// Standard input; without it each read fails.
    pub(crate) input: Option<Vec<u8>>,
    /// The octets of the only file, if it is there.
    pub(crate) file: Option<Vec<u8>>,
    /// The most octets of a read and of a write, of a connection and of standard input.
    pub(crate) read: usize,
    pub(crate) written: usize,
    pub(crate) failing: Option<Failing>,
    /// By how many milliseconds the clock goes on when it is read.
    pub(crate) step: u64,
    /// Whether standard error is a terminal.
    pub(crate) is_terminal: bool,
}

/// What a run leaves.
#[derive(Drop)]
pub(crate) struct Left {
    /// What was written to all connections, the number of these octets, and that of the writes.
    pub(crate) sent: Cell<Vec<u8>>,
    pub(crate) count: Cell<usize>,
    pub(crate) writes: Cell<usize>,
    /// What was written to a file, if one was created.
    pub(crate) filed: Cell<Option<Vec<u8>>>,
    /// How many octets of the last connection are left unread.
    pub(crate) unread: Cell<usize>,
    /// Whether the last connection sends at once, and whether it was shut down for writes.
    pub(crate) is_nodelay: Cell<bool>,
    pub(crate) is_shut: Cell<bool>,
    /// Where the last connection was made, or the port was listened at.
    pub(crate) address: Cell<Option<SocketAddr>>,
    /// The number of connections that were made.
    made: Cell<usize>,
    /// The number of calls of the kind that fails.
    calls: Cell<u64>,
    /// What the clock shows, in milliseconds.
    millis: Cell<u64>,
}

impl Left {
    /// What is left of a run that has not begun.
    pub(crate) fn new(alloc: Global) -> Left {
        Left {
            sent: Cell::new(Vec::new(alloc)),
            count: Cell::new(0),
            writes: Cell::new(0),
            filed: Cell::new(None),
            unread: Cell::new(0),
            is_nodelay: Cell::new(false),
            is_shut: Cell::new(false),
            address: Cell::new(None),
            made: Cell::new(0),
            calls: Cell::new(0),
            millis: Cell::new(0),
        }
    }
}

/// The network, the files and the clock of a run.
#[derive(Clone, Copy)]
pub(crate) struct Memory<'a> {
    pub(crate) setup: &'a Setup,
    pub(crate) left: &'a Left,
}

impl<'a> Memory<'a> {
    // Counts a call, and fails if it is the one that fails.
    pub(crate) fn turn(self, call: Call) -> io::Result<()> {
        let Some(failing) = self.setup.failing else {
            return Ok(());
        };
        if failing.call != call {
            return Ok(());
        }
        let before = self.left.calls.get();
        self.left.calls.set(before.wrapping_add(1));
        if before == failing.after {
            return Err(io::Error::from(failing.kind));
        }
        Ok(())
    }

    // Keeps what is written to a connection.
    fn send(self, octets: &[u8]) -> io::Result<()> {
        let left = self.left;
        let mut sent = left.sent.replace(Vec::new(self.setup.alloc));
        let added = sent.extend_from_slice(octets);
        left.count.set(sent.len());
        left.sent.set(sent);
        match added {
            Ok(()) => Ok(()),
            Err(_) => Err(io::Error::from(ErrorKind::OutOfMemory)),
        }
    }

    // The number of octets that a standard stream takes, which has taken so many.
    fn room(self, call: Call, taken: usize) -> usize {
        match self.setup.failing {
            Some(failing) if failing.call == Call::Room && call == Call::Out => {
                (failing.after as usize).saturating_sub(taken)
            }
            _ => usize::MAX,
        }
    }

    /// The next connection, which gives nothing where the case has no octets for it.
    pub(crate) fn next_stream(self) -> MemoryStream<'a> {
        let place = self.left.made.get();
        self.left.made.set(place.wrapping_add(1));
        let unread = match self.setup.peers.get(place) {
            Some(octets) => octets.as_slice(),
            None => &[],
        };
        self.left.unread.set(unread.len());
        MemoryStream {
            memory: self,
            unread,
        }
    }

    /// Standard input.
    pub(crate) fn reader(self) -> Reader<'a> {
        let unread = match &self.setup.input {
            Some(octets) => Some(octets.as_slice()),
            None => None,
        };
        Reader {
            memory: self,
            unread,
        }
    }

    /// Standard output or standard error.
    pub(crate) fn writer(self, call: Call) -> Writer<'a> {
        Writer {
            memory: self,
            call,
            octets: Vec::new(self.setup.alloc),
        }
    }
}

impl<'a> Net for Memory<'a> {
    type Stream = MemoryStream<'a>;

    type Listener = Listener<'a>;

    fn bind(&self, addr: SocketAddr) -> io::Result<Listener<'a>> {
        self.turn(Call::Bind)?;
        self.left.address.set(Some(addr));
        Ok(Listener { memory: *self })
    }

    fn connect(&self, addr: SocketAddr) -> io::Result<MemoryStream<'a>> {
        self.turn(Call::Connect)?;
        self.left.address.set(Some(addr));
        Ok(self.next_stream())
    }

    fn connect_timeout(&self, addr: SocketAddr, _: Duration) -> io::Result<MemoryStream<'a>> {
        self.connect(addr)
    }

    fn lookup_host(&self, _host: &str, port: u16, found: &mut [SocketAddr]) -> io::Result<usize> {
        self.turn(Call::Lookup)?;
        match found.first_mut() {
            Some(first) => {
                *first = SocketAddr::from((Ipv4Addr::new(192, 0, 2, 1), port));
                Ok(1)
            }
            None => Ok(0),
        }
    }
}

impl Clock for Memory<'_> {
    fn monotonic(&self) -> io::Result<Duration> {
        let millis = self.left.millis.get();
        self.left.millis.set(millis.wrapping_add(self.setup.step));
        Ok(Duration::from_millis(millis))
    }

    fn since_1970(&self) -> io::Result<Duration> {
        self.monotonic()
    }
}

/// A listener, whose connections are those of the case.
#[derive(Drop)]
pub(crate) struct Listener<'a> {
    memory: Memory<'a>,
}

impl<'a> OpenListener for Listener<'a> {
    type Stream = MemoryStream<'a>;

    fn accept(&self) -> io::Result<(MemoryStream<'a>, SocketAddr)> {
        self.memory.turn(Call::Accept)?;
        let peer = SocketAddr::from((Ipv4Addr::LOCALHOST, 1));
        Ok((self.memory.next_stream(), peer))
    }
}

impl AsRawFd for Listener<'_> {
    fn as_raw_fd(&self) -> RawFd {
        -1
    }
}

/// A connection.
#[derive(Drop)]
pub(crate) struct MemoryStream<'a> {
    memory: Memory<'a>,
    unread: &'a [u8],
}

impl Read for MemoryStream<'_> {
    fn read(&mut self, buf: &mut [u8]) -> io::Result<usize> {
        self.memory.turn(Call::Read)?;
        let count = self.memory.setup.read.min(buf.len()).min(self.unread.len());
        buf[..count].copy_from_slice(&self.unread[..count]);
        self.unread = &self.unread[count..];
        self.memory.left.unread.set(self.unread.len());
        Ok(count)
    }
}

impl Write for MemoryStream<'_> {
    fn write(&mut self, buf: &[u8]) -> io::Result<usize> {
        let writes = &self.memory.left.writes;
        writes.set(writes.get().wrapping_add(1));
        match self.memory.turn(Call::Write) {
            Ok(()) => {
                let count = self.memory.setup.written.min(buf.len());
                self.memory.send(&buf[..count])?;
                Ok(count)
            }
            Err(error) if error.kind() == ErrorKind::WriteZero => Ok(0),
            Err(error) => Err(error),
        }
    }

    fn flush(&mut self) -> io::Result<()> {
        Ok(())
    }
}

impl WriteParts for MemoryStream<'_> {
    fn write_parts(&mut self, parts: &[IoSlice<'_>]) -> io::Result<usize> {
        self.write_vectored(parts)
    }
}

impl OpenStream for MemoryStream<'_> {
    fn shutdown(&self, how: Shutdown) -> io::Result<()> {
        self.memory.turn(Call::Shut)?;
        self.memory.left.is_shut.set(how == Shutdown::Write);
        Ok(())
    }

    fn set_nodelay(&self, nodelay: bool) -> io::Result<()> {
        self.memory.turn(Call::Nodelay)?;
        self.memory.left.is_nodelay.set(nodelay);
        Ok(())
    }

    fn set_read_timeout(&self, _dur: Option<Duration>) -> io::Result<()> {
        Ok(())
    }

    fn set_write_timeout(&self, _dur: Option<Duration>) -> io::Result<()> {
        Ok(())
    }
}

impl AsRawFd for MemoryStream<'_> {
    fn as_raw_fd(&self) -> RawFd {
        -1
    }
}

/// Standard input.
#[derive(Drop)]
pub(crate) struct Reader<'a> {
    memory: Memory<'a>,
    unread: Option<&'a [u8]>,
}

impl Read for Reader<'_> {
    fn read(&mut self, buf: &mut [u8]) -> io::Result<usize> {
        self.memory.turn(Call::In)?;
        let Some(unread) = self.unread else {
            return Err(io::Error::from(ErrorKind::Other));
        };
        let count = self.memory.setup.read.min(buf.len()).min(unread.len());
        buf[..count].copy_from_slice(&unread[..count]);
        self.unread = Some(&unread[count..]);
        Ok(count)
    }
}

/// Standard output or standard error.
#[derive(Drop)]
pub(crate) struct Writer<'a> {
    memory: Memory<'a>,
    call: Call,
    pub(crate) octets: Vec<u8>,
}

impl Write for Writer<'_> {
    fn write(&mut self, buf: &[u8]) -> io::Result<usize> {
        self.memory.turn(self.call)?;
        let room = self.memory.room(self.call, self.octets.len());
        let count = room.min(buf.len());
        self.octets.extend_from_slice(&buf[..count])?;
        Ok(count)
    }

    fn flush(&mut self) -> io::Result<()> {
        Ok(())
    }
}
