//! A network whose connections, reads and writes end at a deadline.

use h2_net::WriteParts;
use std::io::{self, ErrorKind, IoSlice, Read, Write};
use std::net::{Net, OpenListener, OpenStream, Shutdown, SocketAddr};
use std::os::fd::{AsRawFd, RawFd};
use std::time::{Clock, Duration};

/// A deadline, as a reading of a clock.
#[derive(Clone, Copy, Debug)]
pub struct Deadline {
    /// `None` if the clock could not be read.
    at: Option<Duration>,
}

impl Deadline {
    /// Returns the deadline this many seconds from now. If the clock cannot be read, it is over
    /// at once.
    pub fn in_seconds<C: Clock>(clock: &C, seconds: u16) -> Deadline {
        let time = Duration::from_secs(u64::from(seconds));
        match clock.monotonic() {
            Ok(now) => Deadline {
                at: now.checked_add(time),
            },
            Err(_) => Deadline { at: None },
        }
    }

    // rule (tested): engines (own) get gives up after the seconds of --timeout
    /// The time left, which is not zero.
    ///
    /// # Errors
    ///
    /// [`ErrorKind::TimedOut`] if none is left, and those of the clock.
    fn left<C: Clock>(self, clock: &C) -> io::Result<Duration> {
        let now = clock.monotonic()?;
        match self.at {
            Some(at) if at > now => Ok(at.saturating_sub(now)),
            _ => Err(io::Error::from(ErrorKind::TimedOut)),
        }
    }

    /// Whether it is over.
    pub fn is_over<C: Clock>(self, clock: &C) -> bool {
        self.left(clock).is_err()
    }
}

/// A network whose connections, reads and writes end at a deadline. It wraps another network and
/// clock, copied into each stream.
#[derive(Drop)]
pub struct TimedNet<N> {
    net: N,
    deadline: Deadline,
}

impl<N> TimedNet<N> {
    /// Creates one over a network, with a deadline.
    pub fn new(net: N, deadline: Deadline) -> TimedNet<N> {
        TimedNet { net, deadline }
    }
}

/// A stream whose reads and writes end at a deadline.
#[derive(Drop)]
pub struct TimedStream<S, C> {
    stream: S,
    clock: C,
    deadline: Deadline,
}

/// A listener, which has no deadline.
#[derive(Drop)]
pub struct TimedListener<L, C> {
    listener: L,
    clock: C,
    deadline: Deadline,
}

impl<N: Net + Clock + Copy> Net for TimedNet<N> {
    type Stream = TimedStream<N::Stream, N>;

    type Listener = TimedListener<N::Listener, N>;

    fn bind(&self, addr: SocketAddr) -> io::Result<TimedListener<N::Listener, N>> {
        let listener = self.net.bind(addr)?;
        Ok(TimedListener {
            listener,
            clock: self.net,
            deadline: self.deadline,
        })
    }

    /// Connects before the deadline.
    fn connect(&self, addr: SocketAddr) -> io::Result<TimedStream<N::Stream, N>> {
        let left = self.deadline.left(&self.net)?;
        let stream = self.net.connect_timeout(addr, left)?;
        Ok(TimedStream {
            stream,
            clock: self.net,
            deadline: self.deadline,
        })
    }

    fn lookup_host(&self, host: &str, port: u16, found: &mut [SocketAddr]) -> io::Result<usize> {
        self.net.lookup_host(host, port, found)
    }
}

impl<S: Read + OpenStream, C: Clock> Read for TimedStream<S, C> {
    ghost remaining = { λ timed. S.remaining timed.stream };

    fn read(&mut self, buf: &mut [u8]) -> io::Result<usize> {
        let left = self.deadline.left(&self.clock)?;
        self.stream.set_read_timeout(Some(left))?;
        self.stream.read(buf)
    }
}

impl<S: Write + OpenStream, C: Clock> Write for TimedStream<S, C> {
    ghost contents = { λ timed. S.contents timed.stream };

    fn write(&mut self, buf: &[u8]) -> io::Result<usize> {
        let left = self.deadline.left(&self.clock)?;
        self.stream.set_write_timeout(Some(left))?;
        self.stream.write(buf)
    }

    fn flush(&mut self) -> io::Result<()> {
        self.stream.flush()
    }
}

impl<S: WriteParts + OpenStream, C: Clock> WriteParts for TimedStream<S, C> {
    fn write_parts(&mut self, parts: &[IoSlice<'_>]) -> io::Result<usize> {
        let left = self.deadline.left(&self.clock)?;
        self.stream.set_write_timeout(Some(left))?;
        self.stream.write_parts(parts)
    }
}

impl<S: OpenStream, C> OpenStream for TimedStream<S, C> {
    fn shutdown(&self, how: Shutdown) -> io::Result<()> {
        self.stream.shutdown(how)
    }

    fn set_nodelay(&self, nodelay: bool) -> io::Result<()> {
        self.stream.set_nodelay(nodelay)
    }
}

impl<S: AsRawFd, C> AsRawFd for TimedStream<S, C> {
    fn as_raw_fd(&self) -> RawFd {
        self.stream.as_raw_fd()
    }
}

impl<L: OpenListener, C: Copy> OpenListener for TimedListener<L, C> {
    type Stream = TimedStream<L::Stream, C>;

    fn accept(&self) -> io::Result<(TimedStream<L::Stream, C>, SocketAddr)> {
        let (stream, peer) = self.listener.accept()?;
        let timed = TimedStream {
            stream,
            clock: self.clock,
            deadline: self.deadline,
        };
        Ok((timed, peer))
    }
}

impl<L: AsRawFd, C> AsRawFd for TimedListener<L, C> {
    fn as_raw_fd(&self) -> RawFd {
        self.listener.as_raw_fd()
    }
}
