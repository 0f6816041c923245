//! Serves many connections with handlers of any type.

ghost use Rattle.std.specs.Prelude.{◌≡◌, ◌-◌, ◌^◌, ◌/◌, min};

use crate::guest::Guest;
use crate::guests::{Guests, Makes};
use crate::journal::Journal;
use crate::window::Windows;
use h2_mio::{Driver, Place};
use h2_server::{Config, Connection, ConnectionLimits, Handler};
use std::alloc::Global;
use std::cell::Cell;
use std::io::{self, Write};
use std::net::Net;
use std::time::Clock;

/// Where many connections are served, and with which settings and limits.
#[derive(Clone, Copy, Debug)]
pub struct HostSettings {
    /// The address, the limits of connections and memory, and whether the host shuts down
    /// gracefully once standard input, a pipe, is closed.
    pub place: Place,
    /// The settings of each connection. If the initial window of streams is above 65,535 octets,
    /// the connection's window is widened to it once octets of some body have come and some request
    /// is incomplete, but to at most half of what the connection may hold. All connections together
    /// are widened by at most half of what all may hold. While too little of that is left for a
    /// connection, or the call to widen it is refused, its window stays at 65,535 octets, and the
    /// host tries to widen it again each time octets come.
    pub config: Config,
    /// The time limits and flood limits of each connection; one that exceeds them is ended.
    pub limits: ConnectionLimits,
}

/// Serves many connections at once, in this thread, each with a handler made by `makes`. If
/// `until_closed` of `place` is set, closing standard input, a pipe, begins a graceful shutdown:
/// pending responses are sent, within [`ConnectionLimits::closing`], and then the call returns.
/// Otherwise it returns only with an error, or after 2^64 - 1 rounds.
///
/// All handlers are called in this thread, so a handler that blocks stops all connections.
///
/// # Errors
///
/// The address is not available, standard input cannot be polled (it is a file, for example)
/// though `until_closed` is set, the clock or the wait for sockets failed, or an allocation for
/// the host itself was refused. An error of one connection, a refused allocation included, ends
/// only that connection.
pub fn host_handlers<R, H, M>(
    rt: &R,
    alloc: Global,
    settings: HostSettings,
    makes: M,
) -> io::Result<()>
where
    R: Net + Clock,
    H: Handler,
    M: Makes<H> + Drop,
{
    let journal = Journal::new(alloc);
    let mut out = io::sink();
    serve(rt, alloc, settings, makes, &journal, &mut out)
}

// rule: hosts (own) A connection is widened once, as a body comes, by what is left
/// The window of a connection is that of its streams, but at most half of what it may hold, and
/// all are widened by at most half of what all may hold.
fn windows_of(settings: &HostSettings) -> Windows
    ensures { result.window ≡ min settings.now.config.initial_window
        (min (2 ^ 32 - 1) (settings.now.place.limits.held / 2)) }
{
    let limits = settings.place.limits;
    let most = u32::try_from(limits.held / 2).unwrap_or(u32::MAX);
    Windows::new(
        settings.config.initial_window().min(most),
        (limits.held_in_all / 2) as u64,
    )
}

/// Serves as [`host_handlers`] does, and writes the lines of a journal to `out`.
pub(crate) fn serve<R, H, M, W>(
    rt: &R,
    alloc: Global,
    settings: HostSettings,
    makes: M,
    journal: &Journal,
    out: &mut W,
) -> io::Result<()>
where
    R: Net + Clock,
    H: Handler,
    M: Makes<H> + Drop,
    W: Write,
{
    let leaving = Cell::new(false);
    let windows = windows_of(&settings);
    let mut guests = Guests {
        alloc,
        makes,
        config: settings.config,
        limits: settings.limits,
        leaving: &leaving,
        windows: &windows,
        journal,
        out,
    };
    let mut driver: Driver<Guest<'_, Connection<H>>> = Driver::open(rt, alloc, settings.place)?;
    driver.run(rt, &mut guests)
}
