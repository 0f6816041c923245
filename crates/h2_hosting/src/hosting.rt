//! Serves many connections at a port.

ghost use Rattle.std.specs.Prelude.{◌≡◌, ◌≤◌, ◌*◌, is_some};
ghost use Rattle.std.specs.Net.Socket.{socket_ip, socket_port};
ghost use Rattle.h2_hosting.specs.Ending.{EndsHosting, IsFailedHost, in_milliseconds, port_hint};

use crate::guests::Makes;
use crate::journal::Journal;
use crate::logged::Logged;
use crate::serving::{HostSettings, serve};
use crate::site::Site;
use h2_cli::{Failure, Hint, Status, write_hint};
use h2_folder::{Folder, Recent};
use h2_frame::limits::{FIRST_TABLE, LEAST_MAX_STREAMS};
use h2_host::Limits;
use h2_mio::Place;
use h2_server::{Buffered, Config, ConnectionLimits, Echo};
use std::alloc::Global;
use std::fs::{self, Files};
use std::io::{self, ErrorKind, Write};
use std::net::{IpAddr, Net, SocketAddr};
use std::time::Clock;

/// The maximum length of a request body that is echoed.
const MOST_BODY: usize = 1_048_576;

/// EPERM: the descriptor cannot be polled, such as that of a file.
const NO_PIPE: i32 = 1;

/// What is served, where and how.
#[derive(Clone, Copy, Debug)]
pub struct HostOptions<'a> {
    /// The port.
    pub port: u16,
    /// The address.
    pub address: IpAddr,
    /// The folder to serve, or `None` to echo.
    pub root: Option<&'a str>,
    /// The maximum number of connections.
    pub connections: usize,
    /// Seconds without a request after which a connection is closed gracefully; 0 means never.
    pub idle: u64,
    /// Whether a line is printed for each request.
    pub log: bool,
    /// Whether the host shuts down gracefully once standard input, a pipe, is closed.
    pub until_closed: bool,
    /// The window of each stream, and of a connection once a body comes, in octets, from 1 to
    /// 2,147,483,647: see [`HostSettings::config`].
    pub window: u32,
}

/// Makes handlers that echo requests.
#[derive(Drop)]
struct Echoes<'a, 'j, R> {
    rt: &'a R,
    journal: Option<&'j Journal>,
    alloc: Global,
}

impl<'a, 'j, R> Makes<Logged<'a, R, &'j Journal, Buffered<Echo>>> for Echoes<'a, 'j, R> {
    fn make(&self, peer: SocketAddr) -> Logged<'a, R, &'j Journal, Buffered<Echo>> {
        Logged {
            clock: self.rt,
            journal: self.journal,
            alloc: self.alloc,
            peer,
            handler: Buffered::new(Echo, MOST_BODY),
            lost: 0,
        }
    }
}

/// Makes handlers that serve the files of a folder.
#[derive(Drop)]
struct Sites<'a, 'j, R> {
    rt: &'a R,
    journal: Option<&'j Journal>,
    alloc: Global,
    root: &'a str,
    /// A cache of small files, which all handlers share.
    recent: &'a Recent,
}

impl<'a, 'j, R> Sites<'a, 'j, R> {
    /// Creates a maker of handlers for the folder with this path.
    fn new(
        rt: &'a R,
        journal: Option<&'j Journal>,
        alloc: Global,
        root: &'a str,
        recent: &'a Recent,
    ) -> Sites<'a, 'j, R> {
        Sites {
            rt,
            journal,
            alloc,
            root,
            recent,
        }
    }
}

impl<'a, 'j, R> Makes<Logged<'a, R, &'j Journal, Site<'a, R>>> for Sites<'a, 'j, R> {
    fn make(&self, peer: SocketAddr) -> Logged<'a, R, &'j Journal, Site<'a, R>> {
        let folder = Folder {
            rt: self.rt,
            root: self.root,
            recent: Some(self.recent),
        };
        Logged {
            clock: self.rt,
            journal: self.journal,
            alloc: self.alloc,
            peer,
            handler: Site { folder },
            lost: 0,
        }
    }
}

// contract: hosts (own) A host ends with one of three statuses
// rule: hosts (own) A host ends with one of three statuses
/// Serves many connections at once at a port, until an error ends the host; or, if `until_closed`
/// is set, until standard input was closed and all connections have then ended (or after 2^64 - 1
/// rounds of a loop). Returns the exit status.
///
/// Requests are answered with files of `root`, or echoed if that is `None`. Log lines are printed
/// on `out`. If the port or the folder is not available, or the loop fails, the reason is printed
/// on `err`.
pub fn host_port<'x, R: Net + Files + Clock, W: Write, E: Write>(
    rt: &'x R,
    alloc: Global,
    options: HostOptions<'x>,
    out: &mut W,
    err: &mut E,
) -> Status
    ensures { EndsHosting result }
{
    if let Some(root) = options.root
        && let Err(error) = is_folder(rt, root)
    {
        return refuse_root(root, &error, err);
    }
    match serve_asked(rt, alloc, options, out) {
        Ok(()) => Status::Good,
        Err(error) => end_early(&error, err),
    }
}

/// Serves what the options ask for.
fn serve_asked<'x, R: Net + Files + Clock, W: Write>(
    rt: &'x R,
    alloc: Global,
    options: HostOptions<'x>,
    out: &mut W,
) -> io::Result<()> {
    let journal = Journal::new(alloc);
    let kept = journal_if(&journal, options.log);
    let recent = Recent::new(alloc);
    let settings = HostSettings {
        place: place_of(options),
        config: config_of(options.window),
        limits: connection_limits(options.idle),
    };
    match options.root {
        Some(root) => {
            let sites = Sites::new(rt, kept, alloc, root, &recent);
            serve(rt, alloc, settings, sites, &journal, out)
        }
        None => {
            let echoes = Echoes {
                rt,
                journal: kept,
                alloc,
            };
            serve(rt, alloc, settings, echoes, &journal, out)
        }
    }
}

// contract: hosts (own) The options of a host say what is served, where, and for how long
/// The journal, if lines are to be printed.
fn journal_if<'j>(journal: &'j Journal, log: bool) -> Option<&'j Journal>
    ensures { is_some result ≡ log }
{
    if log { Some(journal) } else { None }
}

/// Fails unless there is a folder with this path.
fn is_folder<R: Files>(rt: &R, root: &str) -> io::Result<()> {
    let known = fs::metadata(rt, root)?;
    if known.is_dir() {
        Ok(())
    } else {
        Err(io::Error::from(ErrorKind::NotADirectory))
    }
}

// contract: hosts (own) The options of a host say what is served, where, and for how long
// rule: hosts (own) The options of a host say what is served, where, and for how long
/// The address, the limits and the way of ending that the options give.
fn place_of(options: HostOptions<'_>) -> Place
    ensures address { socket_ip result.address ≡ options.entry.address }
    ensures port { socket_port result.address ≡ options.entry.port }
    ensures connections { result.limits.connections ≡ options.entry.connections }
    ensures until { result.until_closed ≡ options.entry.until_closed }
{
    Place {
        address: SocketAddr::new(options.address, options.port),
        limits: host_limits(options.connections, options.window),
        until_closed: options.until_closed,
    }
}

// contract: hosts (own) The options of a host say what is served, where, and for how long
/// The default limits of a connection, with this idle time in seconds.
fn connection_limits(idle: u64) -> ConnectionLimits
    ensures { result.times.idle ≡ in_milliseconds idle }
{
    let mut limits = ConnectionLimits::default();
    limits.times.idle = idle.saturating_mul(1_000);
    limits
}

// contract: hosts (own) The options of a host say what is served, where, and for how long
/// The default limits of a host, with this maximum number of connections. A connection may hold
/// at least twice the window, so that one full window does not end it.
fn host_limits(connections: usize, window: u32) -> Limits
    ensures connections { result.connections ≡ connections }
    ensures held { window * 2 ≤ result.held }
{
    let mut limits = Limits::default();
    limits.connections = connections;
    limits.held = limits.held.max(window as usize * 2);
    limits
}

// contract: hosts (own) The options of a host say what is served, where, and for how long
// rule: hosts (own) The options of a host say what is served, where, and for how long
/// The default settings, with this window for each stream.
#[tactic(auto, unfolding(h2_flow::specs::Configs::first_bad))]
fn config_of(window: u32) -> Config
    ensures { (1 ≤ window) × (window ≤ 2147483647) → result.initial_window ≡ window }
{
    match Config::new(FIRST_TABLE, window, LEAST_MAX_STREAMS) {
        Ok(config) => config,
        Err(_) => Config::default(),
    }
}

// rule (tested): hosts (own) A host says which folder, address or input it can't have
/// Prints why a folder cannot be served, and returns the status.
fn refuse_root<E: Write>(root: &str, error: &io::Error, err: &mut E) -> Status
    ensures { IsFailedHost result }
{
    let status = give_up(error, None, err);
    let (what, why) = match error.kind() {
        ErrorKind::NotFound => ("folder ", " does not exist"),
        ErrorKind::PermissionDenied => ("folder ", ": permission denied"),
        ErrorKind::NotADirectory => ("", " is not a folder"),
        _ => ("folder ", " cannot be accessed"),
    };
    // There is no place left to report that this write fails.
    let _ = writeln!(err, "hint: {what}{root}{why}");
    status
}

// rule (tested): hosts (own) A host says which folder, address or input it can't have
/// Prints why a host ends early, with a hint if the cause is known, and returns the status.
fn end_early<E: Write>(error: &io::Error, err: &mut E) -> Status
    ensures { IsFailedHost result }
{
    let status = give_up(error, hint_of(error), err);
    let hint = match error.raw_os_error() {
        Some(NO_PIPE) => "--until-closed needs a pipe as standard input",
        _ if error.kind() == ErrorKind::AddrNotAvailable => "address not available",
        _ => return status,
    };
    // There is no place left to report that this write fails.
    let _ = writeln!(err, "hint: {hint}");
    status
}

/// The likely cause of an error at the port; none if standard input is not a pipe.
fn hint_of(error: &io::Error) -> Option<Hint> {
    match error.raw_os_error() {
        Some(NO_PIPE) => None,
        _ => hint_of_port(error.kind()),
    }
}

// contract: hosts (own) The hint of a host is of its port, and never of its log
// rule: hosts (own) The hint of a host is of its port, and never of its log
/// The hint for an error of this kind that ends the host: that of its port. Errors of one
/// connection end only that connection; a `ConnectionReset` that ends the host is that of the
/// log's output, and has no hint.
fn hint_of_port(kind: ErrorKind) -> Option<Hint>
    ensures { result ≡ port_hint kind }
{
    match kind {
        ErrorKind::AddrInUse => Some(Hint::PortInUse),
        ErrorKind::PermissionDenied => Some(Hint::PortForbidden),
        _ => None,
    }
}

/// Prints on `err` why the host ends, and the hint if there is one, and returns the status.
fn give_up<E: Write>(error: &io::Error, hint: Option<Hint>, err: &mut E) -> Status
    ensures { IsFailedHost result }
{
    let is_memory = matches!(error.kind(), ErrorKind::OutOfMemory);
    let failure = if is_memory {
        Failure::Memory
    } else {
        Failure::Device
    };
    // There is no place left to report that these writes fail.
    let _ = writeln!(err, "{failure}");
    let _ = write_hint(hint, err);
    if is_memory {
        Status::Memory
    } else {
        Status::Device
    }
}
