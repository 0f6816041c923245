//! The command `h2 host`.

ghost use Rattle.std.specs.Prelude.{◌≡◌, map, string_bytes, unwrap_or};
ghost use Rattle.h2_cli.specs.declared.status.Status.TheVariants.{Usage};
ghost use Rattle.h2_args.specs.Words.{host_asked_by};
ghost use Rattle.h2_tool.specs.Commands.{EndsHost, EndsHostAsked};

use crate::get::refuse_window;
use crate::program::answer;
use h2_args::{HostWords, host_args, window_or};
use h2_cli::Status;
use h2_hosting::{HostOptions, host_port};
use std::alloc::Global;
use std::fs::Files;
use std::io::Write;
use std::net::{IpAddr, Ipv4Addr, Net};
use std::time::Clock;

/// The default maximum number of connections.
const CONNECTIONS: usize = 10_000;

/// The window without `--window`, 1 MiB.
const WINDOW: u32 = 1_048_576;

/// The default number of seconds without a request after which a connection is closed.
const IDLE: u64 = 75;

// contract: hosts (own) The words of host say what is served, where, and for how long
// rule: hosts (own) The words of host say what is served, where, and for how long
/// Runs `h2 host` with the words after `host`: serves files or echoes requests on many
/// connections at once. Standard output gets help, or with `--log` a line for each request.
///
/// The status is that of [`host_port`]; for help it is [`Status::Good`], and for wrong words or
/// an invalid address or size of a window [`Status::Usage`].
pub fn cmd_host<N: Net + Files + Clock, W: Write, E: Write>(
    net: &N,
    alloc: Global,
    words: &[String],
    out: &mut W,
    err: &mut E,
) -> Status
    ensures { EndsHost (map string_bytes words.now) (W.contents out.old) (W.contents out.new)
        result }
{
    match host_args(alloc, words) {
        Ok(asked) => serve_asked(net, alloc, asked, out, err),
        Err(error) => answer(&error, out, err),
    }
}

// Serves what the words ask for, at their address, if that is one.
fn serve_asked<'x, N: Net + Files + Clock, W: Write, E: Write>(
    net: &'x N,
    alloc: Global,
    asked: HostWords<'x>,
    out: &mut W,
    err: &mut E,
) -> Status
    ensures { EndsHostAsked (host_asked_by asked.entry) result }
{
    let address = match asked.address {
        Some(text) => match text.parse::<IpAddr>() {
            Ok(address) => address,
            Err(_) => return no_address(text, err),
        },
        None => IpAddr::V4(Ipv4Addr::LOCALHOST),
    };
    let Some(window) = window_or(asked.window, WINDOW) else {
        return refuse_window(err);
    };
    host_port(net, alloc, options_of(asked, address, window), out, err)
}

// Prints on standard error that a text is not an IP address, and returns the status.
fn no_address<E: Write>(text: &str, err: &mut E) -> Status
    ensures { result ≡ Usage }
{
    // There is no place left to report that this write fails.
    let _ = writeln!(err, "error: not an IP address: {text}");
    Status::Usage
}

// contract: hosts (own) The words of host say what is served, where, and for how long
// rule: hosts (own) The words of host say what is served, where, and for how long
// What is served, where and how; by default 10,000 connections, and 75 seconds without a request.
fn options_of<'a>(asked: HostWords<'a>, address: IpAddr, window: u32) -> HostOptions<'a>
    ensures port { result.port ≡ asked.entry.port }
    ensures address { result.address ≡ address }
    ensures root { result.root ≡ asked.entry.root }
    ensures connections { result.connections ≡ unwrap_or asked.entry.connections 10000 }
    ensures idle { result.idle ≡ unwrap_or asked.entry.idle 75 }
    ensures log { result.log ≡ asked.entry.log }
    ensures until { result.until_closed ≡ asked.entry.until_closed }
    ensures window { result.window ≡ window }
{
    let connections = match asked.connections {
        Some(count) => count as usize,
        None => CONNECTIONS,
    };
    let idle = match asked.idle {
        Some(seconds) => u64::from(seconds),
        None => IDLE,
    };
    HostOptions {
        port: asked.port,
        address,
        root: asked.root,
        connections,
        idle,
        log: asked.log,
        until_closed: asked.until_closed,
        window,
    }
}
