//! The commands over sockets where no connection can be made, no answer comes, or no line is
//! printed.

use crate::devices::Failing;
use h2_cli::Status;
use h2_net::WriteParts;
use h2_tool::{Terminals, run};
use std::alloc::Global;
use std::fs::Files;
use std::io::Write;
use std::net::{Ipv4Addr, Net, OpenListener, SocketAddr, TcpListener};
use std::test::Fail;
use std::time::Clock;

/// What is reported where nothing listens at a port.
const REFUSED: &str = "N1 Device\nhint: connection refused: nothing is listening on that port\n";

/// What is reported where another listens at a port.
const IN_USE: &str = "N1 Device\nhint: the port is already in use\n";

/// The words of a line, divided by one space.
fn words_of(alloc: Global, line: &str) -> Result<Vec<String>, Fail> {
    let mut words = Vec::new(alloc);
    for word in line.split(' ') {
        if !word.is_empty() {
            words.push(String::from_str(alloc, word)?)?;
        }
    }
    Ok(words)
}

/// Whether a line ends with the status of N1, and with these lines on standard error. Nothing is
/// read.
fn ends_with<R: Net + Files + Clock + Copy, W: Write>(
    rt: &R,
    alloc: Global,
    line: &str,
    out: &mut W,
    lines: &str,
) -> Result<bool, Fail>
where
    R::Stream: WriteParts,
{
    let words = words_of(alloc, line)?;
    let terminals = Terminals {
        colored: false,
        has_progress: false,
    };
    let mut err = Vec::new(alloc);
    let ended = run(rt, alloc, &words, terminals, &mut Failing, out, &mut err);
    Ok(ended == Status::Device && err.as_slice() == lines.as_bytes())
}

/// Whether a line prints nothing and ends with N1, and with these lines on standard error. Nothing
/// is read.
fn fails<R: Net + Files + Clock + Copy>(
    rt: &R,
    alloc: Global,
    line: &str,
    lines: &str,
) -> Result<bool, Fail>
where
    R::Stream: WriteParts,
{
    let mut out = Vec::new(alloc);
    Ok(ends_with(rt, alloc, line, &mut out, lines)? && out.is_empty())
}

/// A port of 127.0.0.1 at which nothing listens any more.
fn closed_port<R: Net>(rt: &R) -> Result<u16, Fail> {
    let listener = TcpListener::bind(rt, SocketAddr::from((Ipv4Addr::LOCALHOST, 0)))?;
    Ok(listener.local_addr()?.port())
}

#[test]
fn loop_to_a_full_device(rt: HostRuntime) -> Result<(), Fail> {
    assert!(rt; ends_with(&rt, rt.alloc(), "loop 1", &mut Failing, "N1 Device\n")?);
    Ok(())
}

#[test]
fn get_where_nothing_listens(rt: HostRuntime) -> Result<(), Fail> {
    let port = closed_port(&rt)?;
    let line = format!(in rt.alloc(); "get http://127.0.0.1:{port}/")?;
    assert!(rt; fails(&rt, rt.alloc(), &line, REFUSED)?);
    Ok(())
}

// rule: engines (own) get gives up after the seconds of --timeout
// The port is listened at, and nothing is answered.
#[test]
fn get_that_is_not_answered(rt: HostRuntime) -> Result<(), Fail> {
    let listener = TcpListener::bind(&rt, SocketAddr::from((Ipv4Addr::LOCALHOST, 0)))?;
    let port = listener.local_addr()?.port();
    for word in ["", "--stream "] {
        let line = format!(in rt.alloc(); "get {word}--timeout 1 http://127.0.0.1:{port}/")?;
        assert!(rt; fails(&rt, rt.alloc(), &line, "N1 Device\nhint: timed out\n")?);
    }
    Ok(())
}

// A server of the second word as its port would wait.
#[test]
fn serve_at_a_taken_port(rt: HostRuntime) -> Result<(), Fail> {
    let listener = TcpListener::bind(&rt, SocketAddr::from((Ipv4Addr::LOCALHOST, 0)))?;
    let port = listener.local_addr()?.port();
    let free = closed_port(&rt)?;
    let line = format!(in rt.alloc(); "serve {port} {free}")?;
    assert!(rt; fails(&rt, rt.alloc(), &line, IN_USE)?);
    Ok(())
}
