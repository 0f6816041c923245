//! Serves connections to a port.

ghost use Rattle.std.specs.Prelude.{◌≡◌, ℕ, Option, Result as Outcome, OnOk, IfErr, None, true};
ghost use Rattle.h2_link.specs.declared.error.LinkError.{LinkError as Reason};
ghost use Rattle.h2_engines.specs.Failures.{EndsServing};
ghost use Rattle.h2_engines.specs.Linked.{traffic};
ghost use Rattle.h2_engines.specs.Serves.{ServesWhy};
ghost use Rattle.h2_net.specs.Endings.{DrainsAfter, EndsStream, FailsByLink, IsServerHint};
ghost use Rattle.h2_net.specs.Endings.{IsServingStatus, without_hint};
ghost use Rattle.h2_net.specs.Fetching.{default_values};
ghost use Rattle.h2_net.specs.Serving.{ServesConnection, ServesConnections, ServesPort};

use crate::ending::{Ending, report, server_hint};
use crate::parts::WriteParts;
use crate::stream_link::StreamLink;
use h2_cli::{Status, hint_of_device};
use h2_engines::{Config, LinkError, Why, serve_link_why};
use std::alloc::Global;
use std::io::{Read, Write};
use std::net::{Ipv4Addr, Net, OpenListener, OpenStream, SocketAddr, TcpListener};

// rule: engines (own) h2 serve serves COUNT connections, one after another
/// Serves `count` connections to a port on 127.0.0.1, one after another, as
/// [`h2_engines::serve_link`] does with the default [`Config`]. Returns the status of the first
/// connection that ended early, or [`Status::Good`].
///
/// If a connection ends early, that is printed on `err`, as by [`report`], and the next one is
/// served. If the port is not available, no connection is served; [`LinkError::Device`] (N1) is
/// printed likewise, and the status is that of N1.
pub fn serve_port<N: Net, E: Write>(
    net: &N,
    alloc: Global,
    port: u16,
    count: u16,
    err: &mut E,
) -> Status
where
    N::Stream: WriteParts,
    ensures status { IsServingStatus result }
    ensures serves { ServesPort count result }
{
    match TcpListener::bind(net, SocketAddr::from((Ipv4Addr::LOCALHOST, port))) {
        Ok(listener) => serve_connections(alloc, &listener, count, err),
        Err(fault) => {
            let hint = hint_of_device(fault.kind());
            let error = LinkError::Device;
            let why = None;
            report(Ending { error, hint, why }, err)
        }
    }
}

// rule: engines (own) h2 serve serves COUNT connections, one after another
/// Serves `count` connections of a listener, as [`serve_port`] does. A failed accept counts as a
/// connection that ended with [`LinkError::Device`] (N1).
pub fn serve_connections<L: OpenListener, E: Write>(
    alloc: Global,
    listener: &L,
    count: u16,
    err: &mut E,
) -> Status
where
    L::Stream: Read + WriteParts + OpenStream,
    ensures status { IsServingStatus result }
    ensures serves { ServesConnections count result }
{
    let mut status = Status::Good;
    for _place in 0..count {
        if let Err(ending) = serve_next(alloc, listener) {
            let of_error = report(ending, err);
            if status == Status::Good {
                status = of_error;
            }
        }
    }
    status
}

/// Serves the next connection that a listener accepts.
fn serve_next<L: OpenListener>(alloc: Global, listener: &L) -> Result<(), Ending>
where
    L::Stream: Read + WriteParts + OpenStream,
    ensures err { IfErr result (λ ending. EndsServing ending.error) }
    ensures serves { ServesConnection (without_hint result) }
{
    let stream = match listener.accept() {
        Ok((stream, _)) => stream,
        Err(fault) => {
            return Err(Ending {
                error: LinkError::Device,
                hint: hint_of_device(fault.kind()),
                why: None,
            });
        }
    };
    let mut link = StreamLink::new(alloc, stream)?;
    serve_with_hint(alloc, &mut link)
}

/// Serves one connection, as [`serve_stream`] does. If it ends early, the hint names the likely
/// cause, if it is known.
fn serve_with_hint<S: Read + WriteParts + OpenStream>(
    alloc: Global,
    link: &mut StreamLink<S>,
) -> Result<(), Ending>
    requires { link.old.failures ≡ 0 }
    ensures serves { (served : Outcome ℕ Reason) × EndsStream served (without_hint result)
        × ((why : Option Why) × ServesWhy default_values (traffic None None link.old.stalled)
        (traffic None None link.new.stalled) served why
        × IfErr result (λ ending. ending.why ≡ why)) }
    ensures ended { OnOk result (link.new.ended ≡ true) }
    ensures failures { FailsByLink link.old.failures link.new.failures (without_hint result) }
    ensures drained { DrainsAfter (without_hint result) link.new.drained }
    ensures err { IfErr result (λ ending. EndsServing ending.error) }
    ensures hint { IfErr result (λ ending. IsServerHint ending.error link.new.first.items
        link.new.last_error ending.hint) }
{
    let mut why = None;
    match serve_stream(alloc, link, &mut why) {
        Ok(()) => Ok(()),
        Err(error) => Err(Ending {
            error,
            hint: server_hint(error, link.first_octets(), link.last_error()),
            why,
        }),
    }
}

// contract: engines (own) After N2 and N3 input is dropped up to 16 MiB
// rule: engines (own) After N2 and N3 input is dropped up to 16 MiB
/// Serves one connection, and flushes its link. After [`LinkError::Stream`] (N2) and
/// [`LinkError::Memory`] (N3) the link is drained, so that the peer can read the GOAWAY. `why`
/// is set to the reason for which the connection failed, if it did.
fn serve_stream<S: Read + WriteParts + OpenStream>(
    alloc: Global,
    link: &mut StreamLink<S>,
    why: &mut Option<Why>,
) -> Result<(), LinkError>
    requires { link.old.failures ≡ 0 }
    ensures serves { (served : Outcome ℕ Reason) × EndsStream served result
        × ServesWhy default_values (traffic None None link.old.stalled)
        (traffic None None link.new.stalled) served why.new }
    ensures ended { OnOk result (link.new.ended ≡ true) }
    ensures failures { FailsByLink link.old.failures link.new.failures result }
    ensures drained { DrainsAfter result link.new.drained }
    ensures err { IfErr result EndsServing }
{
    let served = serve_link_why(alloc, link, Config::default(), why);
    if link.flush().is_err() {
        return Err(LinkError::Device);
    }
    match served {
        Ok(_) => Ok(()),
        Err(error) => {
            if matches!(&error, LinkError::Stream(_) | LinkError::Memory) {
                link.drain();
            }
            Err(error)
        }
    }
}
