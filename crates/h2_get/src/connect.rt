//! The link of a response that is fetched in parts.

ghost use Rattle.std.specs.Prelude.{◌≡◌, ◌⊎◌, ◌<◌, ◌-◌, ◌^◌, IfErr, IfOk};
ghost use Rattle.h2_net.specs.Endings.{HasClientHint, IsClientHint};

use h2_cli::hint_of_connecting;
use h2_net::{Ending, LinkError, Location, StreamLink, Why, WriteParts, client_hint};
use std::alloc::Global;
use std::io::Read;
use std::net::{Net, OpenStream, TcpStream};

// rule: engines (own) A hint after the line names the likely cause of N1 and N2
/// Connects to the host and the port of a location. The network resolves the host's name.
///
/// # Errors
///
/// [`LinkError::Device`] (N1) if no connection can be made, [`LinkError::Memory`] (N3) if an
/// allocation was refused. The hint names the likely cause.
pub(crate) fn connect_to<N: Net>(
    net: &N,
    alloc: Global,
    location: &Location,
) -> Result<StreamLink<N::Stream>, Ending>
where
    N::Stream: WriteParts,
    ensures new { IfOk result (λ link. link.failures ≡ 0) }
    ensures err { IfErr result (λ ending. (ending.error ≡ LinkError.Device)
        ⊎ (ending.error ≡ LinkError.Memory)) }
    ensures hint { IfErr result HasClientHint }
{
    match TcpStream::connect(net, (location.host.as_str(), location.port)) {
        Ok(stream) => match StreamLink::new(alloc, stream) {
            Ok(link) => Ok(link),
            Err(error) => Err(Ending::from(error)),
        },
        Err(fault) => Err(Ending {
            error: LinkError::Device,
            hint: hint_of_connecting(fault.kind()),
            why: None,
        }),
    }
}

// rule: engines (own) A hint after the line names the likely cause of N1 and N2
/// Describes a fetch that ended early: the likely cause, and why the connection failed. Flushes
/// the link unless it has failed.
pub(crate) fn end_fetch<S: Read + WriteParts + OpenStream>(
    link: &mut StreamLink<S>,
    error: LinkError,
    why: Option<Why>,
) -> Ending
    ensures error { result.error ≡ error }
    ensures why { result.why ≡ why }
    ensures hint { IsClientHint error link.old.first.items link.old.last_error result.hint }
{
    let hint = client_hint(error, link.first_octets(), link.last_error());
    if error != LinkError::Device {
        send_held(link);
    }
    Ending { error, hint, why }
}

/// Flushes a link that has not failed: a GOAWAY, or credit. If that fails, what was received
/// stays the same.
pub(crate) fn send_held<S: Read + WriteParts + OpenStream>(link: &mut StreamLink<S>) {
    if h2_engines::Link::failures(link) == 0 {
        let _ = link.flush();
    }
}
