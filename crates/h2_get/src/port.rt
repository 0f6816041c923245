//! The location of a URL that may name no port.

ghost use Rattle.std.specs.Prelude.{◌≡◌, ◌≤◌, IfErr, IfOk, length, position};
ghost use Rattle.h2_net.specs.Locations.{IsRefusedUrl};
ghost use Rattle.h2_get.specs.Ports.{IsRefusedAtPort, NamesAtPort, authority_end};
ghost use Rattle.h2_get.specs.Ports.{ends_authority, url_with_port};

use h2_net::{Location, TargetFault, target};
use std::alloc::{AllocError, Global};

/// The octets of `http://`.
const SCHEME: usize = 7;

// contract: engines (own) The port of --port is that of a URL without one
// rule: engines (own) The port of --port is that of a URL without one
/// Reads a URL as [`target`] does. If it names no port, `port` is added to its authority, if given.
///
/// # Errors
///
/// Those of [`target`].
pub fn location_at(alloc: Global, url: &[u8], port: Option<u16>) -> Result<Location, TargetFault>
    ensures ok { IfOk result (NamesAtPort url.now port) }
    ensures err { IfErr result (IsRefusedAtPort url.now port) }
{
    match target(alloc, url) {
        Ok(location) => Ok(location),
        Err(TargetFault::NoPort) => location_with(alloc, url, port),
        Err(fault) => Err(fault),
    }
}

// rule: engines (own) The port of --port is that of a URL without one
/// Reads a URL that names no port, with the given one, if any.
fn location_with(alloc: Global, url: &[u8], port: Option<u16>) -> Result<Location, TargetFault>
    requires { IsRefusedUrl url.now TargetFault.NoPort }
    ensures ok { IfOk result (NamesAtPort url.now port) }
    ensures err { IfErr result (IsRefusedAtPort url.now port) }
{
    let Some(port) = port else {
        return Err(TargetFault::NoPort);
    };
    let longer = url_with_port(alloc, url, port)?;
    target(alloc, longer.as_slice())
}

// rule: engines (own) The port of --port is that of a URL without one
/// The URL with a port added to its authority.
fn url_with_port(alloc: Global, url: &[u8], port: u16) -> Result<Vec<u8>, AllocError>
    ensures { IfOk result (λ longer. longer.items ≡ url_with_port url.now port) }
{
    let place = authority_end(url);
    let named = format!(in alloc; ":{port}")?;
    let mut longer = Vec::from_slice(alloc, &url[..place])?;
    longer.extend_from_slice(named.as_bytes())?;
    longer.extend_from_slice(&url[place..])?;
    Ok(longer)
}

// rule: engines (own) The port of --port is that of a URL without one
/// The end of the authority of a URL that begins with `http://`.
fn authority_end(url: &[u8]) -> usize
    ensures end { result ≡ authority_end url.now }
    ensures within { result ≤ length url.now }
{
    let start = SCHEME.min(url.len());
    match authority_length(&url[start..]) {
        Some(place) => start + place,
        None => url.len(),
    }
}

/// The index of the first octet that ends an authority, if there is one.
fn authority_length(octets: &[u8]) -> Option<usize>
    ensures { result ≡ position ends_authority octets.now }
{
    octets.iter().position(|octet| ends_authority(*octet))
}

/// Whether an octet ends the authority of a URL.
fn ends_authority(octet: u8) -> bool
    ensures { result ≡ ends_authority octet }
{
    octet == b'/' || octet == b'?' || octet == b'#'
}
