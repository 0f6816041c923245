//! URLs that can be fetched.

ghost use Rattle.std.specs.Prelude.{◌≡◌, ◌++◌, ℕ, IfOk, IfErr, MatchOption, string_bytes};
ghost use Rattle.std.specs.Char.{is_ascii_digit};
ghost use Rattle.std.specs.List.{list_all};
ghost use Rattle.http_uri.specs.Uri.{uri_path, uri_query};
ghost use Rattle.h2_net.specs.Locations.{IsLocationOf, IsRefusedUri, IsRefusedUrl, Names};
ghost use Rattle.h2_net.specs.Locations.{IsPortOfAuthority, query_part, without_brackets};

use http_uri::{Authority, Uri, UriError};
use std::alloc::{AllocError, Global};
use thiserror::Error;

/// The target of a URL with scheme `http` (RFC 9110, section 4.2.1).
#[derive(Debug, Drop)]
pub struct Location {
    /// The host: a name, or an IP address without brackets.
    pub host: String,
    /// The port, from 1 to 65,535.
    pub port: u16,
    /// The host and the port as in the URL: the value of `:authority`.
    pub authority: String,
    /// The path, `/` if the URL has none, and the query: the value of `:path`.
    pub path: String,
}

/// Why a URL cannot be fetched. Its text is for the user.
#[derive(Clone, Copy, Debug, PartialEq, Eq, Hash, Error)]
pub enum TargetFault {
    /// It is not a valid URL, or it is longer than 65,534 octets.
    #[error("the URL is malformed")]
    Unread,
    /// It has no scheme, or one that is not `http`.
    #[error("the URL does not begin with http://")]
    OtherScheme,
    /// It has no host.
    #[error("the URL has no host")]
    NoHost,
    /// It has no port, or one that is not from 1 to 65,535.
    #[error("the URL needs a port from 1 to 65535, such as :80")]
    NoPort,
    /// It has a userinfo subcomponent, which must not be sent (RFC 9113, section 8.3.1).
    #[error("a user name in the URL is not supported")]
    UserInfo,
    /// Out of memory.
    #[error("N3 Memory")]
    Memory,
}

impl From<AllocError> for TargetFault {
    ghost use Rattle.h2_net.specs.declared.location.TargetFault.TheVariants.{Memory};

    ghost from_gives = { λ _ fault. fault ≡ Memory };

    fn from(_error: AllocError) -> TargetFault {
        TargetFault::Memory
    }
}

// rule: engines (own) A URL is fetched that has scheme http, a host and a port
/// Reads a URL. Its fragment is dropped (RFC 9110, section 7.1).
///
/// # Errors
///
/// [`TargetFault::Memory`] if an allocation was refused; otherwise the first reason for which the
/// URL cannot be fetched, in the order of [`TargetFault`].
pub fn target(alloc: Global, url: &[u8]) -> Result<Location, TargetFault>
    ensures ok { IfOk result (Names url.now) }
    ensures err { IfErr result (IsRefusedUrl url.now) }
{
    let uri = match Uri::from_bytes(alloc, url) {
        Ok(uri) => uri,
        Err(UriError::Invalid(_)) => return Err(TargetFault::Unread),
        Err(UriError::OutOfMemory) => return Err(TargetFault::Memory),
    };
    location_of(alloc, &uri)
}

// rule: engines (own) A URL is fetched that has scheme http, a host and a port
/// The location of a URI.
fn location_of(alloc: Global, uri: &Uri) -> Result<Location, TargetFault>
    ensures ok { IfOk result (IsLocationOf uri.now) }
    ensures err { IfErr result (IsRefusedUri uri.now) }
{
    if uri.scheme_str() != Some("http") {
        return Err(TargetFault::OtherScheme);
    }
    let authority = uri.authority().ok_or(TargetFault::NoHost)?;
    let host = without_brackets(authority.host());
    if host.is_empty() {
        return Err(TargetFault::NoHost);
    }
    let port = port_of(authority).ok_or(TargetFault::NoPort)?;
    if authority.as_str().as_bytes().contains(&b'@') {
        return Err(TargetFault::UserInfo);
    }
    Ok(Location {
        host: String::from_str(alloc, host)?,
        port,
        authority: String::from_str(alloc, authority.as_str())?,
        path: path_of(alloc, uri)?,
    })
}

/// An IPv6 address without its brackets, or any other host as it is.
fn without_brackets(host: &str) -> &str
    ensures { result.now ≡ without_brackets host.now }
{
    match host.strip_prefix('[') {
        Some(inner) => inner.strip_suffix(']').unwrap_or(host),
        None => host,
    }
}

// rule: engines (own) A URL is fetched that has scheme http, a host and a port
/// The port of an authority, if it is from 1 to 65,535 and has only digits.
fn port_of(authority: &Authority) -> Option<u16>
    ensures { MatchOption result ((port : ℕ) → IsPortOfAuthority authority.now port → ⊥)
        (IsPortOfAuthority authority.now) }
{
    let port = authority.port()?;
    let number = port.as_u16();
    if number > 0 && is_decimal(port.as_str()) {
        Some(number)
    } else {
        None
    }
}

/// Whether a text has only decimal digits.
fn is_decimal(text: &str) -> bool
    ensures { result ≡ list_all is_ascii_digit text.now }
{
    text.bytes().all(|octet| octet.is_ascii_digit())
}

// rule: engines (own) A URL is fetched that has scheme http, a host and a port
/// The path of a URL, `/` if it has none, with the query.
fn path_of(alloc: Global, uri: &Uri) -> Result<String, AllocError>
    ensures { IfOk result (λ path. string_bytes path
        ≡ uri_path uri.now ++ query_part (uri_query uri.now)) }
{
    let path = uri.path();
    match uri.query() {
        Some(query) => format!(in alloc; "{path}?{query}"),
        None => String::from_str(alloc, path),
    }
}
