//! Fetches a response, and prints it.

ghost use Rattle.std.specs.Prelude.{◌≡◌, ◌<◌, ◌-◌, ◌^◌, IfOk, OnOk, option_map, nat_lt};
ghost use Rattle.std.specs.Prelude.{◌&&◌, ◌⊎◌, None, [], if◌then◌else◌, Err, IfErr, List, Option};
ghost use Rattle.std.specs.Prelude.{ℕ, ◌++◌, ◌∷◌, codes};
ghost use Rattle.std.specs.Prelude.{string_bytes};
ghost use Rattle.std.specs.Io.KnownBytes.{Appends};
ghost use Rattle.std.specs.declared.io.ErrorKind.{ErrorKind};
ghost use Rattle.http.specs.StatusCode.{reason_phrase};
ghost use Rattle.h2_message.specs.Fields.{status_of};
ghost use Rattle.h2_message.specs.Messages.{plain_field};
ghost use Rattle.h2_message.specs.Values.{message_value};
ghost use Rattle.h2_engines.specs.Failures.{failures_at_end};
ghost use Rattle.h2_engines.specs.Fetches.{FetchesWhy};
ghost use Rattle.h2_engines.specs.Linked.{Traffic, traffic};
ghost use Rattle.h2_net.specs.Endings.{HasClientHint, IsClientHint, without_hint};
ghost use Rattle.h2_net.specs.Fetching.{FetchesLocation, FetchesRequest, GetsLocation, get_request};
ghost use Rattle.h2_net.specs.Fetching.{default_values, pseudo_fields_to};
ghost use Rattle.h2_net.specs.Printing.{IsPhraseOf, PrintsResponse, status_line};

use crate::ending::{Ending, client_hint};
use crate::location::Location;
use crate::parts::WriteParts;
use crate::stream_link::StreamLink;
use h2_cli::hint_of_connecting;
use h2_engines::{Config, Fetched, Field, Link, LinkError, Message, fetch_link, fetch_link_why};
use http::StatusCode;
use std::alloc::{AllocError, Global};
use std::io::{self, Read, Write};
use std::net::{Net, OpenStream, TcpStream};

// rule: engines (own) A URL is asked for with GET
// contract: engines (own) A hint after the line names the likely cause of N1 and N2
/// Sends a GET for a location over a new connection, and returns the response once it is
/// complete. The network resolves the host's name.
///
/// # Errors
///
/// Those of [`fetch_location`].
pub fn get_location<N: Net>(net: &N, alloc: Global, location: &Location) -> Result<Fetched, Ending>
where
    N::Stream: WriteParts,
    ensures gets { GetsLocation location.now (without_hint result) }
    ensures hint { IfErr result HasClientHint }
{
    let Ok(message) = request_to(alloc, location) else {
        return Err(Ending {
            error: LinkError::Memory,
            hint: None,
            why: None,
        });
    };
    fetch_location(net, alloc, location, message)
}

// rule: engines (own) The words of get make its request and say what is printed
// contract: engines (own) A hint after the line names the likely cause of N1 and N2
/// Sends a request over a new connection to a location's host and port, and returns the response
/// once it is complete. The network resolves the host's name.
///
/// # Errors
///
/// Those of [`fetch_link`]; [`LinkError::Device`] (N1) also if no connection can be made, or
/// TCP_NODELAY cannot be set. For N1 and [`LinkError::Stream`] (N2) the hint names the likely
/// cause, if it is known.
pub fn fetch_location<N: Net>(
    net: &N,
    alloc: Global,
    location: &Location,
    message: Message,
) -> Result<Fetched, Ending>
where
    N::Stream: WriteParts,
    ensures fetches { FetchesRequest (message_value message) (without_hint result) }
    ensures hint { IfErr result HasClientHint }
{
    let stream = match TcpStream::connect(net, address_of(location)) {
        Ok(stream) => stream,
        Err(fault) => {
            return Err(Ending {
                error: LinkError::Device,
                hint: hint_of_connecting(fault.kind()),
                why: None,
            });
        }
    };
    let mut link = StreamLink::new(alloc, stream)?;
    fetch_with_hint(alloc, &mut link, message)
}

// rule: engines (own) A URL is asked for with GET
/// The host and the port of a location.
fn address_of(location: &Location) -> (&str, u16)
    ensures host { result.0.now ≡ string_bytes location.now.host }
    ensures port { result.1 ≡ location.now.port }
{
    (location.host.as_str(), location.port)
}

/// Makes a request over a link, as [`fetch_link`] does, and flushes the link. If the fetch
/// fails, the hint names the likely cause, if it is known.
fn fetch_with_hint<S: Read + WriteParts + OpenStream>(
    alloc: Global,
    link: &mut StreamLink<S>,
    message: Message,
) -> Result<Fetched, Ending>
    requires { link.old.failures ≡ 0 }
    ensures fetches { FetchesRequest (message_value message) (without_hint result) }
    ensures sent { (link.new.held.items ≡ []) ⊎ (link.old.failures < link.new.failures) }
    ensures hint { IfErr result (λ ending. (last_error : Option ErrorKind)
        × IsClientHint ending.error link.new.first.items last_error ending.hint) }
    ensures why { IfErr result (λ ending. (start now : Traffic)
        × FetchesWhy default_values (message_value message) start now (Err ending.error)
        ending.why) }
{
    let mut why = None;
    let fetched = fetch_link_why(alloc, link, Config::default(), message, &mut why);
    let last_error = link.last_error();
    // A GOAWAY may be held. If it cannot be sent, what was fetched stays the same.
    let _ = link.flush();
    match fetched {
        Ok(fetched) => Ok(fetched),
        Err(error) => Err(Ending {
            error,
            hint: client_hint(error, link.first_octets(), last_error),
            why,
        }),
    }
}

// rule: engines (own) A URL is asked for with GET
/// Sends a GET for a location over a link, and returns the response once it is complete.
///
/// # Errors
///
/// Those of [`fetch_link`].
pub fn get_over<L: Link>(
    alloc: Global,
    link: &mut L,
    location: &Location,
) -> Result<Fetched, LinkError>
    requires { L.faults link.old < 2 ^ 64 - 1 }
    ensures fetches { FetchesLocation location.now
        (traffic (L.given link.old) (L.taken link.old) (L.stalled link.old))
        (traffic (L.given link.new) (L.taken link.new) (L.stalled link.new)) result }
    ensures failures { L.faults link.new ≡ failures_at_end (L.faults link.old) result }
{
    let message = request_to(alloc, location)?;
    fetch_link(alloc, link, Config::default(), message)
}

/// The request for a location.
fn request_to(alloc: Global, location: &Location) -> Result<Message, AllocError>
    ensures { IfOk result (λ message. message_value message ≡ get_request location.now) }
{
    Ok(Message {
        head: head_to(alloc, b"GET", location)?,
        body: Vec::new(alloc),
        trailers: None,
    })
}

// rule: engines (own) A URL is asked for with GET
/// Returns the pseudo-header fields of a request to a location (RFC 9113, section 8.3.1),
/// without other fields.
///
/// # Errors
///
/// [`AllocError`] if an allocation was refused.
pub fn head_to(alloc: Global, method: &[u8], location: &Location) -> Result<Vec<Field>, AllocError>
    ensures { IfOk result (λ head. head.items ≡ pseudo_fields_to method.now location.now) }
{
    let path = location.path.as_bytes();
    let authority = location.authority.as_bytes();
    head_with(alloc, method, path, authority)
}

// rule: engines (own) A URL is asked for with GET
/// The pseudo-header fields of a request with scheme `http` and these values, without other fields.
pub(crate) fn head_with(
    alloc: Global,
    method: &[u8],
    path: &[u8],
    authority: &[u8],
) -> Result<Vec<Field>, AllocError>
    ensures { IfOk result (λ head. head.items ≡ plain_field (codes ":method") method.now
        ∷ plain_field (codes ":scheme") (codes "http") ∷ plain_field (codes ":path") path.now
        ∷ plain_field (codes ":authority") authority.now ∷ []) }
{
    let mut head = Vec::new(alloc);
    add_field(alloc, &mut head, b":method", method)?;
    add_field(alloc, &mut head, b":scheme", b"http")?;
    add_field(alloc, &mut head, b":path", path)?;
    add_field(alloc, &mut head, b":authority", authority)?;
    Ok(head)
}

/// Adds a field to a head.
fn add_field(
    alloc: Global,
    head: &mut Vec<Field>,
    name: &[u8],
    value: &[u8],
) -> Result<(), AllocError>
    ensures { OnOk result
        (head.new.items ≡ head.old.items ++ plain_field name.now value.now ∷ []) }
{
    head.push(Field::copy_of(alloc, name, value, false)?)?;
    Ok(())
}

// rule: engines (own) A response is printed as its status, its phrase and its body
/// Prints the status of a response and its reason phrase on one line, or the status alone if it
/// has none, and then the octets of the body as they are.
///
/// # Errors
///
/// [`LinkError::Device`] (N1) if a write failed.
pub fn print_response<W: Write>(fetched: &Fetched, out: &mut W) -> Result<(), LinkError>
    ensures prints { OnOk result
        (PrintsResponse (W.contents out.old) (W.contents out.new) fetched.now) }
    ensures err { IfErr result (λ error. error ≡ LinkError.Device) }
{
    write_response(fetched, out)?;
    Ok(())
}

fn write_response<W: Write>(fetched: &Fetched, out: &mut W) -> io::Result<()>
    ensures { OnOk result (PrintsResponse (W.contents out.old) (W.contents out.new) fetched.now) }
{
    write_status(status_value(&fetched.head), out)?;
    out.write_all(&fetched.body)?;
    out.flush()
}

// rule: engines (own) A response is printed as its status, its phrase and its body
/// Returns the reason phrase of a status, if the crate `http` has one for it: those of RFC 9110,
/// section 15, and of some other RFCs, such as 103 Early Hints.
pub fn phrase(status: u16) -> Option<&'static str>
    ensures { option_map (λ text. text.now) result
        ≡ (if nat_lt 99 status && nat_lt status 1000 then reason_phrase status else None) }
{
    match StatusCode::from_u16(status) {
        Ok(status) => status.canonical_reason(),
        Err(_) => None,
    }
}

// rule: engines (own) A response is printed as its status, its phrase and its body
/// Writes a status and its reason phrase as a line, or the status alone if it has none.
///
/// # Errors
///
/// Those of the writer.
pub fn write_status<W: Write>(value: &[u8], out: &mut W) -> io::Result<()>
    ensures { OnOk result ((phrase : Option (List ℕ)) × IsPhraseOf value.now phrase
        × Appends (W.contents out.old) (W.contents out.new) (status_line value.now phrase)) }
{
    out.write_all(value)?;
    match phrase_of(value) {
        Some(phrase) => writeln!(out, " {phrase}"),
        None => writeln!(out),
    }
}

// rule: engines (own) A response is printed as its status, its phrase and its body
/// The reason phrase of the status with these digits, if it has one.
fn phrase_of(value: &[u8]) -> Option<&'static str>
    ensures { IsPhraseOf value.now (option_map (λ text. text.now) result) }
{
    match StatusCode::from_bytes(value) {
        Ok(status) => status.canonical_reason(),
        Err(_) => None,
    }
}

/// Returns the value of `:status`, which the head of each response has (RFC 9113, section 8.3.2);
/// an empty slice if this head has none.
pub fn status_value(head: &[Field]) -> &[u8]
    ensures { result.now ≡ status_of head.now }
{
    for field in head {
        if field.name.as_slice() == b":status".as_slice() {
            return field.value.as_slice();
        }
    }
    &[]
}
