//! The command `h2 get` with several URLs.

ghost use Rattle.std.specs.Prelude.{◌≡◌, ◌++◌, ◌∷◌, [], false, IfErr, IfOk, None, OnOk, map};
ghost use Rattle.std.specs.List.{AllByRecursion};
ghost use Rattle.h2_get.specs.Requests.{IsAskable, IsRefusedRequest, reads_input, request_asked};
ghost use Rattle.h2_get.specs.Several.{results_of};
ghost use Rattle.h2_get.specs.Streams.{without_stream_hint};
ghost use Rattle.h2_args.specs.Words.{asked_by};
ghost use Rattle.h2_message.specs.Values.{message_value};
ghost use Rattle.h2_tool.specs.Gets.{EndsByRefusal, RefusesUrl};
ghost use Rattle.h2_tool.specs.GetsSeveral.{AreSameHost, IsRefusedForOne, IsUnfit, NameInOrder};
ghost use Rattle.h2_tool.specs.GetsSeveral.{RefusesLocations, SeveralSo, StreamsAll};
ghost use Rattle.h2_tool.specs.GetsSeveral.{first_failed, has_others, has_too_many, is_same_host};
ghost use Rattle.h2_tool.specs.GetsSeveral.{status_of_one, status_of_several};

use crate::get::{
    end_stream, end_unstreamed, is_over, refuse_body, refuse_request, refuse_url, status_after,
};
use h2_args::GetOptions;
use h2_cli::Status;
use h2_engines::Message;
use h2_get::{
    Deadline, RequestFault, SeveralStreamed, StreamEnding, StreamError, TimedNet, body_of,
    location_at, request_of, stream_locations,
};
use h2_net::{Fetched, Hint, LinkError, Location, TargetFault, Why, WriteParts};
use std::alloc::Global;
use std::fs::Files;
use std::io::{Read, Write};
use std::net::Net;
use std::time::Clock;

// rule: engines (own) Several responses are printed in the order of their URLs
/// Whether the options name more than one URL.
pub(crate) fn has_others(options: &GetOptions<'_>) -> bool
    ensures { result ≡ has_others (asked_by options.now) }
{
    !options.others.is_empty()
}

/// The maximum number of URLs: RFC 9113, section 6.5.2, recommends that
/// SETTINGS_MAX_CONCURRENT_STREAMS is at least 100.
const MAX_URLS: usize = 100;

// rule: engines (own) Several responses are printed in the order of their URLs
/// Whether the options name more URLs than can be fetched at once.
fn has_too_many(options: &GetOptions<'_>) -> bool
    ensures { result ≡ has_too_many (asked_by options.now) }
{
    options.others.len() >= MAX_URLS
}

// rule: engines (own) Several responses are printed in the order of their URLs
/// Fetches the URLs of the options at once over one connection, and prints the responses as they
/// arrive, in the order of the URLs. Each failure has a line on standard error; the status is
/// that of the first.
pub(crate) fn get_several<N: Net + Files + Clock + Copy, R: Read, W: Write, E: Write>(
    net: &N,
    alloc: Global,
    options: &GetOptions<'_>,
    input: &mut R,
    out: &mut W,
    err: &mut E,
) -> Status
where
    N::Stream: WriteParts,
    ensures ends { SeveralSo (asked_by options.now) (R.remaining input.old)
        (W.contents out.old) (W.contents out.new) result }
    ensures unread { reads_input (asked_by options.now) ≡ false
        → R.remaining input.new ≡ R.remaining input.old }
{
    if options.output.is_some() {
        return refuse_words("--output cannot be used with several URLs", err);
    }
    if has_too_many(options) {
        return refuse_words("at most 100 URLs can be fetched at once", err);
    }
    let first = match location_at(alloc, options.url.as_bytes(), options.port) {
        Ok(location) => location,
        Err(fault) => return refuse_url(fault, options.port, err),
    };
    let others = match locations_of(alloc, &options.others, options.port, &first) {
        Ok(locations) => locations,
        Err(fault) => return refuse_locations(fault, options.port, err),
    };
    let body = match body_of(net, alloc, options, input) {
        Ok(body) => body,
        Err(fault) => return refuse_body(fault, options, err),
    };
    let messages = match requests_of(alloc, options, &first, &others, &body) {
        Ok(messages) => messages,
        Err(fault) => return refuse_request(fault, err),
    };
    ask_several_in_time(net, alloc, options, &first, messages, out, err)
}

/// Why the other URLs cannot be fetched with the first.
#[derive(Clone, Copy, Debug)]
pub(crate) enum LocationsFault {
    /// One of them cannot be fetched.
    Url(TargetFault),
    /// One of them has another host or port.
    OtherHost,
}

// rule: engines (own) Several responses are printed in the order of their URLs
// The locations of the other URLs, which have the host and the port of the first.
fn locations_of(
    alloc: Global,
    urls: &[&str],
    port: Option<u16>,
    first: &Location,
) -> Result<Vec<Location>, LocationsFault>
    ensures ok { IfOk result (λ others.
        NameInOrder (map (λ url. url.now) urls.now) port others.items) }
    ensures same { IfOk result (λ others. AreSameHost first.now others.items) }
    ensures err { IfErr result (IsUnfit (map (λ url. url.now) urls.now) port first.now) }
{
    let mut locations = Vec::new(alloc);
    for url in urls {
        let location = match location_at(alloc, url.as_bytes(), port) {
            Ok(location) => location,
            Err(fault) => return Err(LocationsFault::Url(fault)),
        };
        if !is_same_host(first, &location) {
            return Err(LocationsFault::OtherHost);
        }
        if locations.push(location).is_err() {
            return Err(LocationsFault::Url(TargetFault::Memory));
        }
    }
    Ok(locations)
}

// Whether two locations have the same host and port. Host names ignore case (RFC 3986, section
// 3.2.2).
fn is_same_host(one: &Location, other: &Location) -> bool
    ensures { result ≡ is_same_host one.now other.now }
{
    one.host.eq_ignore_ascii_case(&other.host) && one.port == other.port
}

// rule: engines (own) Several responses are printed in the order of their URLs
// The requests for these locations, in order, all with this body.
fn requests_of(
    alloc: Global,
    options: &GetOptions<'_>,
    first: &Location,
    others: &[Location],
    body: &[u8],
) -> Result<Vec<Message>, RequestFault>
    ensures ok { IfOk result (λ messages. map message_value messages.items
        ≡ map (request_asked (asked_by options.now) body.now) (first.now ∷ others.now)) }
    ensures asked { OnOk result (AllByRecursion (IsAskable (asked_by options.now) body.now)
        (first.now ∷ others.now)) }
    ensures err { IfErr result (IsRefusedForOne (asked_by options.now) body.now
        (first.now ∷ others.now)) }
{
    let mut messages = Vec::new(alloc);
    add_request(alloc, options, first, body, &mut messages)?;
    for location in others {
        add_request(alloc, options, location, body, &mut messages)?;
    }
    Ok(messages)
}

// Adds the request for a location to others.
fn add_request(
    alloc: Global,
    options: &GetOptions<'_>,
    location: &Location,
    body: &[u8],
    messages: &mut Vec<Message>,
) -> Result<(), RequestFault>
    ensures ok { OnOk result (map message_value messages.new.items
        ≡ map message_value messages.old.items
        ++ request_asked (asked_by options.now) body.now location.now ∷ []) }
    ensures asked { OnOk result (IsAskable (asked_by options.now) body.now location.now) }
    ensures err { IfErr result (IsRefusedRequest (asked_by options.now) body.now location.now) }
{
    let copied = Vec::from_slice(alloc, body)?;
    let message = request_of(alloc, options, location, copied)?;
    if messages.push(message).is_err() {
        return Err(RequestFault::Memory);
    }
    Ok(())
}

// Makes several requests over a network, within the time that the options give.
fn ask_several_in_time<N: Net + Files + Clock + Copy, W: Write, E: Write>(
    net: &N,
    alloc: Global,
    options: &GetOptions<'_>,
    location: &Location,
    messages: Vec<Message>,
    out: &mut W,
    err: &mut E,
) -> Status
where
    N::Stream: WriteParts,
    requires { (asked_by options.now).output ≡ None }
    ensures { StreamsAll (asked_by options.now) (map message_value messages.items)
        (W.contents out.old) (W.contents out.new) result }
{
    match options.timeout {
        None => ask_several(net, net, alloc, options, location, messages, None, out, err),
        Some(seconds) => {
            let deadline = Deadline::in_seconds(net, seconds);
            let timed = TimedNet::new(*net, deadline);
            let limit = Some(deadline);
            ask_several(
                &timed, net, alloc, options, location, messages, limit, out, err,
            )
        }
    }
}

// rule: engines (own) Several responses are printed in the order of their URLs
// Makes several requests over a network and prints the responses. Once the deadline is over, it
// is the cause of a device error.
fn ask_several<N: Net, C: Clock, W: Write, E: Write>(
    net: &N,
    clock: &C,
    alloc: Global,
    options: &GetOptions<'_>,
    location: &Location,
    messages: Vec<Message>,
    limit: Option<Deadline>,
    out: &mut W,
    err: &mut E,
) -> Status
where
    N::Stream: WriteParts,
    requires { (asked_by options.now).output ≡ None }
    ensures { StreamsAll (asked_by options.now) (map message_value messages.items)
        (W.contents out.old) (W.contents out.new) result }
{
    let got = stream_locations(net, alloc, options, location, messages, out, err);
    end_several(options, got, is_over(clock, limit), err)
}

// rule: engines (own) Several responses are printed in the order of their URLs
// Prints on standard error how several responses ended, or why none was requested.
fn end_several<E: Write>(
    options: &GetOptions<'_>,
    got: Result<SeveralStreamed, StreamEnding>,
    is_late: bool,
    err: &mut E,
) -> Status
    ensures { result ≡ status_of_several (asked_by options.now) (results_of got) }
{
    match got {
        Ok(several) => end_each(options, several, is_late, err),
        Err(ending) => end_unstreamed(options, ending, is_late, err),
    }
}

// rule: engines (own) Several responses are printed in the order of their URLs
// Prints on standard error how each failed response ended. The status is that of the first.
fn end_each<E: Write>(
    options: &GetOptions<'_>,
    several: SeveralStreamed,
    is_late: bool,
    err: &mut E,
) -> Status
    ensures { result ≡ first_failed
        (map (status_of_one (asked_by options.now)) several.results.items) }
{
    let SeveralStreamed { results, hint, why } = several;
    let mut status = Status::Good;
    let mut place = 0usize;
    for got in results {
        let is_own = is_of_one(&got);
        let next = end_stream(options, with_cause(got, hint, why), is_late, err);
        name_failed(options, place, is_own, next, err);
        status = first_failed(status, next);
        place = place.saturating_add(1);
    }
    status
}

// Whether a result concerns its response alone, and not the connection or the output.
fn is_of_one(got: &Result<Fetched, StreamError>) -> bool {
    matches!(got, Ok(_) | Err(StreamError::Link(LinkError::Reset(_))))
}

// Prints on standard error the URL at this index, if its response alone failed.
fn name_failed<E: Write>(
    options: &GetOptions<'_>,
    place: usize,
    is_own: bool,
    status: Status,
    err: &mut E,
) {
    let url = match place.checked_sub(1) {
        None => Some(options.url),
        Some(place) => options.others.get(place).copied(),
    };
    if let Some(url) = url
        && is_own
        && status != Status::Good
    {
        // There is no place left to report that this write fails.
        let _ = writeln!(err, "hint: the URL was {url}");
    }
}

// The result of a response, with the likely cause if it ended all.
fn with_cause(
    got: Result<Fetched, StreamError>,
    hint: Option<Hint>,
    why: Option<Why>,
) -> Result<Fetched, StreamEnding>
    ensures { without_stream_hint result ≡ got }
{
    match got {
        Ok(fetched) => Ok(fetched),
        Err(StreamError::Link(LinkError::Reset(code))) => Err(StreamEnding {
            error: StreamError::Link(LinkError::Reset(code)),
            hint: None,
            why: None,
        }),
        Err(error) => Err(StreamEnding { error, hint, why }),
    }
}

// rule: engines (own) Several responses are printed in the order of their URLs
// A status, or the next one if it is `Good`.
fn first_failed(status: Status, next: Status) -> Status
    ensures { result ≡ first_failed (status ∷ next ∷ []) }
{
    match status {
        Status::Good => next,
        _ => status,
    }
}

// Prints on standard error why the other URLs cannot be fetched with the first.
fn refuse_locations<E: Write>(fault: LocationsFault, port: Option<u16>, err: &mut E) -> Status
    ensures { RefusesLocations fault result }
{
    match fault {
        LocationsFault::Url(fault) => refuse_url(fault, port, err),
        LocationsFault::OtherHost => {
            refuse_words("all URLs must have the same host and port", err)
        }
    }
}

// Prints on standard error why the words are refused.
fn refuse_words<E: Write>(reason: &str, err: &mut E) -> Status
    ensures { EndsByRefusal result }
{
    status_after(writeln!(err, "error: {reason}"))
}
