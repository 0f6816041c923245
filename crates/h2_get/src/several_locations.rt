//! Fetches several locations of one host and port at once over one connection, and prints them
//! one after another.

ghost use Rattle.std.specs.Prelude.{◌≡◌, ◌⊎◌, IfOk, None, map};
ghost use Rattle.h2_spec_log.specs.Acts.{Values};
ghost use Rattle.h2_spec_log.specs.Log.{Log};
ghost use Rattle.h2_conn.specs.Conn.{ConnRepresents};
ghost use Rattle.h2_conn.specs.Why.{IsWhy};
ghost use Rattle.h2_message.specs.Values.{message_value};
ghost use Rattle.h2_args.specs.Words.{asked_by};
ghost use Rattle.h2_get.specs.Several.{SeveralOver, StreamsRequests, results_of};

use crate::begin::{BegunRequests, begin_several, window_of};
use crate::connect::{connect_to, end_fetch, send_held};
use crate::pass_error::{SeveralStreamed, StreamEnding, StreamError};
use crate::several::stream_several;
use h2_args::GetOptions;
use h2_engines::Message;
use h2_fetch::ClientConnection;
use h2_net::{Fetched, LinkError, Location, StreamLink, WriteParts};
use h2_watch::WatchedLink;
use std::alloc::{AllocError, Global};
use std::io::{Read, Write};
use std::net::{Net, OpenStream};

// contract: engines (own) Several responses are printed in the order of their URLs
// rule: engines (own) Several responses are printed in the order of their URLs
// rule: engines (own) get -v shows the frames of both sides as they come
/// Makes several requests at once over a new connection to the host and the port of a location,
/// and prints their responses as [`stream_several`] does, and with `--verbose` the frames of
/// both sides on `err`. The connection has the window that the options ask for, and each
/// stream its share of it. The options must not name a file.
///
/// # Errors
///
/// [`StreamError::Link`] if no connection can be made (N1), a request has too many fields (N7),
/// or out of memory (N3). What ended a response is in its result. The hint names the likely
/// cause of [`h2_net::LinkError::Device`] (N1) and [`h2_net::LinkError::Stream`] (N2).
pub fn stream_locations<N: Net, W: Write, E: Write>(
    net: &N,
    alloc: Global,
    options: &GetOptions<'_>,
    location: &Location,
    messages: Vec<Message>,
    out: &mut W,
    err: &mut E,
) -> Result<SeveralStreamed, StreamEnding>
where
    N::Stream: WriteParts,
    requires { (asked_by options.now).output ≡ None }
    ensures { StreamsRequests (asked_by options.now) (map message_value messages.items)
        (W.contents out.old) (W.contents out.new) (results_of result) }
{
    let mut link = match connect_to(net, alloc, location) {
        Ok(link) => link,
        Err(ending) => return Err(StreamEnding::of_link(ending)),
    };
    let mut begun = match begin_several(alloc, window_of(options), messages) {
        Ok(begun) => begun,
        Err(error) => return Err(StreamEnding::of_error(StreamError::Link(error))),
    };
    let streamed = match several_over(alloc, options, &mut begun, &mut link, out, err) {
        Ok(results) => Ok(end_several(&begun.fetch, &mut link, results)),
        Err(_) => Err(StreamEnding::of_error(StreamError::Link(LinkError::Memory))),
    };
    drop(begun);
    drop(link);
    streamed
}

// rule: engines (own) get -v shows the frames of both sides as they come
/// Prints the responses of requests one after another, and with `--verbose` the frames of both
/// sides on `err`.
fn several_over<S: Read + WriteParts + OpenStream, W: Write, E: Write>(
    alloc: Global,
    options: &GetOptions<'_>,
    begun: &mut BegunRequests,
    link: &mut StreamLink<S>,
    out: &mut W,
    err: &mut E,
) -> Result<Vec<Result<Fetched, StreamError>>, AllocError>
    requires new { link.old.failures ≡ 0 }
    requires no_file { (asked_by options.now).output ≡ None }
    ensures { IfOk result (λ results. SeveralOver (asked_by options.now) begun.old.ids.items
        begun.old.fetch begun.new.fetch (W.contents out.old) (W.contents out.new) results.items) }
{
    let BegunRequests { fetch, ids } = begun;
    if !options.verbose {
        return stream_several(alloc, options, fetch, ids, link, out);
    }
    let mut watched = WatchedLink::new(alloc, link, err);
    let streamed = stream_several(alloc, options, fetch, ids, &mut watched, out);
    drop(watched);
    streamed
}

/// Returns the results of several requests, and flushes the link. If the fetch ended early, they
/// have the likely cause and why the connection failed.
fn end_several<S: Read + WriteParts + OpenStream>(
    fetch: &ClientConnection,
    link: &mut StreamLink<S>,
    results: Vec<Result<Fetched, StreamError>>,
) -> SeveralStreamed
    ensures results { result.results ≡ results }
    ensures why { (result.why ≡ None) ⊎ ((values : Values) (log : Log)
        → ConnRepresents values fetch.now.client.end.conn log → IsWhy values log result.why) }
{
    match end_of(&results) {
        Some(error) => {
            let ending = end_fetch(link, error, fetch.conn().why());
            SeveralStreamed {
                results,
                hint: ending.hint,
                why: ending.why,
            }
        }
        None => {
            send_held(link);
            SeveralStreamed {
                results,
                hint: None,
                why: None,
            }
        }
    }
}

/// The error with which a fetch ended early, if it did: that of its last response.
fn end_of(results: &[Result<Fetched, StreamError>]) -> Option<LinkError> {
    match results.last() {
        Some(Err(StreamError::Link(LinkError::Reset(_)))) => None,
        Some(Err(StreamError::Link(error))) => Some(*error),
        _ => None,
    }
}
