//! Fetches a location, and prints it as it arrives.

ghost use Rattle.std.specs.Prelude.{◌≡◌, ◌⊎◌, IfErr, None};
ghost use Rattle.h2_spec_log.specs.Acts.{Values};
ghost use Rattle.h2_spec_log.specs.Log.{Log};
ghost use Rattle.h2_conn.specs.Conn.{ConnRepresents};
ghost use Rattle.h2_conn.specs.Why.{IsWhy};
ghost use Rattle.h2_message.specs.Values.{message_value};
ghost use Rattle.h2_args.specs.Words.{asked_by};
ghost use Rattle.h2_get.specs.Streams.{StreamsOver, StreamsRequest, without_stream_hint};

use crate::begin::{begin_fetch, window_of};
use crate::connect::{connect_to, end_fetch, send_held};
use crate::pass_error::{StreamEnding, StreamError};
use crate::stream::stream_response;
use h2_args::GetOptions;
use h2_engines::Message;
use h2_fetch::PartFetch;
use h2_net::{Fetched, LinkError, Location, StreamLink, WriteParts};
use h2_watch::WatchedLink;
use std::alloc::Global;
use std::fs::Files;
use std::io::{self, Read, Write};
use std::net::{Net, OpenStream};
use std::time::Clock;

// contract: engines (own) get -o and --stream write the body as it comes, in order
// rule: engines (own) get -o and --stream write the body as it comes, in order
// rule: engines (own) get -v shows the frames of both sides as they come
/// Makes a request over a new connection to the host and the port of a location, and prints its
/// response as [`stream_response`] does, and with `--verbose` the frames of both sides on `err`.
/// The stream and the connection have the window that the options ask for.
///
/// # Errors
///
/// [`StreamError::Link`] also if no connection can be made (N1) or the request has too many
/// fields (N7); otherwise as [`stream_response`]. The hint names the likely cause of
/// [`h2_net::LinkError::Device`] (N1) and [`h2_net::LinkError::Stream`] (N2).
pub fn stream_location<N: Net, F: Files + Clock, W: Write, E: Write>(
    net: &N,
    files: &F,
    alloc: Global,
    options: &GetOptions<'_>,
    location: &Location,
    message: Message,
    has_progress: bool,
    out: &mut W,
    err: &mut E,
) -> Result<Fetched, StreamEnding>
where
    N::Stream: WriteParts,
    ensures { StreamsRequest (asked_by options.now) (message_value message) (W.contents out.old)
        (W.contents out.new) (without_stream_hint result) }
{
    let mut link = match connect_to(net, alloc, location) {
        Ok(link) => link,
        Err(ending) => return Err(StreamEnding::of_link(ending)),
    };
    let mut fetch = match begin_fetch(alloc, window_of(options), message) {
        Ok(fetch) => fetch,
        Err(error) => return Err(StreamEnding::of_error(StreamError::Link(error))),
    };
    let streamed = stream_with_hint(
        files,
        alloc,
        options,
        &mut fetch,
        &mut link,
        has_progress,
        out,
        err,
    );
    drop(fetch);
    drop(link);
    streamed
}

/// Prints the response of a fetch as it arrives, and flushes the link. If it ends early, the
/// result has the likely cause and why the connection failed.
fn stream_with_hint<F: Files + Clock, S: Read + WriteParts + OpenStream, W: Write, E: Write>(
    files: &F,
    alloc: Global,
    options: &GetOptions<'_>,
    fetch: &mut PartFetch,
    link: &mut StreamLink<S>,
    has_progress: bool,
    out: &mut W,
    err: &mut E,
) -> Result<Fetched, StreamEnding>
    requires { link.old.failures ≡ 0 }
    ensures streams { StreamsOver (asked_by options.now) fetch.old fetch.new (W.contents out.old)
        (W.contents out.new) (without_stream_hint result) }
    ensures why { IfErr result (λ ending. (ending.why ≡ None) ⊎ ((values : Values) (log : Log)
        → ConnRepresents values fetch.new.client.end.conn log → IsWhy values log ending.why)) }
{
    match stream_over(files, alloc, options, fetch, link, has_progress, out, err) {
        Ok(fetched) => {
            send_held(link);
            Ok(fetched)
        }
        Err(StreamError::Link(error)) => {
            let why = fetch.conn().why();
            Err(StreamEnding::of_link(end_fetch(link, error, why)))
        }
        Err(error) => Err(StreamEnding::of_error(error)),
    }
}

// rule: engines (own) get -v shows the frames of both sides as they come
/// Prints the response of a fetch as it arrives, and on `err` with `--verbose` the frames of
/// both sides, or else the progress of a file, if that is shown.
fn stream_over<F: Files + Clock, S: Read + WriteParts + OpenStream, W: Write, E: Write>(
    files: &F,
    alloc: Global,
    options: &GetOptions<'_>,
    fetch: &mut PartFetch,
    link: &mut StreamLink<S>,
    has_progress: bool,
    out: &mut W,
    err: &mut E,
) -> Result<Fetched, StreamError>
    requires { link.old.failures ≡ 0 }
    ensures { StreamsOver (asked_by options.now) fetch.old fetch.new (W.contents out.old)
        (W.contents out.new) result }
{
    if !options.verbose {
        return stream_response(files, alloc, options, fetch, link, has_progress, out, err);
    }
    let mut watched = WatchedLink::new(alloc, link, err);
    let mut unused = io::sink();
    let streamed = stream_response(
        files,
        alloc,
        options,
        fetch,
        &mut watched,
        false,
        out,
        &mut unused,
    );
    drop(watched);
    streamed
}
