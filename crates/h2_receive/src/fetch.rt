//! Fetches a response over a link, for a handler.

ghost use Rattle.std.specs.Prelude.{◌≡◌, ◌<◌, ◌-◌, ◌^◌};
ghost use Rattle.h2_flow.specs.ConfigValues.{values_of};
ghost use Rattle.h2_message.specs.Values.{message_value};
ghost use Rattle.h2_engines.specs.Linked.{traffic};
ghost use Rattle.h2_receive.specs.Heard.{CutsOffHeard, FetchesBy, HearsFetch, ReceivesBy};
ghost use Rattle.h2_receive.specs.Heard.{ends_response, failures_heard};

use crate::errors::FetchError;
use crate::handler::ResponseHandler;
use h2_ends::{Config, Message};
use h2_fetch::{PartFetch, ResponsePart};
use h2_link::{Link, LinkError};
use std::alloc::Global;

// contract: engines (own) A handler hears a response part by part, as it comes
// rule: engines (own) A handler hears a response part by part, as it comes
/// Makes a request over a link, and calls the handler with each part of the response as it
/// arrives, until the response is complete. Then, or if the fetch ends early,
/// [`ResponseHandler::over`] is called. Before each read, credit is returned as [`PartFetch`]
/// says, and queued output is written.
///
/// A link over a byte stream (`StreamLink` of `h2_net`) may still hold output: flush it, and then
/// close the byte stream, which cannot carry another connection.
///
/// # Errors
///
/// [`FetchError::Handler`] if the handler returned a fault; otherwise [`FetchError::Link`] with
/// one of:
///
/// - [`LinkError::Device`] (N1): a read or a write of the link failed.
/// - [`LinkError::Stream`] (N2): the connection failed, and its GOAWAY was written.
/// - [`LinkError::Memory`] (N3): an allocation was refused.
/// - [`LinkError::CutOff`] (N4): the input ended.
/// - [`LinkError::NoProgress`] (N5): a write accepted no octet, or 2^64 - 1 rounds were made.
/// - [`LinkError::Reset`] (N6): the stream was reset by either end, or the server did not process
///   the request.
/// - [`LinkError::Refused`] (N7): the request breaks a rule, or its head or its trailers are
///   larger than 65,536 octets.
///
/// The handler was called with all parts received before; after N3 one part may be lost.
pub fn fetch_handler<H: ResponseHandler, L: Link>(
    alloc: Global,
    link: &mut L,
    config: Config,
    message: Message,
    handler: &mut H,
) -> Result<(), FetchError>
    requires { L.faults link.old < 2 ^ 64 - 1 }
    ensures fetches { FetchesBy H.hears H.ends (values_of config) (message_value message) 0
        (traffic (L.given link.old) (L.taken link.old) (L.stalled link.old))
        (traffic (L.given link.new) (L.taken link.new) (L.stalled link.new))
        handler.old handler.new result }
    ensures cut_off { CutsOffHeard result (L.ended link.new) }
    ensures failures { L.faults link.new ≡ failures_heard (L.faults link.old) result }
{
    match PartFetch::new(alloc, config, message) {
        Ok(fetch) => receive(alloc, link, fetch, handler),
        Err(error) => {
            let outcome = Err(FetchError::Link(error));
            handler.over(outcome);
            outcome
        }
    }
}

// contract: engines (own) A handler hears a response part by part, as it comes
// rule: engines (own) A handler hears a response part by part, as it comes
/// Calls the handler with each part of the response to `fetch`; [`fetch_handler`] makes the fetch
/// itself, and then does the same. Pass a fetch on which [`PartFetch::next`] was not called, for
/// example one that [`PartFetch::widen`] has widened.
///
/// # Errors
///
/// Those of [`fetch_handler`] except N7.
pub fn receive<H: ResponseHandler, L: Link>(
    alloc: Global,
    link: &mut L,
    fetch: PartFetch,
    handler: &mut H,
) -> Result<(), FetchError>
    requires { L.faults link.old < 2 ^ 64 - 1 }
    ensures receives { ReceivesBy H.hears H.ends fetch
        (traffic (L.given link.old) (L.taken link.old) (L.stalled link.old))
        (traffic (L.given link.new) (L.taken link.new) (L.stalled link.new))
        handler.old handler.new result }
    ensures cut_off { CutsOffHeard result (L.ended link.new) }
    ensures failures { L.faults link.new ≡ failures_heard (L.faults link.old) result }
{
    let outcome = hear_all(alloc, link, fetch, handler);
    handler.over(outcome);
    outcome
}

// rule: engines (own) A handler hears a response part by part, as it comes
/// Passes the parts of a response to the handler until the response is complete.
fn hear_all<H: ResponseHandler, L: Link>(
    alloc: Global,
    link: &mut L,
    mut fetch: PartFetch,
    handler: &mut H,
) -> Result<(), FetchError>
    requires { L.faults link.old < 2 ^ 64 - 1 }
    ensures hears { HearsFetch H.hears fetch
        (traffic (L.given link.old) (L.taken link.old) (L.stalled link.old))
        (traffic (L.given link.new) (L.taken link.new) (L.stalled link.new))
        handler.old handler.new result }
    ensures cut_off { CutsOffHeard result (L.ended link.new) }
    ensures failures { L.faults link.new ≡ failures_heard (L.faults link.old) result }
{
    for _ in 0..u64::MAX {
        let part = fetch.next(link)?;
        let is_last = ends_response(&part);
        handler.part(alloc, part)?;
        if is_last {
            return Ok(());
        }
    }
    Err(FetchError::Link(LinkError::NoProgress))
}

/// Whether this part completes the response.
fn ends_response(part: &ResponsePart) -> bool
    ensures { result ≡ ends_response part.now }
{
    match part {
        ResponsePart::Interim { .. } => false,
        ResponsePart::Head { end, .. } | ResponsePart::Body { end, .. } => *end,
        ResponsePart::Trailers { .. } => true,
    }
}
