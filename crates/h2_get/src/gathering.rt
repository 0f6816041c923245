//! A response that is kept until it is whole.

ghost use Rattle.std.specs.Prelude.{◌≡◌, ◌⊎◌, ◌<◌, ◌-◌, ◌^◌, IfErr, None};
ghost use Rattle.h2_spec_log.specs.Acts.{Values};
ghost use Rattle.h2_spec_log.specs.Log.{Log};
ghost use Rattle.h2_conn.specs.Conn.{ConnRepresents};
ghost use Rattle.h2_conn.specs.Why.{IsWhy};
ghost use Rattle.h2_message.specs.Values.{message_value};
ghost use Rattle.h2_engines.specs.Failures.{CutsOffAtEnd, failures_at_end};
ghost use Rattle.h2_engines.specs.Linked.{traffic};
ghost use Rattle.h2_args.specs.Words.{asked_by};
ghost use Rattle.h2_net.specs.Endings.{HasClientHint, without_hint};
ghost use Rattle.h2_get.specs.Gathers.{Gathers, GathersOver, GathersRequest, GathersRest};

use crate::begin::{begin_fetch, window_of};
use crate::connect::{connect_to, end_fetch, send_held};
use crate::pass_error::PassError;
use crate::receive::{next_head, pass_body};
use h2_args::GetOptions;
use h2_engines::{Link, Message};
use h2_fetch::PartFetch;
use h2_message::Field;
use h2_net::{Ending, Fetched, LinkError, Location, StreamLink, WriteParts};
use std::alloc::Global;
use std::io::Read;
use std::net::{Net, OpenStream};

// contract: engines (own) get without -o and --stream prints a response once it is whole
// rule: engines (own) get without -o and --stream prints a response once it is whole
/// Makes a request over a new connection to the host and the port of a location, and returns its
/// response once that is whole. Interim responses are dropped. The stream and the connection have
/// the window that the options ask for.
///
/// # Errors
///
/// Those of [`PartFetch::next`]; N1 also if no connection can be made, N3 if there is no memory
/// for the body, and N7 if the request has too many fields. The hint names the likely cause of N1
/// and N2.
pub fn gather_location<N: Net>(
    net: &N,
    alloc: Global,
    options: &GetOptions<'_>,
    location: &Location,
    message: Message,
) -> Result<Fetched, Ending>
where
    N::Stream: WriteParts,
    ensures gathers { GathersRequest (asked_by options.now) (message_value message)
        (without_hint result) }
    ensures hint { IfErr result HasClientHint }
{
    let mut link = match connect_to(net, alloc, location) {
        Ok(link) => link,
        Err(ending) => return Err(ending),
    };
    let mut fetch = match begin_fetch(alloc, window_of(options), message) {
        Ok(fetch) => fetch,
        Err(error) => return Err(Ending::from(error)),
    };
    let gathered = gather_with_hint(alloc, &mut fetch, &mut link);
    drop(fetch);
    drop(link);
    gathered
}

/// Gathers a response, and flushes the link. If the fetch ends early, the result has the likely
/// cause and why the connection failed.
fn gather_with_hint<S: Read + WriteParts + OpenStream>(
    alloc: Global,
    fetch: &mut PartFetch,
    link: &mut StreamLink<S>,
) -> Result<Fetched, Ending>
    requires { link.old.failures ≡ 0 }
    ensures gathers { GathersOver fetch.old fetch.new (without_hint result) }
    ensures hint { IfErr result HasClientHint }
    ensures why { IfErr result (λ ending. (ending.why ≡ None) ⊎ ((values : Values) (log : Log)
        → ConnRepresents values fetch.new.client.end.conn log → IsWhy values log ending.why)) }
{
    match gather(alloc, fetch, link) {
        Ok(fetched) => {
            send_held(link);
            Ok(fetched)
        }
        Err(error) => {
            let why = fetch.conn().why();
            Err(end_fetch(link, error, why))
        }
    }
}

// rule: engines (own) get without -o and --stream prints a response once it is whole
/// Returns the response of a fetch once it is whole.
///
/// # Errors
///
/// Those of [`PartFetch::next`], and N3 if there is no memory for the body.
pub fn gather<L: Link>(
    alloc: Global,
    fetch: &mut PartFetch,
    link: &mut L,
) -> Result<Fetched, LinkError>
    requires { L.faults link.old < 2 ^ 64 - 1 }
    ensures gathers { Gathers
        (traffic (L.given link.old) (L.taken link.old) (L.stalled link.old))
        (traffic (L.given link.new) (L.taken link.new) (L.stalled link.new))
        fetch.old fetch.new result }
    ensures cut_off { CutsOffAtEnd result (L.ended link.new) }
    ensures failures { L.faults link.new ≡ failures_at_end (L.faults link.old) result }
    ensures stream { fetch.new.id ≡ fetch.old.id }
{
    let head = match next_head(fetch, link) {
        Ok(head) => head,
        Err(error) => return Err(error),
    };
    let end = head.end;
    let mut body = Vec::new(alloc);
    let trailers = gather_rest(end, fetch, link, &mut body)?;
    Ok(Fetched {
        interims: Vec::new(alloc),
        head: head.list,
        body,
        trailers,
    })
}

// rule: engines (own) get without -o and --stream prints a response once it is whole
/// Adds the octets of the body to `body`, and returns the trailers.
fn gather_rest<L: Link>(
    is_whole: bool,
    fetch: &mut PartFetch,
    link: &mut L,
    body: &mut Vec<u8>,
) -> Result<Option<Vec<Field>>, LinkError>
    requires { L.faults link.old < 2 ^ 64 - 1 }
    ensures rest { GathersRest is_whole
        (traffic (L.given link.old) (L.taken link.old) (L.stalled link.old))
        (traffic (L.given link.new) (L.taken link.new) (L.stalled link.new))
        fetch.old fetch.new body.old.items body.new.items result }
    ensures cut_off { CutsOffAtEnd result (L.ended link.new) }
    ensures failures { L.faults link.new ≡ failures_at_end (L.faults link.old) result }
    ensures stream { fetch.new.id ≡ fetch.old.id }
{
    if is_whole {
        return Ok(None);
    }
    match pass_body(fetch, link, body) {
        Ok(trailers) => Ok(trailers),
        Err(PassError::Link(error)) => Err(error),
        Err(PassError::Output) => Err(LinkError::Memory),
    }
}
