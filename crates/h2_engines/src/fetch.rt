//! Fetching a response over a link.

ghost use Rattle.std.specs.Prelude.{◌≡◌, ◌<◌, ◌-◌, ◌^◌};
ghost use Rattle.h2_flow.specs.ConfigValues.{values_of};
ghost use Rattle.h2_message.specs.Values.{message_value};
ghost use Rattle.h2_engines.specs.Failures.{CutsOffAtEnd, failures_at_end};
ghost use Rattle.h2_engines.specs.Fetches.{Fetches, FetchesWhy};
ghost use Rattle.h2_engines.specs.Linked.{traffic};

use crate::fetcher::{Fetched, Fetcher};
use crate::machine::{Machine, drive};
use h2_ends::{Config, Message, Why};
use h2_link::{Link, LinkError};
use std::alloc::Global;

// contract: engines (own) A response that is fetched is the message handed out, whole
// rule: engines (own) N1 comes exactly where a call of the link has failed
// contract: engines (own) N2 has the code with which the connection failed; memory is N3
// rule: engines (own) N4 comes only where the input ended early
// contract: engines (own) Over a link credit is returned and what could be sent is sent
// contract: engines (own) N6 has the code with which the request's stream was reset
// contract: engines (own) N7 comes only where the message breaks a rule or is too large
/// Makes a request over a new connection, and returns the complete response as soon as it has
/// come, even if a part of the request is still unsent. It discards octets that it has read beyond
/// the end of the response.
///
/// If the call returns [`LinkError::CutOff`] (N4), the client has returned all credit for DATA
/// that it discarded and for closed streams. If it has also read octets from the server, no credit
/// is owed on any stream, and only the windows hold back what is unsent of the request.
///
/// # Errors
///
/// - [`LinkError::Device`] (N1) where the link failed.
/// - [`LinkError::Stream`] (N2) where the connection failed, once its GOAWAY was written.
/// - [`LinkError::Memory`] (N3) where an allocation was refused.
/// - [`LinkError::CutOff`] (N4) where the input ended before the response was complete.
/// - [`LinkError::NoProgress`] (N5) where a write took nothing. Two more causes are not expected:
///   2^64 - 1 rounds of a loop, and a refusal of the request for a reason other than those of N3
///   and N7.
/// - [`LinkError::Reset`] (N6) where either end reset the stream, or the server did not process
///   the request.
/// - [`LinkError::Refused`] (N7) where the message breaks a rule, or its head or its trailers
///   are larger than 65,536 octets, with 32 counted for each field.
pub fn fetch_link<L: Link>(
    alloc: Global,
    link: &mut L,
    config: Config,
    message: Message,
) -> Result<Fetched, LinkError>
    requires { L.faults link.old < 2 ^ 64 - 1 }
    ensures fetches { Fetches (values_of config) (message_value message)
        (traffic (L.given link.old) (L.taken link.old) (L.stalled link.old))
        (traffic (L.given link.new) (L.taken link.new) (L.stalled link.new)) result }
    ensures cut_off { CutsOffAtEnd result (L.ended link.new) }
    ensures failures { L.faults link.new ≡ failures_at_end (L.faults link.old) result }
{
    let mut why = None;
    fetch_link_why(alloc, link, config, message, &mut why)
}

// contract: engines (own) Over a link it is said why the connection has failed
// rule: engines (own) Over a link it is said why the connection has failed
/// Does what [`fetch_link`] does, and sets `why` to the reason why the connection has failed (the
/// rule that the server has broken, or what else has ended it), or to `None` if it has not failed.
///
/// # Errors
///
/// Those of [`fetch_link`].
pub fn fetch_link_why<L: Link>(
    alloc: Global,
    link: &mut L,
    config: Config,
    message: Message,
    why: &mut Option<Why>,
) -> Result<Fetched, LinkError>
    requires { L.faults link.old < 2 ^ 64 - 1 }
    ensures fetches { FetchesWhy (values_of config) (message_value message)
        (traffic (L.given link.old) (L.taken link.old) (L.stalled link.old))
        (traffic (L.given link.new) (L.taken link.new) (L.stalled link.new)) result why.new }
    ensures cut_off { CutsOffAtEnd result (L.ended link.new) }
    ensures failures { L.faults link.new ≡ failures_at_end (L.faults link.old) result }
{
    *why = None;
    let mut fetcher = Fetcher::new(alloc, config, message)?;
    let driven = drive(&mut fetcher, link);
    *why = fetcher.conn().why();
    match driven {
        Ok(true) => fetcher.into_fetched(),
        Ok(false) => {
            drop(fetcher);
            Err(LinkError::CutOff)
        }
        Err(error) => {
            drop(fetcher);
            Err(error)
        }
    }
}
