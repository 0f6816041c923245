//! The calls of a handler for one exchange.

ghost use Rattle.std.specs.Prelude.{◌≡◌, length};
ghost use Rattle.h2_server.specs.Exchanges.{exchange_kept};
ghost use Rattle.h2_server.specs.Parts.{FitsPart};
ghost use Rattle.h2_server.specs.Stages.{refused_after, stage_after};
ghost use Rattle.h2_server.specs.Telling.{AskedPart, ToldBody, ToldHead, ToldTrailers};
ghost use Rattle.h2_server.specs.Telling.{authority_names_user};

use crate::exchange::{BAD_REQUEST, Exchange, Stage};
use crate::handler::{Handler, HandlerFault, Part, Reply};
use h2_ends::FieldList;
use h2_message::names_user;
use std::alloc::Global;

/// Whether the authority of a request names a user.
#[tactic(auto, unfolding(h2_message::specs::Fields::value_or_nothing, h2_message::specs::Fields::or_nothing))]
fn authority_names_user(list: &FieldList) -> bool
    ensures { result ≡ authority_names_user list.now }
{
    match list.value(b":authority") {
        Some(value) => names_user(value),
        None => names_user(b""),
    }
}

// rule: handlers (own) An authority that names a user is a 400 of which no handler is told
/// Passes the head of a request to the handler, unless its authority names a user.
pub(crate) fn tell_head<H: Handler>(
    alloc: Global,
    handler: &mut H,
    id: u32,
    exchange: &mut Exchange<H::Work>,
    list: &FieldList,
    end: bool,
)
    ensures { ToldHead H.Handler id list.now end handler.old handler.new
        (exchange_kept exchange.old) (exchange_kept exchange.new) }
{
    if authority_names_user(list) {
        exchange.stage = Stage::Fails {
            status: BAD_REQUEST,
        };
        return;
    }
    match handler.head(alloc, id, list, end) {
        Ok((work, reply)) => {
            exchange.work = Some(work);
            take_reply(handler, id, exchange, Ok(reply));
        }
        Err(fault) => take_reply(handler, id, exchange, Err(fault)),
    }
}

/// Stores a reply of the handler, and tells the handler what is wrong with it.
pub(crate) fn take_reply<H: Handler>(
    handler: &H,
    id: u32,
    exchange: &mut Exchange<H::Work>,
    reply: Result<Reply, HandlerFault>,
)
    ensures { exchange_kept exchange.new ≡ record (exchange_kept exchange.old) {
      refused = refused_after exchange.old.refused exchange.old.stage reply;
      stage = stage_after exchange.old.whole exchange.old.stage reply;
    } }
{
    if let Some(fault) = exchange.fault_of(&reply) {
        handler.fault(id, fault);
    }
    exchange.take(reply);
}

// rule: 8.1 (own) What comes of a request that was refused is dropped
/// Passes octets of a body to the handler, if it keeps something of the request and has not
/// refused the rest.
pub(crate) fn tell_body<H: Handler>(
    alloc: Global,
    handler: &mut H,
    id: u32,
    exchange: &mut Exchange<H::Work>,
    octets: &[u8],
    end: bool,
)
    ensures { ToldBody H.Handler octets.now end handler.old handler.new
        (exchange_kept exchange.old) (exchange_kept exchange.new) }
{
    exchange.whole = end || exchange.whole;
    if exchange.refused {
        return;
    }
    let Some(work) = &mut exchange.work else {
        return;
    };
    let reply = handler.body(alloc, work, octets, end);
    take_reply(handler, id, exchange, reply);
}

// rule: 8.1 (own) What comes of a request that was refused is dropped
/// Passes trailers to the handler, if it keeps something of the request and has not refused the
/// rest.
pub(crate) fn tell_trailers<H: Handler>(
    alloc: Global,
    handler: &mut H,
    id: u32,
    exchange: &mut Exchange<H::Work>,
    list: &FieldList,
)
    ensures { ToldTrailers H.Handler list.now handler.old handler.new
        (exchange_kept exchange.old) (exchange_kept exchange.new) }
{
    exchange.whole = true;
    if exchange.refused {
        return;
    }
    let Some(work) = &mut exchange.work else {
        return;
    };
    let reply = handler.trailers(alloc, work, list);
    take_reply(handler, id, exchange, reply);
}

/// Asks the handler for a part of a response, if it keeps something of the request.
pub(crate) fn ask_part<H: Handler>(
    alloc: Global,
    handler: &mut H,
    exchange: &mut Exchange<H::Work>,
    room: &mut [u8],
) -> Result<Part, HandlerFault>
    ensures asks { AskedPart H.Handler room.new result handler.old handler.new
        (exchange_kept exchange.old) (exchange_kept exchange.new) }
    ensures length { length room.new ≡ length room.old }
    ensures fits { FitsPart (length room.old) result }
{
    let Some(work) = &mut exchange.work else {
        return Err(HandlerFault::Failed);
    };
    handler.part(alloc, work, room)
}
