//! Serving a connection over a link.

ghost use Rattle.std.specs.Prelude.{◌≡◌, ◌<◌, ◌-◌, ◌^◌, IfErr, OnOk, true};
ghost use Rattle.h2_flow.specs.ConfigValues.{values_of};
ghost use Rattle.h2_engines.specs.Failures.{CutsOffAtEnd, EndsServing, failures_at_end};
ghost use Rattle.h2_engines.specs.Linked.{traffic};
ghost use Rattle.h2_engines.specs.Serves.{Serves, ServesWhy};

use crate::machine::{Machine, drive};
use crate::responder::Responder;
use h2_ends::{Config, Why};
use h2_link::{Link, LinkError};
use std::alloc::Global;

// contract: engines (own) A request that is whole is answered once, by method, path and body
// contract: engines (own) An answer to HEAD has neither body nor content-length
// contract: engines (own) Over a link credit is returned and what could be sent is sent
// contract: engines (own) A request of more than 1,048,576 octets is ENHANCE_YOUR_CALM
// rule: engines (own) N1 comes exactly where a call of the link has failed
// contract: engines (own) N2 has the code with which the connection failed; memory is N3
/// Serves a connection until its input ends, and returns how many requests were answered. Answers
/// each complete request with its method, a space, its path, a newline and its body; a response to
/// HEAD has neither body nor `content-length`. Resets each stream whose request has a body of more
/// than 1,048,576 octets, with ENHANCE_YOUR_CALM.
///
/// If the call succeeds, the server has returned all credit of the connection's window, and has
/// sent each response completely unless its stream was reset. If the call returns
/// [`LinkError::CutOff`] (N4), the server has returned all credit that was owed, and only the
/// windows hold back what is unsent of the responses.
///
/// # Errors
///
/// - [`LinkError::Device`] (N1) where the link failed.
/// - [`LinkError::Stream`] (N2) where the connection failed, once its GOAWAY was written; or,
///   with ENHANCE_YOUR_CALM, where one more stream had to be reset after 1,000 others.
/// - [`LinkError::Memory`] (N3) where an allocation was refused.
/// - [`LinkError::CutOff`] (N4) where the input ended inside the preface or a frame, or while a
///   stream was active.
/// - [`LinkError::NoProgress`] (N5) where a write took nothing. Three more causes are not
///   expected: 2^64 - 1 rounds of a loop, 2^32 - 1 responses, and a refusal of a response or a
///   reset for a reason other than those of N2 and N3.
pub fn serve_link<L: Link>(alloc: Global, link: &mut L, config: Config) -> Result<u32, LinkError>
    requires { L.faults link.old < 2 ^ 64 - 1 }
    ensures serves { Serves (values_of config)
        (traffic (L.given link.old) (L.taken link.old) (L.stalled link.old))
        (traffic (L.given link.new) (L.taken link.new) (L.stalled link.new)) result }
    ensures ended { OnOk result (L.ended link.new ≡ true) }
    ensures cut_off { CutsOffAtEnd result (L.ended link.new) }
    ensures failures { L.faults link.new ≡ failures_at_end (L.faults link.old) result }
    ensures err { IfErr result EndsServing }
{
    let mut why = None;
    serve_link_why(alloc, link, config, &mut why)
}

// contract: engines (own) Over a link it is said why the connection has failed
// rule: engines (own) Over a link it is said why the connection has failed
/// Does what [`serve_link`] does, and sets `why` to the reason why the connection has failed (the
/// rule that the client has broken, or what else has ended it), or to `None` if it has not failed.
///
/// # Errors
///
/// Those of [`serve_link`].
pub fn serve_link_why<L: Link>(
    alloc: Global,
    link: &mut L,
    config: Config,
    why: &mut Option<Why>,
) -> Result<u32, LinkError>
    requires { L.faults link.old < 2 ^ 64 - 1 }
    ensures serves { ServesWhy (values_of config)
        (traffic (L.given link.old) (L.taken link.old) (L.stalled link.old))
        (traffic (L.given link.new) (L.taken link.new) (L.stalled link.new)) result why.new }
    ensures ended { OnOk result (L.ended link.new ≡ true) }
    ensures cut_off { CutsOffAtEnd result (L.ended link.new) }
    ensures failures { L.faults link.new ≡ failures_at_end (L.faults link.old) result }
    ensures err { IfErr result EndsServing }
{
    *why = None;
    let mut responder = Responder::new(alloc, config)?;
    let driven = drive(&mut responder, link);
    *why = responder.conn().why();
    let finished = responder.finish();
    drop(responder);
    driven?;
    finished
}
