//! Sends a part of a response.

ghost use Rattle.std.specs.Prelude.{◌≡◌, length};
ghost use Rattle.h2_server.specs.Parts.{FitsPart};
ghost use Rattle.h2_server.specs.Steps.{EndSendsOctets, EndSendsPart, stage_sent};

use crate::exchange::Stage;
use crate::giving::{Given, after_refusal};
use crate::handler::{HandlerFault, Part, ResponseFault};
use crate::stop::Stop;
use h2_ends::{Code, Server};

/// What has become of a part of a response.
#[derive(Debug, Drop)]
pub(crate) struct Sent {
    /// Whether the connection goes on.
    pub(crate) result: Result<(), Stop>,
    /// How far the response is, and what is wrong with it.
    pub(crate) given: Given,
}

/// A part after which the connection goes on.
fn after_part(stage: Stage, fault: Option<ResponseFault>) -> Sent
    ensures { result.given.stage ≡ stage }
{
    Sent {
        result: Ok(()),
        given: Given { stage, fault },
    }
}

// rule: handlers (own) What is given as an answer is what its handler gave
/// Sends a part of a response, whose octets are in `room`.
pub(crate) fn send_part(
    server: &mut Server,
    count: &mut u64,
    id: u32,
    part: Result<Part, HandlerFault>,
    room: &[u8],
) -> Sent
    requires { FitsPart (length room.now) part }
    ensures { EndSendsPart server.old.end id part room.now result.given.stage server.new.end }
{
    match part {
        Ok(Part::Octets(octets)) => {
            if octets == 0 {
                return after_part(Stage::Parts { later: true }, None);
            }
            send_octets(server, count, id, &room[..octets], false)
        }
        Ok(Part::Last(octets)) => send_octets(server, count, id, &room[..octets], true),
        Ok(Part::Trailers(list)) => after_part(Stage::Trails(list), None),
        Ok(Part::Later) => after_part(Stage::Parts { later: true }, None),
        Err(fault) => {
            let stage = Stage::Resets(Code::InternalError);
            after_part(stage, Some(ResponseFault::Handler(fault)))
        }
    }
}

/// Sends octets of a body. The windows have room for all of them.
fn send_octets(server: &mut Server, count: &mut u64, id: u32, octets: &[u8], end: bool) -> Sent
    ensures { EndSendsOctets server.old.end id octets.now end result.given.stage server.new.end }
{
    match server.send_body(id, octets, end) {
        Ok(length) => {
            *count = count.saturating_add(length as u64);
            after_part(stage_sent(length == octets.len(), end), None)
        }
        Err(refusal) => {
            let instead = Stage::Resets(Code::InternalError);
            match after_refusal(server, refusal, instead) {
                Ok(given) => after_part(given.stage, given.fault),
                Err(stop) => Sent {
                    result: Err(stop),
                    given: Given {
                        stage: Stage::Given,
                        fault: None,
                    },
                },
            }
        }
    }
}

/// The stage after octets of a body were sent, all of them or not.
fn stage_sent(all: bool, end: bool) -> Stage
    ensures { result ≡ stage_sent all end }
{
    if !all {
        return Stage::Resets(Code::InternalError);
    }
    if end {
        return Stage::Given;
    }
    Stage::Parts { later: false }
}
