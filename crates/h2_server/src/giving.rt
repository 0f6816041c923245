//! Hands a response to the server, one call at a time.

ghost use Rattle.std.specs.Prelude.{◌≡◌, Bool, IfErr, IfOk, true, false};
ghost use Rattle.h2_message.specs.Values.{message_value};
ghost use Rattle.h2_server.specs.Giving.{GivesMessageSo, GivesStage, IsRefusedSo, sent_of};
ghost use Rattle.h2_server.specs.Giving.{stage_given};

use crate::exchange::{SERVER_ERROR, Stage};
use crate::handler::ResponseFault;
use crate::stop::{Stop, stop_of};
use h2_ends::{Code, EndRefusal, Field, Message, Refusal, Server};
use std::alloc::Global;

/// What has become of a piece of a response that was handed to the server.
#[derive(Debug, Drop)]
pub(crate) struct Given {
    /// How far the response is.
    pub(crate) stage: Stage,
    /// What is wrong with it.
    pub(crate) fault: Option<ResponseFault>,
}

/// What follows if a response breaks a rule and no head was sent.
fn instead_of_answer() -> Stage
    ensures { result ≡ Stage.Fails SERVER_ERROR }
{
    Stage::Fails {
        status: SERVER_ERROR,
    }
}

/// A stage without a fault.
fn well(stage: Stage) -> Given
    ensures { result.stage ≡ stage }
{
    Given { stage, fault: None }
}

/// Hands the next piece of a response to the server, by one call, and returns the new stage. If
/// the output is full, the piece waits. If it breaks a rule, the server refuses it; in its place
/// the next call gives status 500, or a reset with INTERNAL_ERROR if a head was sent.
pub(crate) fn give(
    alloc: Global,
    server: &mut Server,
    id: u32,
    to_head: bool,
    refused: bool,
    stage: Stage,
) -> Result<Given, Stop>
    ensures { GivesStage server.old.end id to_head refused stage (stage_given result)
        server.new.end }
{
    match stage {
        Stage::Answers(message) => {
            let message = trimmed(alloc, message, to_head, refused);
            respond(server, id, message, instead_of_answer())
        }
        Stage::Fails { status } => give_status(alloc, server, id, status),
        Stage::Begins(head) if to_head => give_head(alloc, server, id, head),
        Stage::Begins(head) => begin(server, id, head),
        Stage::Trails(list) => trail(server, id, list),
        Stage::Resets(code) => reset(server, id, code),
        other => Ok(well(other)),
    }
}

// rule: HTTP 9.3.2 (own) The body of an answer to HEAD is not sent
/// A message without what is not sent of it: the body in a response to HEAD, and the trailers in
/// one that refuses a request.
fn trimmed(alloc: Global, message: Message, to_head: bool, refused: bool) -> Message
    ensures { message_value result ≡ sent_of to_head refused (message_value message) }
{
    let mut message = message;
    if to_head {
        message.body = Vec::new(alloc);
    }
    if refused {
        message.trailers = None;
    }
    message
}

/// Hands over a complete response; `instead` follows if it breaks a rule.
fn respond(server: &mut Server, id: u32, message: Message, instead: Stage) -> Result<Given, Stop>
    ensures { GivesMessageSo server.old.end id (message_value message) instead
        (stage_given result) server.new.end }
{
    match server.respond(id, message) {
        Ok(()) => Ok(well(Stage::Given)),
        Err((message, refusal)) => {
            if is_for_output(refusal) {
                return Ok(well(Stage::Answers(message)));
            }
            after_refusal(server, refusal, instead)
        }
    }
}

/// Hands over a response that is a status alone.
fn give_status(alloc: Global, server: &mut Server, id: u32, status: u16) -> Result<Given, Stop>
    ensures { (to_head refused : Bool) → GivesStage server.old.end id to_head refused
        (Stage.Fails status) (stage_given result) server.new.end }
{
    let message = Message::response(alloc, status)?;
    respond(server, id, message, Stage::Resets(Code::InternalError))
}

// rule: HTTP 9.3.2 (own) The body of an answer to HEAD is not sent
/// Hands over the head of a response in parts to HEAD: the complete response.
fn give_head(alloc: Global, server: &mut Server, id: u32, head: Vec<Field>) -> Result<Given, Stop>
    ensures { (refused : Bool) → GivesStage server.old.end id true refused (Stage.Begins head)
        (stage_given result) server.new.end }
{
    let message = Message {
        head,
        body: Vec::new(alloc),
        trailers: None,
    };
    respond(server, id, message, instead_of_answer())
}

/// Hands over the head of a response in parts.
fn begin(server: &mut Server, id: u32, head: Vec<Field>) -> Result<Given, Stop>
    ensures { (refused : Bool) → GivesStage server.old.end id false refused (Stage.Begins head)
        (stage_given result) server.new.end }
{
    match server.begin(id, &head) {
        Ok(()) => Ok(well(Stage::Parts { later: false })),
        Err(refusal) => {
            if is_for_output(refusal) {
                return Ok(well(Stage::Begins(head)));
            }
            after_refusal(server, refusal, instead_of_answer())
        }
    }
}

/// Hands over trailers.
fn trail(server: &mut Server, id: u32, list: Vec<Field>) -> Result<Given, Stop>
    ensures { (to_head refused : Bool) → GivesStage server.old.end id to_head refused
        (Stage.Trails list) (stage_given result) server.new.end }
{
    match server.send_trailers(id, &list) {
        Ok(()) => Ok(well(Stage::Given)),
        Err(refusal) => {
            if is_for_output(refusal) {
                return Ok(well(Stage::Trails(list)));
            }
            after_refusal(server, refusal, Stage::Resets(Code::InternalError))
        }
    }
}

/// Resets a stream. A reset with NO_ERROR only asks the client to stop: it is left out after 1,000
/// resets.
fn reset(server: &mut Server, id: u32, code: Code) -> Result<Given, Stop>
    ensures { (to_head refused : Bool) → GivesStage server.old.end id to_head refused
        (Stage.Resets code) (stage_given result) server.new.end }
{
    match server.reset(id, code.number()) {
        Ok(()) => Ok(well(Stage::Gone {
            code: code.number(),
        })),
        Err(Refusal::NoSuchStream) => Ok(well(Stage::Given)),
        Err(Refusal::OutputFull) => Ok(well(Stage::Resets(code))),
        Err(Refusal::TooManyResets) => after_too_many(code),
        Err(Refusal::Memory) => Err(Stop::Memory),
        Err(_) => Err(stop_of(server)),
    }
}

/// What follows if a stream was to be reset with this code, after 1,000 others.
fn after_too_many(code: Code) -> Result<Given, Stop>
    ensures ok { IfOk result (λ given. (code ≡ Code.NoError) × (given.stage ≡ Stage.Given)) }
    ensures err { IfErr result (λ stop. stop ≡ Stop.TooManyResets) }
{
    if code == Code::NoError {
        return Ok(well(Stage::Given));
    }
    Err(Stop::TooManyResets)
}

/// Whether a response was refused because the output is full.
fn is_for_output(refusal: EndRefusal) -> bool
    ensures { result ≡ true → refusal ≡ EndRefusal.Conn Refusal.OutputFull }
{
    matches!(refusal, EndRefusal::Conn(Refusal::OutputFull))
}

// rule: handlers (own) An answer that breaks a rule is a 500, or a reset once a head went
/// The stage after the server has refused a response for a reason other than a full output:
/// `instead` if it breaks a rule.
pub(crate) fn after_refusal(
    server: &Server,
    refusal: EndRefusal,
    instead: Stage,
) -> Result<Given, Stop>
    ensures { IfOk result (λ given. IsRefusedSo instead refusal given.stage) }
{
    let fault = match refusal {
        EndRefusal::BadMessage(rule) => ResponseFault::BadMessage(rule),
        EndRefusal::Conn(Refusal::ListTooLarge) => ResponseFault::ListTooLarge,
        // The stream is over.
        EndRefusal::NotAsked | EndRefusal::Answered => return Ok(well(Stage::Given)),
        EndRefusal::Conn(Refusal::NoSuchStream | Refusal::Ended) => return Ok(well(Stage::Given)),
        EndRefusal::Conn(Refusal::Memory) => return Err(Stop::Memory),
        EndRefusal::Conn(_) => return Err(stop_of(server)),
    };
    Ok(Given {
        stage: instead,
        fault: Some(fault),
    })
}
