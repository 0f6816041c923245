//! The calls of a replay.

ghost use Rattle.std.specs.Prelude.{◌≡◌, []};
ghost use Rattle.h2_spec_log.specs.Acts as logs;
ghost use Rattle.h2_spec_log.specs.Acts.{IsTypedAct};
ghost use Rattle.h2_conn.specs.Conn.{answer_by};
ghost use Rattle.h2_replay.specs.Calls.{IsCall, call_of, MakesCall, answer_value};

use crate::acts::Act;
use crate::turns::Answer;
use h2_conn::{Conn, Refusal};

// rule: replay (own) A replay keeps each act, its answer, its octets and its events
/// Makes a call; `put_out` appends its octets to `out`.
pub(crate) fn make_call(conn: &mut Conn, act: &Act, out: &mut Vec<u8>) -> Answer
    requires call { IsCall act.now }
    requires none { out.old.items ≡ [] }
    ensures typed { IsTypedAct (call_of act.now) }
    ensures makes { MakesCall conn.old (call_of act.now) (answer_value result) out.new.items
        conn.new }
{
    match act {
        Act::Take(_) => unreachable!(),
        Act::Open { fields, end } => opened(conn.open(fields, *end)),
        Act::Fields { id, fields, end } => done(conn.fields(*id, fields, *end)),
        Act::Data { id, octets, end } => counted(conn.data(*id, octets, *end)),
        Act::Release { id, count } => done(conn.release(*id, *count)),
        Act::Widen(count) => done(conn.widen(*count)),
        Act::Reset { id, code } => done(conn.reset(*id, *code)),
        Act::Refuse { id, code } => done(conn.refuse(*id, *code)),
        Act::Ping(octets) => pinged(conn, *octets),
        Act::GoAway => done(conn.go_away()),
        Act::Fail(code) => done(conn.fail(*code)),
        Act::PutOut(count) => counted(conn.put_out(*count, out)),
        Act::ChangeSettings(config) => done(conn.change_settings(*config)),
    }
}

/// Sends PING. It is a function of its own because the prover knows the octets of a parameter
/// to be octets.
fn pinged(conn: &mut Conn, octets: [u8; 8]) -> Answer
    ensures typed { IsTypedAct (logs.SendPing octets) }
    ensures makes { MakesCall conn.old (logs.SendPing octets) (answer_value result) [] conn.new }
{
    done(conn.ping(octets))
}

/// The answer of `open`.
fn opened(outcome: Result<u32, Refusal>) -> Answer
    ensures { answer_value result ≡ answer_by (λ id. logs.Number id) outcome }
{
    match outcome {
        Ok(id) => Answer::Id(id),
        Err(refusal) => Answer::Refused(refusal),
    }
}

/// The answer of a call that returns the number of octets that it has written or put out.
fn counted(outcome: Result<usize, Refusal>) -> Answer
    ensures { answer_value result ≡ answer_by (λ count. logs.Count count) outcome }
{
    match outcome {
        Ok(count) => Answer::Count(count),
        Err(refusal) => Answer::Refused(refusal),
    }
}

/// The answer of any other call.
fn done(outcome: Result<(), Refusal>) -> Answer
    ensures { answer_value result ≡ answer_by (λ done. logs.Done) outcome }
{
    match outcome {
        Ok(()) => Answer::Done,
        Err(refusal) => Answer::Refused(refusal),
    }
}
