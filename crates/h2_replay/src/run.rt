//! Replays.

ghost use Rattle.std.specs.Prelude.{◌≡◌, ◌++◌, ◌∷◌, [], IfOk, OnOk};
ghost use Rattle.h2_flow.specs.ConfigValues.{values_of};
ghost use Rattle.h2_spec_log.specs.declared.role.Role.{Role};
ghost use Rattle.h2_spec_log.specs.Acts.{Values};
ghost use Rattle.h2_spec_log.specs.LogCalls.{opened};
ghost use Rattle.h2_conn.specs.Conn.{ConnRepresents};
ghost use Rattle.h2_replay.specs.Calls.{IsCall};
ghost use Rattle.h2_replay.specs.Replay.{Replays};
ghost use Rattle.h2_replay.specs.Recording.{Records, ReplaysAct};
ghost use Rattle.h2_replay.specs.Values.{act_value};
ghost use Rattle.h2_replay.specs.declared.acts.Act.TheVariants as acts;

use crate::acts::Act;
use crate::calls::make_call;
use crate::taking::take_all;
use crate::turns::{Log, Turn};
use crate::waiting::joined_output;
use h2_conn::{Config, Conn, Role};
use std::alloc::{AllocError, Global};

// contract: replay (own) A replay keeps each act, its answer, its octets and its events
// rule: replay (own) A replay keeps each act, its answer, its octets and its events
/// Makes the acts, in order, on a new end of a connection, and returns what has happened. A
/// refused call is an act like any other.
///
/// # Errors
///
/// [`AllocError`] where an allocation of the replay, or of the new end, was refused, and where
/// 2<sup>64</sup> - 1 octets were used, which no memory holds.
pub fn replay(alloc: Global, role: Role, config: Config, acts: Vec<Act>) -> Result<Log, AllocError>
    // The turns are those of the acts, by the definitions of an end.
    ensures { IfOk result (λ log. Replays role (values_of config) acts.items log.turns.items) }
{
    let mut conn = new_conn(alloc, role, config)?;
    let log = make_acts(alloc, &mut conn, acts);
    drop(conn);
    log
}

/// Makes the acts, in order, on an end that is new, and returns what has happened.
fn make_acts(alloc: Global, conn: &mut Conn, acts: Vec<Act>) -> Result<Log, AllocError>
    ensures { (role : Role) (values : Values) → ConnRepresents values conn.old (opened role values)
        → IfOk result (λ log. Replays role values acts.items log.turns.items) }
{
    let mut turns = Vec::new(alloc);
    turns.push(Turn::Out(joined_output(alloc, conn, 0, &[])?))?;
    for act in acts {
        make_act(alloc, conn, act, &mut turns)?;
    }
    Ok(Log { turns })
}

/// A new end.
fn new_conn(alloc: Global, role: Role, config: Config) -> Result<Conn, AllocError>
    ensures { IfOk result (λ conn. ConnRepresents (values_of config) conn
        (opened role (values_of config))) }
{
    let made = match role {
        Role::Client => Conn::client(alloc, config),
        Role::Server => Conn::server(alloc, config),
    };
    match made {
        Ok(conn) => Ok(conn),
        Err(_) => Err(AllocError),
    }
}

/// Makes an act, and keeps what has happened.
fn make_act(
    alloc: Global,
    conn: &mut Conn,
    act: Act,
    turns: &mut Vec<Turn>,
) -> Result<(), AllocError>
    ensures { OnOk result (ReplaysAct conn.old turns.old.items (act_value act) conn.new
        turns.new.items) }
{
    match act {
        Act::Take(octets) => keep_take(alloc, conn, octets, turns),
        call => keep_call(alloc, conn, call, turns),
    }
}

/// Hands octets to `take`, and keeps what has happened.
fn keep_take(
    alloc: Global,
    conn: &mut Conn,
    octets: Vec<u8>,
    turns: &mut Vec<Turn>,
) -> Result<(), AllocError>
    ensures { OnOk result (ReplaysAct conn.old turns.old.items (act_value (acts.Take octets))
        conn.new turns.new.items) }
{
    let mut news = Vec::new(alloc);
    let answer = take_all(alloc, conn, &octets, &mut news)?;
    turns.push(Turn::Call(Act::Take(octets)))?;
    turns.append(&mut news)?;
    turns.push(Turn::Answer(answer))?;
    Ok(())
}

/// Makes a call, and keeps what has happened.
fn keep_call(
    alloc: Global,
    conn: &mut Conn,
    act: Act,
    turns: &mut Vec<Turn>,
) -> Result<(), AllocError>
    requires { IsCall act }
    ensures { OnOk result (ReplaysAct conn.old turns.old.items (act_value act) conn.new
        turns.new.items) }
{
    let waited = conn.waiting();
    let mut given = Vec::new(alloc);
    let answer = make_call(conn, &act, &mut given);
    let joined = joined_output(alloc, conn, waited, &given)?;
    turns.push(Turn::Call(act))?;
    turns.push(Turn::Answer(answer))?;
    turns.push(Turn::Out(joined))?;
    Ok(())
}
