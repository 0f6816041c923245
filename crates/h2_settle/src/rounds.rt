//! A round of acts on two joined ends.

ghost use Rattle.std.specs.Prelude.{map as each, ◌≡◌, ◌↔◌, reverse, false};
ghost use Rattle.h2_joined.specs.Runs.{GotMemory, joint_act_value};
ghost use Rattle.h2_laws_quiet.specs.Rounds.{round_doings};
ghost use Rattle.h2_settle.specs.RoundEndings.{FindsFailed, EndsAct, MakesRound};

use h2_joined::{Acted, EndRefusal, Joined, JointAct, Refusal, Side};

/// How an act or a round has ended.
#[derive(Clone, Copy)]
pub(crate) enum Ending {
    /// Done: memory was not refused, and neither end has failed.
    Whole,
    /// This end has failed, before or during it.
    Failed(Side),
    /// Memory was refused.
    NoMemory,
}

// rule: joined (own) settle makes rounds until the ends are quiet or one has failed
/// Makes the acts of a round, up to one that is refused memory or after which an end has
/// failed. Makes none where an end has failed before.
pub(crate) fn make_round(joined: &mut Joined) -> Ending
    ensures { MakesRound joined.old result joined.new }
{
    if let Some(side) = failed_end(joined) {
        return Ending::Failed(side);
    }
    let acts = round_acts();
    for act in &acts {
        match make_act(joined, act) {
            Ending::Whole => {}
            stopped => return stopped,
        }
    }
    Ending::Whole
}

/// Returns the acts of a round, in order.
fn round_acts() -> [JointAct; 8]
    ensures { reverse (each joint_act_value result) ≡ round_doings }
{
    [
        JointAct::ReleaseAll(Side::Client),
        JointAct::ReleaseAll(Side::Server),
        JointAct::Pump(Side::Client),
        JointAct::Pump(Side::Server),
        JointAct::Move {
            from: Side::Client,
            count: usize::MAX,
        },
        JointAct::Move {
            from: Side::Server,
            count: usize::MAX,
        },
        JointAct::Deliver {
            to: Side::Server,
            count: usize::MAX,
        },
        JointAct::Deliver {
            to: Side::Client,
            count: usize::MAX,
        },
    ]
}

/// Makes an act, and returns how it has ended.
fn make_act(joined: &mut Joined, act: &JointAct) -> Ending
    ensures { EndsAct joined.old act.now result joined.new }
{
    if was_refused_memory(joined.act(act)) {
        return Ending::NoMemory;
    }
    match failed_end(joined) {
        Some(side) => Ending::Failed(side),
        None => Ending::Whole,
    }
}

/// Returns the end that has failed, if any: the client, if both have.
fn failed_end(joined: &Joined) -> Option<Side>
    ensures { FindsFailed joined.now result }
{
    if joined.client().conn().failed().is_some() {
        return Some(Side::Client);
    }
    if joined.server().conn().failed().is_some() {
        return Some(Side::Server);
    }
    None
}

/// Returns whether an act was refused memory.
fn was_refused_memory(acted: Acted) -> bool
    ensures { (result ≡ false) ↔ GotMemory acted }
{
    matches!(
        acted,
        Acted::Memory | Acted::Refused(EndRefusal::Conn(Refusal::Memory))
    )
}
