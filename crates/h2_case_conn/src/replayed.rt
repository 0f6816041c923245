//! The lines of a replay: `in OCTETS`, `out` and the frames that have joined the output, `call` and
//! the call, `event` and what is reported, and `answer` and a number, `done`, the rule by which the
//! call is refused, or `fault CODE`.

use crate::acts::add_act;
use crate::answers::{add_labeled, add_name, add_value, end_with_octets};
use crate::conn_events::add_kept;
use h2_case::octets::add_frames;
use h2_case::text::Text;
use h2_conn::{Config, Role};
use h2_replay::{Act, Answer, Turn, replay};
use std::alloc::Global;

/// Adds the lines of a replay of acts.
pub(crate) fn add_replay(
    alloc: Global,
    role: Role,
    config: Config,
    acts: Vec<Act>,
    text: &mut Text,
) {
    match replay(alloc, role, config, acts) {
        Ok(log) => add_turns(alloc, text, &log.turns),
        Err(_) => text.refuse(),
    }
}

// Adds the lines of turns.
fn add_turns(alloc: Global, text: &mut Text, turns: &[Turn]) {
    for turn in turns {
        add_turn(alloc, text, turn);
    }
}

// Adds the lines of a turn.
fn add_turn(alloc: Global, text: &mut Text, turn: &Turn) {
    match turn {
        Turn::In(octets) => {
            text.push_str("in");
            end_with_octets(text, octets);
        }
        Turn::Out(octets) => {
            text.push_str("out\n");
            add_frames(text, octets);
        }
        Turn::Call(act) => {
            text.push_str("call ");
            add_act(alloc, text, act);
        }
        Turn::Event(event) => {
            text.push_str("event ");
            add_kept(alloc, text, event);
        }
        Turn::Answer(answer) => {
            text.push_str("answer ");
            add_act_answer(alloc, text, *answer);
        }
    }
}

// Adds the answer to an act.
fn add_act_answer(alloc: Global, text: &mut Text, answer: Answer) {
    match answer {
        Answer::Id(id) => add_labeled(text, "id ", id),
        Answer::Count(count) => add_value(text, count),
        Answer::Done => text.push_line("done"),
        Answer::Refused(refusal) => add_name(alloc, text, &refusal),
        Answer::Fault(code) => write!(text, "fault {code:?}\n"),
    }
}
