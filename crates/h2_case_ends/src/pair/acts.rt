//! Acts, as commands have them and as they are answered.

use h2_case::fields::read_fields;
use h2_case::messages::read_message;
use h2_case::octets::read_part;
use h2_case::text::Text;
use h2_case::words::Words;
use h2_case_conn::acts::{config_of, read_code, read_ping};
use h2_case_conn::answers::{add_name, add_value};
use h2_joined::{Acted, Config, JointAct, Side};
use std::alloc::Global;

/// The next word, as an end.
pub(crate) fn read_side(words: &mut Words<'_>) -> Side {
    if words.has("server") {
        return Side::Server;
    }
    words.expect("client");
    Side::Client
}

/// The next word, as a number of octets.
pub(crate) fn read_count(words: &mut Words<'_>) -> usize {
    if words.has("all") {
        usize::MAX
    } else {
        words.number()
    }
}

/// The next three words, as settings, with the greatest frame where it follows.
pub(crate) fn read_config(words: &mut Words<'_>) -> Config {
    let (table, window, streams) = (words.number(), words.number(), words.number());
    config_of((table, window, streams), words)
}

/// The act that a command is, where it is one.
pub(crate) fn read_act(alloc: Global, name: &str, words: &mut Words<'_>) -> Option<JointAct> {
    let act = match name {
        "request" => JointAct::Request(read_message(alloc, words)),
        "respond" => JointAct::Respond {
            id: words.number(),
            message: read_message(alloc, words),
        },
        "move" => JointAct::Move {
            from: read_side(words),
            count: read_count(words),
        },
        "deliver" => JointAct::Deliver {
            to: read_side(words),
            count: read_count(words),
        },
        _ => return read_part_act(alloc, name, words),
    };
    Some(act)
}

// The act of a message that is given in parts that a command is, or another one.
fn read_part_act(alloc: Global, name: &str, words: &mut Words<'_>) -> Option<JointAct> {
    let act = match name {
        "begin" => JointAct::Begin(read_fields(alloc, words)),
        "begin_response" => JointAct::BeginResponse {
            id: words.number(),
            head: read_fields(alloc, words),
        },
        "body" => read_body(alloc, words),
        "trailers" => JointAct::SendTrailers {
            side: read_side(words),
            id: words.number(),
            trailers: read_fields(alloc, words),
        },
        _ => return read_call(alloc, name, words),
    };
    Some(act)
}

// The act that sends octets of a body.
fn read_body(alloc: Global, words: &mut Words<'_>) -> JointAct {
    let (side, id) = (read_side(words), words.number());
    let (octets, end) = read_part(alloc, words);
    JointAct::SendBody {
        side,
        id,
        octets,
        end,
    }
}

// The call of an end that a command is, where it is one.
fn read_call(alloc: Global, name: &str, words: &mut Words<'_>) -> Option<JointAct> {
    let act = match name {
        "pump" => JointAct::Pump(read_side(words)),
        "pump_some" => JointAct::PumpSome {
            side: read_side(words),
            most: read_count(words),
        },
        "release_all" => JointAct::ReleaseAll(read_side(words)),
        "release" => JointAct::Release {
            side: read_side(words),
            id: words.number(),
            count: words.number(),
        },
        "widen" => JointAct::Widen {
            side: read_side(words),
            count: words.number(),
        },
        "reset" => JointAct::Reset {
            side: read_side(words),
            id: words.number(),
            code: words.number(),
        },
        "ping" => JointAct::Ping {
            side: read_side(words),
            octets: read_ping(alloc, words),
        },
        "go_away" => JointAct::GoAway(read_side(words)),
        "fail" => JointAct::Fail {
            side: read_side(words),
            code: read_code(words),
        },
        "change" => JointAct::ChangeSettings {
            side: read_side(words),
            config: read_config(words),
        },
        _ => return None,
    };
    Some(act)
}

/// Adds the line of what an act answers: of a refused one the names of the rules.
pub(crate) fn add_acted(alloc: Global, text: &mut Text, acted: Acted) {
    match acted {
        Acted::Id(id) => add_value(text, id),
        Acted::Count(count) => add_value(text, count),
        Acted::Done => text.push_line("done"),
        Acted::Refused(refusal) => add_name(alloc, text, &refusal),
        Acted::Failed(code) => write!(text, "fault {code:?}\n"),
        Acted::Memory => text.push_line("memory"),
    }
}
