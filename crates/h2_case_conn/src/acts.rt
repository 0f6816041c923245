//! The calls of one end of a connection as commands: see [`crate::conn`].

use crate::answers::{
    add_answer, add_done, add_labeled, add_name, add_numbers, begin_line, end_with_octets,
};
use crate::cuts::read_frames;
use h2_case::fields::{add_fields, read_fields};
use h2_case::octets::{add_frames, read_octets};
use h2_case::text::Text;
use h2_case::words::Words;
use h2_conn::{BadConfig, Code, Config, Conn, Refusal};
use h2_replay::Act;
use std::alloc::Global;

// The next word as a number; where none is left, this one.
fn number_or(words: &mut Words<'_>, default: u32) -> u32 {
    if words.is_empty() {
        default
    } else {
        words.number()
    }
}

/// Values of an end's own settings: those that are named in their order, and else the default ones.
pub(crate) fn read_values(words: &mut Words<'_>) -> (u32, u32, u32) {
    let table_limit = number_or(words, 4_096);
    let initial_window = number_or(words, 65_535);
    let max_streams = number_or(words, 100);
    (table_limit, initial_window, max_streams)
}

/// The settings of these values, and of the greatest frame that a command names after them.
pub(crate) fn made_config(
    values: (u32, u32, u32),
    words: &mut Words<'_>,
) -> Result<Config, BadConfig> {
    let (table_limit, initial_window, max_streams) = values;
    let max_frame = if words.has("frames") {
        words.number()
    } else {
        16_384
    };
    Config::new(table_limit, initial_window, max_streams)?.with_max_frame(max_frame)
}

/// The same; the default ones where they can't be.
pub fn config_of(values: (u32, u32, u32), words: &mut Words<'_>) -> Config {
    match made_config(values, words) {
        Ok(config) => config,
        Err(_) => {
            words.unread();
            Config::default()
        }
    }
}

/// The settings that a command names.
pub fn read_config(words: &mut Words<'_>) -> Config {
    let values = read_values(words);
    config_of(values, words)
}

/// The eight octets of a PING.
pub fn read_ping(alloc: Global, words: &mut Words<'_>) -> [u8; 8] {
    let octets = read_octets(alloc, words);
    match octets.as_slice() {
        [a, b, c, d, e, f, g, h] => [*a, *b, *c, *d, *e, *f, *g, *h],
        _ => {
            words.unread();
            [0; 8]
        }
    }
}

/// The error code that a command names by its number.
pub fn read_code(words: &mut Words<'_>) -> Code {
    match Code::from_number(words.number()) {
        Some(code) => code,
        None => {
            words.unread();
            Code::InternalError
        }
    }
}

/// The call of this name, with what is left of a command.
pub(crate) fn read_act(alloc: Global, name: &str, words: &mut Words<'_>) -> Act {
    match name {
        "open" => Act::Open {
            end: words.has("end"),
            fields: read_fields(alloc, words),
        },
        "ping" => Act::Ping(read_ping(alloc, words)),
        "go_away" => Act::GoAway,
        "fail" => Act::Fail(read_code(words)),
        "out" => Act::PutOut(words.number()),
        "widen" => Act::Widen(words.number()),
        "change" => Act::ChangeSettings(read_config(words)),
        _ => {
            let id = words.number();
            read_act_on(alloc, name, id, words)
        }
    }
}

// The call of this name on a stream.
fn read_act_on(alloc: Global, name: &str, id: u32, words: &mut Words<'_>) -> Act {
    match name {
        "fields" => Act::Fields {
            id,
            end: words.has("end"),
            fields: read_fields(alloc, words),
        },
        "data" => Act::Data {
            id,
            end: words.has("end"),
            octets: read_octets(alloc, words),
        },
        "release" => Act::Release {
            id,
            count: words.number(),
        },
        "reset" => Act::Reset {
            id,
            code: words.number(),
        },
        "refuse" => Act::Refuse {
            id,
            code: words.number(),
        },
        _ => {
            words.unread();
            Act::GoAway
        }
    }
}

/// Makes a call, and adds its answer: a number, `done`, the octets that it puts out, or why it is
/// refused. Octets are not taken by it.
pub(crate) fn make_call(alloc: Global, conn: &mut Conn, act: &Act, text: &mut Text) {
    match act {
        Act::Take(_) => {}
        Act::Open { fields, end } => add_answer(alloc, text, conn.open(fields, *end)),
        Act::Data { id, octets, end } => add_answer(alloc, text, conn.data(*id, octets, *end)),
        Act::PutOut(count) => put_out(alloc, conn, *count, text),
        _ => add_done(alloc, text, make_other(conn, act)),
    }
}

// Makes a call that returns no value.
fn make_other(conn: &mut Conn, act: &Act) -> Result<(), Refusal> {
    match act {
        Act::Fields { id, fields, end } => conn.fields(*id, fields, *end),
        Act::Release { id, count } => conn.release(*id, *count),
        Act::Reset { id, code } => conn.reset(*id, *code),
        Act::Refuse { id, code } => conn.refuse(*id, *code),
        Act::Widen(count) => conn.widen(*count),
        Act::Ping(octets) => conn.ping(*octets),
        Act::GoAway => conn.go_away(),
        Act::Fail(code) => conn.fail(*code),
        Act::ChangeSettings(config) => conn.change_settings(*config),
        _ => Ok(()),
    }
}

// Puts out at most `count` octets.
fn put_out(alloc: Global, conn: &mut Conn, count: usize, text: &mut Text) {
    let mut out = Vec::new(alloc);
    match conn.put_out(count, &mut out) {
        Ok(given) if given == out.len() => add_frames(text, &out),
        Ok(given) => {
            text.push_value(given);
            text.push_line(" octets are said to be these:");
        }
        Err(refusal) => add_name(alloc, text, &refusal),
    }
}

/// Adds a call as it is written in a command, its fields each on a line of their own.
pub(crate) fn add_act(alloc: Global, text: &mut Text, act: &Act) {
    match act {
        Act::Open { fields, end } => {
            text.push_line(if *end { "open end" } else { "open" });
            add_fields(alloc, text, fields);
        }
        Act::Fields { id, fields, end } => {
            begin_line(text, "fields", *id, *end);
            text.push_str("\n");
            add_fields(alloc, text, fields);
        }
        Act::Take(octets) => add_octets_act(text, "take", octets),
        Act::Data { id, octets, end } => {
            begin_line(text, "data", *id, *end);
            end_with_octets(text, octets);
        }
        _ => add_small_act(text, act),
    }
}

// Adds a call without fields or a body as it is written in a command.
fn add_small_act(text: &mut Text, act: &Act) {
    match act {
        Act::Release { id, count } => add_numbers(text, "release", *id, *count),
        Act::Reset { id, code } => add_numbers(text, "reset", *id, *code),
        Act::Refuse { id, code } => add_numbers(text, "refuse", *id, *code),
        Act::Ping(octets) => add_octets_act(text, "ping", octets),
        Act::Fail(code) => add_labeled(text, "fail ", code.number()),
        Act::PutOut(count) => add_labeled(text, "out ", *count),
        Act::Widen(count) => add_labeled(text, "widen ", *count),
        Act::ChangeSettings(config) => add_change(text, *config),
        _ => text.push_line("go_away"),
    }
}

// Adds the line of a name and octets.
fn add_octets_act(text: &mut Text, name: &str, octets: &[u8]) {
    text.push_str(name);
    end_with_octets(text, octets);
}

// Adds the line of new settings.
fn add_change(text: &mut Text, config: Config) {
    text.push_labeled("change ", config.table_limit());
    text.push_labeled(" ", config.initial_window());
    text.push_labeled(" ", config.max_streams());
    if config.max_frame() != Config::default().max_frame() {
        text.push_labeled(" frames ", config.max_frame());
    }
    text.push_str("\n");
}
