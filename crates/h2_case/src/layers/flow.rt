//! Settings, windows, the sides of a stream, and an end's own values.
//!
//! - `settings`: the first settings.
//! - `settings ID VALUE ..`: the first settings with these values that an end has sent, after a
//!   line for each refusal. Where it makes a difference which end has, it is said for each.
//! - `window OCTETS`: the value of a new window.
//! - `take OCTETS of VALUE`, `give OCTETS to VALUE`, `shift VALUE by DIFFERENCE`: the value of a
//!   window after octets were taken or given, or after it was shifted, preceded by the refusal, if
//!   there is one.
//! - `open`: a stream of which neither side has ended, as at the beginning of a case.
//! - `end_in`, `end_out`: a side of it ends: the refusal, if there is one, and which sides have
//!   ended.
//! - `config`: the values of a new end.
//! - `config TABLE WINDOW STREAMS`, and perhaps `frames N`, the greatest frame: these values, or
//!   the first that is refused.

use crate::case::Case;
use crate::driver::{Answer, Driver, answers};
use crate::text::Text;
use crate::words::Words;
use h2_flow::{BadConfig, Closed, Config, Settings, StreamState, Window};
use h2_spec_log::Role;
use std::alloc::Global;
use std::fmt::Display;

// The driver of these commands.
#[derive(Drop)]
struct Flow {
    alloc: Global,
    state: StreamState,
}

// Adds a limit, or `none`.
fn add_limit(text: &mut Text, limit: Option<u32>) {
    match limit {
        Some(limit) => text.push_value(limit),
        None => text.push_str("none"),
    }
}

// Adds the line of settings.
fn add_settings(text: &mut Text, settings: &Settings) {
    text.push_labeled("table ", settings.header_table_size);
    text.push_labeled(", push ", settings.enable_push);
    text.push_str(", streams ");
    add_limit(text, settings.max_concurrent_streams);
    text.push_labeled(", window ", settings.initial_window_size);
    text.push_labeled(", frame ", settings.max_frame_size);
    text.push_str(", list ");
    add_limit(text, settings.max_header_list_size);
}

// Applies the next value.
fn apply(text: &mut Text, settings: &mut Settings, from: Role, words: &mut Words<'_>) {
    let id = words.number();
    let value = words.number();
    if let Err(bad) = settings.apply(from, id, value) {
        text.push_value(bad);
        text.push_labeled(", ", bad.0);
        text.push_str("\n");
    }
}

// Adds the refusals, and the settings, where an end of this role has sent the values.
fn add_settings_from(words: &mut Words<'_>, text: &mut Text, from: Role) {
    let mut settings = Settings::first();
    for _ in 0..100 {
        if words.is_empty() {
            break;
        }
        apply(text, &mut settings, from, words);
    }
    add_settings(text, &settings);
}

// Adds the same for either role.
fn add_settings_from_both(alloc: Global, words: &mut Words<'_>, text: &mut Text) {
    let (mut client, mut server) = (Text::new(alloc), Text::new(alloc));
    let mut again = *words;
    add_settings_from(words, &mut client, Role::Client);
    add_settings_from(&mut again, &mut server, Role::Server);
    if client.as_str() == server.as_str() {
        text.push_text(&client);
    } else {
        text.push_line("from a client:");
        text.push_text(&client);
        text.push_str("\nfrom a server:\n");
        text.push_text(&server);
    }
}

// A window of a value.
fn read_window(words: &mut Words<'_>) -> Window {
    let mut window = Window::new(0);
    if window.shift(words.number()).is_err() {
        words.unread();
    }
    window
}

// Adds the value of a window, after a refusal.
fn add_window<E: Display + Drop>(text: &mut Text, window: Window, answer: Result<(), E>) {
    if let Err(refusal) = answer {
        text.push_value(refusal);
        text.push_str("\n");
    }
    text.push_value(window.value());
}

// Octets are taken of a window.
fn take(words: &mut Words<'_>, text: &mut Text) {
    let octets = words.number();
    words.expect("of");
    let mut window = read_window(words);
    let answer = window.take(octets);
    add_window(text, window, answer);
}

// Octets are given to a window.
fn give(words: &mut Words<'_>, text: &mut Text) {
    let octets = words.number();
    words.expect("to");
    let mut window = read_window(words);
    let answer = window.give(octets);
    add_window(text, window, answer);
}

// A window is shifted.
fn shift(words: &mut Words<'_>, text: &mut Text) {
    let mut window = read_window(words);
    words.expect("by");
    let answer = window.shift(words.number());
    add_window(text, window, answer);
}

// Adds the value of a new window.
fn add_new_window(words: &mut Words<'_>, text: &mut Text) {
    let octets: u32 = words.number();
    if octets > 0x7fff_ffff {
        words.unread();
    } else {
        text.push_value(Window::new(octets).value());
    }
}

// Adds which sides of a stream have ended, after a refusal.
fn add_sides(text: &mut Text, state: &StreamState, answer: Result<(), Closed>) {
    if let Err(refusal) = answer {
        text.push_value(refusal);
        text.push_str("\n");
    }
    text.push_labeled("in ", state.ended_in);
    text.push_labeled(", out ", state.ended_out);
    text.push_labeled(", closed ", state.closed());
}

// A stream is open.
fn open(text: &mut Text, state: &mut StreamState) {
    *state = StreamState::open();
    add_sides(text, state, Ok(()));
}

// What comes in ends.
fn end_in(text: &mut Text, state: &mut StreamState) {
    let answer = state.end_in();
    add_sides(text, state, answer);
}

// What goes out ends.
fn end_out(text: &mut Text, state: &mut StreamState) {
    let answer = state.end_out();
    add_sides(text, state, answer);
}

// Adds the values of an end that a command gives, or the first that is refused; those of a new one
// where it gives none.
fn add_config(words: &mut Words<'_>, text: &mut Text) {
    let config = if words.is_empty() {
        Ok(Config::default())
    } else {
        made_config(words)
    };
    match config {
        Ok(config) => {
            text.push_labeled("table ", config.table_limit());
            text.push_labeled(", window ", config.initial_window());
            text.push_labeled(", streams ", config.max_streams());
            text.push_labeled(", frames ", config.max_frame());
        }
        Err(bad) => text.push_value(bad),
    }
}

// The values that a command gives.
fn made_config(words: &mut Words<'_>) -> Result<Config, BadConfig> {
    let (table, window, streams) = (words.number(), words.number(), words.number());
    let frame = if words.has("frames") {
        words.number()
    } else {
        16_384
    };
    Config::new(table, window, streams)?.with_max_frame(frame)
}

impl Driver for Flow {
    fn answer(&mut self, name: &str, words: &mut Words<'_>, text: &mut Text) {
        match name {
            "settings" => add_settings_from_both(self.alloc, words, text),
            "window" => add_new_window(words, text),
            "take" => take(words, text),
            "give" => give(words, text),
            "shift" => shift(words, text),
            "config" => add_config(words, text),
            "open" => open(text, &mut self.state),
            "end_in" => end_in(text, &mut self.state),
            "end_out" => end_out(text, &mut self.state),
            _ => words.unread(),
        }
    }
}

/// The answers to a case's commands, up to the first that has none.
pub fn run_case(alloc: Global, case: &Case) -> Vec<Answer> {
    let state = StreamState::open();
    answers(alloc, case, &mut Flow { alloc, state })
}
