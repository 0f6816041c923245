//! Runs of the program in memory.

use super::memory::{Call, Failing, Left, Memory, Setup};
use crate::program::{add_output, add_printed, read_line};
use h2_case::text::Text;
use h2_case::words::Words;
use h2_net::{Ending, Fetched, get_location, print_response, report, target};
use std::alloc::Global;
use std::io::ErrorKind;

/// At most this number of calls fail in turn.
const MOST_CALLS: u64 = 2_000;

/// The status of a program whose calls have failed.
const DEVICE: u8 = 3;

/// What a run has printed, and its status.
#[derive(Drop)]
struct Outcome {
    out: Vec<u8>,
    err: Vec<u8>,
    status: u8,
}

// Runs the program.
fn run(setup: &Setup, line: &[String], left: &Left) -> Outcome {
    let memory = Memory { setup, left };
    let terminals = h2_tool::Terminals {
        colored: false,
        has_progress: setup.is_terminal,
    };
    let (mut out, mut err) = (memory.writer(Call::Out), memory.writer(Call::Err));
    let status = h2_tool::run(
        &memory,
        setup.alloc,
        line,
        terminals,
        &mut memory.reader(),
        &mut out,
        &mut err,
    );
    Outcome {
        out: out.octets,
        err: err.octets,
        status: status.code(),
    }
}

// Adds what a run has printed, and its status.
fn add_outcome(text: &mut Text, outcome: &Outcome) {
    add_printed(text, &outcome.out, &outcome.err, outcome.status);
}

/// Adds what the program prints with the words that are left, and its status.
pub(crate) fn add_run(setup: &Setup, left: &Left, words: &mut Words<'_>, text: &mut Text) {
    let line = read_line(setup.alloc, words);
    add_outcome(text, &run(setup, &line, left));
}

// Whether two runs have printed the same, with the same status.
fn are_same(one: &Outcome, other: &Outcome) -> bool {
    one.out == other.out && one.err == other.err && one.status == other.status
}

// Whether a run has reported a failed call, and has printed before it what another one begins with:
// as many octets as there was room for, if that has failed.
fn is_reported(run: &Outcome, complete: &Outcome, failing: Failing) -> bool {
    run.status == DEVICE
        && complete.out.starts_with(&run.out)
        && (failing.call != Call::Room || run.out.len() as u64 == failing.after)
}

// Adds what comes of a failing call, if that ends the trial: the number of calls that a run makes,
// since none has failed; or what was printed in place of the failure. Returns whether it ends.
fn ends_trial(complete: &Outcome, run: &Outcome, failing: Failing, text: &mut Text) -> bool {
    let count = failing.after;
    if are_same(run, complete) {
        write!(text, "{count} calls\n");
        return true;
    }
    if is_reported(run, complete, failing) {
        return false;
    }
    write!(text, "after {count} calls:\n");
    add_outcome(text, run);
    true
}

/// Adds the number of calls of a kind that a run makes, each of which fails in turn.
pub(crate) fn add_failing(setup: &mut Setup, call: Call, words: &mut Words<'_>, text: &mut Text) {
    let line = read_line(setup.alloc, words);
    setup.failing = None;
    let complete = run(setup, &line, &Left::new(setup.alloc));
    for after in 0..MOST_CALLS {
        let kind = ErrorKind::Other;
        let failing = Failing { call, after, kind };
        setup.failing = Some(failing);
        let failed = run(setup, &line, &Left::new(setup.alloc));
        if ends_trial(&complete, &failed, failing, text) {
            setup.failing = None;
            return;
        }
    }
    words.unread();
}

/// Adds what `h2 show` prints of octets of a client.
pub(crate) fn add_shown(setup: &Setup, octets: &[u8], text: &mut Text) {
    let left = Left::new(setup.alloc);
    let memory = Memory { setup, left: &left };
    let (mut out, mut err) = (memory.writer(Call::Out), memory.writer(Call::Err));
    let mut input = octets;
    let _ = h2_tool::cmd_show(
        &memory,
        setup.alloc,
        &[],
        false,
        &mut input,
        &mut out,
        &mut err,
    );
    match std::str::from_utf8(&out.octets) {
        Ok(lines) => text.push_str(lines),
        Err(_) => text.refuse(),
    }
}

/// Adds a response as it is printed.
pub(crate) fn add_response(alloc: Global, fetched: &Fetched, text: &mut Text) {
    let mut out = Vec::new(alloc);
    let printed = print_response(fetched, &mut out);
    match (printed, std::str::from_utf8(&out)) {
        (Ok(()), Ok(lines)) => add_output(text, lines),
        _ => text.refuse(),
    }
}

// Adds the lines of how a fetch ends.
fn add_ending(alloc: Global, ending: Ending, text: &mut Text) {
    let mut err = Vec::new(alloc);
    let status = report(ending, &mut err);
    add_printed(text, &[], &err, status.code());
}

/// Adds the response to GET of a URL, or how the fetch ends.
pub(crate) fn add_location(
    setup: &Setup,
    url: &[u8],
    left: &Left,
    words: &mut Words<'_>,
    text: &mut Text,
) {
    let Ok(location) = target(setup.alloc, url) else {
        return words.unread();
    };
    match get_location(&Memory { setup, left }, setup.alloc, &location) {
        Ok(fetched) => add_response(setup.alloc, &fetched, text),
        Err(ending) => add_ending(setup.alloc, ending, text),
    }
}
