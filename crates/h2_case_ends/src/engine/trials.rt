//! Runs of an engine that are tried one after another.

use super::runs::{Calls, Engine, Run, SHORT, SINGLE, Setup, WHOLE};
use h2_case::case::CaseError;
use h2_case::text::Text;
use h2_case::words::Words;

// Adds what the engine answers where calls are of another size, if it is something else.
fn add_other(
    text: &mut Text,
    answer: &str,
    setup: &Setup,
    engine: Engine,
    calls: Calls,
    words: &mut Words<'_>,
) {
    let other = setup.run(engine, calls, words).answer;
    if other.as_str() != answer {
        text.push_labeled("in reads of ", calls.read);
        text.push_line(":");
        text.push_str(&other);
    }
}

/// Adds what the engine answers to all octets at once; where it answers something else in pieces,
/// that too.
pub(crate) fn add_alike(setup: &mut Setup, engine: Engine, words: &mut Words<'_>, text: &mut Text) {
    let run = setup.run(engine, WHOLE, words);
    text.push_str(&run.answer);
    add_other(text, &run.answer, setup, engine, SINGLE, words);
    add_other(text, &run.answer, setup, engine, SHORT, words);
    setup.output = run.output;
}

/// Adds what the engine answers, with links of these calls.
pub(crate) fn add_run(
    setup: &mut Setup,
    engine: Engine,
    calls: Calls,
    words: &mut Words<'_>,
    text: &mut Text,
) {
    let run = setup.run(engine, calls, words);
    text.push_str(&run.answer);
    setup.output = run.output;
}

// Adds what was answered to some numbers of first octets.
fn add_range(text: &mut Text, first: usize, last: usize, answer: &str) {
    text.push_value(first);
    if first != last {
        text.push_labeled(" to ", last);
    }
    text.push_line(" octets:");
    text.push_str(answer);
}

// Adds the number of octets that a run has written to its answer.
fn end_answer(run: &mut Run, words: &mut Words<'_>) {
    if write!(run.answer, "written {}\n", run.output.len()).is_err() {
        words.fail(CaseError::Memory);
    }
}

// The engine's answer to the first `count` octets, and the number of octets that it writes.
fn answer_to(setup: &Setup, engine: Engine, count: usize, words: &mut Words<'_>) -> String {
    let input = setup.input.get(..count).unwrap_or(&setup.input);
    let mut run = setup.run_on(engine, input, WHOLE, words);
    end_answer(&mut run, words);
    run.answer
}

/// Adds what the engine answers to each number of first octets, and the number of octets that it
/// writes.
pub(crate) fn add_prefixes(setup: &Setup, engine: Engine, words: &mut Words<'_>, text: &mut Text) {
    let mut first = 0usize;
    let mut answer = answer_to(setup, engine, 0, words);
    for count in 1..=setup.input.len() {
        let next = answer_to(setup, engine, count, words);
        if next != answer {
            add_range(text, first, count.saturating_sub(1), &answer);
            first = count;
            answer = next;
        }
    }
    add_range(text, first, setup.input.len(), &answer);
}

// Whether a failure of the link is reported, once, after a prefix of an output.
fn is_reported(run: &Run, output: &[u8]) -> bool {
    run.answer.as_str() == "N1 Device\nfailures 1\n" && output.starts_with(&run.output)
}

// Adds what comes of a failure after `count` calls, where that ends the trial: the number of calls
// that a run makes, since none has failed; or what was answered in place of the failure. Returns
// whether it ends.
fn ends_trial(complete: &Run, run: &Run, count: u64, text: &mut Text) -> bool {
    if run.answer == complete.answer && run.output == complete.output {
        text.push_value(count);
        text.push_line(" calls");
        true
    } else if is_reported(run, &complete.output) {
        false
    } else {
        text.push_labeled("after ", count);
        text.push_line(" calls:");
        text.push_str(&run.answer);
        true
    }
}

/// Adds the number of calls of the link that a run makes, each of which fails in turn.
pub(crate) fn add_failing(
    setup: &Setup,
    engine: Engine,
    calls: Calls,
    words: &mut Words<'_>,
    text: &mut Text,
) {
    let complete = setup.run(engine, calls, words);
    for count in 0..1_000 {
        let failing = Calls {
            fails_after: count,
            ..calls
        };
        let run = setup.run(engine, failing, words);
        if ends_trial(&complete, &run, count, text) {
            return;
        }
    }
    words.unread();
}

/// Adds what a server answers to a client that is given the input, and what the client fetches of
/// that.
pub(crate) fn add_exchange(setup: &mut Setup, words: &mut Words<'_>, text: &mut Text) {
    let asked = setup.run(Engine::Client, WHOLE, words).output;
    let served = setup.run_on(Engine::Server, &asked, SHORT, words);
    let fetched = setup.run_on(Engine::Client, &served.output, WHOLE, words);
    text.push_str(&served.answer);
    text.push_str(&fetched.answer);
    setup.output = served.output;
}
