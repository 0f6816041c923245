//! The program's commands, over an input in memory.
//!
//! - `input OCTETS`: what the next commands read; or `input text TEXT`, in which `\xNN` is an
//!   octet.
//! - `more OCTETS`, `more text TEXT`: what follows in the same input.
//! - `h2 WORDS`: what the program prints with these words on standard output, then on standard
//!   error (each line after `err: `), and the status that it ends with. In a word `\xNN` is an
//!   octet. A line of standard output that begins as a command does, with `> `, has a backslash
//!   before it, and a last line without an end has one after it. More than 1,000 equal characters
//!   at the end of a line are `\{HEXxN}`. Where no input was given, each read fails, and `the input
//!   was read` follows if there was one.
//! - `columns N`: the lines of the last answer that have more than N characters.
//! - `exchange N`: the response to the POST of N octets that `h2 loop N` makes: its fields, and its
//!   body, in which the line of the request is text.
//!
//! An input is read in one piece, in single octets, and, where it has at most 400, cut in two at
//! each place. Octets are read as hexadecimal text with `--hex` too. Where an answer differs from
//! that to the input read in one piece, it follows, after a line that says how the input was read.

use crate::input::{Input, Pieces, Unreadable};
use h2_case::case::{Case, CaseError};
use h2_case::driver::{Answer, Driver};
use h2_case::fields::{add_fields, read_text};
use h2_case::octets::{add_hex, add_octets};
use h2_case::text::Text;
use h2_case::words::Words;
use h2_case_conn::cuts::answers_of;
use h2_net::{WriteParts, exchange};
use std::alloc::Global;
use std::fs::Files;
use std::io::Read;
use std::net::Net;
use std::time::Clock;

/// An input of more octets is not cut at each place.
const MOST_CUT: usize = 400;

/// At most this number of equal characters at the end of a line are printed as they are.
const MOST_EQUAL: usize = 1_000;

/// The state of a case.
#[derive(Drop)]
struct Session<'a, N: Net + Files + Clock + Copy> {
    net: &'a N,
    alloc: Global,
    input: Option<Input>,
    answer: String,
}

// Adds a word of a command line, in which `\xNN` is an octet.
fn add_word(alloc: Global, line: &mut Vec<String>, word: &str, words: &mut Words<'_>) {
    let mut given = Words::of(word);
    match String::from_utf8(read_text(alloc, &mut given)) {
        Ok(word) => {
            if line.push(word).is_err() {
                words.fail(CaseError::Memory);
            }
        }
        Err(_) => words.unread(),
    }
    if let Some(fault) = given.fault() {
        words.fail(fault);
    }
}

/// The words of a command line.
pub(crate) fn read_line(alloc: Global, words: &mut Words<'_>) -> Vec<String> {
    let mut line = Vec::new(alloc);
    let text = words.rest();
    let mut left = Words::of(text);
    for _ in 0..text.len() {
        match left.next_or_empty() {
            "" => break,
            word => add_word(alloc, &mut line, word, words),
        }
    }
    line
}

// Adds a line, and its end. More than `MOST_EQUAL` equal characters at its end are abbreviated; one
// that begins as a command of a case does has a backslash before it.
fn add_shortened(text: &mut Text, line: &str, end: &str) {
    if line.starts_with("> ") {
        text.push_str("\\");
    }
    let last = line.as_bytes().last().copied().unwrap_or(0);
    let start = line.trim_end_matches(last as char);
    let count = line.len().saturating_sub(start.len());
    if count <= MOST_EQUAL {
        text.push_str(line);
    } else {
        text.push_str(start);
        text.push_str("\\{");
        add_hex(text, &[last]);
        write!(text, "x{count}}}");
    }
    text.push_str(end);
}

/// Adds the lines of standard output.
pub(crate) fn add_output(text: &mut Text, output: &str) {
    let mut others = output;
    for _ in 0..output.len() {
        let Some((line, next)) = others.split_once('\n') else {
            break;
        };
        add_shortened(text, line, "\n");
        others = next;
    }
    if !others.is_empty() {
        add_shortened(text, others, "\\\n");
    }
}

// Adds a line of standard error.
fn add_error(text: &mut Text, line: &str) {
    text.push_str(if line.is_empty() { "err:" } else { "err: " });
    for (place, part) in line.split('\r').enumerate() {
        if place > 0 {
            text.push_str("\\r");
        }
        text.push_str(part);
    }
    text.push_str("\n");
}

// Adds the lines of standard error, if there are any.
fn add_errors(text: &mut Text, errors: &str) {
    match errors.strip_suffix("\n") {
        Some(lines) => {
            for line in lines.split('\n') {
                add_error(text, line);
            }
        }
        None if errors.is_empty() => {}
        None => {
            text.push_str("err without a line end: ");
            text.push_line(errors);
        }
    }
}

// Runs the program, whose output is a terminal, and returns its status. It has no contract, since
// no case needs one.
fn run<N: Net + Files + Clock + Copy, R: Read>(
    net: &N,
    alloc: Global,
    line: &[String],
    input: &mut R,
    out: &mut Vec<u8>,
    err: &mut Vec<u8>,
) -> u8
where
    N::Stream: WriteParts,
{
    let terminals = h2_tool::Terminals {
        colored: true,
        has_progress: false,
    };
    h2_tool::run(net, alloc, line, terminals, input, out, err).code()
}

/// Adds what was printed, and a status.
pub(crate) fn add_printed(text: &mut Text, out: &[u8], err: &[u8], status: u8) {
    match (std::str::from_utf8(out), std::str::from_utf8(err)) {
        (Ok(out), Ok(err)) => {
            add_output(text, out);
            add_errors(text, err);
            write!(text, "status {status}\n");
        }
        _ => text.refuse(),
    }
}

// What the program prints with these words of an input, and its status.
fn answer_of<N: Net + Files + Clock + Copy, R: Read>(
    net: &N,
    alloc: Global,
    line: &[String],
    input: &mut R,
) -> Text
where
    N::Stream: WriteParts,
{
    let (mut out, mut err) = (Vec::new(alloc), Vec::new(alloc));
    let mut text = Text::new(alloc);
    let status = run(net, alloc, line, input, &mut out, &mut err);
    add_printed(&mut text, &out, &err, status);
    text
}

// Adds the answer where no input was given.
fn add_unread<N: Net + Files + Clock + Copy>(
    net: &N,
    alloc: Global,
    line: &[String],
    text: &mut Text,
)
where
    N::Stream: WriteParts,
{
    let mut input = Unreadable { was_read: false };
    text.push_text(&answer_of(net, alloc, line, &mut input));
    if input.was_read {
        text.push_line("the input was read");
    }
}

// Adds the answer to an input that is read in pieces, if it is another one than the first.
fn add_other<N: Net + Files + Clock + Copy>(
    net: &N,
    alloc: Global,
    line: &[String],
    mut pieces: Pieces<'_>,
    whole: &Text,
    text: &mut Text,
)
where
    N::Stream: WriteParts,
{
    let other = answer_of(net, alloc, line, &mut pieces);
    if other.as_str() != whole.as_str() {
        pieces.add_how(text);
        text.push_text(&other);
    }
}

// Adds the answers that differ where octets are read in two pieces, cut at each place.
fn add_cut<N: Net + Files + Clock + Copy>(
    net: &N,
    alloc: Global,
    line: &[String],
    octets: &[u8],
    whole: &Text,
    text: &mut Text,
)
where
    N::Stream: WriteParts,
{
    if octets.len() <= MOST_CUT {
        for place in 1..octets.len() {
            add_other(net, alloc, line, Pieces::cut(octets, place), whole, text);
        }
    }
}

// Adds the answer that differs where octets are read as hexadecimal text.
fn add_hexadecimal<N: Net + Files + Clock + Copy>(
    net: &N,
    alloc: Global,
    line: &[String],
    octets: &[u8],
    whole: &Text,
    text: &mut Text,
)
where
    N::Stream: WriteParts,
{
    let mut digits = Text::new(alloc);
    add_hex(&mut digits, octets);
    match digits.finish() {
        Ok(digits) => {
            let pieces = Pieces::of_digits(digits.as_bytes());
            add_other(net, alloc, line, pieces, whole, text);
        }
        Err(_) => text.refuse(),
    }
}

// Adds the answer to words, and those that differ where the input is read otherwise.
fn add_answers<N: Net + Files + Clock + Copy>(
    net: &N,
    alloc: Global,
    input: &Input,
    words: &mut Words<'_>,
    text: &mut Text,
)
where
    N::Stream: WriteParts,
{
    let octets = input.octets.as_slice();
    let mut line = read_line(alloc, words);
    let whole = answer_of(net, alloc, &line, &mut Pieces::whole(octets));
    text.push_text(&whole);
    add_cut(net, alloc, &line, octets, &whole, text);
    add_other(net, alloc, &line, Pieces::single(octets), &whole, text);
    if !input.is_text {
        add_word(alloc, &mut line, "--hex", words);
        add_hexadecimal(net, alloc, &line, octets, &whole, text);
    }
}

// Adds the lines of an answer that have more characters than this.
fn add_wide(text: &mut Text, answer: &str, most: usize) {
    for line in answer.split('\n') {
        if line.chars().count() > most {
            text.push_line(line);
        }
    }
}

// Adds a body, in which the line of the request is text.
fn add_body(text: &mut Text, body: &[u8]) {
    match body.strip_prefix(b"POST /\n".as_slice()) {
        Some(others) => {
            text.push_line("POST /");
            add_octets(text, others);
        }
        None => add_octets(text, body),
    }
    text.push_str("\n");
}

// Adds the response to a POST of `count` octets.
fn add_exchange<N: Net>(net: &N, alloc: Global, count: u32, text: &mut Text)
where
    N::Stream: WriteParts,
{
    match exchange(net, alloc, count) {
        Ok(fetched) => {
            if !fetched.interims.is_empty() || fetched.trailers.is_some() {
                text.push_line("interim responses, or trailers");
            }
            add_fields(alloc, text, &fetched.head);
            add_body(text, &fetched.body);
        }
        Err(error) => write!(text, "{error}\n"),
    }
}

impl<N: Net + Files + Clock + Copy> Session<'_, N>
where
    N::Stream: WriteParts,
{
    // Adds to the input.
    fn add_input(&mut self, words: &mut Words<'_>) {
        match &mut self.input {
            Some(input) => input.add(self.alloc, words),
            None => words.unread(),
        }
    }

    // Adds the answer of the program, and keeps it.
    fn answer_line(&mut self, words: &mut Words<'_>, text: &mut Text) {
        match &self.input {
            Some(input) => add_answers(self.net, self.alloc, input, words, text),
            None => add_unread(self.net, self.alloc, &read_line(self.alloc, words), text),
        }
        match String::from_str(self.alloc, text.as_str()) {
            Ok(answer) => self.answer = answer,
            Err(_) => text.refuse(),
        }
    }
}

impl<N: Net + Files + Clock + Copy> Driver for Session<'_, N>
where
    N::Stream: WriteParts,
{
    fn answer(&mut self, name: &str, words: &mut Words<'_>, text: &mut Text) {
        match name {
            "input" => self.input = Some(Input::read(self.alloc, words)),
            "more" => self.add_input(words),
            "h2" => self.answer_line(words, text),
            "columns" => add_wide(text, &self.answer, words.number()),
            "exchange" => add_exchange(self.net, self.alloc, words.number(), text),
            _ => words.unread(),
        }
    }
}

/// The answers to a case's commands, up to the first that has none.
pub(crate) fn run_case<N: Net + Files + Clock + Copy>(
    net: &N,
    alloc: Global,
    case: &Case,
) -> Vec<Answer>
where
    N::Stream: WriteParts,
{
    let session = Session {
        net,
        alloc,
        input: None,
        answer: String::new(alloc),
    };
    answers_of(alloc, case, session)
}
