//! What a path says.

use h2_server::Code;

/// What is done with a request.
#[derive(Clone, Copy)]
pub(crate) enum Does {
    /// A body of so many octets, once the request is complete.
    Whole(usize),
    /// The same at the head.
    Early(usize),
    /// The same at the head, with status 413; the rest of the request is not wanted.
    Refuses(usize),
    /// So many octets in parts, and what follows them.
    Parts(usize, Then),
    /// No response yet.
    Later,
    /// A deferred response; if it is given in parts, so many octets.
    Defers(usize),
    /// A fault.
    Fails,
    /// A reset.
    Resets(Code),
    /// A response once the request is complete, of whose body so many octets are used.
    Keeps(u32),
    /// The same; it holds so many octets.
    Holds(usize),
    /// A response that breaks a rule.
    Bad,
    /// Status 404.
    Unknown,
}

/// What follows the octets of a response in parts.
#[derive(Clone, Copy)]
pub(crate) enum Then {
    /// Its end.
    Ends,
    /// Trailers.
    Trailers,
    /// Nothing.
    Stalls,
    /// A fault.
    Fails,
}

/// What a path says, and the number after its `?`; 0 where there is none.
pub(crate) fn read_path(path: &[u8]) -> (Does, u32) {
    let text = std::str::from_utf8(path).unwrap_or("");
    let (text, id) = text.split_once('?').unwrap_or((text, "0"));
    (does_of(text), id.parse().unwrap_or(0))
}

// What a path without its `?` says.
fn does_of(path: &str) -> Does {
    let text = path.strip_prefix('/').unwrap_or("");
    match text.split_once('/') {
        Some((name, number)) => match number.parse::<u32>() {
            Ok(number) => does_with(name, number),
            Err(_) => Does::Unknown,
        },
        None => does_alone(text),
    }
}

// What a word with a number says.
fn does_with(name: &str, number: u32) -> Does {
    let count = number as usize;
    match name {
        "whole" => Does::Whole(count),
        "early" => Does::Early(count),
        "refuses" => Does::Refuses(count),
        "parts" => Does::Parts(count, Then::Ends),
        "trailers" => Does::Parts(count, Then::Trailers),
        "stalls" => Does::Parts(count, Then::Stalls),
        "fails" => Does::Parts(count, Then::Fails),
        "defers" => Does::Defers(count),
        "keeps" => Does::Keeps(number),
        "holds" => Does::Holds(count),
        "resets" => reset_of(number),
        _ => Does::Unknown,
    }
}

// A reset with this code.
fn reset_of(number: u32) -> Does {
    match Code::from_number(number) {
        Some(code) => Does::Resets(code),
        None => Does::Unknown,
    }
}

// What a word alone says.
fn does_alone(name: &str) -> Does {
    match name {
        "later" => Does::Later,
        "fails" => Does::Fails,
        "bad" => Does::Bad,
        _ => Does::Unknown,
    }
}
