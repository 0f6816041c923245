//! The program `h2`: tools for HTTP/2 over cleartext.
#![tactic(auto)]

use h2_tool::Terminals;
use std::fs::File;
use std::io::IsTerminal;
use std::process::ExitCode;
use std::{env, io};

/// The root folder: it can be opened, and neither be read nor written as a file.
const ROOT: &str = "/";

fn main(rt: HostRuntime) -> ExitCode {
    // A standard stream that was closed at the start gets a folder, so that no socket has its number,
    // and each read and write of it fails; where that can't be opened nothing else changes.
    let _places = [
        File::open(&rt, ROOT),
        File::open(&rt, ROOT),
        File::open(&rt, ROOT),
    ];
    let status = match words(&rt) {
        Ok(words) => h2_tool::run(
            &rt,
            rt.alloc(),
            words.as_slice(),
            terminals(&rt),
            &mut rt.stdin(),
            &mut rt.stdout(),
            &mut rt.stderr(),
        ),
        Err(error) => h2_tool::no_words(&error, &mut rt.stderr()),
    };
    ExitCode::from(status.code())
}

// What is printed for terminals alone.
fn terminals(rt: &HostRuntime) -> Terminals {
    Terminals {
        colored: has_colors(rt),
        has_progress: rt.stderr().is_terminal(),
    }
}

// Whether `--color auto` has colors: standard output is a terminal, and NO_COLOR isn't set, or is
// empty (no-color.org).
fn has_colors(rt: &HostRuntime) -> bool {
    let forbids = match env::var(rt, "NO_COLOR") {
        Ok(value) => !value.is_empty(),
        Err(_) => false,
    };
    rt.stdout().is_terminal() && !forbids
}

// The words after the program's name.
fn words(rt: &HostRuntime) -> io::Result<Vec<String>> {
    let words = env::args(rt)?.skip(1).collect(rt.alloc())?;
    Ok(words)
}
