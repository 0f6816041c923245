//! URLs that can be fetched.
//!
//! - `target URL`: the host, the port, the authority and the path of a URL, in which `\xNN` is an
//!   octet; or why it can't be fetched.

use h2_case::case::Case;
use h2_case::driver::{Answer, Driver, answers};
use h2_case::fields::read_text;
use h2_case::text::Text;
use h2_case::words::Words;
use h2_net::target;
use std::alloc::Global;

/// The driver of a case's commands.
#[derive(Drop)]
struct Locations {
    alloc: Global,
}

// Adds what is fetched of a URL, or why nothing is.
fn add_target(alloc: Global, url: &[u8], text: &mut Text) {
    match target(alloc, url) {
        Ok(found) => {
            let (host, port) = (found.host.as_str(), found.port);
            write!(text, "host {host}\nport {port}\n");
            let (authority, path) = (found.authority.as_str(), found.path.as_str());
            write!(text, "authority {authority}\npath {path}\n");
        }
        Err(fault) => write!(text, "{fault:?}: {fault}\n"),
    }
}

impl Driver for Locations {
    fn answer(&mut self, name: &str, words: &mut Words<'_>, text: &mut Text) {
        match name {
            "target" => add_target(self.alloc, &read_text(self.alloc, words), text),
            _ => words.unread(),
        }
    }
}

/// The answers to a case's commands, up to the first that has none.
pub(crate) fn run_case(alloc: Global, case: &Case) -> Vec<Answer> {
    answers(alloc, case, &mut Locations { alloc })
}
