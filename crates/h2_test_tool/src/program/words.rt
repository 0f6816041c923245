//! Words that can't be had.

use crate::devices::Failing;
use h2_cli::Status;
use h2_tool::no_words;
use std::alloc::Global;
use std::io::{self, ErrorKind};

/// Whether words that can't be had for such an error end with a text and a status, and with another
/// status where the text can't be written.
fn ends(alloc: Global, kind: ErrorKind, text: &str, status: Status, unwritten: Status) -> bool {
    let error = io::Error::from(kind);
    let mut err = Vec::new(alloc);
    no_words(&error, &mut err) == status
        && err.as_slice() == text.as_bytes()
        && no_words(&error, &mut Failing) == unwritten
}

#[test]
fn words_that_cannot_be_had(rt: HostRuntime) {
    let (invalid, no_text) = (ErrorKind::InvalidData, "error: an argument is not UTF-8\n");
    assert!(rt; ends(rt.alloc(), invalid, no_text, Status::Usage, Status::Device));
    let (memory, text) = (ErrorKind::OutOfMemory, "N3 Memory\n");
    assert!(rt; ends(rt.alloc(), memory, text, Status::Memory, Status::Memory));
}
