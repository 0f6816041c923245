//! The command `h2 show --follow`.

ghost use Rattle.std.specs.Prelude.{◌≡◌, List, ℕ, MatchResult, Option, map, string_bytes};
ghost use Rattle.h2_cli.specs.Status.{failure_status};
ghost use Rattle.h2_tool.specs.Commands.{EndsFollow, PagesSo};

use crate::program::{answer, give_up};
use crate::show::end_unopened;
use h2_args::follow_args;
use h2_cli::{Hint, Status, write_hint};
use h2_follow::{FollowHint, FollowOptions, Followed, Unfollowed, follow_input};
use h2_page::page_of;
use std::alloc::Global;
use std::fs::{File, Files, OpenFile};
use std::io::{self, Read, Write};

// contract: follow (own) The word --follow excludes --hex and --from
// rule: follow (own) The word --follow excludes --hex and --from
// contract: follow (own) The status is 0 only where both sides are good to their ends
// rule: follow (own) The status is 0 only where both sides are good to their ends
/// Runs `h2 show --follow`.
pub(crate) fn cmd_follow<F: Files, R: Read, W: Write, E: Write>(
    files: &F,
    alloc: Global,
    words: &[String],
    input: &mut R,
    out: &mut W,
    err: &mut E,
) -> Status
    ensures { EndsFollow (map string_bytes words.now) (R.remaining input.old)
        (R.remaining input.new) (W.contents out.old) (W.contents out.new) result }
{
    let asked = match follow_args(alloc, words) {
        Ok(asked) => asked,
        Err(error) => return answer(&error, out, err),
    };
    if let Some(path) = asked.page {
        return follow_page(files, alloc, asked.options, path, input, err);
    }
    let followed = follow_input(alloc, asked.options, input, out);
    end_text(followed, err)
}

// contract: page (own) With --page a page is written to a file in place of the lines
// rule: page (own) With --page a page is written to a file in place of the lines
// Writes the page of a text to a file. If the text is refused, no file is written.
fn follow_page<F: Files, R: Read, E: Write>(
    files: &F,
    alloc: Global,
    options: FollowOptions,
    path: &str,
    input: &mut R,
    err: &mut E,
) -> Status
    ensures { (known : Option (List ℕ))
        → PagesSo options (R.remaining input.old) known known result }
{
    let mut lines = Vec::new(alloc);
    let followed = follow_input(alloc, options, input, &mut lines);
    let written = if followed.is_ok() {
        write_page(files, alloc, path, &lines)
    } else {
        Ok(())
    };
    match written {
        Ok(()) => end_text(followed, err),
        Err(error) => end_unopened(path, &error, err),
    }
}

// rule: page (own) With --page a page is written to a file in place of the lines
// Writes the page of lines to a file.
fn write_page<F: Files>(files: &F, alloc: Global, path: &str, lines: &[u8]) -> io::Result<()> {
    let page = page_of(alloc, lines)?;
    let mut file = File::create(files, path)?;
    file.write_all(&page)?;
    file.flush()
}

// rule: follow (own) The status is 0 only where both sides are good to their ends
// Ends the command with the result of the text.
fn end_text<E: Write>(followed: Result<Followed, Unfollowed>, err: &mut E) -> Status
    ensures { MatchResult followed (λ shown. result ≡ shown.status)
        (λ unfollowed. result ≡ failure_status unfollowed.failure) }
{
    match followed {
        Ok(followed) => {
            give_hint(followed.hint, err);
            followed.status
        }
        Err(unfollowed) => {
            let status = give_up(unfollowed.failure, err);
            give_hint(unfollowed.hint, err);
            status
        }
    }
}

// rule (tested): follow (own) A hint says why a side may be at fault, or which line is bad
// Prints on standard error what is likely wrong with the text or the capture.
fn give_hint<E: Write>(hint: Option<FollowHint>, err: &mut E) {
    // The status is that of the text, whether or not these writes fail.
    let _ = match hint {
        None => Ok(()),
        Some(FollowHint::Capture) => write_hint(Some(Hint::Capture), err),
        Some(FollowHint::BadLine(number)) => writeln!(
            err,
            "hint: line {number} is not output of tshark -q -z follow,tcp,raw,N"
        ),
        Some(FollowHint::NoOctets) => writeln!(
            err,
            "hint: the text has no octets: did tshark find the connection and its TLS keys?"
        ),
        Some(FollowHint::LostSegment(number)) => writeln!(
            err,
            "hint: line {number}: octets are missing from the capture"
        ),
        Some(FollowHint::Http1) => writeln!(
            err,
            "hint: the connection begins with HTTP/1.1; --follow reads only HTTP/2"
        ),
        Some(FollowHint::NoPreface) => writeln!(
            err,
            "hint: neither side begins with the client preface: the capture may start too late"
        ),
        Some(FollowHint::LongFrame) => writeln!(
            err,
            "hint: a frame is longer than the limit: --max-frame 1048576 accepts longer frames"
        ),
        Some(FollowHint::CutOff) => writeln!(
            err,
            "hint: one side ends inside a frame: the capture may end before the connection does"
        ),
        Some(FollowHint::NotChecked) => writeln!(
            err,
            "hint: SETTINGS allow more than h2 supports: after `not checked` a fault may be none"
        ),
        Some(FollowHint::Table) => writeln!(
            err,
            "hint: a field block leaves a larger table than the other side's SETTINGS allow"
        ),
        Some(FollowHint::Fault) => writeln!(
            err,
            "hint: the capture may be incomplete: does it have all segments, from the first one on?"
        ),
    };
}
