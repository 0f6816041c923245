//! The options of `show --follow`.

ghost use Rattle.std.specs.Prelude.{◌≡◌, ◌≤◌, IfErr, IfOk, Some, false, map, string_bytes};
ghost use Rattle.clap.specs.Words.{app_of, HasKind, rule_of};
ghost use Rattle.h2_args.specs.Commands.{follow_app, follow_rule};
ghost use Rattle.h2_args.specs.Words.{asks_follow, follow_asked_by, follow_asked_of};
ghost use Rattle.h2_args.specs.Words.{follow_faults};

use crate::options::{CommandText, has_word, named_command, valued_arg};
use crate::show::{MAX_FRAME, max_frame_arg};
use clap::{Arg, ArgAction, Command, Error};
use h2_follow::FollowOptions;
use h2_frame::limits::LEAST_MAX_FRAME;
use std::alloc::{AllocError, Global};

/// The options of `show --follow`.
#[derive(Clone, Copy, Debug, PartialEq, Eq)]
pub struct FollowWords<'a> {
    /// How the text is shown.
    pub options: FollowOptions,
    /// The file to which a page is written instead of lines.
    pub page: Option<&'a str>,
}

const FOLLOW: &str = "follow";

const FOLLOW_HELP: &str = r"Show both sides of a connection from the text printed by
tshark; the only other options accepted are --max-frame,
and --page FILE, which writes an HTML page";

const PAGE: &str = "page";

const PAGE_HELP: &str = "Write an HTML page to this file instead of printing lines";

// contract: follow (own) The word --follow excludes --hex and --from
// rule: follow (own) The word --follow excludes --hex and --from
/// Whether one of the words after `show` is `--follow`.
pub fn asks_follow(words: &[String]) -> bool
    ensures { result ≡ asks_follow (map string_bytes words.now) }
{
    has_word(words, "--follow")
}

// contract: follow (own) The word --follow excludes --hex and --from
// rule: follow (own) The word --follow excludes --hex and --from
// contract: page (own) With --page a page is written to a file in place of the lines
// rule: page (own) With --page a page is written to a file in place of the lines
/// Reads the words after `show`, one of which is `--follow`.
///
/// # Errors
///
/// Those of [`crate::show_args`].
pub fn follow_args<'a>(alloc: Global, words: &'a [String]) -> Result<FollowWords<'a>, Error>
    ensures ok { IfOk result (λ asked.
        follow_asked_of (map string_bytes words.entry.now) ≡ Some (follow_asked_by asked)) }
    ensures least { IfOk result (λ asked. 16384 ≤ asked.options.max_frame) }
    ensures most { IfOk result (λ asked. asked.options.max_frame ≤ 1048576) }
    ensures err { IfErr result (HasKind (follow_faults (map string_bytes words.entry.now))) }
{
    let command = follow_command(alloc)?;
    let matches = command.try_get_matches_from(words)?;
    let max_frame = matches.get_one::<u32>(MAX_FRAME).unwrap_or(LEAST_MAX_FRAME);
    let page = matches.get_str(PAGE);
    Ok(FollowWords {
        options: FollowOptions { max_frame },
        page,
    })
}

/// The flag as clap has it.
pub(super) fn follow_arg<'a>(alloc: Global) -> Arg<'a>
    ensures rule { rule_of result ≡ follow_rule }
    ensures local { result.global ≡ false }
{
    Arg::new(alloc, FOLLOW)
        .long(FOLLOW)
        .action(ArgAction::SetTrue)
        .help(FOLLOW_HELP)
}

/// The texts of the help.
const TEXT: CommandText<'static> = CommandText {
    called: "h2 show",
    about: "Show both sides of a connection from the output of tshark",
    usage: "h2 show --follow [--max-frame N] [--page FILE] < TEXT",
    more: "`h2 show --help` explains the lines and the exit statuses.",
};

// The command as clap has it.
fn follow_command<'a>(alloc: Global) -> Result<Command<'a>, AllocError>
    ensures { IfOk result (λ command. app_of command ≡ follow_app) }
{
    named_command(alloc, "show", TEXT)?
        .arg(follow_arg(alloc))?
        .arg(max_frame_arg(alloc))?
        .arg(valued_arg(alloc, PAGE, "FILE", PAGE_HELP))
}
