//! The command `h2 replay --messages`.

ghost use Rattle.std.specs.Prelude.{◌≡◌, MatchResult, map, string_bytes};
ghost use Rattle.h2_cli.specs.Status.{failure_status};
ghost use Rattle.h2_tool.specs.Commands.{EndsMessages};

use crate::program::{answer, end_input};
use h2_args::replay_args;
use h2_cli::{Failure, Status};
use h2_messages::{Replayed, Why, messages_input};
use h2_show::Shown;
use std::alloc::Global;
use std::io::{Read, Write};

// contract: messages (own) The word --messages has the rules of messages checked
// rule: messages (own) The word --messages has the rules of messages checked
// contract: messages (own) The status is 0 only where a client or a server took it all
/// Runs `h2 replay --messages`.
pub(crate) fn cmd_messages<R: Read, W: Write, E: Write>(
    alloc: Global,
    words: &[String],
    input: &mut R,
    out: &mut W,
    err: &mut E,
) -> Status
    ensures { EndsMessages (map string_bytes words.now) (R.remaining input.old)
        (R.remaining input.new) (W.contents out.old) (W.contents out.new) result }
{
    let options = match replay_args(alloc, words) {
        Ok(options) => options,
        Err(error) => return answer(&error, out, err),
    };
    let replayed = messages_input(alloc, options, input, out);
    end_messages(replayed, err)
}

// rule: messages (own) The status is 0 only where a client or a server took it all
// Ends the command with the result of the input.
fn end_messages<E: Write>(replayed: Result<Replayed, Failure>, err: &mut E) -> Status
    ensures { MatchResult replayed (λ one. result ≡ one.status)
        (λ failure. result ≡ failure_status failure) }
{
    let shown = replayed.map(|one| Shown {
        status: one.status,
        hint: one.hint,
    });
    if let Ok(
        Replayed {
            hint: None,
            why: Some(why),
            ..
        },
    ) = replayed
    {
        give_reason(why, err);
    }
    end_input(shown, "--as client", err)
}

// rule (tested): messages (own) A hint says why the connection has failed
// Prints on standard error why the connection failed.
fn give_reason<E: Write>(why: Why, err: &mut E) {
    // The status is that of the input, whether or not this write fails.
    let _ = writeln!(err, "hint: {why}");
}
