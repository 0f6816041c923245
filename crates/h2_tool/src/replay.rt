//! The command `h2 replay`.

ghost use Rattle.std.specs.Prelude.{map, string_bytes};
ghost use Rattle.h2_tool.specs.Commands.{EndsReplay};

use crate::messages::cmd_messages;
use crate::program::{answer, end_input};
use h2_args::{asks_messages, replay_args};
use h2_cli::Status;
use h2_events::replay_input;
use std::alloc::Global;
use std::io::{Read, Write};

// contract: replay (own) The status is 0 only where an end took the whole input
// rule: replay (own) The status is 0 only where an end took the whole input
// contract: replay (own) The words of replay choose the end and hexadecimal
// rule: replay (own) The words of replay choose the end and hexadecimal
/// Runs `h2 replay` with the words after `replay`: feeds the input to one endpoint of a new
/// connection, and prints a line for each event, then the fault with which the connection fails,
/// if it does, and then the output of the endpoint. If the first octets are not the preface that
/// a server expects, a hint names the option that is likely missing.
///
/// The words are checked before anything is read. Lines are written after each piece that was read.
///
/// The status is that of [`replay_input`]; for help it is [`Status::Good`], and for wrong words
/// [`Status::Usage`], with nothing read. With `--messages` the endpoint is a client or a server
/// of messages, and the status that of [`h2_messages::messages_input`].
pub fn cmd_replay<R: Read, W: Write, E: Write>(
    alloc: Global,
    words: &[String],
    input: &mut R,
    out: &mut W,
    err: &mut E,
) -> Status
    ensures { EndsReplay (map string_bytes words.now) (R.remaining input.old)
        (R.remaining input.new) (W.contents out.old) (W.contents out.new) result }
{
    if asks_messages(words) {
        return cmd_messages(alloc, words, input, out, err);
    }
    let options = match replay_args(alloc, words) {
        Ok(options) => options,
        Err(error) => return answer(&error, out, err),
    };
    let shown = replay_input(alloc, options, input, out);
    end_input(shown, "--as client", err)
}
