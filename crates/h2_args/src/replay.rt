//! The options of `replay`.

ghost use Rattle.std.specs.Prelude.{◌≡◌, IfErr, IfOk, false, map, string_bytes};
ghost use Rattle.clap.specs.Words.{app_of, found_of, rows_of, rule_of};
ghost use Rattle.h2_args.specs.Commands.{IsReplayCommand, messages_rule};
ghost use Rattle.h2_args.specs.Words.{ReplayWordsFail, ReplayWordsGive, asks_messages};
ghost use Rattle.h2_args.specs.Words.{replay_options_in};

use crate::options::{
    CommandText, HEX, has_word, hex_arg, is_named, is_set, named_command, side_arg,
};
use clap::{Arg, ArgAction, ArgMatches, Command, Error};
use h2_events::{ReplayOptions, Role};
use std::alloc::{AllocError, Global};

// contract: replay (own) The words of replay choose the end and hexadecimal
// rule: replay (own) The words of replay choose the end and hexadecimal
/// Reads the words after `replay`.
///
/// # Errors
///
/// Those of [`crate::show_args`].
pub fn replay_args(alloc: Global, words: &[String]) -> Result<ReplayOptions, Error>
    ensures ok { IfOk result (ReplayWordsGive (map string_bytes words.now)) }
    ensures err { IfErr result (ReplayWordsFail (map string_bytes words.now)) }
{
    let command = replay_command(alloc)?;
    let matches = command.try_get_matches_from(words)?;
    Ok(options_of(&matches))
}

// contract: messages (own) The word --messages has the rules of messages checked
// rule: messages (own) The word --messages has the rules of messages checked
/// Whether one of the words after `replay` is `--messages`.
pub fn asks_messages(words: &[String]) -> bool
    ensures { result ≡ asks_messages (map string_bytes words.now) }
{
    has_word(words, "--messages")
}

// The options that the matches of `replay` give.
fn options_of(matches: &ArgMatches<'_>) -> ReplayOptions
    ensures { result ≡ replay_options_in (rows_of (found_of matches.now)) }
{
    let role = if is_named(matches, AS, "client") {
        Role::Client
    } else {
        Role::Server
    };
    ReplayOptions {
        hex: is_set(matches, HEX),
        role,
    }
}

const AS: &str = "as";

const MESSAGES: &str = "messages";

const MESSAGES_HELP: &str = "Also check the rules of messages (RFC 9113, section 8)";

// The flag as clap has it.
fn messages_arg<'a>(alloc: Global) -> Arg<'a>
    ensures rule { rule_of result ≡ messages_rule }
    ensures local { result.global ≡ false }
{
    Arg::new(alloc, MESSAGES)
        .long(MESSAGES)
        .action(ArgAction::SetTrue)
        .help(MESSAGES_HELP)
}

/// The lines that `replay` prints, how it ends, how octets are had, and an example.
const EVENTS_AND_STATUSES: &str =
    r"The input is fed to one endpoint of a new connection. The endpoint has the
default settings and makes no calls of its own: it answers no request, opens no
stream and releases no octets. So a request beyond 100 open ones is reset with
code 7, more than 65535 octets of bodies on open streams are a fault, and with
--as client any response is a fault. A stream stays open until it is reset.

Each event is printed on one line:
  fields ID          a field block was received on stream ID; `end` after it, as
                     after `data`, means that the peer ended the stream
    name: value      a header field, printed as by `h2 show`
  data ID octets=N flow=M
                     N octets of a body, which used M octets of the flow-control
                     windows
  reset ID code=N ours
                     this endpoint reset the stream, for a stream error or
                     because of a limit of its own; `theirs`: the peer reset it
  goaway last=N code=M
                     the peer processes no streams above N
  unprocessed ID, pong OCTETS
                     about streams and PINGs of this endpoint's own; they do not
                     occur here
  acked              the peer acknowledged the settings of this endpoint
Then, once the input has ended or the connection has failed:
  fault CODE         the connection failed with this code (RFC 9113, section 7)
  out OCTETS         everything that this endpoint sends, in hexadecimal: its
                     connection preface and its replies

The rules of messages (RFC 9113, section 8) are checked only with --messages:
they are M1 to M12 of docs/PROTOCOL.md. CONNECT is not supported, and breaks M6
or M7. Not checked are the value of :scheme, a user in host or :authority, and
whether those two agree. If a part of a message breaks a rule, the endpoint
resets its stream. In place of the part, this line is printed, before that of
the reset:
  malformed ID RULE  the number and name of the first rule that the part breaks,
                     such as `M10 ConnectionField` (docs/PROTOCOL.md)
A malformed message is not a fault, so the exit status stays 0. At most 1000
streams are reset: for the next one a fault is printed in place of its reset (a
line `malformed`, if it has one, comes first). With --messages a hint gives the
reason for a fault, unless there is another hint.

Exit status (lines in backquotes go to standard error):
  0  the connection has not failed, wherever the input ends
  1  a fault
  2  invalid arguments
     `bad hex`: the input is not hexadecimal text, and none of it is used
  3  `N1 Device`: a read or a write failed
  4  `N3 Memory`: out of memory

A hint may follow on standard error. It is meant for people; the exit status
does not depend on it.

The input is octets, not a capture or a socket. To record what a client sends
first:
  $ nc -l 127.0.0.1 9002 > client.octets &
  $ curl --http2-prior-knowledge --max-time 1 http://127.0.0.1:9002/
  $ h2 replay < client.octets
`tcpflow -r FILE` writes each direction of a capture to a file.

Example (the last line is shortened):
  $ echo 000000 04 00 00000000 000008 07 00 00000000 00000003 00000000 |
      h2 replay --hex --as client
  goaway last=3 code=0
  out 505249202a20485454502f322e300d0a0d0a534d0d0a0d0a000018040000000000";

const AS_HELP: &str = r"Endpoint that receives the input: server (the input begins
with the preface) or client [default: server]";

/// The command as clap has it.
pub(super) fn replay_command<'a>(alloc: Global) -> Result<Command<'a>, AllocError>
    ensures { IfOk result (λ command. IsReplayCommand (app_of command)) }
{
    let text = CommandText {
        called: "h2 replay",
        about: "Feed input to one endpoint and print its events",
        usage: "h2 replay [OPTIONS] < FILE",
        more: EVENTS_AND_STATUSES,
    };
    named_command(alloc, "replay", text)?
        .arg(hex_arg(alloc))?
        .arg(side_arg(alloc, AS, "server", AS_HELP))?
        .arg(messages_arg(alloc))
}
