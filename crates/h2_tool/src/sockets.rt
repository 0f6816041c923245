//! The commands `h2 serve` and `h2 loop`.

ghost use Rattle.std.specs.Prelude.{◌≡◌, MatchResult, map, string_bytes};
ghost use Rattle.h2_cli.specs.declared.status.Status.TheVariants.{Good};
ghost use Rattle.h2_net.specs.Endings.{status_with};
ghost use Rattle.h2_tool.specs.Commands.{EndsServe, EndsLoop};

use crate::program::answer;
use crate::rates::{micros_since, write_rates};
use h2_args::{LoopOptions, loop_args, serve_args};
use h2_cli::Status;
use h2_net::{Ending, LinkError, WriteParts, exchange, print_exchange, report, serve_port};
use std::alloc::Global;
use std::io::Write;
use std::net::Net;
use std::time::{Clock, Instant};

// rule: engines (own) serve, get and loop have their words
/// Runs `h2 serve` with the words after `serve`: serves the given number of connections to a port
/// on 127.0.0.1, one after another, and echoes each request. A connection that ends early has a
/// line on standard error, and a hint if the cause is known. Standard output gets help only.
///
/// The status is that of [`serve_port`]; for help it is [`Status::Good`], and for wrong words
/// [`Status::Usage`].
pub fn cmd_serve<N: Net, W: Write, E: Write>(
    net: &N,
    alloc: Global,
    words: &[String],
    out: &mut W,
    err: &mut E,
) -> Status
where
    N::Stream: WriteParts,
    ensures { EndsServe (map string_bytes words.now) (W.contents out.old) (W.contents out.new)
        result }
{
    match serve_args(alloc, words) {
        Ok(options) => serve_port(net, alloc, options.port, options.count, err),
        Err(error) => answer(&error, out, err),
    }
}

/// Runs `h2 loop` with the words after `loop`: posts octets from a client to a server, both in
/// this process, over one TCP connection, and prints how many were sent and received. With
/// `--each-way` it prints the megabytes each way and the seconds taken on standard error, if the
/// clock can be read.
///
/// The status is [`Status::Good`] for a complete response and for help, [`Status::Usage`] for
/// wrong words, and otherwise that of [`h2_net::status_of`].
pub fn cmd_loop<N: Net + Clock, W: Write, E: Write>(
    net: &N,
    alloc: Global,
    words: &[String],
    out: &mut W,
    err: &mut E,
) -> Status
where
    N::Stream: WriteParts,
    ensures { EndsLoop (map string_bytes words.now) (W.contents out.old) (W.contents out.new)
        result }
{
    let options = match loop_args(alloc, words) {
        Ok(options) => options,
        Err(error) => return answer(&error, out, err),
    };
    let start = Instant::now(net);
    match exchange(net, alloc, options.count) {
        Ok(fetched) => {
            let micros = micros_since(net, start);
            let printed = print_exchange(options.count, &fetched, out);
            print_rates(options, fetched.body.len(), micros, err);
            status_of_end(printed, err)
        }
        Err(error) => report(
            Ending {
                error,
                hint: None,
                why: None,
            },
            err,
        ),
    }
}

// Prints on standard error the megabytes each way, if asked for.
fn print_rates<E: Write>(options: LoopOptions, got: usize, micros: Option<u64>, err: &mut E) {
    if let (true, Some(micros)) = (options.each_way, micros) {
        // The status is that of the response, whether or not this write fails.
        let _ = write_rates(u64::from(options.count), got as u64, micros, err);
    }
}

// Prints on standard error how a connection ended, if it ended early.
fn status_of_end<E: Write>(ended: Result<(), LinkError>, err: &mut E) -> Status
    ensures { MatchResult ended (λ done. result ≡ Good) (λ error. result ≡ status_with error) }
{
    match ended {
        Ok(()) => Status::Good,
        Err(error) => report(
            Ending {
                error,
                hint: None,
                why: None,
            },
            err,
        ),
    }
}
