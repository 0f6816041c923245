//! The command `h2 get`.

ghost use Rattle.std.specs.Prelude.{◌≡◌, Ok, Err, false, if◌then◌else◌, is_ok, map, string_bytes};
ghost use Rattle.h2_cli.specs.declared.status.Status.TheVariants.{Device, Fault, Good, Usage};
ghost use Rattle.h2_net.specs.Endings.{status_with, without_hint};
ghost use Rattle.h2_args.specs.Words.{asked_by};
ghost use Rattle.h2_get.specs.Responses.{fails_as_asked};
ghost use Rattle.h2_get.specs.Streams.{without_stream_hint};
ghost use Rattle.h2_tool.specs.Commands.{ReadNoInput};
ghost use Rattle.h2_message.specs.Values.{message_value};
ghost use Rattle.h2_get.specs.Requests.{reads_input};
ghost use Rattle.h2_tool.specs.Gets.{AsksSo, EndsWithFetch, EndsWithStream, GetsOrStreams};
ghost use Rattle.h2_tool.specs.Gets.{RefusesBody, RefusesRequest, RefusesUrl, is_in_parts};
ghost use Rattle.h2_tool.specs.GetsSeveral.{EndsGet};

use crate::get_several::{get_several, has_others};
use crate::program::{answer, give_up};
use crate::show::end_unopened;
use h2_args::{GetOptions, get_args};
use h2_cli::{Failure, Status, hint_at_client, write_hint};
use h2_engines::Message;
use h2_get::{
    BodyFault, Deadline, RequestFault, StreamEnding, StreamError, TimedNet, body_of,
    gather_location, is_failure, location_at, print_asked, request_of, stream_location,
    window_asked, write_failure,
};
use h2_net::{Ending, Fetched, LinkError, Location, TargetFault, WriteParts, report};
use std::alloc::Global;
use std::fs::Files;
use std::io::{self, Read, Write};
use std::net::Net;
use std::time::Clock;

// contract: engines (own) The words of get make its request and say what is printed
// contract: engines (own) get has the window of --window, for the connection and for each stream
// rule: engines (own) The words of get make its request and say what is printed
/// Runs `h2 get` with the words after `get`: fetches a URL, and prints the status with its phrase,
/// with `--include` the fields, and the body, or writes the body to a file. `input` is standard
/// input, read for `--data @-`. Several URLs are fetched at once over one connection, and their
/// responses printed one after another. With `has_progress`, a line on standard error shows the
/// progress of a file; with `--verbose`, standard error has the frames of both sides. A fetch that
/// fails or exceeds `--timeout` prints a line on standard error, and a hint if the cause is known.
///
/// The status is [`Status::Good`] for a complete response, whatever its own status is, and for
/// help; [`Status::Fault`] for a response that `--fail` makes a failure; [`Status::Usage`] for
/// wrong words, a URL that cannot be fetched and a request that breaks a rule; otherwise that of
/// [`h2_net::status_of`]. For several responses it is that of the first that failed.
pub fn cmd_get<N: Net + Files + Clock + Copy, R: Read, W: Write, E: Write>(
    net: &N,
    alloc: Global,
    words: &[String],
    has_progress: bool,
    input: &mut R,
    out: &mut W,
    err: &mut E,
) -> Status
where
    N::Stream: WriteParts,
    ensures ends { EndsGet (map string_bytes words.now) (R.remaining input.old)
        (W.contents out.old) (W.contents out.new) result }
    ensures unread { ReadNoInput (map string_bytes words.now)
        → R.remaining input.new ≡ R.remaining input.old }
{
    let options = match get_args(alloc, words) {
        Ok(options) => options,
        Err(error) => return answer(&error, out, err),
    };
    if window_asked(&options).is_none() {
        return refuse_window(err);
    }
    if has_others(&options) {
        return get_several(net, alloc, &options, input, out, err);
    }
    get_one(net, alloc, &options, has_progress, input, out, err)
}

// rule: engines (own) The words of get make its request and say what is printed
// Fetches the URL of the options, if they name one, and prints the response, as they ask.
fn get_one<N: Net + Files + Clock + Copy, R: Read, W: Write, E: Write>(
    net: &N,
    alloc: Global,
    options: &GetOptions<'_>,
    has_progress: bool,
    input: &mut R,
    out: &mut W,
    err: &mut E,
) -> Status
where
    N::Stream: WriteParts,
    ensures ends { GetsOrStreams (asked_by options.now) (R.remaining input.old)
        (W.contents out.old) (W.contents out.new) result }
    ensures unread { reads_input (asked_by options.now) ≡ false
        → R.remaining input.new ≡ R.remaining input.old }
{
    let location = match location_at(alloc, options.url.as_bytes(), options.port) {
        Ok(location) => location,
        Err(fault) => return refuse_url(fault, options.port, err),
    };
    let body = match body_of(net, alloc, options, input) {
        Ok(body) => body,
        Err(fault) => return refuse_body(fault, options, err),
    };
    let message = match request_of(alloc, options, &location, body) {
        Ok(message) => message,
        Err(fault) => return refuse_request(fault, err),
    };
    ask_in_time(
        net,
        alloc,
        options,
        &location,
        message,
        has_progress,
        out,
        err,
    )
}

// What a fetch needs besides its options.
#[derive(Clone, Copy, Debug)]
struct Limits {
    // Its deadline, if it has one.
    deadline: Option<Deadline>,
    // Whether the progress of a file is shown.
    has_progress: bool,
}

// Makes the request over a network, within the time that the options give.
fn ask_in_time<N: Net + Files + Clock + Copy, W: Write, E: Write>(
    net: &N,
    alloc: Global,
    options: &GetOptions<'_>,
    location: &Location,
    message: Message,
    has_progress: bool,
    out: &mut W,
    err: &mut E,
) -> Status
where
    N::Stream: WriteParts,
    ensures { AsksSo (asked_by options.now) (message_value message) (W.contents out.old)
        (W.contents out.new) result }
{
    match options.timeout {
        None => {
            let limits = Limits {
                deadline: None,
                has_progress,
            };
            ask(
                net, net, alloc, options, location, message, limits, out, err,
            )
        }
        Some(seconds) => {
            let deadline = Deadline::in_seconds(net, seconds);
            let timed = TimedNet::new(*net, deadline);
            let limits = Limits {
                deadline: Some(deadline),
                has_progress,
            };
            ask(
                &timed, net, alloc, options, location, message, limits, out, err,
            )
        }
    }
}

// rule: engines (own) The words of get make its request and say what is printed
// rule: engines (own) get -o and --stream write the body as it comes, in order
// Makes the request over a network and prints the response, as the options ask. Once the
// deadline is over, it is the cause of a device error.
fn ask<N: Net, F: Files + Clock, W: Write, E: Write>(
    net: &N,
    files: &F,
    alloc: Global,
    options: &GetOptions<'_>,
    location: &Location,
    message: Message,
    limits: Limits,
    out: &mut W,
    err: &mut E,
) -> Status
where
    N::Stream: WriteParts,
    ensures { AsksSo (asked_by options.now) (message_value message) (W.contents out.old)
        (W.contents out.new) result }
{
    if is_in_parts(options) {
        let progress = limits.has_progress;
        let got = stream_location(
            net, files, alloc, options, location, message, progress, out, err,
        );
        return end_stream(options, got, is_over(files, limits.deadline), err);
    }
    let got = gather_location(net, alloc, options, location, message);
    let is_late = is_over(files, limits.deadline);
    end_get(options, got, is_late, out, err)
}

// rule: engines (own) The size of --window is a number of octets, with k or m for more
// Prints on standard error that the value of `--window` is not a size, and returns the status.
pub(crate) fn refuse_window<E: Write>(err: &mut E) -> Status
    ensures { result ≡ Usage }
{
    // There is no place left to report that this write fails.
    let _ = writeln!(
        err,
        "error: --window must be 1 to 2147483647 octets, such as 65535, 64k or 4m"
    );
    Status::Usage
}

// Whether there is a deadline, and it is over.
pub(crate) fn is_over<C: Clock>(clock: &C, limit: Option<Deadline>) -> bool {
    match limit {
        Some(deadline) => deadline.is_over(clock),
        None => false,
    }
}

// rule: engines (own) get -o and --stream write the body as it comes, in order
// Whether the body is printed or written as it arrives.
fn is_in_parts(options: &GetOptions<'_>) -> bool
    ensures { result ≡ is_in_parts (asked_by options.now) }
{
    options.stream || options.verbose || options.output.is_some()
}

// rule: engines (own) N1 to N7 end a command with their statuses
// Prints the response, or on standard error how the fetch ended early.
fn end_get<W: Write, E: Write>(
    options: &GetOptions<'_>,
    got: Result<Fetched, Ending>,
    is_late: bool,
    out: &mut W,
    err: &mut E,
) -> Status
    ensures { EndsWithFetch (asked_by options.now) (without_hint got) (W.contents out.old)
        (W.contents out.new) result }
{
    match got {
        Ok(fetched) => end_fetched(options, &fetched, out, err),
        Err(ending) => report_fetch(ending, is_late, err),
    }
}

// rule: engines (own) N1 to N7 end a command with their statuses
// rule (tested): engines (own) A hint names --port, and says that fields are too many
// Prints on standard error how a fetch ended early, with a hint: for N6 the name of its code,
// for N1 that the time is over, if it is, for N7 that the fields are too many, the only reason
// left for a request that breaks no rule.
fn report_fetch<E: Write>(ending: Ending, is_late: bool, err: &mut E) -> Status
    ensures { result ≡ status_with ending.error }
{
    let Ending { error, hint, why } = ending;
    let hint = match error {
        LinkError::Device if is_late => None,
        _ => hint,
    };
    let status = report(Ending { error, hint, why }, err);
    // The status is that of the error, whether or not these writes fail.
    let _ = match error {
        LinkError::Device if is_late => writeln!(err, "hint: timed out"),
        LinkError::Refused => writeln!(err, "hint: the header fields of the request are too large"),
        LinkError::Reset(code) => write_hint(hint_at_client(code, &[]), err),
        _ => Ok(()),
    };
    status
}

// rule: engines (own) With --fail a status of 400 or above ends get with status 1
// Prints the response, and on standard error that it is a failure, if it is.
fn end_fetched<W: Write, E: Write>(
    options: &GetOptions<'_>,
    fetched: &Fetched,
    out: &mut W,
    err: &mut E,
) -> Status
    ensures { EndsWithFetch (asked_by options.now) (Ok fetched.now) (W.contents out.old)
        (W.contents out.new) result }
{
    if let Err(error) = print_asked(options, fetched, out) {
        return report(
            Ending {
                error,
                hint: None,
                why: None,
            },
            err,
        );
    }
    end_response(options, fetched, err)
}

// rule: engines (own) get -o and --stream write the body as it comes, in order
// rule: engines (own) N1 to N7 end a command with their statuses
// Prints on standard error that a response printed as it arrived is a failure, or how it ended
// early.
pub(crate) fn end_stream<E: Write>(
    options: &GetOptions<'_>,
    got: Result<Fetched, StreamEnding>,
    is_late: bool,
    err: &mut E,
) -> Status
    ensures { EndsWithStream (asked_by options.now) (without_stream_hint got) result }
{
    match got {
        Ok(fetched) => end_response(options, &fetched, err),
        Err(ending) => end_unstreamed(options, ending, is_late, err),
    }
}

// rule: engines (own) N1 to N7 end a command with their statuses
// Prints on standard error why a response was not printed completely.
pub(crate) fn end_unstreamed<E: Write>(
    options: &GetOptions<'_>,
    ending: StreamEnding,
    is_late: bool,
    err: &mut E,
) -> Status
    ensures { EndsWithStream (asked_by options.now) (Err ending.error) result }
{
    let StreamEnding { error, hint, why } = ending;
    match error {
        StreamError::Link(error) => report_fetch(Ending { error, hint, why }, is_late, err),
        StreamError::Output => give_up(Failure::Device, err),
        StreamError::File => refuse_file(options.output.unwrap_or(""), err),
    }
}

// Prints on standard error that a file cannot be written.
fn refuse_file<E: Write>(path: &str, err: &mut E) -> Status
    ensures { result ≡ Device }
{
    // There is no place left to report that this write fails.
    let _ = writeln!(err, "N1 Device\nhint: file {path} cannot be written");
    Status::Device
}

// rule: engines (own) With --fail a status of 400 or above ends get with status 1
// The status of a response that was printed; prints on standard error that it is a failure, if
// it is.
fn end_response<E: Write>(options: &GetOptions<'_>, fetched: &Fetched, err: &mut E) -> Status
    ensures { result ≡ (if fails_as_asked (asked_by options.now) fetched.now then Fault else Good) }
{
    if is_failure(options, fetched) {
        // The status is that of the response, whether or not this write fails.
        let _ = write_failure(fetched, err);
        return Status::Fault;
    }
    Status::Good
}

// rule (tested): engines (own) A hint names --port, and says that fields are too many
// Prints on standard error why a URL cannot be fetched, and names `--port` if there is no port.
pub(crate) fn refuse_url<E: Write>(fault: TargetFault, port: Option<u16>, err: &mut E) -> Status
    ensures { RefusesUrl fault result }
{
    if fault == TargetFault::Memory {
        return give_up(Failure::Memory, err);
    }
    if fault == TargetFault::NoPort && port.is_none() {
        let hint = "hint: --port N gives the port of a URL without one";
        return status_after(writeln!(err, "error: {fault}\n{hint}"));
    }
    status_after(writeln!(err, "error: {fault}"))
}

// rule: engines (own) The words of get make its request and say what is printed
// Prints on standard error that the body cannot be read, and of which file.
pub(crate) fn refuse_body<E: Write>(
    fault: BodyFault,
    options: &GetOptions<'_>,
    err: &mut E,
) -> Status
    ensures { RefusesBody fault result }
{
    match fault {
        BodyFault::Memory => give_up(Failure::Memory, err),
        BodyFault::Input => give_up(Failure::Device, err),
        BodyFault::File(kind) => {
            let word = options.body.unwrap_or("");
            let path = word.strip_prefix('@').unwrap_or("");
            end_unopened(path, &io::Error::from(kind), err)
        }
    }
}

// Prints on standard error why no request can be made, with the rule that it would break.
pub(crate) fn refuse_request<E: Write>(fault: RequestFault, err: &mut E) -> Status
    ensures { RefusesRequest fault result }
{
    match fault {
        RequestFault::Memory => give_up(Failure::Memory, err),
        RequestFault::Malformed(rule) => status_after(writeln!(err, "{fault}\nhint: {rule}")),
        _ => status_after(writeln!(err, "{fault}")),
    }
}

// The status after invalid words were reported, or if that failed.
pub(crate) fn status_after(printed: io::Result<()>) -> Status
    ensures { result ≡ (if is_ok printed then Usage else Device) }
{
    match printed {
        Ok(()) => Status::Usage,
        Err(_) => Status::Device,
    }
}
