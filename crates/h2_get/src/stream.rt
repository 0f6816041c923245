//! Fetches a response, and prints it as it arrives.

ghost use Rattle.std.specs.Prelude.{◌≡◌, ◌<◌, ◌-◌, ◌^◌, ℕ, List, [], IfErr, None, OnOk, Option, is_some};
ghost use Rattle.std.specs.Io.KnownBytes.{Appends};
ghost use Rattle.h2_engines.specs.Linked.{traffic};
ghost use Rattle.h2_args.specs.Words.{asked_by};
ghost use Rattle.h2_get.specs.Receives.{PassesBody, fields_in_trailers, trailers_by};
ghost use Rattle.h2_get.specs.Responses.{trailers_shown};
ghost use Rattle.h2_get.specs.Streams.{PrintsHead, ShowsRest, StreamsResponse};

use crate::counted::{Counted, Progress};
use crate::pass_error::{LastPart, PassError, StreamError};
use crate::receive::{next_head, pass_all, pass_body};
use crate::response::{is_failure, print_asked, print_trailers};
use h2_args::GetOptions;
use h2_engines::Link;
use h2_fetch::PartFetch;
use h2_message::Field;
use h2_net::Fetched;
use std::alloc::Global;
use std::fs::{File, Files};
use std::io::Write;
use std::time::Clock;

// contract: engines (own) get -o and --stream write the body as it comes, in order
// rule: engines (own) get -o and --stream write the body as it comes, in order
/// Prints the response of a fetch as it arrives: the line of its status, with `--include` its
/// fields, and the body, with `--output` into a file. The file is created once the head has
/// arrived. If `--fail` makes the response a failure, nothing follows its fields, no file is
/// created, and no more of it is fetched. With `has_progress`, a line on `err` shows how much of
/// a file has arrived. Returns the head, without the body.
///
/// # Errors
///
/// [`StreamError`] says why it was not printed completely. What arrived before a fetch ended
/// early was printed, or is in the file.
pub fn stream_response<F: Files + Clock, L: Link, W: Write, E: Write>(
    files: &F,
    alloc: Global,
    options: &GetOptions<'_>,
    fetch: &mut PartFetch,
    link: &mut L,
    has_progress: bool,
    out: &mut W,
    err: &mut E,
) -> Result<Fetched, StreamError>
    requires { L.faults link.old < 2 ^ 64 - 1 }
    ensures { StreamsResponse (asked_by options.now)
        (traffic (L.given link.old) (L.taken link.old) (L.stalled link.old))
        (traffic (L.given link.new) (L.taken link.new) (L.stalled link.new))
        fetch.old fetch.new (W.contents out.old) (W.contents out.new) result }
{
    let head = match next_head(fetch, link) {
        Ok(head) => head,
        Err(error) => return Err(StreamError::Link(error)),
    };
    let end = head.end;
    let fetched = fetched_with(alloc, head.list);
    print_head(options, &fetched, out)?;
    if is_failure(options, &fetched) {
        return Ok(fetched);
    }
    let progress = Progress::new(has_progress, &fetched.head);
    let trailers = show_rest(files, options, end, fetch, link, progress, out, err)?;
    print_last(options.include, &trailers, out)?;
    Ok(fetched)
}

/// A response with this head and nothing else.
pub(crate) fn fetched_with(alloc: Global, head: Vec<Field>) -> Fetched
    ensures head { result.head ≡ head }
    ensures body { result.body.items ≡ [] }
    ensures trailers { result.trailers ≡ None }
{
    Fetched {
        interims: Vec::new(alloc),
        head,
        body: Vec::new(alloc),
        trailers: None,
    }
}

/// Prints the head of a response.
pub(crate) fn print_head<W: Write>(
    options: &GetOptions<'_>,
    fetched: &Fetched,
    out: &mut W,
) -> Result<(), StreamError>
    requires body { fetched.now.body.items ≡ [] }
    requires trailers { fetched.now.trailers ≡ None }
    ensures head { OnOk result (PrintsHead (asked_by options.now) (W.contents out.old)
        (W.contents out.new) fetched.now.head.items) }
    ensures err { IfErr result (λ error. error ≡ StreamError.Output) }
{
    match print_asked(options, fetched, out) {
        Ok(()) => Ok(()),
        Err(_) => Err(StreamError::Output),
    }
}

/// Prints the trailers after a body, if there are any and the options ask for fields.
pub(crate) fn print_last<W: Write>(
    include: bool,
    trailers: &Option<Vec<Field>>,
    out: &mut W,
) -> Result<(), StreamError>
    ensures trailers { OnOk result (Appends (W.contents out.old) (W.contents out.new)
        (trailers_shown include (fields_in_trailers trailers.now))) }
    ensures err { IfErr result (λ error. error ≡ StreamError.Output) }
{
    match print_trailers(include, trailers, out) {
        Ok(()) => Ok(()),
        Err(_) => Err(StreamError::Output),
    }
}

// rule: engines (own) get -o and --stream write the body as it comes, in order
/// Passes the body on to the file that the options name, created or truncated, or else to `out`.
/// Returns the trailers.
fn show_rest<F: Files + Clock, L: Link, W: Write, E: Write>(
    files: &F,
    options: &GetOptions<'_>,
    is_whole: bool,
    fetch: &mut PartFetch,
    link: &mut L,
    progress: Progress,
    out: &mut W,
    err: &mut E,
) -> Result<Option<Vec<Field>>, StreamError>
    requires { L.faults link.old < 2 ^ 64 - 1 }
    ensures rest { ShowsRest (is_some (asked_by options.now).output) is_whole
        (traffic (L.given link.old) (L.taken link.old) (L.stalled link.old))
        (traffic (L.given link.new) (L.taken link.new) (L.stalled link.new))
        fetch.old fetch.new (W.contents out.old) (W.contents out.new) result }
    ensures stream { fetch.new.id ≡ fetch.old.id }
{
    let Some(path) = options.output else {
        if is_whole {
            return Ok(None);
        }
        return match pass_body(fetch, link, out) {
            Ok(trailers) => Ok(trailers),
            Err(PassError::Link(error)) => Err(StreamError::Link(error)),
            Err(PassError::Output) => Err(StreamError::Output),
        };
    };
    let Ok(mut file) = File::create(files, path) else {
        return Err(StreamError::File);
    };
    if is_whole {
        return Ok(None);
    }
    match pass_counted(fetch, link, &mut file, files, progress, err) {
        Ok(last) => Ok(last.trailers),
        Err(PassError::Link(error)) => Err(StreamError::Link(error)),
        Err(PassError::Output) => Err(StreamError::File),
    }
}

// rule: engines (own) get -o and --stream write the body as it comes, in order
/// Passes the body on to a file, and shows its progress if that is asked for. Returns the trailers.
fn pass_counted<L: Link, S: Write, C: Clock, E: Write>(
    fetch: &mut PartFetch,
    link: &mut L,
    file: &mut S,
    clock: &C,
    progress: Progress,
    err: &mut E,
) -> Result<LastPart, PassError>
    requires { L.faults link.old < 2 ^ 64 - 1 }
    ensures passes { (written written_now : Option (List ℕ)) × PassesBody
        (traffic (L.given link.old) (L.taken link.old) (L.stalled link.old))
        (traffic (L.given link.new) (L.taken link.new) (L.stalled link.new))
        fetch.old fetch.new written written_now (trailers_by result) }
    ensures stream { fetch.new.id ≡ fetch.old.id }
{
    let mut counted = Counted::new(file, clock, progress, err);
    let passed = pass_all(fetch, link, &mut counted);
    counted.end();
    passed
}
