//! Prints several responses over one connection, one after another.

ghost use Rattle.std.specs.Prelude.{◌≡◌, ◌<◌, ◌-◌, ◌^◌, false, IfErr, IfOk, OnOk, None};
ghost use Rattle.std.specs.Io.KnownBytes.{Appends};
ghost use Rattle.h2_engines.specs.Failures.{failures_at_end};
ghost use Rattle.h2_engines.specs.Linked.{traffic};
ghost use Rattle.h2_args.specs.Words.{asked_by};
ghost use Rattle.h2_get.specs.Receives.{failures_after_pass};
ghost use Rattle.h2_get.specs.Several.{AnswersPartOn, HeadComesOn, PassesBodyOn, StreamsOn};
ghost use Rattle.h2_get.specs.Several.{StreamsSeveral, ends_all, opening_of};

use crate::pass_error::{PassError, Passed, ResponseHead, StreamError};
use crate::receive::{head_in, pass_part};
use crate::response::is_failure;
use crate::stream::{fetched_with, print_head, print_last};
use h2_args::GetOptions;
use h2_engines::Link;
use h2_fetch::{Came, ClientConnection, ResponsePart};
use h2_message::Field;
use h2_net::{Fetched, LinkError};
use std::alloc::{AllocError, Global};
use std::io::Write;

// contract: engines (own) Several responses are printed in the order of their URLs
// rule: engines (own) Several responses are printed in the order of their URLs
/// Prints the responses on these streams: each as [`crate::stream_response`] does, in this order,
/// with a newline between them. The current one is printed as it arrives;
/// what arrives of later ones is kept. A reset stream does not end the others; any other error
/// ends all. Returns the results up to that. Of a response that `--fail` makes a failure, as much
/// of the body as its window allows still arrives. `options` must not name a file.
///
/// # Errors
///
/// [`AllocError`] if out of memory for the results.
pub fn stream_several<L: Link, W: Write>(
    alloc: Global,
    options: &GetOptions<'_>,
    fetch: &mut ClientConnection,
    ids: &[u32],
    link: &mut L,
    out: &mut W,
) -> Result<Vec<Result<Fetched, StreamError>>, AllocError>
    requires faults { L.faults link.old < 2 ^ 64 - 1 }
    requires no_file { (asked_by options.now).output ≡ None }
    ensures { IfOk result (λ results. StreamsSeveral (asked_by options.now) ids.now
        (traffic (L.given link.old) (L.taken link.old) (L.stalled link.old))
        (traffic (L.given link.new) (L.taken link.new) (L.stalled link.new))
        fetch.old fetch.new (W.contents out.old) (W.contents out.new) results.items) }
{
    let mut results = Vec::new(alloc);
    for place in 0..ids.len() {
        let id = ids[place];
        let result = stream_on(alloc, options, place == 0, fetch, id, link, out);
        let is_last = ends_all(&result);
        results.push(result)?;
        if is_last {
            break;
        }
    }
    Ok(results)
}

/// Whether no more responses are printed after this result.
fn ends_all(one: &Result<Fetched, StreamError>) -> bool
    ensures { result ≡ ends_all one.now }
{
    !matches!(one, Ok(_) | Err(StreamError::Link(LinkError::Reset(_))))
}

// rule: engines (own) Several responses are printed in the order of their URLs
/// Prints the response on a stream as it arrives, after a newline unless it is the first.
fn stream_on<L: Link, W: Write>(
    alloc: Global,
    options: &GetOptions<'_>,
    is_first: bool,
    fetch: &mut ClientConnection,
    id: u32,
    link: &mut L,
    out: &mut W,
) -> Result<Fetched, StreamError>
    requires faults { L.faults link.old < 2 ^ 64 - 1 }
    requires no_file { (asked_by options.now).output ≡ None }
    ensures streams { StreamsOn (asked_by options.now) is_first
        (traffic (L.given link.old) (L.taken link.old) (L.stalled link.old))
        (traffic (L.given link.new) (L.taken link.new) (L.stalled link.new))
        fetch.old fetch.new id (W.contents out.old) (W.contents out.new) result }
    ensures failures { ends_all result ≡ false → L.faults link.new ≡ L.faults link.old }
{
    print_opening(is_first, out)?;
    let head = match head_on(fetch, id, link) {
        Ok(head) => head,
        Err(error) => return Err(StreamError::Link(error)),
    };
    let end = head.end;
    let fetched = fetched_with(alloc, head.list);
    print_head(options, &fetched, out)?;
    if is_failure(options, &fetched) || end {
        return Ok(fetched);
    }
    let trailers = match body_on(fetch, id, link, out) {
        Ok(trailers) => trailers,
        Err(PassError::Link(error)) => return Err(StreamError::Link(error)),
        Err(PassError::Output) => return Err(StreamError::Output),
    };
    print_last(options.include, &trailers, out)?;
    Ok(fetched)
}

// rule: engines (own) Several responses are printed in the order of their URLs
/// Prints a newline before a response, unless it is the first.
fn print_opening<W: Write>(is_first: bool, out: &mut W) -> Result<(), StreamError>
    ensures opens { OnOk result (Appends (W.contents out.old) (W.contents out.new)
        (opening_of is_first)) }
    ensures err { IfErr result (λ error. error ≡ StreamError.Output) }
{
    if !is_first && out.write_all(b"\n").is_err() {
        return Err(StreamError::Output);
    }
    Ok(())
}

/// The head of the response on a stream. Interim responses before it are dropped.
fn head_on<L: Link>(
    fetch: &mut ClientConnection,
    id: u32,
    link: &mut L,
) -> Result<ResponseHead, LinkError>
    requires { L.faults link.old < 2 ^ 64 - 1 }
    ensures head { HeadComesOn
        (traffic (L.given link.old) (L.taken link.old) (L.stalled link.old))
        (traffic (L.given link.new) (L.taken link.new) (L.stalled link.new))
        fetch.old fetch.new id result }
    ensures failures { L.faults link.new ≡ failures_at_end (L.faults link.old) result }
{
    for _ in 0..u64::MAX {
        let part = part_on(fetch, id, link)?;
        if let Some(head) = head_in(part) {
            return Ok(head);
        }
    }
    Err(LinkError::NoProgress)
}

/// Writes the octets of the body on a stream as they arrive, until the response is complete, and
/// returns its trailers, if any.
fn body_on<L: Link, W: Write>(
    fetch: &mut ClientConnection,
    id: u32,
    link: &mut L,
    out: &mut W,
) -> Result<Option<Vec<Field>>, PassError>
    requires { L.faults link.old < 2 ^ 64 - 1 }
    ensures passes { PassesBodyOn
        (traffic (L.given link.old) (L.taken link.old) (L.stalled link.old))
        (traffic (L.given link.new) (L.taken link.new) (L.stalled link.new))
        fetch.old fetch.new id (W.contents out.old) (W.contents out.new) result }
    ensures failures { L.faults link.new ≡ failures_after_pass (L.faults link.old) result }
{
    for _ in 0..u64::MAX {
        let part = part_on(fetch, id, link)?;
        match pass_part(part, out)? {
            Passed::Whole(trailers) => return Ok(trailers),
            Passed::GoesOn => {}
        }
    }
    Err(PassError::Link(LinkError::NoProgress))
}

/// Returns the next part of the response on a stream; N6 if the stream was reset.
fn part_on<L: Link>(
    fetch: &mut ClientConnection,
    id: u32,
    link: &mut L,
) -> Result<ResponsePart, LinkError>
    requires { L.faults link.old < 2 ^ 64 - 1 }
    ensures part { AnswersPartOn
        (traffic (L.given link.old) (L.taken link.old) (L.stalled link.old))
        (traffic (L.given link.new) (L.taken link.new) (L.stalled link.new))
        fetch.old fetch.new id result }
    ensures failures { L.faults link.new ≡ failures_at_end (L.faults link.old) result }
{
    match fetch.next_on(id, link)? {
        Came::Part(part) => Ok(part),
        Came::Dropped(code) => Err(LinkError::Reset(code)),
    }
}
