//! A response that is passed on as it arrives.

ghost use Rattle.std.specs.Prelude.{◌≡◌, ◌≤◌, ◌<◌, ◌-◌, ◌^◌, IfErr, length, take, true, ℕ};
ghost use Rattle.std.specs.Io.KnownBytes.{Appends};
ghost use Rattle.h2_engines.specs.Failures.{CutsOffAtEnd, failures_at_end};
ghost use Rattle.h2_engines.specs.Linked.{traffic};
ghost use Rattle.h2_get.specs.Receives.{HeadComes, PassesBody, PassesPart, failures_after_pass};
ghost use Rattle.h2_get.specs.Receives.{HandsBody, fields_in_trailers, head_in, trailers_by};
ghost use Rattle.h2_spec_log.specs.Acts.{Values};
ghost use Rattle.h2_ends.specs.declared.end.End.{End};
ghost use Rattle.h2_ends.specs.Ends.{EndLog};
ghost use Rattle.h2_ends.specs.Represents.{EndRepresents};

use crate::pass_error::{LastPart, PassError, Passed, ResponseHead};
use h2_engines::Link;
use h2_fetch::{PartFetch, ResponsePart};
use h2_link::write_some;
use h2_message::Field;
use h2_net::LinkError;
use std::io::Write;

// contract: engines (own) get -o and --stream write the body as it comes, in order
// rule: engines (own) get -o and --stream write the body as it comes, in order
/// Returns the head of the response. Interim responses before it are dropped.
///
/// # Errors
///
/// Those of [`PartFetch::next`].
pub fn next_head<L: Link>(fetch: &mut PartFetch, link: &mut L) -> Result<ResponseHead, LinkError>
    requires { L.faults link.old < 2 ^ 64 - 1 }
    ensures head { HeadComes
        (traffic (L.given link.old) (L.taken link.old) (L.stalled link.old))
        (traffic (L.given link.new) (L.taken link.new) (L.stalled link.new))
        fetch.old fetch.new result }
    ensures cut_off { CutsOffAtEnd result (L.ended link.new) }
    ensures failures { L.faults link.new ≡ failures_at_end (L.faults link.old) result }
    ensures stream { fetch.new.id ≡ fetch.old.id }
{
    for _ in 0..u64::MAX {
        let part = fetch.next(link)?;
        if let Some(head) = head_in(part) {
            return Ok(head);
        }
    }
    Err(LinkError::NoProgress)
}

/// The head, if this part is one and not interim.
pub(crate) fn head_in(part: ResponsePart) -> Option<ResponseHead>
    ensures { result ≡ head_in part }
{
    match part {
        ResponsePart::Head { list, end } => Some(ResponseHead { list, end }),
        _ => None,
    }
}

// contract: engines (own) get -o and --stream write the body as it comes, in order
// rule: engines (own) get -o and --stream write the body as it comes, in order
/// Writes the octets of the body to `out` as they arrive, until the response is complete, and
/// returns its trailers, if any. Each part is written before its credit is returned to the server.
///
/// # Errors
///
/// [`PassError::Link`] if the fetch ended early, after everything received was written;
/// [`PassError::Output`] if a write failed, after which a prefix was written.
pub fn pass_body<L: Link, W: Write>(
    fetch: &mut PartFetch,
    link: &mut L,
    out: &mut W,
) -> Result<Option<Vec<Field>>, PassError>
    requires { L.faults link.old < 2 ^ 64 - 1 }
    ensures passes { PassesBody
        (traffic (L.given link.old) (L.taken link.old) (L.stalled link.old))
        (traffic (L.given link.new) (L.taken link.new) (L.stalled link.new))
        fetch.old fetch.new (W.contents out.old) (W.contents out.new) result }
    ensures cut_off { IfErr result (λ error. error ≡ PassError.Link LinkError.CutOff
        → L.ended link.new ≡ true) }
    ensures failures { L.faults link.new ≡ failures_after_pass (L.faults link.old) result }
    ensures stream { fetch.new.id ≡ fetch.old.id }
{
    let last = pass_all(fetch, link, out)?;
    Ok(last.trailers)
}

/// As [`pass_body`].
pub(crate) fn pass_all<L: Link, W: Write>(
    fetch: &mut PartFetch,
    link: &mut L,
    out: &mut W,
) -> Result<LastPart, PassError>
    requires { L.faults link.old < 2 ^ 64 - 1 }
    ensures passes { PassesBody
        (traffic (L.given link.old) (L.taken link.old) (L.stalled link.old))
        (traffic (L.given link.new) (L.taken link.new) (L.stalled link.new))
        fetch.old fetch.new (W.contents out.old) (W.contents out.new) (trailers_by result) }
    ensures cut_off { IfErr result (λ error. error ≡ PassError.Link LinkError.CutOff
        → L.ended link.new ≡ true) }
    ensures failures { L.faults link.new
        ≡ failures_after_pass (L.faults link.old) (trailers_by result) }
    ensures stream { fetch.new.id ≡ fetch.old.id }
{
    for _ in 0..u64::MAX {
        let part = fetch.next(link)?;
        match pass_part(part, out)? {
            Passed::Whole(trailers) => return Ok(LastPart { trailers }),
            Passed::GoesOn => {}
        }
    }
    Err(PassError::Link(LinkError::NoProgress))
}

// rule: engines (own) get -o and --stream write the body as it comes, in order
/// Writes the octets of a part, if it is one of the body, and returns whether it completes the
/// response, and then the trailers.
pub(crate) fn pass_part<W: Write>(part: ResponsePart, out: &mut W) -> Result<Passed, PassError>
    ensures { PassesPart part (W.contents out.old) (W.contents out.new) result }
{
    match part {
        ResponsePart::Body { octets, end } => {
            let count = write_first(out, &octets);
            if count < octets.len() {
                return Err(PassError::Output);
            }
            if end {
                return Ok(Passed::Whole(None));
            }
            Ok(Passed::GoesOn)
        }
        ResponsePart::Trailers { list } => Ok(Passed::Whole(Some(list))),
        ResponsePart::Interim { .. } | ResponsePart::Head { .. } => Ok(Passed::GoesOn),
    }
}

/// Writes octets until all are written, or a write fails or accepts none. Returns how many were
/// written.
fn write_first<W: Write>(out: &mut W, octets: &[u8]) -> usize
    ensures within { result ≤ length octets.now }
    ensures written { Appends (W.contents out.old) (W.contents out.new) (take result octets.now) }
{
    let mut written = 0;
    while written < octets.len() {
        match write_some(out, &octets[written..]) {
            Ok(0) | Err(_) => return written,
            Ok(count) => written += count,
        }
    }
    written
}

// contract: engines (own) get -o and --stream write the body as it comes, in order
/// The octets of a body that [`pass_body`] writes are a prefix of the octets of DATA that the
/// connection reported on that stream.
pub fn bodies_are_in_order()
    ensures { (values : Values) (end : End) (happened : EndLog)
        → EndRepresents values end happened → (id : ℕ) → HandsBody happened id }
{}
