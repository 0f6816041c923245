//! What is recorded of an exchange for its line in the log.

ghost use Rattle.std.specs.Prelude.{◌≡◌, ◌<◌, IfOk, IfSome};
ghost use Rattle.h2_hosting.specs.Noting.{digit_of, noted_of, three_digits, octets_after};
ghost use Rattle.h2_hosting.specs.Noting.{octets_with_part, octets_at_once};
ghost use Rattle.h2_hosting.specs.Noting.{status_after, status_in, head_status, status_of_digits};

use h2_server::{Field, HandlerFault, Part, Reply};
use std::alloc::{AllocError, Global};

/// The maximum number of octets logged of a method, and of a path.
const MOST_NOTED: usize = 1_024;

/// The octets logged of a method or a path; none if there is no log.
pub(crate) fn noted(alloc: Global, octets: &[u8], is_noted: bool) -> Result<Vec<u8>, AllocError>
    ensures { IfOk result (λ noted. noted.items ≡ noted_of is_noted octets.now) }
{
    if !is_noted {
        return Ok(Vec::new(alloc));
    }
    let most = MOST_NOTED.min(octets.len());
    Vec::from_slice(alloc, &octets[..most])
}

// contract: hosts (own) Of each request the log has what its handler gave
// rule: hosts (own) Of each request the log has what its handler gave
/// The status logged after a reply.
pub(crate) fn status_after(status: Option<u16>, reply: &Result<Reply, HandlerFault>) -> Option<u16>
    ensures { result ≡ status_after status reply.now }
{
    match reply {
        Ok(reply) => match status_in(reply) {
            Some(given) => Some(given),
            None => status,
        },
        Err(_) => match status {
            Some(given) => Some(given),
            None => Some(500),
        },
    }
}

/// The number of octets logged after a reply.
pub(crate) fn octets_after(octets: u64, reply: &Result<Reply, HandlerFault>) -> u64
    ensures { result ≡ octets_after octets reply.now }
{
    match reply {
        Ok(reply) => octets.saturating_add(octets_at_once(reply)),
        Err(_) => octets,
    }
}

// contract: hosts (own) Of each request the log has what its handler gave
// rule: hosts (own) Of each request the log has what its handler gave
/// The number of octets logged after a part of a response.
pub(crate) fn octets_with_part(octets: u64, part: &Result<Part, HandlerFault>) -> u64
    ensures { result ≡ octets_with_part octets part.now }
{
    match part {
        Ok(Part::Octets(count) | Part::Last(count)) => octets.saturating_add(*count as u64),
        _ => octets,
    }
}

/// The status of a reply.
pub(crate) fn status_in(reply: &Reply) -> Option<u16>
    ensures { result ≡ status_in reply.now }
{
    match reply {
        Reply::Whole(message) | Reply::Refuse(message) => head_status(&message.head),
        Reply::Parts(head) => head_status(head),
        Reply::Later | Reply::Deferred | Reply::Reset(_) => None,
    }
}

/// The length of the body in a reply.
pub(crate) fn octets_at_once(reply: &Reply) -> u64
    ensures { result ≡ octets_at_once reply.now }
{
    match reply {
        Reply::Whole(message) | Reply::Refuse(message) => message.body.len() as u64,
        _ => 0,
    }
}

/// The status of a head, which is its first field.
fn head_status(head: &[Field]) -> Option<u16>
    ensures { result ≡ head_status head.now }
{
    match head {
        [field, ..] => status_of_digits(field.value.as_slice()),
        [] => None,
    }
}

/// The number that three digits represent.
fn status_of_digits(octets: &[u8]) -> Option<u16>
    ensures { result ≡ status_of_digits octets.now }
{
    match octets {
        [hundreds, tens, ones] => three_digits(*hundreds, *tens, *ones),
        _ => None,
    }
}

/// The number that these three octets represent, if they are digits.
fn three_digits(hundreds: u8, tens: u8, ones: u8) -> Option<u16>
    ensures { result ≡ three_digits hundreds tens ones }
{
    let hundreds = digit_of(hundreds)?;
    let tens = digit_of(tens)?;
    let ones = digit_of(ones)?;
    Some(hundreds * 100 + tens * 10 + ones)
}

/// The value of a digit.
fn digit_of(octet: u8) -> Option<u16>
    ensures value { result ≡ digit_of octet }
    ensures small { IfSome result (λ digit. digit < 10) }
{
    if octet >= 48 && octet <= 57 {
        Some(u16::from(octet - 48))
    } else {
        None
    }
}
