//! Messages that are sent in parts: the head, the body as it comes, and the trailers.

ghost use Rattle.std.specs.Prelude.{◌≡◌, IfOk, IfErr, OnOk, None, Some, true, false, List};
ghost use Rattle.hpack.specs.declared.types.field.Field.{Field};
ghost use Rattle.h2_message.specs.declared.kind.Kind.TheVariants.{Response};
ghost use Rattle.h2_message.specs.declared.reading.Reads.TheVariants.{Requests, Responses};
ghost use Rattle.h2_message.specs.Fields.{has_bad_length};
ghost use Rattle.h2_message.specs.Lengths.{length_to_send, breaks_length, length_after};
ghost use Rattle.h2_message.specs.Lengths.{broken_by_head, broken_by_trailers};
ghost use Rattle.h2_message.specs.Scans.{IsScan};

use crate::kind::Kind;
use crate::malformed::Malformed;
use crate::scan::{Scan, scan_fields};
use hpack::Field;

/// The length that the rest of a body sent in parts must have (RFC 9113, section 8.1.1): 0 in a
/// response to HEAD or with the status 204 or 304; otherwise what is left of the `content-length`,
/// or any length if the head has none.
#[derive(Clone, Copy, Debug, PartialEq, Eq)]
pub struct BodyLength {
    /// The number of octets; `None` for any number.
    pub(crate) left: Option<u64>,
}

// contract: 8.1.1 (own) A message to be sent is refused for the least of M1 to M11 it breaks
/// Checks the head of a request whose body is sent later, and returns the length that the body
/// must have. It takes no memory.
///
/// # Errors
///
/// The first of M1 to M8, M10 and M11 ([`Malformed`]) that the head breaks; M11 where a
/// `content-length` is not a number of 1 to 19 digits, or two differ.
pub fn check_request_head(head: &[Field]) -> Result<BodyLength, Malformed>
    ensures ok { IfOk result (λ length. (broken_by_head Requests head.now ≡ None)
        × (length.left ≡ length_to_send Requests head.now)) }
    ensures err { IfErr result (λ rule. broken_by_head Requests head.now ≡ Some rule) }
{
    let scan = scan_fields(Kind::Request, head);
    match scan.broken_by_request_head() {
        None => Ok(BodyLength { left: scan.length }),
        Some(rule) => Err(rule),
    }
}

// contract: 8.1.1 (own) A message to be sent is refused for the least of M1 to M11 it breaks
// contract: 8.1.1 A body of an own answer to HEAD, 204 or 304 breaks M11
/// Checks the head of a response whose body is sent later, and returns the length that the body
/// must have: 0 in a response to HEAD (`to_head`), and with the status 204 or 304. It takes no
/// memory.
///
/// # Errors
///
/// The first of M1 to M6 and M9 to M11 ([`Malformed`]) that the head breaks. M9 refuses interim
/// statuses too; M11 comes where a `content-length` is not a number of 1 to 19 digits, or two
/// differ.
pub fn check_response_head(head: &[Field], to_head: bool) -> Result<BodyLength, Malformed>
    ensures ok { IfOk result (λ length. (broken_by_head (Responses to_head) head.now ≡ None)
        × (length.left ≡ length_to_send (Responses to_head) head.now)) }
    ensures err { IfErr result (λ rule. broken_by_head (Responses to_head) head.now
        ≡ Some rule) }
{
    let scan = scan_fields(Kind::Response, head);
    match scan.broken_by_response_head() {
        None => Ok(BodyLength {
            left: length_to_send(&scan, to_head),
        }),
        Some(rule) => Err(rule),
    }
}

// rule: 8.1.1 A body of an own answer to HEAD, 204 or 304 breaks M11
/// The length that the body of a response must have.
fn length_to_send(head: &Scan, to_head: bool) -> Option<u64>
    ensures { (fields : List Field) → IsScan Response fields head.now
        → has_bad_length fields ≡ false
        → result ≡ length_to_send (Responses to_head) fields }
{
    if to_head || head.has_no_content() {
        return Some(0);
    }
    head.length
}

impl BodyLength {
    // contract: 8.1.1 A body to be sent that content-length denies breaks M11
    // rule: 8.1.1 A body to be sent that content-length denies breaks M11
    /// Checks that `count` further octets of the body may be sent and, if `end` is set, that
    /// the body may end with them.
    ///
    /// # Errors
    ///
    /// [`Malformed::BadLength`] (M11) where the body would be too long or, at its end, too short.
    pub fn check(self, count: usize, end: bool) -> Result<(), Malformed>
        ensures ok { OnOk result (breaks_length self.left count end ≡ false) }
        ensures err { IfErr result (λ rule. (rule ≡ Malformed.BadLength)
            × (breaks_length self.left count end ≡ true)) }
    {
        let Some(number) = self.left else {
            return Ok(());
        };
        let count = count as u64;
        if number < count || (end && number != count) {
            return Err(Malformed::BadLength);
        }
        Ok(())
    }

    // contract: 8.1 M1, M2, M3 and M10 hold of trailers
    /// Checks that these trailers may end the body now.
    ///
    /// # Errors
    ///
    /// The first of M1, M2, M3 and M10 that the trailers break, or else M11 where the body is too
    /// short ([`Malformed`]).
    pub fn check_trailers(self, trailers: &[Field]) -> Result<(), Malformed>
        ensures ok { OnOk result (broken_by_trailers self.left 0 trailers.now ≡ None) }
        ensures err { IfErr result (λ rule. broken_by_trailers self.left 0 trailers.now
            ≡ Some rule) }
    {
        let scan = scan_fields(Kind::Request, trailers);
        match scan.broken_by_trailers() {
            None => self.check(0, true),
            Some(rule) => Err(rule),
        }
    }

    /// Returns the length that is left after `count` further octets, which `check` must have
    /// allowed.
    pub fn after(self, count: usize) -> BodyLength
        ensures { result.left ≡ length_after self.left count }
    {
        match self.left {
            None => self,
            Some(number) => BodyLength {
                left: Some(number.saturating_sub(count as u64)),
            },
        }
    }
}
