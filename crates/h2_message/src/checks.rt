//! Which rule a message breaks.

ghost use Rattle.std.specs.Prelude.{◌≡◌, IfErr, OnOk, None, Some, List, false, nat_lt};
ghost use Rattle.std.specs.Prelude.{if◌then◌else◌};
ghost use Rattle.hpack.specs.declared.types.field.Field.{Field};
ghost use Rattle.h2_message.specs.declared.kind.Kind.TheVariants.{Request, Response};
ghost use Rattle.h2_message.specs.Fields.{has_bad_length, declared_length};
ghost use Rattle.h2_message.specs.Messages.{broken_by_request, broken_by_response, differs_from};
ghost use Rattle.h2_message.specs.Messages.{trailer_fields, is_without_content};
ghost use Rattle.h2_message.specs.Scans.{IsScan};
ghost use Rattle.h2_message.specs.Values.{message_value};

use crate::kind::Kind;
use crate::malformed::Malformed;
use crate::message::Message;
use crate::scan::{Scan, empty, scan_fields};
use crate::verdict::first_broken;

// rule: 8.1.1 (own) A message to be sent is refused for the least of M1 to M11 it breaks
// contract: 8.2.1 A name with an octet that it must not have breaks M1
// contract: 8.2.1 (own) An empty name breaks M1
// contract: 8.2.1 A value with NUL, CR or LF breaks M2
// contract: 8.2.1 A value that begins or ends with a space or a tab breaks M2
// rule: 8.3 A pseudo-field after a regular one, or in trailers, breaks M3
// contract: 8.3.1 A request without :method, :scheme or :path breaks M6
// contract: 8.3.1 A method that is no token, or is CONNECT (own), breaks M7
// contract: 8.3.1 A path without / at its begin, but * with OPTIONS, breaks M8
// contract: 8.1.1 A content-length that is no number, or several, breaks M11
// contract: 8.1.1 A body to be sent that content-length denies breaks M11
// rule: 8.1.1 A body to be sent that content-length denies breaks M11
// contract: 8.1 M1, M2, M3 and M10 hold of trailers
/// Checks that a request to be sent breaks no rule. It takes no memory.
///
/// # Errors
///
/// The first of M1 to M8, M10 and M11 ([`Malformed`]) that it breaks.
pub fn check_request(message: &Message) -> Result<(), Malformed>
    ensures ok { OnOk result (broken_by_request (message_value message.now) ≡ None) }
    ensures err { IfErr result (λ rule. broken_by_request (message_value message.now)
        ≡ Some rule) }
{
    match broken_by_request(message) {
        None => Ok(()),
        Some(rule) => Err(rule),
    }
}

/// The first rule that a request breaks, if it breaks one.
fn broken_by_request(message: &Message) -> Option<Malformed>
    ensures { result ≡ broken_by_request (message_value message.now) }
{
    let head = scan_fields(Kind::Request, &message.head);
    let trailers = scan_trailers(message);
    first_broken(&[
        (head.bad_name | trailers.bad_name, Malformed::BadName),
        (head.bad_value | trailers.bad_value, Malformed::BadValue),
        (head.late_pseudo | trailers.pseudo, Malformed::PseudoPlace),
        (head.unknown_pseudo, Malformed::PseudoUnknown),
        (head.pseudo_twice, Malformed::PseudoTwice),
        (head.lacks_of_request(), Malformed::PseudoMissing),
        (head.has_bad_method(), Malformed::BadMethod),
        (head.has_bad_path(), Malformed::BadPath),
        (
            head.connection_field | trailers.connection_field,
            Malformed::ConnectionField,
        ),
        (
            head.bad_length | differs_from(head.length, message.body.len()),
            Malformed::BadLength,
        ),
    ])
}

// rule: 8.1.1 (own) A message to be sent is refused for the least of M1 to M11 it breaks
// contract: 8.2.1 A name with an octet that it must not have breaks M1
// contract: 8.2.1 (own) An empty name breaks M1
// contract: 8.2.1 A value with NUL, CR or LF breaks M2
// contract: 8.2.1 A value that begins or ends with a space or a tab breaks M2
// rule: 8.3 A pseudo-field after a regular one, or in trailers, breaks M3
// contract: 8.3.2 A response without :status breaks M6
// contract: 8.3.2 A status that is not three digits from 100 on breaks M9
// contract: 8.1 (own) No interim response is sent: a status 100 to 199 breaks M9
// rule: 8.1 (own) No interim response is sent: a status 100 to 199 breaks M9
// contract: 8.1.1 A content-length that is no number, or several, breaks M11
// contract: 8.1.1 A body to be sent that content-length denies breaks M11
// contract: 8.1.1 A body of an own answer to HEAD, 204 or 304 breaks M11
// contract: 8.1 M1, M2, M3 and M10 hold of trailers
// contract: 8.6 Status 101 breaks M9, sent or read: HTTP/2 has no upgrade
/// Checks that a response to be sent breaks no rule; `to_head` says whether it answers HEAD. It
/// takes no memory.
///
/// # Errors
///
/// The first of M1 to M6 and M9 to M11 ([`Malformed`]) that it breaks. M9 refuses interim statuses
/// too, and M11 any body in a response to HEAD or with the status 204 or 304 (RFC 9110, section
/// 6.4.1).
pub fn check_response(message: &Message, to_head: bool) -> Result<(), Malformed>
    ensures ok { OnOk result (broken_by_response to_head (message_value message.now) ≡ None) }
    ensures err { IfErr result (λ rule. broken_by_response to_head (message_value message.now)
        ≡ Some rule) }
{
    match broken_by_response(message, to_head) {
        None => Ok(()),
        Some(rule) => Err(rule),
    }
}

/// The first rule that a response breaks, if it breaks one.
fn broken_by_response(message: &Message, to_head: bool) -> Option<Malformed>
    ensures { result ≡ broken_by_response to_head (message_value message.now) }
{
    let head = scan_fields(Kind::Response, &message.head);
    let trailers = scan_trailers(message);
    first_broken(&[
        (head.bad_name | trailers.bad_name, Malformed::BadName),
        (head.bad_value | trailers.bad_value, Malformed::BadValue),
        (head.late_pseudo | trailers.pseudo, Malformed::PseudoPlace),
        (head.unknown_pseudo, Malformed::PseudoUnknown),
        (head.pseudo_twice, Malformed::PseudoTwice),
        (head.lacks_of_response(), Malformed::PseudoMissing),
        (head.has_no_final_status(), Malformed::BadStatus),
        (
            head.connection_field | trailers.connection_field,
            Malformed::ConnectionField,
        ),
        (
            head.bad_length | has_wrong_body(&head, to_head, message.body.len()),
            Malformed::BadLength,
        ),
    ])
}

// rule: 8.1 M1, M2, M3 and M10 hold of trailers
/// The scan of a message's trailers, or of no fields if it has none.
fn scan_trailers(message: &Message) -> Scan
    ensures { IsScan Request (trailer_fields (message_value message.now).trailers) result }
{
    match &message.trailers {
        None => empty(),
        Some(fields) => scan_fields(Kind::Request, fields),
    }
}

// rule: 8.1.1 A body to be sent that content-length denies breaks M11
/// Whether a length is declared, and is not `count`.
fn differs_from(declared: Option<u64>, count: usize) -> bool
    ensures { result ≡ differs_from declared count }
{
    match declared {
        None => false,
        Some(number) => number != count as u64,
    }
}

// rule: 8.1.1 A body to be sent that content-length denies breaks M11
// rule: 8.1.1 A body of an own answer to HEAD, 204 or 304 breaks M11
/// Whether the length of a response's body is wrong.
fn has_wrong_body(head: &Scan, to_head: bool, count: usize) -> bool
    ensures { (fields : List Field) → IsScan Response fields head.now
        → has_bad_length fields ≡ false
        → result ≡ (if is_without_content to_head fields then nat_lt 0 count
        else differs_from (declared_length fields) count) }
{
    if to_head | head.has_no_content() {
        return count > 0;
    }
    differs_from(head.length, count)
}
