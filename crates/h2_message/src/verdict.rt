//! What a scan of fields decides of a message.

ghost use Rattle.std.specs.Prelude.{◌≡◌, ◌||◌, not, false, List};
ghost use Rattle.hpack.specs.declared.types.field.Field.{Field};
ghost use Rattle.h2_message.specs.declared.kind.Kind.TheVariants.{Request, Response};
ghost use Rattle.h2_message.specs.Fields.{lacks_pseudo, has_bad_method, has_bad_path};
ghost use Rattle.h2_message.specs.Fields.{has_bad_status, is_interim};
ghost use Rattle.h2_message.specs.Messages.{first_broken, asks_head, is_without_content};
ghost use Rattle.h2_message.specs.Messages.{request_head_rules, response_head_rules};
ghost use Rattle.h2_message.specs.Messages.{interim_rules, trailer_rules};
ghost use Rattle.h2_message.specs.Scans.{IsScan};

use crate::classes::{Method, Path, Status};
use crate::malformed::Malformed;
use crate::scan::Scan;

// rule: 8.1.1 (own) A message to be sent is refused for the least of M1 to M11 it breaks
/// The first rule whose condition holds.
#[inline]
pub(crate) fn first_broken(rules: &[(bool, Malformed)]) -> Option<Malformed>
    ensures { result ≡ first_broken rules.now }
{
    for (holds, rule) in rules {
        if *holds {
            return Some(*rule);
        }
    }
    None
}

impl Scan {
    // rule: 8.3.1 A request without :method, :scheme or :path breaks M6
    /// Whether a request lacks a pseudo-header field that it must have.
    pub(crate) fn lacks_of_request(&self) -> bool
        ensures { (fields : List Field) → IsScan Request fields self.now
            → result ≡ lacks_pseudo Request fields }
    {
        self.method.is_none() || !self.scheme || self.path.is_none()
    }

    // rule: 8.3.2 A response without :status breaks M6
    /// Whether a response lacks one.
    pub(crate) fn lacks_of_response(&self) -> bool
        ensures { (fields : List Field) → IsScan Response fields self.now
            → result ≡ lacks_pseudo Response fields }
    {
        self.status.is_none()
    }

    // rule: 8.3.1 A method that is no token, or is CONNECT (own), breaks M7
    /// Whether the method of a request is not valid.
    pub(crate) fn has_bad_method(&self) -> bool
        ensures { (fields : List Field) → IsScan Request fields self.now
            → result ≡ has_bad_method fields }
    {
        self.method.unwrap_or(Method::Bad) == Method::Bad
    }

    // rule: 8.3.1 A path without / at its begin, but * with OPTIONS, breaks M8
    /// Whether the path of a request is not valid.
    pub(crate) fn has_bad_path(&self) -> bool
        ensures { (fields : List Field) → IsScan Request fields self.now
            → result ≡ has_bad_path fields }
    {
        match self.path.unwrap_or(Path::Bad) {
            Path::Bad => true,
            Path::Asterisk => self.method != Some(Method::Options),
            Path::Slash => false,
        }
    }

    // rule: HTTP 9.3.2 A request asks with HEAD where the method of its head is HEAD
    /// Whether the method of a request is HEAD.
    pub(crate) fn asks_head(&self) -> bool
        ensures { (fields : List Field) → IsScan Request fields self.now
            → result ≡ asks_head fields }
    {
        self.method == Some(Method::Head)
    }

    // rule: 8.3.2 A status that is not three digits from 100 on breaks M9
    // rule: 8.1 (own) No interim response is sent: a status 100 to 199 breaks M9
    /// Whether the status of a response is not valid, or is interim.
    pub(crate) fn has_no_final_status(&self) -> bool
        ensures { (fields : List Field) → IsScan Response fields self.now
            → result ≡ (has_bad_status fields || is_interim fields) }
    {
        let status = self.status.unwrap_or(Status::Bad);
        status == Status::Bad || status == Status::Interim
    }

    // rule: 8.1 Interim responses come before the final head, without END_STREAM
    /// Whether the status of a response is interim.
    pub(crate) fn has_interim_status(&self) -> bool
        ensures { (fields : List Field) → IsScan Response fields self.now
            → result ≡ not (has_bad_status fields || not (is_interim fields)) }
    {
        self.status == Some(Status::Interim)
    }

    // rule: 8.1.1 A body of an own answer to HEAD, 204 or 304 breaks M11
    // rule: 8.1.1 No length is compared in an answer to HEAD, in 204 and in 304
    /// Whether a response has no content by its status.
    pub(crate) fn has_no_content(&self) -> bool
        ensures { (fields : List Field) → IsScan Response fields self.now
            → result ≡ is_without_content false fields }
    {
        self.status == Some(Status::NoContent)
    }

    // rule: 8.3 A final head is read only where it breaks no rule of its fields
    /// The first rule that the head of a request breaks, of those on a head alone.
    pub(crate) fn broken_by_request_head(&self) -> Option<Malformed>
        ensures { (fields : List Field) → IsScan Request fields self.now
            → result ≡ first_broken (request_head_rules fields) }
    {
        first_broken(&[
            (self.bad_name, Malformed::BadName),
            (self.bad_value, Malformed::BadValue),
            (self.late_pseudo, Malformed::PseudoPlace),
            (self.unknown_pseudo, Malformed::PseudoUnknown),
            (self.pseudo_twice, Malformed::PseudoTwice),
            (self.lacks_of_request(), Malformed::PseudoMissing),
            (self.has_bad_method(), Malformed::BadMethod),
            (self.has_bad_path(), Malformed::BadPath),
            (self.connection_field, Malformed::ConnectionField),
            (self.bad_length, Malformed::BadLength),
        ])
    }

    // rule: 8.3 A final head is read only where it breaks no rule of its fields
    /// The first rule that the final head of a response breaks.
    pub(crate) fn broken_by_response_head(&self) -> Option<Malformed>
        ensures { (fields : List Field) → IsScan Response fields self.now
            → result ≡ first_broken (response_head_rules fields) }
    {
        first_broken(&[
            (self.bad_name, Malformed::BadName),
            (self.bad_value, Malformed::BadValue),
            (self.late_pseudo, Malformed::PseudoPlace),
            (self.unknown_pseudo, Malformed::PseudoUnknown),
            (self.pseudo_twice, Malformed::PseudoTwice),
            (self.lacks_of_response(), Malformed::PseudoMissing),
            (self.has_no_final_status(), Malformed::BadStatus),
            (self.connection_field, Malformed::ConnectionField),
            (self.bad_length, Malformed::BadLength),
        ])
    }

    // rule: 8.1 Interim responses come before the final head, without END_STREAM
    /// The first rule that the head of an interim response breaks.
    pub(crate) fn broken_by_interim(&self) -> Option<Malformed>
        ensures { (fields : List Field) → IsScan Response fields self.now
            → result ≡ first_broken (interim_rules fields) }
    {
        first_broken(&[
            (self.bad_name, Malformed::BadName),
            (self.bad_value, Malformed::BadValue),
            (self.late_pseudo, Malformed::PseudoPlace),
            (self.unknown_pseudo, Malformed::PseudoUnknown),
            (self.pseudo_twice, Malformed::PseudoTwice),
            (self.lacks_of_response(), Malformed::PseudoMissing),
            (!self.has_interim_status(), Malformed::BadStatus),
            (self.connection_field, Malformed::ConnectionField),
        ])
    }

    // rule: 8.3 A pseudo-field after a regular one, or in trailers, breaks M3
    // rule: 8.1 M1, M2, M3 and M10 hold of trailers
    /// The first rule that trailers break.
    pub(crate) fn broken_by_trailers(&self) -> Option<Malformed>
        ensures { (fields : List Field) → IsScan Request fields self.now
            → result ≡ first_broken (trailer_rules fields) }
    {
        first_broken(&[
            (self.bad_name, Malformed::BadName),
            (self.bad_value, Malformed::BadValue),
            (self.pseudo, Malformed::PseudoPlace),
            (self.connection_field, Malformed::ConnectionField),
        ])
    }
}
