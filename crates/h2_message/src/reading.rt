//! Messages that are read part by part.

ghost use Rattle.std.specs.Prelude.{◌≡◌, ◌≢◌, ◌&&◌, ℕ, Bool, List, [], ◌∷◌, length, false, IsNone};
ghost use Rattle.std.specs.Prelude.{IfSome};
ghost use Rattle.hpack.specs.declared.types.field.Field.{Field};
ghost use Rattle.h2_message.specs.declared.reading.Reads.TheVariants.{Requests, Responses};
ghost use Rattle.h2_message.specs.declared.reading.Phase.TheVariants.{AtHead};
ghost use Rattle.h2_message.specs.declared.kind.Kind.TheVariants.{Response};
ghost use Rattle.h2_message.specs.Fields.{has_bad_length};
ghost use Rattle.h2_message.specs.Messages.{asks_head, first_broken};
ghost use Rattle.h2_message.specs.Scans.{IsScan};
ghost use Rattle.h2_message.specs.Reading.{Part, FieldsPart, OctetsPart, compared_length};
ghost use Rattle.h2_message.specs.Broken.{broken_after, rules_of_head};
ghost use Rattle.h2_message.specs.Phases.{phase_in_body, phase_after_head, phase_if_taken};
ghost use Rattle.h2_message.specs.Phases.{place_at_head};
ghost use Rattle.h2_message.specs.Phases.{Follows, FollowsFields, FollowsData, ends_message};
ghost use Rattle.h2_message.specs.Phases.{is_short};

use crate::kind::Kind;
use crate::malformed::Malformed;
use crate::parts::BodyLength;
use crate::scan::{Scan, scan_list};
use crate::verdict::first_broken;
use hpack::FieldList;

/// The messages that an end reads: those of its peer.
#[derive(Clone, Copy, Debug, PartialEq, Eq)]
pub enum Reads {
    /// A server reads requests.
    Requests,
    /// A client reads responses. In a response to HEAD, or with status 204 or 304,
    /// `content-length` is not compared (RFC 9113, section 8.1.1), and any DATA is accepted (a
    /// choice that the standard leaves open).
    Responses {
        /// Whether the request was HEAD.
        to_head: bool,
    },
}

/// Which part of a message a field block is (RFC 9113, section 8.1).
#[derive(Clone, Copy, Debug, PartialEq, Eq)]
pub enum Place {
    /// The head of an interim response (1xx).
    Interim,
    /// The head.
    Head,
    /// The trailers.
    Trailers,
}

/// Which part comes next.
#[derive(Clone, Copy, Debug, PartialEq, Eq)]
pub(crate) enum Phase {
    /// The head, or that of an interim response.
    AtHead,
    /// DATA, or the trailers.
    InBody {
        /// The number of octets of the body that are still to come, if the head declares its
        /// length.
        left: Option<u64>,
    },
    /// None: the message was read completely.
    AtEnd,
}

/// A message that is read part by part. It takes a part if the parts read so far can, with this
/// one, still become a message that is not malformed, and refuses it otherwise. It takes no memory.
#[derive(Clone, Copy, Debug)]
pub struct Reading {
    pub(crate) reads: Reads,
    pub(crate) phase: Phase,
    /// Whether a request with the method HEAD was read.
    pub(crate) asks_head: bool,
}

impl Reading {
    // contract: 8.1 (own) A part is read where the parts so far begin a well-formed message
    // rule: 8.1 (own) A part is read where the parts so far begin a well-formed message
    // contract: HTTP 9.3.2 A request asks with HEAD where the method of its head is HEAD
    /// Makes a reading of a message of which nothing has been read yet.
    pub fn new(reads: Reads) -> Reading
        ensures { Follows reads [] result }
    {
        Reading {
            reads,
            phase: Phase::AtHead,
            asks_head: false,
        }
    }

    // contract: 8.2.1 A name with an octet that it must not have breaks M1
    // contract: 8.2.1 (own) An empty name breaks M1
    // contract: 8.2.1 A value with NUL, CR or LF breaks M2
    // contract: 8.2.1 A value that begins or ends with a space or a tab breaks M2
    // contract: 8.3.1 A request without :method, :scheme or :path breaks M6
    // contract: 8.3.2 A response without :status breaks M6
    // contract: 8.3.1 A method that is no token, or is CONNECT (own), breaks M7
    // contract: 8.3.1 A path without / at its begin, but * with OPTIONS, breaks M8
    // contract: 8.3.2 A status that is not three digits from 100 on breaks M9
    // contract: 8.1.1 A content-length that is no number, or several, breaks M11
    // contract: 8.1 M1, M2, M3 and M10 hold of trailers
    // rule: 8.1 M1, M2, M3 and M10 hold of trailers
    // contract: 8.1 (own) A part is read where the parts so far begin a well-formed message
    // rule: 8.1 (own) A part is read where the parts so far begin a well-formed message
    // contract: 8.3 A final head is read only where it breaks no rule of its fields
    // contract: 8.1 Interim responses come before the final head, without END_STREAM
    // rule: 8.1 A field block after the final head is the trailers, with END_STREAM
    // contract: 8.1 END_STREAM ends the message, and any further part breaks M12
    // rule: 8.1 END_STREAM ends the message, and any further part breaks M12
    // contract: 8.1.1 DATA that is read is as long as content-length says, or breaks M11
    // rule: 8.1.1 DATA that is read is as long as content-length says, or breaks M11
    // contract: 8.1.1 No length is compared in an answer to HEAD, in 204 and in 304
    // contract: 8.6 Status 101 breaks M9, sent or read: HTTP/2 has no upgrade
    /// Takes a field block, with END_STREAM where `end` is set, and returns which part of the
    /// message it is. `None` if the message is malformed with it: nothing has changed, and
    /// [`Reading::broken_by_fields`] says which rule it breaks.
    pub fn fields(&mut self, list: &FieldList, end: bool) -> Option<Place>
        ensures { (reads : Reads) (parts : List (Part × Bool)) → Follows reads parts self.old
            → FollowsFields reads parts list.now end result self.old self.new }
    {
        match self.phase {
            Phase::AtHead => self.head(list, end),
            Phase::InBody { left } => {
                let trailers = scan_list(Kind::Request, list);
                if !end || left.unwrap_or(0) > 0 || trailers.broken_by_trailers().is_some() {
                    return None;
                }
                self.phase = Phase::AtEnd;
                Some(Place::Trailers)
            }
            Phase::AtEnd => None,
        }
    }

    // rule: 8.1 (own) A part is read where the parts so far begin a well-formed message
    // rule: 8.1 Interim responses come before the final head, without END_STREAM
    /// Takes a head, where one comes next.
    fn head(&mut self, list: &FieldList, end: bool) -> Option<Place>
        requires { self.old.phase ≡ AtHead }
        ensures phase { phase_after_head self.old.reads list.now end
            ≡ phase_if_taken result self.new.phase }
        ensures none { IsNone result → self.new ≡ self.old }
        ensures place { IfSome result (λ place. place ≡ place_at_head self.old.reads list.now) }
        ensures reads { self.new.reads ≡ self.old.reads }
        ensures asks_head { self.old.reads ≡ Requests → IfSome result (λ place.
            self.new.asks_head ≡ asks_head list.now) }
        ensures asks_none { self.old.reads ≢ Requests → self.new.asks_head ≡ self.old.asks_head }
    {
        match self.reads {
            Reads::Requests => {
                let head = scan_list(Kind::Request, list);
                if head.broken_by_request_head().is_some() {
                    return None;
                }
                self.phase = in_body(head.length, end)?;
                self.asks_head = head.asks_head();
                Some(Place::Head)
            }
            Reads::Responses { to_head } => {
                let head = scan_list(Kind::Response, list);
                if head.has_interim_status() {
                    if end || head.broken_by_interim().is_some() {
                        return None;
                    }
                    return Some(Place::Interim);
                }
                if head.broken_by_response_head().is_some() {
                    return None;
                }
                self.phase = in_body(compared_length(&head, to_head), end)?;
                Some(Place::Head)
            }
        }
    }

    // contract: 8.1 (own) A part is read where the parts so far begin a well-formed message
    // rule: 8.1 (own) A part is read where the parts so far begin a well-formed message
    // rule: 8.1 DATA before the final head breaks M12
    // contract: 8.1 END_STREAM ends the message, and any further part breaks M12
    // rule: 8.1 END_STREAM ends the message, and any further part breaks M12
    // contract: 8.1.1 DATA that is read is as long as content-length says, or breaks M11
    // rule: 8.1.1 DATA that is read is as long as content-length says, or breaks M11
    // contract: 8.1.1 No length is compared in an answer to HEAD, in 204 and in 304
    /// Takes `count` octets of a DATA frame, with END_STREAM where `end` is set, and returns
    /// `true`. `false` if the message is malformed with them: nothing has changed, and
    /// [`Reading::broken_by_data`] says which rule they break.
    pub fn data(&mut self, count: usize, end: bool) -> bool
        ensures { (reads : Reads) (parts : List (Part × Bool)) (octets : List ℕ)
            → length octets ≡ count → Follows reads parts self.old
            → FollowsData reads parts octets end result self.old self.new }
    {
        let Phase::InBody { left } = self.phase else {
            return false;
        };
        let rest = match left {
            None => None,
            Some(number) if number < count as u64 => return false,
            Some(number) => Some(number - count as u64),
        };
        let Some(phase) = in_body(rest, end) else {
            return false;
        };
        self.phase = phase;
        true
    }

    // contract: 8.1.1 (own) A part that is refused breaks a rule, the least of which is named
    // rule: 8.1.1 (own) A part that is refused breaks a rule, the least of which is named
    /// Returns the first rule that this field block, with END_STREAM where `end` is set, would
    /// break after the parts read so far; `None` if [`Reading::fields`] would accept it. Once
    /// END_STREAM was read, the rule is M12, whatever the fields are.
    pub fn broken_by_fields(&self, list: &FieldList, end: bool) -> Option<Malformed>
        ensures { (reads : Reads) (parts : List (Part × Bool)) → Follows reads parts self.now
            → result ≡ broken_after reads parts (FieldsPart list.now, end) }
    {
        match self.phase {
            Phase::AtHead => self.broken_by_head(list, end),
            Phase::InBody { left } => {
                let trailers = scan_list(Kind::Request, list);
                let short = end && left.unwrap_or(0) > 0;
                match trailers.broken_by_trailers() {
                    Some(rule) => Some(rule),
                    None => first_broken(&[
                        (short, Malformed::BadLength),
                        (!end, Malformed::BadOrder),
                    ]),
                }
            }
            Phase::AtEnd => Some(Malformed::BadOrder),
        }
    }

    // rule: 8.1.1 (own) A part that is refused breaks a rule, the least of which is named
    /// The first rule that a head breaks where one comes next.
    fn broken_by_head(&self, list: &FieldList, end: bool) -> Option<Malformed>
        ensures { result ≡ first_broken (rules_of_head self.now.reads list.now end) }
    {
        match self.reads {
            Reads::Requests => {
                let head = scan_list(Kind::Request, list);
                match head.broken_by_request_head() {
                    Some(rule) => Some(rule),
                    None => broken_by_end(head.length, end),
                }
            }
            Reads::Responses { to_head } => {
                let head = scan_list(Kind::Response, list);
                if head.has_interim_status() {
                    return match head.broken_by_interim() {
                        Some(rule) => Some(rule),
                        None => first_broken(&[(end, Malformed::BadOrder)]),
                    };
                }
                match head.broken_by_response_head() {
                    Some(rule) => Some(rule),
                    None => broken_by_end(compared_length(&head, to_head), end),
                }
            }
        }
    }

    // contract: 8.1.1 (own) A part that is refused breaks a rule, the least of which is named
    // rule: 8.1.1 (own) A part that is refused breaks a rule, the least of which is named
    /// Returns the rule that `count` octets of a DATA frame, with END_STREAM where `end` is set,
    /// would break after the parts read so far: M11, or M12 outside a body; `None` if
    /// [`Reading::data`] would accept them.
    pub fn broken_by_data(&self, count: usize, end: bool) -> Option<Malformed>
        ensures { (reads : Reads) (parts : List (Part × Bool)) (octets : List ℕ)
            → length octets ≡ count → Follows reads parts self.now
            → result ≡ broken_after reads parts (OctetsPart octets, end) }
    {
        match self.phase {
            Phase::InBody { left } => match (BodyLength { left }).check(count, end) {
                Ok(()) => None,
                Err(rule) => Some(rule),
            },
            _ => Some(Malformed::BadOrder),
        }
    }

    // contract: HTTP 9.3.2 A request asks with HEAD where the method of its head is HEAD
    // rule: HTTP 9.3.2 A request asks with HEAD where the method of its head is HEAD
    /// Returns whether a request with the method HEAD was read: then its response has no
    /// content (RFC 9110, section 9.3.2).
    pub fn asks_head(&self) -> bool
        ensures { result ≡ self.now.asks_head }
    {
        self.asks_head
    }

    // contract: 8.1 END_STREAM ends the message, and any further part breaks M12
    // rule: 8.1 END_STREAM ends the message, and any further part breaks M12
    /// Returns whether the message was read completely.
    pub fn is_over(&self) -> bool
        ensures { (reads : Reads) (parts : List (Part × Bool)) → Follows reads parts self.now
            → result ≡ ends_message parts }
    {
        matches!(self.phase, Phase::AtEnd)
    }
}

// rule: 8.1.1 DATA that is read is as long as content-length says, or breaks M11
/// The next phase, by the octets of the body still to come and whether the message ends; `None`
/// where it ends too soon.
fn in_body(left: Option<u64>, end: bool) -> Option<Phase>
    ensures { result ≡ phase_in_body left end }
{
    if !end {
        return Some(Phase::InBody { left });
    }
    if left.unwrap_or(0) > 0 {
        return None;
    }
    Some(Phase::AtEnd)
}

// rule: 8.1.1 (own) A part that is refused breaks a rule, the least of which is named
/// M11 where a head ends the message, but octets of its body are still to come.
fn broken_by_end(left: Option<u64>, end: bool) -> Option<Malformed>
    ensures { result ≡ first_broken ((end && is_short left, Malformed.BadLength) ∷ []) }
{
    first_broken(&[(end && left.unwrap_or(0) > 0, Malformed::BadLength)])
}

// rule: 8.1.1 No length is compared in an answer to HEAD, in 204 and in 304
/// The length with which a response's body is compared, if there is one; none without content.
fn compared_length(head: &Scan, to_head: bool) -> Option<u64>
    ensures { (fields : List Field) → IsScan Response fields head.now
        → has_bad_length fields ≡ false
        → result ≡ compared_length (Responses to_head) fields }
{
    if to_head || head.has_no_content() {
        return None;
    }
    head.length
}
