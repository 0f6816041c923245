//! Messages that are checked and read, which the `CALLING.md` of `h2_message` quotes.

// calling: h2_message
ghost use Rattle.std.specs.Prelude.{◌≡◌, true, false, List, [], ◌∷◌, length};
ghost use Rattle.h2_message.specs.declared.reading.Reads.TheVariants.{Requests};
ghost use Rattle.h2_message.specs.Reading.{IsReadable, FieldsPart, OctetsPart};

use h2_message::{FieldList, Place, Reading, Reads};

/// Returns whether a head and a complete body are a request that breaks no rule.
pub fn is_request(head: &FieldList, body: &[u8]) -> bool
    ensures { result ≡ true → IsReadable Requests
        ((FieldsPart head.now, false) ∷ ((OctetsPart body.now, true) ∷ [])) }
{
    let mut reading = Reading::new(Reads::Requests);
    match reading.fields(head, false) {
        Some(Place::Head) => reading.data(body.len(), true),
        _ => false,
    }
}
// end

// calling: h2_message refusals
ghost use Rattle.std.specs.Prelude.{None, IfOk};
ghost use Rattle.h2_message.specs.Messages.{broken_by_response};
ghost use Rattle.h2_message.specs.Values.{message_value};

use h2_message::{Malformed, Message, check_response};

/// Returns a response that may be sent; or why it may not, for the log of the program that made
/// it.
pub fn checked_response(message: Message, to_head: bool) -> Result<Message, &'static str>
    ensures { IfOk result (λ sent. broken_by_response to_head (message_value sent) ≡ None) }
{
    match check_response(&message, to_head) {
        Ok(()) => Ok(message),
        Err(Malformed::BadLength) if to_head => Err("an answer to HEAD has no body"),
        Err(Malformed::BadLength) => Err("content-length is not the body's length"),
        Err(Malformed::ConnectionField) => Err("HTTP/2 has no connection fields"),
        Err(Malformed::BadName) => Err("a name is not in lower case"),
        Err(_) => Err("the head or the trailers break a rule"),
    }
}
// end

// calling: h2_message requests
ghost use Rattle.std.specs.Prelude.{OnOk};
ghost use Rattle.h2_message.specs.Messages.{broken_by_request};

use h2_message::check_request;

/// Returns whether a request may be sent on; else the status with which a gateway answers it:
/// 501 (Not Implemented) for a method that cannot be sent, such as CONNECT, 400 (Bad Request)
/// for any other fault.
pub fn check_forwarded(request: &Message) -> Result<(), u16>
    ensures { OnOk result (broken_by_request (message_value request.now) ≡ None) }
{
    match check_request(request) {
        Ok(()) => Ok(()),
        Err(Malformed::BadMethod) => Err(501),
        Err(_) => Err(400),
    }
}
// end
