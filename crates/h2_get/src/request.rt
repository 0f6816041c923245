//! The request of `get`.

ghost use Rattle.std.specs.Prelude.{◌≡◌, ◌++◌, ◌∷◌, [], IfErr, IfOk, OnOk, map};
ghost use Rattle.std.specs.Prelude.{position, reverse, true};
ghost use Rattle.std.specs.List.{list_all};
ghost use Rattle.h2_message.specs.Values.{message_value};
ghost use Rattle.h2_args.specs.Words.{asked_by};
ghost use Rattle.h2_get.specs.Requests.{AreRefusedWords, IsAskable, IsRefusedRequest, IsRefusedWord};
ghost use Rattle.h2_get.specs.Requests.{field_of_word, has_colon, has_host, method_asked};
ghost use Rattle.h2_get.specs.Requests.{request_asked};
ghost use Rattle.h2_get.specs.Requests.{is_colon, is_outer_blank, skip_blanks};
ghost use Rattle.h2_get.specs.Requests.{without_outer_blanks};

use h2_args::GetOptions;
use h2_message::{Field, Malformed, Message, check_request};
use h2_net::{Location, head_to};
use std::alloc::{AllocError, Global};
use thiserror::Error;

/// Why no request can be made. Its text is for the user.
#[derive(Clone, Copy, Debug, PartialEq, Eq, Hash, Error)]
pub enum RequestFault {
    /// A field has no colon.
    #[error("error: a header field must be NAME:VALUE")]
    NoColon,
    /// A field is named `host`, which is `:authority` in the request (RFC 9113, section 8.3.1).
    #[error("error: a host field is not allowed: the URL names the host")]
    Host,
    /// The request breaks this rule, the first of several (RFC 9113, section 8).
    #[error("N7 Refused")]
    Malformed(Malformed),
    /// Out of memory.
    #[error("N3 Memory")]
    Memory,
}

impl From<AllocError> for RequestFault {
    ghost use Rattle.h2_get.specs.declared.request.RequestFault.TheVariants.{Memory};

    ghost from_gives = { λ _ fault. fault ≡ Memory };

    fn from(_error: AllocError) -> RequestFault {
        RequestFault::Memory
    }
}

// contract: engines (own) The words of get make its request and say what is printed
// rule: engines (own) The words of get make its request and say what is printed
/// Makes the request for a location from the options and this body. It breaks no rule of messages.
///
/// # Errors
///
/// [`RequestFault`] says why there is none.
pub fn request_of(
    alloc: Global,
    options: &GetOptions<'_>,
    location: &Location,
    body: Vec<u8>,
) -> Result<Message, RequestFault>
    ensures ok { IfOk result (λ message.
        message_value message ≡ request_asked (asked_by options.now) body.items location.now) }
    ensures asked { OnOk result (IsAskable (asked_by options.now) body.items location.now) }
    ensures err { IfErr result (IsRefusedRequest (asked_by options.now) body.items location.now) }
{
    let mut head = head_to(alloc, method_of(options).as_bytes(), location)?;
    add_fields(alloc, &mut head, &options.fields)?;
    if has_host(&head) {
        return Err(RequestFault::Host);
    }
    let message = Message {
        head,
        body,
        trailers: None,
    };
    match check_request(&message) {
        Ok(()) => Ok(message),
        Err(rule) => Err(RequestFault::Malformed(rule)),
    }
}

// rule: engines (own) The words of get make its request and say what is printed
/// The method that the options name, or else POST if they give a body, or GET.
fn method_of<'a>(options: &GetOptions<'a>) -> &'a str
    ensures { result.now ≡ method_asked (asked_by options.now) }
{
    match (options.method, options.body) {
        (Some(method), _) => method,
        (None, Some(_)) => "POST",
        (None, None) => "GET",
    }
}

// rule: engines (own) The words of get make its request and say what is printed
/// Whether a field is named `host`.
fn has_host(fields: &[Field]) -> bool
    ensures { result ≡ has_host fields.now }
{
    for field in fields {
        if field.name.as_slice() == b"host".as_slice() {
            return true;
        }
    }
    false
}

// rule: engines (own) The words of get make its request and say what is printed
/// Adds the fields of these words to a head.
fn add_fields(alloc: Global, head: &mut Vec<Field>, words: &[&str]) -> Result<(), RequestFault>
    ensures fields { OnOk result (head.new.items
        ≡ head.old.items ++ map field_of_word (map (λ word. word.now) words.now)) }
    ensures named { OnOk result (list_all has_colon (map (λ word. word.now) words.now) ≡ true) }
    ensures err { IfErr result (AreRefusedWords (map (λ word. word.now) words.now)) }
{
    for word in words {
        let field = field_of_word(alloc, word.as_bytes())?;
        add_field(head, field)?;
    }
    Ok(())
}

// Adds a field to a head.
fn add_field(head: &mut Vec<Field>, field: Field) -> Result<(), AllocError>
    ensures { OnOk result (head.new.items ≡ head.old.items ++ field ∷ []) }
{
    head.push(field)?;
    Ok(())
}

// rule: engines (own) The words of get make its request and say what is printed
/// The field of a word NAME:VALUE.
fn field_of_word(alloc: Global, word: &[u8]) -> Result<Field, RequestFault>
    ensures field { IfOk result (λ field. field ≡ field_of_word word.now) }
    ensures named { OnOk result (has_colon word.now ≡ true) }
    ensures err { IfErr result (IsRefusedWord word.now) }
{
    let Some(place) = colon_place(word) else {
        return Err(RequestFault::NoColon);
    };
    let name = word[..place].to_ascii_lowercase(alloc)?;
    let value = without_outer_blanks(&word[place + 1..]);
    let field = Field::copy_of(alloc, &name, value, false)?;
    Ok(field)
}

/// The index of the first colon of a word, if it has one.
fn colon_place(word: &[u8]) -> Option<usize>
    ensures { result ≡ position is_colon word.now }
{
    word.iter().position(|octet| *octet == b':')
}

// rule: engines (own) The words of get make its request and say what is printed
/// Octets without leading and trailing spaces and tabs (RFC 9110, section 5.5).
fn without_outer_blanks(octets: &[u8]) -> &[u8]
    ensures { result.now ≡ without_outer_blanks octets.now }
{
    without_last_blanks(without_first_blanks(octets))
}

/// Octets without leading spaces and tabs.
fn without_first_blanks(octets: &[u8]) -> &[u8]
    ensures { result.now ≡ skip_blanks octets.now }
{
    let mut left = octets;
    while let [first, others @ ..] = left
        && is_outer_blank(*first)
    {
        left = others;
    }
    left
}

/// Octets without trailing spaces and tabs.
fn without_last_blanks(octets: &[u8]) -> &[u8]
    ensures { result.now ≡ reverse (skip_blanks (reverse octets.now)) }
{
    let mut left = octets;
    while let [others @ .., last] = left
        && is_outer_blank(*last)
    {
        left = others;
    }
    left
}

/// Whether an octet is a space or a tab.
fn is_outer_blank(octet: u8) -> bool
    ensures { result ≡ is_outer_blank octet }
{
    octet == b' ' || octet == b'\t'
}
