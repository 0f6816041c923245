//! Classes of the values of `:method`, `:path`, `:status` and `content-length`.

ghost use Rattle.std.specs.Prelude.{◌≡◌, if◌then◌else◌, Some, None};
ghost use Rattle.std.specs.List.{list_all};
ghost use Rattle.h2_message.specs.Octets.{begins_with_slash, is_bad_length, is_interim_status};
ghost use Rattle.h2_message.specs.Octets.{is_status_code, is_token, is_token_octet, number_written};
ghost use Rattle.h2_message.specs.Classes.{method_class, path_class, status_class};

/// The class of a method (RFC 9110, section 9.1).
#[derive(Clone, Copy, Debug, PartialEq, Eq)]
pub(crate) enum Method {
    /// It is not valid.
    Bad,
    /// HEAD, whose response has no content.
    Head,
    /// OPTIONS, whose path may be an asterisk.
    Options,
    /// Any other.
    Other,
}

/// The class of a path (RFC 9113, section 8.3.1).
#[derive(Clone, Copy, Debug, PartialEq, Eq)]
pub(crate) enum Path {
    /// It is not valid.
    Bad,
    /// An asterisk, for OPTIONS alone.
    Asterisk,
    /// It begins with a slash.
    Slash,
}

/// The class of a status (RFC 9110, section 15).
#[derive(Clone, Copy, Debug, PartialEq, Eq)]
pub(crate) enum Status {
    /// It is not valid.
    Bad,
    /// 1xx: another head follows.
    Interim,
    /// 204 or 304: no content follows.
    NoContent,
    /// Any other.
    Final,
}

// contract: 8.3.1 A method that is no token, or is CONNECT (own), breaks M7
/// The class of a method. GET and POST, which most requests have, are compared first.
#[inline(always)]
pub(crate) fn method_class(value: &[u8]) -> Method
    ensures { result ≡ method_class value.now }
{
    if value == b"GET".as_slice() {
        return Method::Other;
    }
    if value == b"POST".as_slice() {
        return Method::Other;
    }
    class_of_other_method(value)
}

// rule: 8.3.1 A method that is no token, or is CONNECT (own), breaks M7
/// The class of any method.
#[inline(never)]
#[tactic(auto, unfolding(crate::specs::Classes::method_class, crate::specs::Octets::is_bad_method))]
fn class_of_other_method(value: &[u8]) -> Method
    ensures { result ≡ method_class value.now }
{
    if !is_token(value) || value == b"CONNECT".as_slice() {
        Method::Bad
    } else if value == b"HEAD".as_slice() {
        Method::Head
    } else if value == b"OPTIONS".as_slice() {
        Method::Options
    } else {
        Method::Other
    }
}

// contract: 8.3.1 A path without / at its begin, but * with OPTIONS, breaks M8
// rule: 8.3.1 A path without / at its begin, but * with OPTIONS, breaks M8
/// The class of a path.
#[tactic(auto, unfolding(crate::specs::Classes::path_class))]
pub(crate) fn path_class(value: &[u8]) -> Path
    ensures { result ≡ path_class value.now }
{
    if begins_with_slash(value) {
        Path::Slash
    } else if value == b"*".as_slice() {
        Path::Asterisk
    } else {
        Path::Bad
    }
}

// rule: 8.3.1 A path without / at its begin, but * with OPTIONS, breaks M8
/// Whether the first octet is a slash.
#[tactic(auto, unfolding(crate::specs::Octets::begins_with_slash))]
fn begins_with_slash(value: &[u8]) -> bool
    ensures { result ≡ begins_with_slash value.now }
{
    matches!(value, [b'/', ..])
}

// contract: 8.3.2 A status that is not three digits from 100 on breaks M9
// rule: 8.3.2 A status that is not three digits from 100 on breaks M9
// rule: 8.1 (own) No interim response is sent: a status 100 to 199 breaks M9
// rule: 8.1.1 A body of an own answer to HEAD, 204 or 304 breaks M11
// rule: 8.1.1 No length is compared in an answer to HEAD, in 204 and in 304
// contract: 8.6 Status 101 breaks M9, sent or read: HTTP/2 has no upgrade
// rule: 8.6 Status 101 breaks M9, sent or read: HTTP/2 has no upgrade
/// The class of a status.
#[tactic(auto, unfolding(crate::specs::Classes::status_class, crate::specs::Octets::is_bad_status))]
pub(crate) fn status_class(value: &[u8]) -> Status
    ensures { result ≡ status_class value.now }
{
    if !is_status_code(value) || value == b"101".as_slice() {
        Status::Bad
    } else if is_interim_status(value) {
        Status::Interim
    } else if value == b"204".as_slice() || value == b"304".as_slice() {
        Status::NoContent
    } else {
        Status::Final
    }
}

// rule: 8.3.2 A status that is not three digits from 100 on breaks M9
/// Whether a value is three digits, of which the first is not 0.
#[tactic(auto, unfolding(crate::specs::Octets::is_status_code))]
fn is_status_code(value: &[u8]) -> bool
    ensures { result ≡ is_status_code value.now }
{
    matches!(value, [b'1'..=b'9', b'0'..=b'9', b'0'..=b'9'])
}

// rule: 8.1 (own) No interim response is sent: a status 100 to 199 breaks M9
// rule: 8.1 Interim responses come before the final head, without END_STREAM
/// Whether the first digit is a 1.
#[tactic(auto, unfolding(crate::specs::Octets::is_interim_status))]
fn is_interim_status(value: &[u8]) -> bool
    ensures { result ≡ is_interim_status value.now }
{
    matches!(value, [b'1', ..])
}

// rule: 8.1.1 A content-length that is no number, or several, breaks M11
/// The number of a `content-length`, if that is 1 to 19 digits.
pub(crate) fn length_number(value: &[u8]) -> Option<u64>
    ensures { result ≡ (if is_bad_length value.now then None else Some (number_written value.now)) }
{
    if value.is_empty() || value.len() > 19 {
        return None;
    }
    let mut number = 0u64;
    for digit in value {
        if !digit.is_ascii_digit() {
            return None;
        }
        number = number * 10 + (*digit - b'0') as u64;
    }
    Some(number)
}

// rule: 8.3.1 A method that is no token, or is CONNECT (own), breaks M7
/// Whether octets are a token: one or more token octets (RFC 9110, section 5.6.2).
#[tactic(auto, unfolding(crate::specs::Octets::is_token))]
fn is_token(value: &[u8]) -> bool
    ensures { result ≡ is_token value.now }
{
    !value.is_empty() && are_token_octets(value)
}

/// Whether all octets are token octets.
fn are_token_octets(value: &[u8]) -> bool
    ensures { result ≡ list_all is_token_octet value.now }
{
    value.iter().all(|octet| is_token_octet(*octet))
}

// rule: 8.3.1 A method that is no token, or is CONNECT (own), breaks M7
/// Whether an octet is a token octet: a letter, a digit, or one of fifteen signs.
#[tactic(auto, unfolding(crate::specs::Octets::is_token_octet))]
fn is_token_octet(octet: u8) -> bool
    ensures { result ≡ is_token_octet octet }
{
    octet.is_ascii_alphanumeric() || b"!#$%&'*+-.^_`|~".contains(&octet)
}
