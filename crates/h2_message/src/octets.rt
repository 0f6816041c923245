//! The octets of names and values (RFC 9113, section 8.2.1).

ghost use Rattle.std.specs.Prelude.{◌≡◌, true, false, reverse};
ghost use Rattle.std.specs.Str.{bytes_eq};
ghost use Rattle.h2_message.specs.Fields.{is_colon_first};
ghost use Rattle.h2_message.specs.Octets.{begins_blank, is_bad_name, is_bad_value, is_blank};
ghost use Rattle.h2_message.specs.Octets.{names_user};

use crate::lanes::{has_bad_after_first, has_bad_in_value, is_bad_in_name};

// rule: 8.2.1 A name with an octet that it must not have breaks M1
// rule: 8.2.1 (own) An empty name breaks M1
/// Whether the octets are not a valid name: empty, or with a forbidden octet.
#[inline(never)]
#[tactic(auto, unfolding(crate::specs::Octets::is_bad_name))]
fn is_bad_name(name: &[u8]) -> bool
    ensures { result ≡ is_bad_name name.now }
{
    let [first, octets @ ..] = name else {
        return true;
    };
    is_bad_in_name(*first) || has_bad_after_first(octets)
}

// rule: 8.2.1 A name with an octet that it must not have breaks M1
/// The same, unless they are known to be a valid name.
#[inline(always)]
pub(crate) fn is_bad_unless_known(known: bool, name: &[u8]) -> bool
    ensures { (known ≡ true → is_bad_name name.now ≡ false) → result ≡ is_bad_name name.now }
{
    if known { false } else { is_bad_name(name) }
}

// rule: 8.2.1 A name with an octet that it must not have breaks M1
// rule: 8.2.1 (own) An empty name breaks M1
/// The same for octets that do not begin with a colon.
#[inline(always)]
pub(crate) fn is_bad_regular_name(name: &[u8]) -> bool
    ensures { is_colon_first name.now ≡ false → result ≡ is_bad_name name.now }
{
    name.is_empty() || has_bad_after_first(name)
}

// rule: 8.2.1 A value with NUL, CR or LF breaks M2
// rule: 8.2.1 A value that begins or ends with a space or a tab breaks M2
/// Whether the octets are not a valid value: with a forbidden octet, or a blank at either end.
#[inline]
#[tactic(auto, unfolding(crate::specs::Octets::is_bad_value))]
pub(crate) fn is_bad_value(value: &[u8]) -> bool
    ensures { result ≡ is_bad_value value.now }
{
    has_bad_in_value(value) || begins_blank(value) || ends_blank(value)
}

// rule: 8.2.1 A value that begins or ends with a space or a tab breaks M2
/// Whether the first octet is a space or a tab.
#[tactic(auto, unfolding(crate::specs::Octets::begins_blank))]
fn begins_blank(value: &[u8]) -> bool
    ensures { result ≡ begins_blank value.now }
{
    match value {
        [first, ..] => is_blank(*first),
        [] => false,
    }
}

// rule: 8.2.1 A value that begins or ends with a space or a tab breaks M2
/// Whether the last octet is a space or a tab.
fn ends_blank(value: &[u8]) -> bool
    ensures { result ≡ begins_blank (reverse value.now) }
{
    match value {
        [.., last] => is_blank(*last),
        [] => false,
    }
}

// rule: 8.2.1 A value that begins or ends with a space or a tab breaks M2
/// Whether an octet is a space or a tab.
#[inline(always)]
#[tactic(auto, unfolding(crate::specs::Octets::is_blank))]
fn is_blank(octet: u8) -> bool
    ensures { result ≡ is_blank octet }
{
    octet <= b' ' && is_blank_of_low(octet)
}

/// The same for an octet up to a space, with which few values begin or end.
#[inline(never)]
#[tactic(auto, unfolding(crate::specs::Octets::is_blank))]
fn is_blank_of_low(octet: u8) -> bool
    ensures { result ≡ is_blank octet }
{
    octet == b' ' || octet == b'\t'
}

/// Whether the octets are this text.
#[inline(always)]
pub(crate) fn is_text<const N: usize>(octets: &[u8], text: &[u8; N]) -> bool
    ensures { result ≡ bytes_eq octets.now text.now }
{
    match octets.as_array::<N>() {
        None => false,
        Some(array) => *array == *text,
    }
}

// rule: 8.3.1 An :authority with an @ in it names a user, and a call says so
// contract: 8.3.1 An :authority with an @ in it names a user, and a call says so
/// Returns whether an authority (the value of `:authority`) names a user, as `user@example.com`
/// does. Section 8.3.1 forbids that for `http` and `https`, but no check refuses it: a server that
/// wants to refuse it has to call this function and answer with status 400, as a `Connection`
/// of `h2_server` does.
#[tactic(auto, unfolding(crate::specs::Octets::names_user))]
pub fn names_user(authority: &[u8]) -> bool
    ensures { result ≡ names_user authority.now }
{
    authority.contains(&b'@')
}
