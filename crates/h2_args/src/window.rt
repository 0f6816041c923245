//! The size of a window, as words write it.

ghost use Rattle.std.specs.Prelude.{◌≡◌, ◌<◌, length, option_map};
ghost use Rattle.h2_args.specs.Windows.{digits_of, unit_of, window_or, window_size, window_times};

use h2_files::number_of_digits;

/// The greatest window (RFC 9113, section 6.9.1).
const MOST: u64 = 2_147_483_647;

// contract: engines (own) The size of --window is a number of octets, with k or m for more
// rule: engines (own) The size of --window is a number of octets, with k or m for more
/// Returns the size of a window that a text gives: a number of octets, or with `k` or `m` after
/// it of 1,024 or 1,048,576 octets. Without a text it is the usual size. `None` if it is another
/// text, or if the size is not from 1 to 2,147,483,647 octets.
pub fn window_or(text: Option<&str>, usual: u32) -> Option<u32>
    ensures { result ≡ window_or (option_map (λ text. text.now) text.entry) usual }
{
    match text {
        Some(text) => window_size(text.as_bytes()),
        None => Some(usual),
    }
}

// rule: engines (own) The size of --window is a number of octets, with k or m for more
/// The size that a text writes.
#[tactic(auto, unfolding(crate::specs::Windows::window_size))]
fn window_size(text: &[u8]) -> Option<u32>
    ensures { result ≡ window_size text.now }
{
    let number = number_of_digits(digits_of(text))?;
    window_times(number, unit_of(text))
}

/// The digits before the letter, if there is one.
fn digits_of(text: &[u8]) -> &[u8]
    ensures { result.now ≡ digits_of text.now }
{
    match text {
        _ if unit_of(text) == 1 => text,
        [digits @ .., _] => digits,
        [] => text,
    }
}

/// What the last octet multiplies by.
fn unit_of(text: &[u8]) -> u64
    ensures { result ≡ unit_of text.now }
{
    match text.last() {
        Some(b'k') => 1_024,
        Some(b'm') => 1_048_576,
        _ => 1,
    }
}

/// So many times this many octets, if that is a window.
#[tactic(auto, unfolding(crate::specs::Windows::window_times))]
fn window_times(number: u64, unit: u64) -> Option<u32>
    ensures { result ≡ window_times number unit }
{
    let octets = number.checked_mul(unit)?;
    if octets < 1 || octets > MOST {
        return None;
    }
    Some(octets as u32)
}
