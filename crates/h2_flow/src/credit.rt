//! When credit is returned.

ghost use Rattle.std.specs.Prelude.{◌≡◌};
ghost use Rattle.h2_flow.specs.Credit.{is_credit_due};

use h2_frame::limits::FIRST_WINDOW;

// contract: 6.9 (own) Credit is returned by half of a window
// rule: 6.9 (own) Credit is returned by half of a window
/// Whether credit for `used` octets is due in a window of which the peer may still send `left`
/// (RFC 9113, section 6.9): once it is as much as is left, which is half of the window, and in a
/// window below 65,535 octets always.
pub fn is_credit_due(used: i64, left: i64) -> bool
    ensures { result ≡ is_credit_due used left }
{
    used > 0 && (left <= used || left.saturating_add(used) < i64::from(FIRST_WINDOW))
}
