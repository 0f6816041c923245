//! What counts as done of a call of a client.

ghost use Rattle.std.specs.Prelude.{◌≡◌};
ghost use Rattle.h2_fetch.specs.GivingUp.{unless_over};

use h2_ends::Refusal;

/// Lets a reset that was refused since its stream is not active count as done.
pub(crate) fn unless_over(reset: Result<(), Refusal>) -> Result<(), Refusal>
    ensures { result ≡ unless_over reset }
{
    match reset {
        Err(Refusal::NoSuchStream) => Ok(()),
        other => other,
    }
}
