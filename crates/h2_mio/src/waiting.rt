//! How long a driver waits for its sockets.

ghost use Rattle.std.specs.Prelude.{◌≡◌};
ghost use Rattle.h2_mio.specs.Waits.{wait_of};

/// How often the host is told the time, in milliseconds.
pub(crate) const TICK: u64 = 100;

/// The milliseconds for which the driver waits for sockets: 0 if it has something to do.
pub(crate) fn wait_of(has_turns: bool, accepts: bool) -> u64
    ensures { result ≡ wait_of has_turns accepts }
{
    if has_turns || accepts { 0 } else { TICK }
}
