//! How serving a connection ends early.

ghost use Rattle.std.specs.Prelude.{◌≡◌, ◌<◌, ◌-◌, ◌^◌, false, true};
ghost use Rattle.h2_engines.specs.Failures.{failures_by};
ghost use Rattle.h2_engines.specs.Linked.{traffic};
ghost use Rattle.h2_serve.specs.Endings.{IsClosedForMemory, IsErrorOf, IsOfDriving};
ghost use Rattle.h2_serve.specs.Serving.{EndsServingFor};
ghost use Rattle.h2_server.specs.Phases.{is_phase_down};

use crate::serve::write_out;
use h2_engines::error_of_code;
use h2_link::{Link, LinkError};
use h2_server::{Bound, CloseReason, Connection, Handler};

// rule: engines (own) N2 has the code with which the connection failed; memory is N3
/// Writes what waits of a connection that cannot go on, GOAWAY last, and returns the error with
/// which serving ends: that of the link, if the write fails.
pub(crate) fn end_early<H: Handler, L: Link>(
    connection: &mut Connection<H>,
    link: &mut L,
) -> LinkError
    requires fits { L.faults link.old < 2 ^ 64 - 1 }
    requires down { is_phase_down connection.old.phase ≡ true }
    ensures ends { EndsServingFor H.Handler
        (traffic (L.given link.old) (L.taken link.old) (L.stalled link.old))
        (traffic (L.given link.new) (L.taken link.new) (L.stalled link.new))
        connection.old connection.new result }
    ensures failures { L.faults link.new ≡ failures_by (L.faults link.old) result }
    ensures err { IsOfDriving result }
{
    match write_out(connection, link) {
        Ok(()) => error_of(connection),
        Err(unwritten) => unwritten,
    }
}

// rule: engines (own) N2 has the code with which the connection failed; memory is N3
/// The error of a connection that has ended: N3 where it was closed because an allocation was
/// refused, or its server is up.
pub(crate) fn error_of<H: Handler>(connection: &Connection<H>) -> LinkError
    ensures error { IsErrorOf connection.now result }
    ensures err { IsOfDriving result }
{
    if is_closed_for_memory(connection) {
        return LinkError::Memory;
    }
    match connection.conn().failed() {
        Some(code) => error_of_code(code),
        None => LinkError::Memory,
    }
}

/// Whether a connection was closed because an allocation was refused.
fn is_closed_for_memory<H: Handler>(connection: &Connection<H>) -> bool
    ensures is { result ≡ true → IsClosedForMemory connection.now }
    ensures not { result ≡ false → IsClosedForMemory connection.now → ⊥ }
{
    matches!(connection.why(), Some(CloseReason::Refused(Bound::Memory)))
}
