//! The octets that have joined the output.

ghost use Rattle.std.specs.Prelude.{◌≡◌, ◌++◌, ◌-◌, drop, min, IfOk};
ghost use Rattle.h2_spec_log.specs.Acts.{Values};
ghost use Rattle.h2_spec_log.specs.Log.{Log};
ghost use Rattle.h2_conn.specs.Conn.{ConnRepresents};

use h2_conn::Conn;
use std::alloc::{AllocError, Global};

/// The octets that have joined the output in an act that has removed `given` octets from it,
/// where `waited` octets were queued before.
///
/// # Errors
///
/// [`AllocError`] where an allocation was refused.
pub(crate) fn joined_output(
    alloc: Global,
    conn: &Conn,
    waited: usize,
    given: &[u8],
) -> Result<Vec<u8>, AllocError>
    ensures { IfOk result (λ joined. (values : Values) (log : Log)
        → ConnRepresents values conn.now log
        → joined.items ≡ drop waited (given.now ++ drop log.given log.written)) }
{
    let seen = waited.min(given.len());
    let mut joined = Vec::from_slice(alloc, &given[seen..])?;
    conn.append_waiting(waited - seen, &mut joined)?;
    Ok(joined)
}
