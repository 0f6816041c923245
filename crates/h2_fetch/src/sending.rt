//! What a client sends over a link.

ghost use Rattle.std.specs.Prelude.{◌≡◌, ◌≢◌, ◌<◌, ◌-◌, ◌^◌, IfErr};
ghost use Rattle.h2_engines.specs.Failures.{EndsWriting, IsOfClient, failures_at_end, failures_by};
ghost use Rattle.h2_engines.specs.Linked.{traffic};
ghost use Rattle.h2_fetch.specs.Reads.{EndsOver};
ghost use Rattle.h2_fetch.specs.Sends.{SendsAllOver};

use h2_ends::Client;
use h2_engines::{Credit, send_waiting, write_out};
use h2_frame::limits::FULL_OUTPUT;
use h2_link::{Link, LinkError};

// rule: engines (own) Over a link credit is returned and what could be sent is sent
/// Returns credit, sends what waits of the requests, and writes the output, until nothing more
/// can go.
pub(crate) fn send_all<L: Link>(
    client: &mut Client,
    credit: Credit,
    link: &mut L,
) -> Result<(), LinkError>
    requires { L.faults link.old < 2 ^ 64 - 1 }
    ensures sends { SendsAllOver credit
        (traffic (L.given link.old) (L.taken link.old) (L.stalled link.old))
        (traffic (L.given link.new) (L.taken link.new) (L.stalled link.new))
        client.old.end client.new.end result }
    ensures failures { L.faults link.new ≡ failures_at_end (L.faults link.old) result }
    ensures err { IfErr result EndsWriting }
{
    for _ in 0..u64::MAX {
        send_waiting(client, credit)?;
        let is_full = client.conn().waiting() >= FULL_OUTPUT;
        write_out(client, link)?;
        if !is_full {
            return Ok(());
        }
    }
    Err(LinkError::NoProgress)
}

/// Ends a fetch with this error. Where the connection has failed, writes what waits first.
pub(crate) fn end_early<L: Link>(client: &mut Client, link: &mut L, error: LinkError) -> LinkError
    requires fits { L.faults link.old < 2 ^ 64 - 1 }
    requires is { IsOfClient error }
    requires goes { error ≢ LinkError.CutOff }
    ensures ends { EndsOver
        (traffic (L.given link.old) (L.taken link.old) (L.stalled link.old))
        (traffic (L.given link.new) (L.taken link.new) (L.stalled link.new))
        client.old.end client.new.end error result }
    ensures failures { L.faults link.new ≡ failures_by (L.faults link.old) result }
    ensures goes { result ≢ LinkError.CutOff }
{
    if client.conn().failed().is_none() {
        return error;
    }
    match write_out(client, link) {
        Ok(()) => error,
        Err(unwritten) => unwritten,
    }
}
