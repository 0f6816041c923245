//! Takes octets without lending. The prover accepts no function that lends from the cutter while
//! it changes the end. So the result says where the octets of a body lie, and they are lent from
//! there later.

ghost use Rattle.std.specs.Prelude.{◌≡◌, ℕ, ◌≤◌, List, None, IfOk, length};
ghost use Rattle.h2_spec_machine.specs.Machine.{unprocessed_of_end};
ghost use Rattle.h2_core.specs.Endpoint.{end_of, IsSoundEnd};
ghost use Rattle.h2_conn.specs.Parts.{PartsTake};
ghost use Rattle.h2_conn.specs.Loans.{LiesThere, IsBodyOf};

use crate::counts::Counts;
use crate::taken::Progress;
use crate::why::Why;
use crate::why_of_frame::Before;
use h2_core::Endpoint;
use h2_frame::Code;
use h2_wire::Cutter;

// rule: calls (own) A fault of the octets fails the connection with its code
// rule: calls (own) take uses octets up to one frame's end, and answers one event at most
// rule: 5.4 (own) A frame whole in its piece that needs no memory is never refused any
/// Cuts the piece, and takes and counts the frame that it completes, which may change the limit
/// of payloads. If the connection fails, `why` gets the reason.
pub(crate) fn take_piece(
    cutter: &mut Cutter,
    end: &mut Endpoint,
    counts: &mut Counts,
    why: &mut Option<Why>,
    piece: &[u8],
) -> Result<Progress, Code>
    requires up { end.old.failed ≡ None }
    requires sound { IsSoundEnd (end_of end.old) }
    requires cuts { cutter.old.fault ≡ None }
    requires reported { unprocessed_of_end end.old.role end.old.streams.entries
        end.old.goaway_received ≡ 0 }
    ensures used { IfOk result (λ progress. progress.used ≤ length piece.now) }
    ensures sound { end.new.failed ≡ None → IsSoundEnd (end_of end.new) }
    ensures cuts { end.new.failed ≡ None → cutter.new.fault ≡ None }
    ensures lies { LiesThere cutter.new piece.now result }
    ensures takes { (octets : List ℕ) → IsBodyOf cutter.new piece.now octets result
        → PartsTake cutter.old counts.old why.old (end_of end.old) piece.now end.new.list octets
        result cutter.new counts.new why.new (end_of end.new) }
{
    let advance = match cutter.advance(piece) {
        Ok(advance) => advance,
        Err(fault) => {
            let code = fault.code();
            end.fail_with(code);
            *why = Some(Why::of_octets(fault));
            return Err(code);
        }
    };
    let used = advance.used;
    let Some(complete) = advance.frame else {
        return Ok(Progress {
            used,
            happened: None,
        });
    };
    let frame = cutter.frame(piece, complete);
    let counted = counts.with(frame);
    let before = Before::of(end);
    let event = match end.take_frame(frame) {
        Ok(event) => event,
        Err(code) => {
            // A frame that failed for lack of memory was not taken.
            if code == Code::InternalError {
                *why = Some(Why::OutOfMemory);
            } else {
                // The frame is lent again, so that it need not be kept while it is taken.
                let frame = cutter.frame(piece, complete);
                *counts = counted;
                *why = Some(before.rule_of_frame(frame, code, end));
            }
            return Err(code);
        }
    };
    *counts = counted;
    let happened = match event {
        Some(event) => Some(event.with_parts((), complete)),
        None => None,
    };
    cutter.set_limit(end.payload_limit());
    Ok(Progress { used, happened })
}
