//! Notes what frames allow.

ghost use Rattle.std.specs.Prelude.{◌≡◌, OnOk};
ghost use Rattle.h2_frame.specs.Frames.{frame_of};
ghost use Rattle.h2_follow.specs.InForce.{after_others, after_own, bound_of};

use crate::in_force::InForce;
use h2_frame::FrameRef;
use std::alloc::AllocError;

// contract: follow (own) What a side may send follows the other's SETTINGS, and its own ACK
// rule: follow (own) What a side may send follows the other's SETTINGS, and its own ACK
/// Notes what a frame of a side changes: an ACK in what the other side allows it, SETTINGS in
/// what it allows the other.
///
/// # Errors
///
/// [`AllocError`] if out of memory.
pub(crate) fn note_frame(
    frame: FrameRef<'_>,
    own: &mut InForce,
    others: &mut InForce,
) -> Result<(), AllocError>
    ensures own { OnOk result (bound_of own.new
        ≡ after_own (frame_of frame.entry) (bound_of own.old)) }
    ensures others { OnOk result (bound_of others.new
        ≡ after_others (frame_of frame.entry) (bound_of others.old)) }
{
    match frame {
        FrameRef::Settings { ack: true, .. } => {
            own.acknowledge();
            Ok(())
        }
        FrameRef::Settings { ack: false, pairs } => others.announce(pairs),
        _ => Ok(()),
    }
}
