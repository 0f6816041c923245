//! Rounds, until two ends are quiet.

ghost use Rattle.std.specs.Prelude.{◌≡◌, false};
ghost use Rattle.h2_settle.specs.Settling.{Settles};

use crate::rounds::{Ending, make_round};
use h2_joined::{Joined, Side};

/// How [`settle`] has ended.
///
/// If no end has failed, no memory was refused and `rounds` is less than `most`, the two ends
/// are quiet. If `rounds` is `most`, [`Joined::quiet`] says whether they are.
#[derive(Clone, Copy, Debug, PartialEq, Eq)]
pub struct Settled {
    /// How many rounds were completed: in each of them no act was refused memory and no end
    /// failed. At most `most`, and within the two bounds that [`settle`] states.
    pub rounds: u64,
    /// The end that had failed before the first round or failed in the last act; the client, if
    /// both have. `None` where the ends are quiet, `memory` is true or `rounds` is `most`.
    pub failed: Option<Side>,
    /// Whether the last act was refused memory, in a round that `rounds` doesn't count. If an end
    /// is refused memory while it takes octets, it fails with INTERNAL_ERROR instead: see `failed`.
    pub memory: bool,
}

// rule: joined (own) settle makes rounds until the ends are quiet or one has failed
// contract: joined (own) settle makes rounds until the ends are quiet or one has failed
/// Drives two joined ends until they are quiet, in at most `most` rounds, and returns how that has
/// ended. It stops once the ends are quiet ([`Joined::quiet`], checked before each round), once an
/// end has failed, or once an act was refused memory. With `most` 0 it performs no act.
///
/// A round is eight acts. Both ends return all credit that they owe
/// ([`JointAct::ReleaseAll`](h2_joined::JointAct::ReleaseAll)), both pump
/// ([`JointAct::Pump`](h2_joined::JointAct::Pump)), both outputs are moved to the pipes
/// ([`JointAct::Move`](h2_joined::JointAct::Move)), and both pipes are delivered, to the server
/// first ([`JointAct::Deliver`](h2_joined::JointAct::Deliver)). A `ReleaseAll` that is refused
/// because the output is full does not end the round.
///
/// With a `most` above either of the two bounds below, such as `u64::MAX`, it always stops for one
/// of these three reasons. The number of rounds is at most:
///
/// - 10, plus 2 for each share and each piece that waits at either end at the start (`most_rounds`
///   of `h2_laws_quiet`). All octets of bodies that wait at an end, taken together, are cut into
///   shares of 65,535 octets, or of the initial window that the reader has sent last, if that is
///   less. A piece is what waits of a body, a list of trailers, or the end of a message.
/// - 1 more than the work left at the start (`work_left`), which is the sum of: 3 for each octet
///   of a body, each list of trailers and each end of a message that waits; 2 for each octet of
///   credit that is not returned; and, for each frame or field block in the outputs and pipes, 1,
///   plus 1 if it has to be answered (SETTINGS, PING), plus 2 for each octet that it takes from
///   the windows.
///
/// If it ends with quiet ends, all that was accepted has been sent and handed out at the other end,
/// however small the windows were, on each stream that was neither reset before nor reported as
/// unprocessed ([`settled_messages_arrive`](crate::settled_messages_arrive)).
///
/// It makes no request and no response. It returns credit at both ends at once, so it doesn't show
/// how an application that returns credit late or never behaves.
pub fn settle(joined: &mut Joined, most: u64) -> Settled
    ensures { Settles joined.old most result joined.new }
{
    for rounds in 0..most {
        if joined.quiet() {
            return Settled::after(rounds);
        }
        match make_round(joined) {
            Ending::Whole => {}
            Ending::Failed(side) => {
                return Settled {
                    failed: Some(side),
                    ..Settled::after(rounds)
                };
            }
            Ending::NoMemory => {
                return Settled {
                    memory: true,
                    ..Settled::after(rounds)
                };
            }
        }
    }
    Settled::after(most)
}

impl Settled {
    /// Returns the result after so many rounds, without a failure.
    fn after(rounds: u64) -> Settled
        ensures { result ≡ record { rounds = rounds; failed = None; memory = false } }
    {
        Settled {
            rounds,
            failed: None,
            memory: false,
        }
    }
}
