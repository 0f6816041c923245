//! Lists of acts.

ghost use Rattle.std.specs.Prelude.{◌≡◌, ◌↔◌, false, List, IfOk, OnOk, OnErr};
ghost use Rattle.h2_flow.specs.ConfigValues.{values_of};
ghost use Rattle.h2_spec_log.specs.Acts.{Values};
ghost use Rattle.h2_joined.specs.declared.joined.Joined as types;
ghost use Rattle.h2_joined.specs.Joints.{JointEnd, Made};
ghost use Rattle.h2_joined.specs.Kept.{JoinedRepresents};
ghost use Rattle.h2_joined.specs.Runs.{Runs, HasHeadline, GotMemory, MakesAll, StopsAtAct};

use crate::act::{Acted, JointAct};
use crate::joined::Joined;
use h2_ends::{Config, EndRefusal, Refusal};
use std::alloc::{AllocError, Global};

// contract: joined (own) What one end has handed out is a prefix of what the other accepted
/// What each of two joined ends has handed out on a stream is a prefix of what the other has
/// accepted for it, whatever acts were made. This is the main law of this library. If no
/// connection has failed for lack of memory and no [`JointAct::Fail`] was made, neither end
/// reports a fault. No DATA of either end exceeds the windows of its stream and of the connection,
/// as `h2_laws_end::no_data_passes_windows` says of one end. Once the pair is quiet
/// ([`Joined::quiet`]), all that was accepted was handed out, on every stream that was neither
/// reset nor reported as unprocessed.
///
/// For any other peer, the contracts of [`Conn::take`](h2_ends::Conn::take),
/// [`Client::take`](h2_ends::Client::take) and [`Server::take`](h2_ends::Server::take) say what
/// `take` returns for its octets.
pub fn headline()
    ensures { (client_values server_values : Values) (joined : types.Joined) (made : List Made)
        (client server : JointEnd)
        → JoinedRepresents client_values server_values joined made client server
        → HasHeadline client_values server_values joined made client server }
{}

// contract: joined (own) What one end has handed out is a prefix of what the other accepted
// rule: joined (own) What one end has handed out is a prefix of what the other accepted
/// Performs the acts, in order, on a new client and a new server; [`headline`] holds for the
/// result. An act that is refused for a reason other than [`Refusal::Memory`] (C12) is no error,
/// and the next one is performed. Nor is it an error if a connection fails with INTERNAL_ERROR
/// because memory was refused while it took octets: see [`Conn::failed`](h2_ends::Conn::failed).
///
/// # Errors
///
/// [`AllocError`] where memory for the two ends was refused, or an act returned
/// [`Acted::Memory`] or was refused with [`Refusal::Memory`] (C12).
pub fn run(
    alloc: Global,
    client: Config,
    server: Config,
    acts: &[JointAct],
) -> Result<Joined, AllocError>
    ensures { IfOk result (λ joined. Runs (values_of client) (values_of server) acts.now joined) }
{
    let mut joined = Joined::new(alloc, client, server)?;
    match joined.act_all(acts) {
        Ok(()) => Ok(joined),
        Err(error) => {
            drop(joined);
            Err(error)
        }
    }
}

impl Joined {
    // contract: joined (own) An act is the call of its name at its end
    /// Performs the acts, in order. An act that is refused for a reason other than
    /// [`Refusal::Memory`] (C12) is no error, and the next one is performed.
    ///
    /// # Errors
    ///
    /// [`AllocError`] where an act returned [`Acted::Memory`], or was refused with
    /// [`Refusal::Memory`] (C12). The acts up to and including that one were performed, and no
    /// other.
    pub fn act_all(&mut self, acts: &[JointAct]) -> Result<(), AllocError>
        ensures ok { OnOk result (MakesAll self.old acts.now self.new) }
        ensures err { OnErr result (StopsAtAct self.old acts.now self.new) }
    {
        for act in acts {
            if was_refused_memory(self.act(act)) {
                return Err(AllocError);
            }
        }
        Ok(())
    }
}

/// Returns whether an act was refused memory.
fn was_refused_memory(acted: Acted) -> bool
    ensures { (result ≡ false) ↔ GotMemory acted }
{
    matches!(
        acted,
        Acted::Memory | Acted::Refused(EndRefusal::Conn(Refusal::Memory))
    )
}
