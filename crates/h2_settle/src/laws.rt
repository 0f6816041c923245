//! What has arrived once `settle` has ended with quiet ends.

ghost use Rattle.std.specs.Prelude.{ℕ, false, List, None};
ghost use Rattle.h2_spec_log.specs.Acts.{Values};
ghost use Rattle.h2_joined.specs.Joints.{JointEnd, Made, IsJoint};
ghost use Rattle.h2_joined.specs.Headline.{WasResetIn};
ghost use Rattle.h2_laws_quiet.specs.Arrived.{HasArrived};
ghost use Rattle.h2_settle.specs.Settling.{HasSettled};

// contract: joined (own) settle makes rounds until the ends are quiet or one has failed
/// Once [`settle`](crate::settle) has ended with quiet ends, all that either end had accepted
/// has arrived at the other, on each stream on which no `JointAct::Reset` was made before and
/// which the client has not reported as unprocessed.
pub fn settled_messages_arrive()
    ensures at_client { (client_values server_values : Values) (before acts : List Made)
        (rounds : ℕ) (client server new_client new_server : JointEnd) (i : ℕ)
        → IsJoint client_values server_values before client server
        → HasSettled client server rounds None false acts new_client new_server
        → (WasResetIn before new_client i → ⊥)
        → HasArrived new_client.happened new_server.happened i }
    ensures at_server { (client_values server_values : Values) (before acts : List Made)
        (rounds : ℕ) (client server new_client new_server : JointEnd) (i : ℕ)
        → IsJoint client_values server_values before client server
        → HasSettled client server rounds None false acts new_client new_server
        → (WasResetIn before new_client i → ⊥)
        → HasArrived new_server.happened new_client.happened i }
{}
