//! What waits at two quiet ends: nothing.

ghost use Rattle.std.specs.Prelude.{ℕ, List};
ghost use Rattle.h2_spec_log.specs.Acts.{Values};
ghost use Rattle.h2_joined.specs.Joints.{JointEnd, Made, IsJoint};
ghost use Rattle.h2_joined.specs.Headline.{AreQuiet};
ghost use Rattle.h2_laws_quiet.specs.Arrived.{HasArrived, WasSpared};

// contract: joined (own) Two ends that are driven get quiet, and all that was accepted arrives
/// At two quiet ends nothing waits, and all that was accepted has arrived, on each stream that
/// is still active and on each that was not reset. Flow control holds nothing back: in a quiet
/// pair all windows are open.
pub fn nothing_waits_at_a_quiet_pair()
    ensures at_client { (client_values server_values : Values) (made : List Made)
        (client server : JointEnd) (i : ℕ)
        → IsJoint client_values server_values made client server → AreQuiet client server
        → WasSpared made client client i → HasArrived client.happened server.happened i }
    ensures at_server { (client_values server_values : Values) (made : List Made)
        (client server : JointEnd) (i : ℕ)
        → IsJoint client_values server_values made client server → AreQuiet client server
        → WasSpared made client server i → HasArrived server.happened client.happened i }
{}
