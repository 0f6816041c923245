//! Driving two ends makes no work.

ghost use Rattle.std.specs.Prelude.{◌≡◌, ◌≤◌, ◌+◌, List, None};
ghost use Rattle.h2_spec_log.specs.Acts.{Values};
ghost use Rattle.h2_joined.specs.Joints.{JointEnd, Made, IsJoint, IsNextAct};
ghost use Rattle.h2_laws_quiet.specs.Driving.{IsDriving, received_since};
ghost use Rattle.h2_laws_quiet.specs.Work.{work_left};

// contract: joined (own) Two ends that are driven get quiet, and all that was accepted arrives
/// An act that drives two joined ends doesn't increase the work that is left, as long as
/// neither has failed, and decreases it by at least 1 for each item that it reads. So, whatever
/// the order of acts, once as many items were read as there was work, no such act reads more.
pub fn driving_makes_no_work()
    ensures { (client_values server_values : Values) (made : List Made)
        (client server new_client new_server : JointEnd) (act : Made)
        → IsJoint client_values server_values made client server
        → IsNextAct client server act new_client new_server → IsDriving act.doing
        → new_client.happened.log.failed ≡ None → new_server.happened.log.failed ≡ None
        → work_left new_client.happened new_server.happened
        + (received_since client new_client + received_since server new_server)
        ≤ work_left client.happened server.happened }
{}
