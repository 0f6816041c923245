//! Rounds bring two joined ends closer to quiet, until they are quiet.

ghost use Rattle.std.specs.Prelude.{◌≡◌, ◌⊎◌, ◌≤◌, ◌<◌, ◌-◌, ℕ, List, None};
ghost use Rattle.h2_spec_log.specs.Acts.{Values};
ghost use Rattle.h2_joined.specs.Joints.{JointEnd, Made, IsJoint};
ghost use Rattle.h2_joined.specs.Headline.{AreQuiet, WasResetIn};
ghost use Rattle.h2_laws_quiet.specs.Arrived.{HasArrived};
ghost use Rattle.h2_ends.specs.EndCalls.{unsent_on};
ghost use Rattle.h2_laws_quiet.specs.MostRounds.{most_rounds};
ghost use Rattle.h2_laws_quiet.specs.Room.{CreditHasRoom, window_ahead};
ghost use Rattle.h2_laws_quiet.specs.Rounds.{IsRound, AreRounds};
ghost use Rattle.h2_laws_quiet.specs.Work.{tokens_on, work_left};

// contract: joined (own) Two ends that are driven get quiet, and all that was accepted arrives
/// After a round in which no memory was refused and neither end failed, the two ends are quiet,
/// or less work is left than before.
pub fn rounds_lead_to_quiet()
    ensures { (client_values server_values : Values) (made : List Made)
        (client server new_client new_server : JointEnd)
        → IsJoint client_values server_values made client server
        → IsRound client server new_client new_server
        → new_client.happened.log.failed ≡ None → new_server.happened.log.failed ≡ None
        → AreQuiet new_client new_server
        ⊎ (work_left new_client.happened new_server.happened
        < work_left client.happened server.happened) }
{}

// contract: joined (own) Two ends that are driven get quiet, and all that was accepted arrives
/// No work is left at two quiet ends.
pub fn quiet_ends_have_no_work()
    ensures { (client_values server_values : Values) (made : List Made)
        (client server : JointEnd) → IsJoint client_values server_values made client server
        → AreQuiet client server → work_left client.happened server.happened ≡ 0 }
{}

// contract: joined (own) Two ends that are driven get quiet, and all that was accepted arrives
/// Two joined ends are quiet after more rounds than the work that was left, whatever acts were
/// made before, where no memory was refused and neither end has failed.
pub fn driven_ends_get_quiet()
    ensures { (client_values server_values : Values) (made : List Made) (count : ℕ)
        (client server new_client new_server : JointEnd)
        → IsJoint client_values server_values made client server
        → AreRounds client server count new_client new_server
        → new_client.happened.log.failed ≡ None → new_server.happened.log.failed ≡ None
        → work_left client.happened server.happened < count → AreQuiet new_client new_server }
{}

// contract: joined (own) Two ends that are driven get quiet, and all that was accepted arrives
/// All that two joined ends have accepted has arrived after more rounds than the work that was
/// left, on each stream that was not reset, whatever acts were made before, where no memory was
/// refused and neither end has failed: flow control leaves nothing stuck.
pub fn driven_messages_arrive()
    ensures at_client { (client_values server_values : Values) (made : List Made) (count : ℕ)
        (client server new_client new_server : JointEnd) (i : ℕ)
        → IsJoint client_values server_values made client server
        → AreRounds client server count new_client new_server
        → new_client.happened.log.failed ≡ None → new_server.happened.log.failed ≡ None
        → work_left client.happened server.happened < count
        → (WasResetIn made new_client i → ⊥)
        → HasArrived new_client.happened new_server.happened i }
    ensures at_server { (client_values server_values : Values) (made : List Made) (count : ℕ)
        (client server new_client new_server : JointEnd) (i : ℕ)
        → IsJoint client_values server_values made client server
        → AreRounds client server count new_client new_server
        → new_client.happened.log.failed ≡ None → new_server.happened.log.failed ≡ None
        → work_left client.happened server.happened < count
        → (WasResetIn made new_client i → ⊥)
        → HasArrived new_server.happened new_client.happened i }
{}

// contract: joined (own) Two ends that are driven get quiet, and all that was accepted arrives
/// Two joined ends are quiet after few rounds (`most_rounds`), whatever acts were made before,
/// where no memory was refused and neither end has failed: ten, and two for each share and each
/// piece that waits at either end. A share is as much of the octets that wait at an end, all
/// together, as a window allows, 65,535 at most. What waits on a stream is up to three pieces:
/// its octets, its trailers and its end.
pub fn few_rounds_lead_to_quiet()
    ensures { (client_values server_values : Values) (made : List Made) (count : ℕ)
        (client server new_client new_server : JointEnd)
        → IsJoint client_values server_values made client server
        → AreRounds client server count new_client new_server
        → new_client.happened.log.failed ≡ None → new_server.happened.log.failed ≡ None
        → most_rounds client.happened server.happened ≤ count → AreQuiet new_client new_server }
{}

// contract: joined (own) Two ends that are driven get quiet, and all that was accepted arrives
/// Two consecutive rounds send a window's worth of octets on the lowest stream on which
/// something waits, or all that wait there if those are fewer, whatever acts were made before
/// and whatever waits on other streams. The window is the last initial window that the reader
/// has sent, 65,535 at most (RFC 9113, section 6.9). A round precedes these two; both ends have
/// room for all credit that they owe as the first begins, and the writer has as the second
/// begins.
pub fn two_rounds_send_a_window()
    ensures to_server { (client_values server_values : Values) (made : List Made)
        (old_client old_server client server mid_client mid_server new_client new_server
        : JointEnd) (i : ℕ)
        → IsJoint client_values server_values made old_client old_server
        → IsRound old_client old_server client server
        → IsRound client server mid_client mid_server
        → IsRound mid_client mid_server new_client new_server
        → new_client.happened.log.failed ≡ None → new_server.happened.log.failed ≡ None
        → CreditHasRoom client.happened.log → CreditHasRoom server.happened.log
        → CreditHasRoom mid_client.happened.log
        → ((j : ℕ) → j < i → tokens_on client.happened j ≡ 0)
        → unsent_on new_client.happened i
        ≤ unsent_on client.happened i - window_ahead server.happened.log }
    ensures to_client { (client_values server_values : Values) (made : List Made)
        (old_client old_server client server mid_client mid_server new_client new_server
        : JointEnd) (i : ℕ)
        → IsJoint client_values server_values made old_client old_server
        → IsRound old_client old_server client server
        → IsRound client server mid_client mid_server
        → IsRound mid_client mid_server new_client new_server
        → new_client.happened.log.failed ≡ None → new_server.happened.log.failed ≡ None
        → CreditHasRoom server.happened.log → CreditHasRoom client.happened.log
        → CreditHasRoom mid_server.happened.log
        → ((j : ℕ) → j < i → tokens_on server.happened j ≡ 0)
        → unsent_on new_server.happened i
        ≤ unsent_on server.happened i - window_ahead client.happened.log }
{}
