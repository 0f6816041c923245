//! Laws are functions that do nothing: each is called.

use h2_ends::{parts_are_sent_at_once, sent_parts_are_readable, shares_are_given_in_turn};
use h2_laws_quiet::{
    driven_ends_get_quiet, driven_messages_arrive, driving_makes_no_work, few_rounds_lead_to_quiet,
    nothing_waits_at_a_quiet_pair, pump_sends_what_could_go, quiet_ends_have_no_work,
    quiet_ends_have_the_same_streams, rounds_lead_to_quiet, two_rounds_send_a_window,
    windows_of_a_quiet_pair,
};
use h2_laws_why::one_reason;
use h2_message::sent_messages_are_well_read;
use h2_replay::{
    calls_of_a_replay, events_of_a_replay, fault_of_a_replay, output_of_a_replay,
    turns_are_of_the_log, windows_of_a_replay,
};

// rule: 5.4.1 (own) A connection that has failed says why
// rule: 8.1 (own) A message that breaks no rule as sent breaks none as read
// rule: 8.1 (own) What has come of a message that breaks no rule can be read
// rule: 8.1 (own) A part of a message is sent where one was begun, and is checked
// rule: 8.1 (own) Between two shares of a stream each other that waits gets one
#[test]
fn laws_are_called() {
    sent_messages_are_well_read();
    sent_parts_are_readable();
    parts_are_sent_at_once();
    shares_are_given_in_turn();
    one_reason();
    turns_are_of_the_log();
    output_of_a_replay();
    events_of_a_replay();
    fault_of_a_replay();
    calls_of_a_replay();
    windows_of_a_replay();
}

// rule: joined (own) Two ends that are driven get quiet, and all that was accepted arrives
#[test]
fn laws_of_driven_ends_are_called() {
    quiet_ends_have_the_same_streams();
    windows_of_a_quiet_pair();
    nothing_waits_at_a_quiet_pair();
    pump_sends_what_could_go();
    driving_makes_no_work();
    rounds_lead_to_quiet();
    quiet_ends_have_no_work();
    driven_ends_get_quiet();
    driven_messages_arrive();
    two_rounds_send_a_window();
    few_rounds_lead_to_quiet();
}
