//! A law does nothing: each is called once.

#[test]
fn laws_of_hpack_text() {
    hpack_text::no_code_begins_another();
    hpack_text::some_code_begins();
    hpack_text::one_text();
    hpack_text::one_coding();
    hpack_text::one_coding_fault();
    hpack_text::no_integer_begins_another();
    hpack_text::shortest_integer();
    hpack_text::no_string_begins_another();
    hpack_text::written_string();
}

#[test]
fn laws_of_hpack() {
    hpack::longest_prefix();
    hpack::no_update_after_a_field();
    hpack::one_block();
    hpack::least_and_last();
    hpack::most_octets_of_a_block();
    hpack::written_block();
}

// rule: 4.1 Octets encode at most one frame
#[test]
fn laws_of_h2_frame() {
    h2_frame::one_frame();
    h2_frame::nine_octets();
    h2_frame::within_limit();
    h2_frame::written_frame_is_read();
}

// rule: 5.4.1 A stream of octets has one fault at most, at one place
#[test]
fn laws_of_h2_wire() {
    h2_wire::one_reading();
    h2_wire::frames_are_read_with_wider_limits();
    h2_wire::one_fault();
    h2_wire::no_reading_past_a_fault();
    h2_wire::nothing_in_a_partial_frame();
}

#[test]
fn laws_of_h2_block() {
    h2_block::one_grouping();
    h2_block::no_grouping_past_a_fault();
    h2_block::spread_block();
}

#[test]
fn laws_of_h2_flow() {
    h2_flow::values_in_range();
}

#[test]
fn laws_of_h2_spec_log() {
    h2_spec_log::block_in_its_encoding();
    h2_spec_log::frame_in_its_encoding();
    h2_spec_log::frames_of_a_log();
}

// rule: 4.1 What an end sends is read as its frames, without a fault
// rule: 4.3 A block that may be sent is one that may be gathered
#[test]
fn laws_of_h2_laws_log_first() {
    h2_laws_log::acknowledgment_is_awaited();
    h2_laws_log::block_fits();
    h2_laws_log::block_is_no_fault();
    h2_laws_log::connection_update_is_no_fault();
    h2_laws_log::connection_window_meets();
    h2_laws_log::data_is_no_fault();
    h2_laws_log::encoder_of_a_log();
    h2_laws_log::first_settings_are_no_fault();
    h2_laws_log::goaway_is_no_fault();
    h2_laws_log::limits_agree();
    h2_laws_log::next_active_stream();
    h2_laws_log::opening_is_no_fault();
}

// rule: 4.1 What an end sends is read as its frames, without a fault
// rule: 4.3 A block that may be sent is one that may be gathered
#[test]
fn laws_of_h2_laws_log_second() {
    h2_laws_log::origin();
    h2_laws_log::payload_fits();
    h2_laws_log::ping_is_no_fault();
    h2_laws_log::reset_is_no_fault();
    h2_laws_log::settings_are_no_fault();
    h2_laws_log::states_of_streams();
    h2_laws_log::stream_window_meets();
    h2_laws_log::tables_in_step();
    h2_laws_log::turns_of_a_log();
    h2_laws_log::update_is_no_fault();
    h2_laws_log::what_is_written_is_allowed();
    h2_laws_log::what_may_be_written_is_no_fault();
    h2_laws_log::written_items_are_read();
}

// rule: 5.1 A used number stays used, and a stream that is over stays over
// rule: 5.1 A stream becomes active, and ceases to be, by calls and events alone
// rule: 6.9 Where nothing is owed nothing is, until octets are reported
#[test]
fn laws_of_h2_laws_end_first() {
    h2_laws_end::active_streams_stay_active();
    h2_laws_end::blocks_are_of_the_lists();
    h2_laws_end::each_is_replied_to();
    h2_laws_end::each_step_writes_what_it_owes();
    h2_laws_end::events_are_of_streams_in_use();
    h2_laws_end::events_are_of_the_items();
    h2_laws_end::items_are_frames_grouped();
    h2_laws_end::no_data_passes_windows();
    h2_laws_end::nothing_follows_a_failure();
    h2_laws_end::opened_numbers_are_new();
    h2_laws_end::over_streams_stay_over();
    h2_laws_end::owed_octets_are_reported();
}

// rule: 5.1 A used number stays used, and a stream that is over stays over
// rule: 5.1 A stream becomes active, and ceases to be, by calls and events alone
// rule: 6.9 Where nothing is owed nothing is, until octets are reported
#[test]
fn laws_of_h2_laws_end_second() {
    h2_laws_end::pieces_do_not_matter();
    h2_laws_end::prefix_of_the_output();
    h2_laws_end::receive_window_is_kept();
    h2_laws_end::refused_streams_are_closed();
    h2_laws_end::released_is_not_owed();
    h2_laws_end::replays_are_logs();
    h2_laws_end::sending_gives_no_room();
    h2_laws_end::stream_window_is_conserved();
    h2_laws_end::streams_become_active();
    h2_laws_end::take_answers();
    h2_laws_end::windows_hold_data();
    h2_laws_end::written_items_can_be_sent();
}

#[test]
fn laws_of_h2_laws_machine_first() {
    h2_laws_machine::calls_preserve_representation();
    h2_laws_machine::connection_updates_are_covered();
    h2_laws_machine::connection_window_is_conserved();
    h2_laws_machine::connection_window_is_kept();
    h2_laws_machine::connection_window_of_a_log();
    h2_laws_machine::entries_are_counted();
    h2_laws_machine::everything_is_bounded();
    h2_laws_machine::frames_are_taken_alike();
}

#[test]
fn laws_of_h2_laws_machine_second() {
    h2_laws_machine::frames_preserve_representation();
    h2_laws_machine::logs_are_bounded();
    h2_laws_machine::machines_answer_alike();
    h2_laws_machine::new_end_represents();
    h2_laws_machine::owed_on_all_streams();
    h2_laws_machine::receive_windows_are_alike();
    h2_laws_machine::steps_preserve_representation();
    h2_laws_machine::steps_without_frames_preserve_representation();
    h2_laws_machine::values_are_in_range();
}

#[test]
fn laws_of_h2_laws_pair_first() {
    h2_laws_pair::acknowledgments_are_awaited();
    h2_laws_pair::all_arrives();
    h2_laws_pair::all_is_heard();
    h2_laws_pair::calls_give_nothing_out();
    h2_laws_pair::connection_window_of_a_pair();
    h2_laws_pair::heard_is_a_prefix();
    h2_laws_pair::items_are_carried();
    h2_laws_pair::logs_of_a_pair();
    h2_laws_pair::no_data_is_empty();
}

#[test]
fn laws_of_h2_laws_pair_second() {
    h2_laws_pair::no_faults_of_a_pair();
    h2_laws_pair::octets_are_carried();
    h2_laws_pair::quiet_messages_are_whole();
    h2_laws_pair::steps_keep_a_pair();
    h2_laws_pair::stream_window_of_a_pair();
    h2_laws_pair::tables_of_a_pair();
    h2_laws_pair::takes_are_steps();
    h2_laws_pair::unprocessed_streams_are_reported();
    h2_laws_pair::waiting_of_a_pair();
    h2_laws_pair::what_is_sent_is_written();
}

#[test]
fn laws_of_h2_laws_show_first() {
    h2_laws_show::good_excludes_fault();
    h2_laws_show::one_output();
    h2_laws_show::one_output_of_an_input();
    h2_laws_show::shown_status_reports();
}

// rule: 4.1 Octets encode a frame exactly where they have no fault
// rule: 5.4.1 Each stream of octets has a reading or a fault; prefixes agree
// rule: 4.3 Each list of frames groups or has a fault; prefixes agree
#[test]
fn laws_of_h2_laws_show_second() {
    h2_laws_show::frames_before_a_fault_continue();
    h2_laws_show::frames_continue();
    h2_laws_show::frames_have_no_fault();
    h2_laws_show::grouping_or_fault();
    h2_laws_show::items_continue();
    h2_laws_show::octets_without_fault_are_a_frame();
    h2_laws_show::reading_or_fault();
}
