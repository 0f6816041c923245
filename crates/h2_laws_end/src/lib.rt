//! Laws of one end of a connection, over every log that comes about: its items are its frames,
//! grouped; what a call of `take` answers; what it replies; what it writes can be sent; what it
//! reports. Each is the contract of a function that does nothing.
#![tactic(auto)]

mod activity;
mod pieces;
mod reads;
mod replays;
mod streams;
mod takes;
mod writes;

pub use activity::{
    active_streams_stay_active, owed_octets_are_reported, refused_streams_are_closed,
    streams_become_active,
};
pub use pieces::{pieces_do_not_matter, prefix_of_the_output};
pub use reads::{events_are_of_the_items, items_are_frames_grouped};
pub use replays::replays_are_logs;
pub use streams::{
    events_are_of_streams_in_use, opened_numbers_are_new, over_streams_stay_over,
    released_is_not_owed, sending_gives_no_room,
};
pub use takes::{frames_without_memory_are_taken, take_answers};
pub use writes::{
    blocks_are_of_the_lists, each_is_replied_to, each_step_writes_what_it_owes,
    no_data_passes_windows, nothing_follows_a_failure, receive_window_is_kept,
    stream_window_is_conserved, windows_hold_data, written_items_can_be_sent,
};
