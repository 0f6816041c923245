//! Laws of the machine: it is bounded, the connection's receive window is conserved, and it
//! represents the log after each call, each frame and each other step. Each is the contract of a
//! function that does nothing.
#![tactic(auto)]

mod answers;
mod bounds;
mod machine;
mod windows;

pub use answers::{frames_are_taken_alike, machines_answer_alike, receive_windows_are_alike};
pub use bounds::{
    connection_window_is_kept, entries_are_counted, everything_is_bounded, logs_are_bounded,
    values_are_in_range,
};
pub use machine::{
    calls_preserve_representation, frames_preserve_representation, new_end_represents,
    steps_preserve_representation, steps_without_frames_preserve_representation,
};
pub use windows::{
    connection_updates_are_covered, connection_window_is_conserved, connection_window_of_a_log,
    owed_on_all_streams,
};
