//! Laws of the definitions of one end by its log: what follows from them, whatever code keeps to
//! them. Each is the contract of a function that does nothing.
#![tactic(auto)]

mod accepts;
mod origins;
mod output;
mod states;
mod tables;
mod turns;
mod windows;

pub use accepts::{
    acknowledgment_is_awaited, block_is_no_fault, connection_update_is_no_fault, data_is_no_fault,
    first_settings_are_no_fault, goaway_is_no_fault, opening_is_no_fault, ping_is_no_fault,
    reset_is_no_fault, settings_are_no_fault, update_is_no_fault, what_may_be_written_is_no_fault,
};
pub use origins::{origin, what_is_written_is_allowed};
pub use output::{output_by_payloads, payload_fits, written_items_are_read};
pub use states::{next_active_stream, states_of_streams};
pub use tables::{block_fits, encoder_of_a_log, limits_agree, tables_in_step};
pub use turns::turns_of_a_log;
pub use windows::{connection_window_meets, stream_window_meets};
