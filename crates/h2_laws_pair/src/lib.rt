//! Two ends of a connection, joined by two pipes: laws of what both have sent and received, over
//! every pair that comes about. Each is the contract of a function that does nothing.
#![tactic(auto)]

mod carried;
mod faults;
mod heard;
mod sent;
mod steps;
mod tables;
mod windows;

pub use carried::{all_arrives, items_are_carried, logs_of_a_pair, octets_are_carried};
pub use faults::{no_faults_of_a_pair, waiting_of_a_pair};
pub use heard::{all_is_heard, heard_is_a_prefix, no_data_is_empty, quiet_messages_are_whole};
pub use sent::what_is_sent_is_written;
pub use steps::{
    calls_give_nothing_out, steps_keep_a_pair, takes_are_steps, unprocessed_streams_are_reported,
};
pub use tables::{acknowledgments_are_awaited, tables_of_a_pair};
pub use windows::{connection_window_of_a_pair, stream_window_of_a_pair};
