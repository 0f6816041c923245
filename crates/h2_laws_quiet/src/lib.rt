//! Laws of two ends that are driven until they are quiet: what a pump sends, how much work a
//! round leaves, and what is left at two quiet ends. Each is the contract of a function that
//! does nothing.
#![tactic(auto)]

mod pumping;
mod rounds;
mod waiting;
mod windows;
mod working;

pub use pumping::pump_sends_what_could_go;
pub use rounds::{
    driven_ends_get_quiet, driven_messages_arrive, few_rounds_lead_to_quiet,
    quiet_ends_have_no_work, rounds_lead_to_quiet, two_rounds_send_a_window,
};
pub use waiting::nothing_waits_at_a_quiet_pair;
pub use windows::{quiet_ends_have_the_same_streams, windows_of_a_quiet_pair};
pub use working::driving_makes_no_work;
