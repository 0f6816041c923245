//! Replays: a list of acts, calls or octets received, is made on a new end of a connection, and
//! everything that happens is kept, in order.
//!
//! What is kept is what the definitions of an end say of these acts. The laws say what follows:
//! which octets are written, which events are reported, and what is refused.
#![tactic(auto)]

mod acts;
mod calls;
mod events;
mod laws;
mod run;
mod taking;
mod turns;
mod waiting;

pub use acts::Act;
pub use h2_conn::{Config, Event, Refusal, Role};
pub use hpack::Field;
pub use laws::{
    calls_of_a_replay, events_of_a_replay, fault_of_a_replay, output_of_a_replay,
    turns_are_of_the_log, windows_of_a_replay,
};
pub use run::replay;
pub use turns::{Answer, Log, Turn};
