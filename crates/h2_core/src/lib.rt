//! One end of an HTTP/2 connection, but for cutting its input into frames. Each frame and each
//! call is a step, which does what the machine of `h2_spec_machine` does.
//!
//! It knows nothing of logs: `h2_conn` says what an end does after its history.
#![tactic(auto)]

mod calls;
mod control_calls;
mod credit;
mod endpoint;
mod event;
mod failing;
mod frames;
mod new;
mod output;
mod peer_room;
mod readers;
mod receive;
mod receive_block;
mod receive_settings;
mod receive_update;
mod settings_frame;
mod shared_calls;
mod status;
mod step_error;
mod stream_steps;
mod unprocessed;
mod widen;

pub use endpoint::Endpoint;
pub use event::Event;
pub use receive_settings::GreatestWindow;
