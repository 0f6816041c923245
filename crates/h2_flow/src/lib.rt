//! This end's settings, each within its bounds, the peer's settings, flow-control windows, and
//! which sides of a stream have ended (RFC 9113, sections 5.1, 6.5 and 6.9): small values that
//! take no memory. A step that breaks a rule is refused.
#![tactic(auto)]

mod config;
mod credit;
mod fault;
mod ranges;
mod settings;
mod stream_state;
mod window;

pub use config::{BadConfig, Config};
pub use credit::is_credit_due;
pub use fault::{BadSetting, Closed, Exceeded, Overflow};
pub use ranges::values_in_range;
pub use settings::Settings;
pub use stream_state::StreamState;
pub use window::Window;
