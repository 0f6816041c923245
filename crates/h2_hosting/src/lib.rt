//! Serves many connections at once, over sockets: a folder or an echo, as `h2 host` does, or with
//! any other handler.
//!
//! [`host_port`] runs the loop over sockets, a [`Driver`](h2_mio::Driver) of `h2_mio`, whose
//! connections are [`Guest`]s. Each holds a [`Connection`](h2_server::Connection) with its handler
//! and its limits. The handler is a [`Logged`], which wraps a [`Site`] or an echo.
//! [`host_handlers`] serves with any other handler.
#![tactic(auto)]

mod guest;
mod guests;
mod hosting;
mod journal;
mod logged;
mod note;
mod serving;
mod site;
mod window;

pub use guest::{Guest, Leaves, Widens};
pub use guests::{Guests, Makes};
pub use h2_host::Limits;
pub use h2_mio::Place;
pub use h2_server::{Config, ConnectionLimits, FloodLimits, TimeLimits};
pub use hosting::{HostOptions, host_port};
pub use journal::{Journal, TakesLines};
pub use logged::{Logged, Note};
pub use serving::{HostSettings, host_handlers};
pub use site::Site;
pub use window::Windows;
