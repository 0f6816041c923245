//! The commands of the program `h2`.
//!
//! [`run`] takes the words of a command line and returns the program's exit status. Commands
//! read from a reader and print to two writers, and open sockets by the network given, so tests
//! run in memory.
#![tactic(auto)]

mod follow;
mod get;
mod get_several;
mod host;
mod messages;
mod program;
mod rates;
mod replay;
mod show;
mod sides;
mod sockets;

pub use get::cmd_get;
pub use host::cmd_host;
pub use program::{Terminals, no_words, run};
pub use replay::cmd_replay;
pub use show::cmd_show;
pub use sockets::{cmd_loop, cmd_serve};
