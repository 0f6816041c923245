//! The command line of `h2`.
//!
//! Each command has a function that reads the words after its name: [`show_args`],
//! [`replay_args`], [`serve_args`], [`get_args`], [`loop_args`] and [`host_args`], and
//! [`follow_args`] if [`asks_follow`] says so. [`asks_messages`] says whether `replay` is given
//! `--messages`, and [`window_or`] reads the value of `--window`. [`no_command`] reads words that
//! do not begin with a command's name. Errors are clap's; their texts are for the user.
#![tactic(auto)]

mod follow;
mod get;
mod host;
mod options;
mod program;
mod replay;
mod show;
mod sockets;
mod window;

pub use follow::{FollowWords, asks_follow, follow_args};
pub use get::{GetOptions, get_args};
pub use host::{HostWords, host_args};
pub use program::no_command;
pub use replay::{asks_messages, replay_args};
pub use show::{ShowWords, show_args};
pub use sockets::{LoopOptions, MOST_POSTED, ServeOptions, loop_args, serve_args};
pub use window::window_or;
