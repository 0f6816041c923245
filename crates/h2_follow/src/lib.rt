//! Prints both directions of a connection as lines of text, from what tshark prints of a capture.
//!
//! [`follow_input`] reads the text of `tshark -q -z follow,tcp,raw,N` from any reader and prints
//! to any writer, so tests run in memory. Each direction is shown as `h2_show` shows one stream.
//! [`show_sides`] shows both sides from two inputs, one for each.
#![tactic(auto)]

mod follow;
mod follower;
mod hint;
mod in_force;
mod marks;
mod noting;
mod one_side;
mod peaks;
mod sides;
mod text;

pub use follow::{FollowOptions, Followed, Unfollowed, follow_input};
pub use h2_cli::{Failure, Status};
pub use h2_show::Side;
pub use hint::FollowHint;
pub use marks::{mark_lines, mark_of};
pub use sides::show_sides;
