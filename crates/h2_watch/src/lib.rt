//! A link that shows its frames while it is used, written and read, each line after the mark of
//! its side as in `show --follow`.
#![tactic(auto)]

mod link;
mod watch;

pub use link::WatchedLink;
pub use watch::Watch;
