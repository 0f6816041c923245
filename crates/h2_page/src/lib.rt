//! Makes one self-contained HTML page of both sides of a connection: [`page_of`] turns the lines
//! of `h2 show --follow` into it.
//!
//! The page's script draws two lifelines, one row for each frame in order, one color for each
//! stream, and bars for the windows. A click folds a stream.
#![tactic(auto)]

mod page;
mod template;

pub use page::{escaped_lines_are_text, lines_stand_in_a_text, page_of};
