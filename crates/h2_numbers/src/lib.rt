//! Values by stream number. A look-up takes about the same time for one number as for a
//! thousand.
#![tactic(auto)]

mod map;
mod table;

pub use map::NumberMap;
pub use table::NumberTable;
