//! Links, which carry the octets of a connection: reads and writes that may fail.
#![tactic(auto)]

mod error;
mod interrupted;
mod link;
mod memory;
mod parts;
mod writing;

pub use error::LinkError;
pub use interrupted::{read_some, write_some};
pub use link::{Link, LinkFault};
pub use memory::MemoryLink;
pub use parts::first_part;
pub use writing::write_all;
