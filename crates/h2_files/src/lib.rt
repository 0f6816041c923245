//! The pure part of serving a folder over HTTP: no file system, no clock and no connection.
//!
//! [`file_names`] reads the path of a request as names below a root, and refuses what would leave
//! it; [`path_below`] joins them. [`media_type`] is the type of a file by its name. [`Version`] is
//! what a file's validators are made of, and [`Conditions::answer`] which of 200, 206, 304, 412
//! and 416 an answer has (RFC 9110, sections 13 and 14).
#![tactic(auto)]

mod conditions;
mod cut;
mod dates;
mod fault;
mod laws;
mod media;
mod methods;
mod names;
mod range;
mod segments;
mod version;

pub use conditions::{Answer, Conditions};
pub use fault::PathFault;
pub use laws::segments_are_names;
pub use media::media_type;
pub use methods::{ALLOW, Method};
pub use names::{MAX_PATH, file_names, path_below};
pub use range::{Ranged, content_range, number_of_digits, range_of, unsatisfied_range};
pub use segments::MAX_NAME;
pub use version::Version;
