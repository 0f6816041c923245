//! How an input is replayed.

use h2_conn::Role;

/// How an input is replayed.
#[derive(Clone, Copy, Debug, PartialEq, Eq)]
pub struct ReplayOptions {
    /// Whether the input is hexadecimal text.
    pub hex: bool,
    /// The endpoint that receives the input.
    pub role: Role,
}
