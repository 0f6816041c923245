//! What is known of a field whose octets were appended to a vector.

/// A field that was read: its name and then its value were appended.
#[derive(Clone, Copy, Debug)]
pub(crate) struct ReadField {
    /// The number of octets of its name.
    pub(crate) name_len: usize,
    /// Whether it was read as a literal that is never indexed.
    pub(crate) sensitive: bool,
    /// The number of octets that encode it.
    pub(crate) count: usize,
}
