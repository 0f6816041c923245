//! The two kinds of messages.

/// The kind of a message, which decides its pseudo-header fields (RFC 9113, section 8.3).
#[derive(Clone, Copy, Debug, PartialEq, Eq)]
pub(crate) enum Kind {
    /// A request.
    Request,
    /// A response.
    Response,
}
