//! The two ends of a connection.

/// Which end of a connection it is.
#[derive(Clone, Copy, Debug, PartialEq, Eq, Hash)]
pub enum Role {
    /// The end that connects, sends the preface, and opens streams with odd numbers (RFC 9113,
    /// sections 3.4 and 5.1.1).
    Client,
    /// The end that accepts the connection. It opens no streams, since there is no push.
    Server,
}
