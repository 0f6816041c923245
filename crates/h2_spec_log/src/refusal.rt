//! Why a call on an end is refused.

use thiserror::Error;

/// Why a call was refused: the first condition that holds, in the order that each call states.
/// A call of a connection (`Conn`) has then changed nothing.
#[derive(Clone, Copy, Debug, PartialEq, Eq, Hash, Error)]
pub enum Refusal {
    /// C1: the connection has failed, so only calls for output and readers work.
    #[error("C1 Closed: the connection has failed")]
    Closed,
    /// C2: the stream is idle or closed.
    #[error("C2 NoSuchStream: the stream is idle or closed")]
    NoSuchStream,
    /// C3: this end has already sent END_STREAM on the stream.
    #[error("C3 Ended: END_STREAM was already sent on the stream")]
    Ended,
    /// C4: as many streams are active as the peer allows, 1,000 at most, and 100 until its
    /// SETTINGS have come.
    #[error("C4 TooManyStreams: the peer allows no more concurrent streams")]
    TooManyStreams,
    /// C5: the next stream's number is above 2<sup>31</sup> - 1, or this end is a server, which
    /// opens no streams.
    #[error("C5 StreamsExhausted: no stream number is left")]
    StreamsExhausted,
    /// C6: GOAWAY was sent or received. `go_away` is refused only where it was sent.
    #[error("C6 GoingAway: GOAWAY was sent or received")]
    GoingAway,
    /// C7: 65,536 octets or more of output are queued.
    #[error("C7 OutputFull: 65,536 octets of output or more are waiting")]
    OutputFull,
    /// C8: the last PING of this end is not answered yet.
    #[error("C8 PingWaits: the last PING is not answered yet")]
    PingWaits,
    /// C9: this end has already reset 1,000 streams.
    #[error("C9 TooManyResets: 1,000 streams were already reset")]
    TooManyResets,
    /// C10: the size of the field list is above 65,536 octets, counting name, value and 32
    /// octets for each field (RFC 9113, section 6.5.2).
    #[error("C10 ListTooLarge: the field list is larger than 65,536 octets")]
    ListTooLarge,
    /// C11: the count is 0, or more than is owed on the stream.
    #[error("C11 NotOwed: the count is 0, or more than is owed on the stream")]
    NotOwed,
    /// C12: an allocation was refused.
    #[error("C12 Memory: out of memory")]
    Memory,
    /// C13: the last SETTINGS of this end are not acknowledged yet.
    #[error("C13 SettingsWait: the last SETTINGS are not acknowledged yet")]
    SettingsWait,
    /// C14: the count is 0, or would widen the connection's window to more than 2^31 - 1 octets
    /// (RFC 9113, section 6.9.1).
    #[error("C14 WindowTooLarge: the count is 0, or would widen the window above 2^31 - 1")]
    WindowTooLarge,
}
