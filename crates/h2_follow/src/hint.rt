//! Hints about the text or the capture.

/// What is likely wrong with the text or the capture.
#[derive(Clone, Copy, Debug, PartialEq, Eq, Hash)]
pub enum FollowHint {
    /// The input is a packet capture, not text.
    Capture,
    /// This line, counted from 1, is not tshark's.
    BadLine(u64),
    /// The text has no octets.
    NoOctets,
    /// This line, counted from 1, says that the capture lacks octets.
    LostSegment(u64),
    /// The first octets are a request of HTTP/1.1.
    Http1,
    /// The client's octets do not begin with the preface.
    NoPreface,
    /// A frame is longer than the limit, and a greater one can be given.
    LongFrame,
    /// SETTINGS allow a side more than this program supports, so what is reported as its fault
    /// may be none.
    NotChecked,
    /// A block leaves a larger table than the SETTINGS of the other side allow.
    Table,
    /// A side is at fault.
    Fault,
    /// A side ends inside the preface or inside a frame.
    CutOff,
}
