//! The peer's settings that a connection shows.

/// Two values of the peer's SETTINGS in force (RFC 9113, section 6.5.2); the others are not kept
/// for the caller.
#[derive(Clone, Copy, Debug, PartialEq, Eq, Hash)]
pub struct PeerSettings {
    /// SETTINGS_INITIAL_WINDOW_SIZE (0x04): the number of octets that may be sent on a new stream,
    /// at most 2<sup>31</sup> - 1.
    pub initial_window_size: u32,
    /// SETTINGS_MAX_FRAME_SIZE (0x05): the largest payload, in octets, that the peer reads, from
    /// 16,384 to 2<sup>24</sup> - 1. This library sends at most 65,536 octets in a payload,
    /// whatever this value is.
    pub max_frame_size: u32,
}
