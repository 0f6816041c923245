//! Refusals of settings, windows and sides of a stream.

use h2_frame::Code;
use thiserror::Error;

/// L1: a flow-control window would be above 2<sup>31</sup> - 1 octets, or, where SETTINGS shift
/// it, below -2<sup>31</sup> (RFC 9113, sections 6.9.1 and 6.9.2). The window is unchanged.
#[derive(Clone, Copy, Debug, PartialEq, Eq, Hash, Error)]
#[error("L1 Overflow: the window would leave its range")]
pub struct Overflow;

/// L2: more octets are taken than the window has; 0 may always be taken (section 6.9.1). The
/// window is unchanged.
#[derive(Clone, Copy, Debug, PartialEq, Eq, Hash, Error)]
#[error("L2 Exceeded: the window is smaller than that")]
pub struct Exceeded;

/// L3: ENABLE_PUSH is above 1, or 1 from a server, INITIAL_WINDOW_SIZE is above
/// 2<sup>31</sup> - 1, or MAX_FRAME_SIZE is below 16,384 or above 2<sup>24</sup> - 1 (section
/// 6.5.2). The connection ends with this code; the settings are unchanged.
#[derive(Clone, Copy, Debug, PartialEq, Eq, Hash, Error)]
#[error("L3 BadSetting: a setting is out of range")]
pub struct BadSetting(pub Code);

/// L4: this side of the stream has already sent END_STREAM (section 5.1).
#[derive(Clone, Copy, Debug, PartialEq, Eq, Hash, Error)]
#[error("L4 Closed: this side of the stream has ended")]
pub struct Closed;
