//! A served connection, and its phases.

use crate::exchanges::Exchanges;
use crate::handler::Handler;
use crate::reason::CloseReason;
use crate::watch::{Readiness, Watch};
use h2_ends::Server;

/// The phase of a connection. It only ever changes to a later one.
#[derive(Clone, Copy, Debug, PartialEq, Eq)]
pub(crate) enum Phase {
    /// It is open.
    Open,
    /// It shuts down gracefully: GOAWAY was queued, and pending requests are answered.
    Ending {
        /// Why.
        why: CloseReason,
        /// The time, in milliseconds, from which `ConnectionLimits::closing` counts.
        since: u64,
    },
    /// It has failed: it takes no input, and its output is still written.
    Failing {
        /// Why.
        why: CloseReason,
        /// The time, in milliseconds, from which `ConnectionLimits::closing` counts.
        since: u64,
    },
    /// It is closed.
    Over(CloseReason),
}

/// One served connection: a server, the handler of its requests, its deadlines and its flood
/// budget. It does no input or output, and reads no clock.
///
/// After each call, a connection that is not down has a server that has not failed. If the server
/// has failed, the connection fails with its code ([`CloseReason::Failed`]). A flood that exceeds
/// its budget fails the connection with ENHANCE_YOUR_CALM ([`CloseReason::Flood`]).
#[derive(Drop)]
pub struct Connection<H: Handler> {
    pub(crate) server: Server,
    pub(crate) exchanges: Exchanges<H>,
    /// Input that was too much for its turn. The octets from `used` on are still to be taken.
    pub(crate) kept: Vec<u8>,
    pub(crate) used: usize,
    pub(crate) readiness: Readiness,
    pub(crate) watch: Watch,
    pub(crate) phase: Phase,
    /// The octets that it held after the last call.
    pub(crate) holds: usize,
    /// Whether it had something to do after the last call: a turn, or a transport to read or write.
    pub(crate) ready: bool,
}
