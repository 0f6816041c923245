//! Why a connection is closed.

use crate::deadlines::Timeout;
use crate::floods::Flood;
use h2_ends::Code;
use h2_host::Bound;

/// Why a connection is closing or closed.
#[derive(Clone, Copy, Debug, PartialEq, Eq)]
pub enum CloseReason {
    /// The peer ended its side, and everything that could be sent was sent.
    Ended,
    /// A graceful shutdown was asked for ([`Connection::leave`](crate::Connection::leave)).
    Asked,
    /// Something took too long. The code is SETTINGS_TIMEOUT for [`Timeout::Opening`], and
    /// ENHANCE_YOUR_CALM otherwise; an idle connection shuts down with NO_ERROR.
    Late(Timeout),
    /// The peer flooded the connection. The code is ENHANCE_YOUR_CALM.
    Flood(Flood),
    /// It, or all connections together, held too much memory, or an allocation was refused.
    Refused(Bound),
    /// The transport failed.
    Lost,
    /// The connection failed with this code: its server had failed with it, or it is
    /// ENHANCE_YOUR_CALM after 1,000 resets.
    Failed(Code),
}
