//! The limits of one connection, each with its reason.

/// Time limits of an open connection, in milliseconds; 0 is no limit. That of deferred responses
/// holds also while the connection is closing.
#[derive(Clone, Copy, Debug, PartialEq, Eq)]
pub struct TimeLimits {
    /// For the preface and the first frame. The default, 10 seconds, is ten round trips of one
    /// second.
    pub opening: u64,
    /// For a frame that has begun, or a field block of several frames. The default, 30 seconds,
    /// is 546 octets a second for a frame of 16,393 octets.
    pub frame: u64,
    /// For the next [`TimeLimits::least_body`] octets of bodies, while a request is incomplete.
    pub body: u64,
    /// The octets of bodies that must arrive within [`TimeLimits::body`].
    pub least_body: u64,
    /// For the next octet of output to be written, while some is queued.
    pub writing: u64,
    /// For the next octet of any response's body to be sent, while an open exchange has a
    /// response. One that was sent in full counts too, as long as its request is incomplete.
    pub answering: u64,
    /// For the next request, while no exchange is open.
    pub idle: u64,
    /// For a response that was deferred ([`Reply::Deferred`](crate::Reply::Deferred)), from the
    /// first tick after its request was complete. Then the client gets status 504, and the
    /// connection goes on.
    pub deferred: u64,
}

/// Flood limits: what a client may send, or make the server send, within a period.
#[derive(Clone, Copy, Debug, PartialEq, Eq)]
pub struct FloodLimits {
    /// The period, in milliseconds.
    pub stretch: u64,
    /// RST_STREAM frames. A browser that leaves five pages, with 100 streams each, sends 500 of
    /// them.
    pub resets: u32,
    /// Empty frames without effect. A good client sends hardly any.
    pub empty: u32,
    /// Streams that the server resets for a fault of the client: malformed requests, other stream
    /// errors, and streams above a limit. Resets by a handler or a call don't count. A good client
    /// causes none.
    pub refused: u32,
    /// Octets of replies to PING and SETTINGS, 17 and 9 each.
    pub replies: u64,
}

impl Default for TimeLimits {
    /// 10 seconds to open, 30 for a frame and for 1,024 octets of bodies, 60 for the next octet
    /// sent and for a deferred response, and 75 without a request.
    fn default() -> TimeLimits {
        TimeLimits {
            opening: 10_000,
            frame: 30_000,
            body: 30_000,
            least_body: 1_024,
            writing: 60_000,
            answering: 60_000,
            idle: 75_000,
            deferred: 60_000,
        }
    }
}

impl Default for FloodLimits {
    /// In 10 seconds: 500 RST_STREAM frames, 500 empty frames, 50 streams reset for a fault of the
    /// client, and 32,768 octets of replies.
    fn default() -> FloodLimits {
        FloodLimits {
            stretch: 10_000,
            resets: 500,
            empty: 500,
            refused: 50,
            replies: 32_768,
        }
    }
}

/// The time limits and flood limits of one connection.
#[derive(Clone, Copy, Debug, PartialEq, Eq)]
pub struct ConnectionLimits {
    /// The time limits.
    pub times: TimeLimits,
    /// The flood limits.
    pub floods: FloodLimits,
    /// Milliseconds for the output to be sent once the connection is closing. The time starts again
    /// whenever [`ConnectionLimits::least_closing`] more octets of bodies were sent or received.
    /// If fewer octets of bodies than that had moved before the connection began to close, they
    /// count towards the first restart; otherwise the count starts at 0.
    pub closing: u64,
    /// The octets of bodies that must be sent or received within [`ConnectionLimits::closing`].
    pub least_closing: u64,
}

impl Default for ConnectionLimits {
    /// The defaults of `times` and `floods`; a closing connection has 5 seconds, which start again
    /// after each 65,536 octets of bodies.
    fn default() -> ConnectionLimits {
        ConnectionLimits {
            times: TimeLimits::default(),
            floods: FloodLimits::default(),
            closing: 5_000,
            least_closing: 65_536,
        }
    }
}

impl ConnectionLimits {
    ghost use Rattle.std.specs.Prelude.{◌≡◌};
    ghost use Rattle.h2_server.specs.Limits.{no_floods, no_times};

    /// No limits: nothing takes too long, and nothing is a flood. `closing` and `least_closing` are
    /// the defaults; they count only if [`Connection::tick`](crate::Connection::tick) is called.
    pub fn unlimited() -> ConnectionLimits
        ensures times { result.times ≡ no_times }
        ensures floods { result.floods ≡ no_floods }
    {
        ConnectionLimits {
            times: TimeLimits {
                opening: 0,
                frame: 0,
                body: 0,
                least_body: 0,
                writing: 0,
                answering: 0,
                idle: 0,
                deferred: 0,
            },
            floods: FloodLimits {
                stretch: u64::MAX,
                resets: u32::MAX,
                empty: u32::MAX,
                refused: u32::MAX,
                replies: u64::MAX,
            },
            ..ConnectionLimits::default()
        }
    }
}
