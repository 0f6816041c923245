//! Acts: calls of an end, and octets that it receives.

use h2_conn::Config;
use h2_frame::Code;
use hpack::Field;

/// A call with its arguments, or octets that were received.
#[derive(Drop)]
pub enum Act {
    /// Octets were received: [`Conn::take`](h2_conn::Conn::take) is called until it has used
    /// them and reports nothing more, or the connection has failed.
    Take(Vec<u8>),
    /// [`Conn::open`](h2_conn::Conn::open).
    Open {
        /// The fields.
        fields: Vec<Field>,
        /// Whether END_STREAM is set: no fields or DATA follow on the stream.
        end: bool,
    },
    /// [`Conn::fields`](h2_conn::Conn::fields).
    Fields {
        /// The stream.
        id: u32,
        /// The fields.
        fields: Vec<Field>,
        /// Whether END_STREAM is set: no fields or DATA follow on the stream.
        end: bool,
    },
    /// [`Conn::data`](h2_conn::Conn::data).
    Data {
        /// The stream.
        id: u32,
        /// The octets of the body.
        octets: Vec<u8>,
        /// Whether END_STREAM is set: no fields or DATA follow on the stream.
        end: bool,
    },
    /// [`Conn::release`](h2_conn::Conn::release).
    Release {
        /// The stream.
        id: u32,
        /// The number of octets that are released.
        count: u32,
    },
    /// [`Conn::widen`](h2_conn::Conn::widen), by this number of octets.
    Widen(u32),
    /// [`Conn::reset`](h2_conn::Conn::reset).
    Reset {
        /// The stream.
        id: u32,
        /// The error code (RFC 9113, section 7).
        code: u32,
    },
    /// [`Conn::refuse`](h2_conn::Conn::refuse).
    Refuse {
        /// The stream.
        id: u32,
        /// The error code (RFC 9113, section 7).
        code: u32,
    },
    /// [`Conn::ping`](h2_conn::Conn::ping).
    Ping([u8; 8]),
    /// [`Conn::go_away`](h2_conn::Conn::go_away).
    GoAway,
    /// [`Conn::fail`](h2_conn::Conn::fail).
    Fail(Code),
    /// [`Conn::put_out`](h2_conn::Conn::put_out), of at most this number of octets.
    PutOut(usize),
    /// [`Conn::change_settings`](h2_conn::Conn::change_settings).
    ChangeSettings(Config),
}
