//! Acts on two joined ends, and their results.

use h2_ends::{Code, Config, EndRefusal, Field, Message};

/// One of the two ends.
#[derive(Clone, Copy, Debug, PartialEq, Eq, Hash)]
pub enum Side {
    /// The client.
    Client,
    /// The server.
    Server,
}

/// An act: a call of one of the two ends, or octets that are moved or delivered. Where an act can
/// be made at either end, the call is that of `Client` or of `Server`; the one of `Client` is named
/// here.
#[derive(Debug, Drop)]
pub enum JointAct {
    /// The client sends a request: [`Client::request`](h2_ends::Client::request).
    Request(Message),
    /// The server sends a response: [`Server::respond`](h2_ends::Server::respond).
    Respond {
        /// The stream of its request.
        id: u32,
        /// The response.
        message: Message,
    },
    /// The client begins a request: [`Client::begin`](h2_ends::Client::begin).
    Begin(Vec<Field>),
    /// The server begins a response: [`Server::begin`](h2_ends::Server::begin).
    BeginResponse {
        /// The stream of its request.
        id: u32,
        /// The head of the response.
        head: Vec<Field>,
    },
    /// An end sends octets of the body of a message that was begun:
    /// [`Client::send_body`](h2_ends::Client::send_body).
    SendBody {
        /// The end.
        side: Side,
        /// The stream of the message.
        id: u32,
        /// The octets.
        octets: Vec<u8>,
        /// Whether they end the message.
        end: bool,
    },
    /// An end sends trailers, which end a message that was begun:
    /// [`Client::send_trailers`](h2_ends::Client::send_trailers).
    SendTrailers {
        /// The end.
        side: Side,
        /// The stream of the message.
        id: u32,
        /// The trailers.
        trailers: Vec<Field>,
    },
    /// An end sends what windows allow of its messages:
    /// [`Client::pump`](h2_ends::Client::pump).
    Pump(Side),
    /// An end sends a share of each of its messages in turn:
    /// [`Client::pump_some`](h2_ends::Client::pump_some).
    PumpSome {
        /// The end.
        side: Side,
        /// The largest share in octets.
        most: usize,
    },
    /// Octets of an end's output are moved to the pipe to the other end.
    Move {
        /// The end whose output it is.
        from: Side,
        /// The most octets to move; all, where the output has fewer.
        count: usize,
    },
    /// Octets of the pipe to an end are given to it: [`Client::take`](h2_ends::Client::take) is
    /// called until it has used them and returns no event.
    Deliver {
        /// The end that takes them.
        to: Side,
        /// The most octets to deliver; all, where the pipe has fewer.
        count: usize,
    },
    /// An end returns all credit that it owes:
    /// [`Client::release_all`](h2_ends::Client::release_all).
    ReleaseAll(Side),
    /// An end returns credit of one stream: [`Client::release`](h2_ends::Client::release).
    Release {
        /// The end.
        side: Side,
        /// The stream.
        id: u32,
        /// How many octets.
        count: u32,
    },
    /// An end widens the connection's window: [`Client::widen`](h2_ends::Client::widen).
    Widen {
        /// The end.
        side: Side,
        /// By how many octets.
        count: u32,
    },
    /// An end resets a stream: [`Client::reset`](h2_ends::Client::reset).
    Reset {
        /// The end.
        side: Side,
        /// The stream.
        id: u32,
        /// The error code (RFC 9113, section 7).
        code: u32,
    },
    /// An end sends PING: [`Client::ping`](h2_ends::Client::ping).
    Ping {
        /// The end.
        side: Side,
        /// The octets of the PING.
        octets: [u8; 8],
    },
    /// An end sends GOAWAY: [`Client::go_away`](h2_ends::Client::go_away).
    GoAway(Side),
    /// An end fails its connection: [`Client::fail`](h2_ends::Client::fail).
    Fail {
        /// The end.
        side: Side,
        /// The code of its GOAWAY.
        code: Code,
    },
    /// An end changes its settings:
    /// [`Client::change_settings`](h2_ends::Client::change_settings).
    ChangeSettings {
        /// The end.
        side: Side,
        /// The new settings.
        config: Config,
    },
}

/// The result of an act.
#[derive(Clone, Copy, Debug, PartialEq, Eq)]
pub enum Acted {
    /// The stream of the request that `Request` has sent or `Begin` has begun.
    Id(u32),
    /// How many octets of bodies `Pump`, `PumpSome` or `SendBody` has sent, or how many octets
    /// `Move` has moved or `Deliver` has delivered.
    Count(usize),
    /// `Respond`, `BeginResponse`, `SendTrailers`, `ReleaseAll`, `Release`, `Widen`, `Reset`,
    /// `Ping`, `GoAway`, `Fail` or `ChangeSettings` was done.
    Done,
    /// The end refused the call. `Deliver` is never refused.
    Refused(EndRefusal),
    /// The end failed with this code while `Deliver` gave it octets, or had failed before.
    Failed(Code),
    /// Memory was refused. If the act is `Request`, `Respond`, `Begin`, `BeginResponse`,
    /// `SendBody` or `SendTrailers`, there was no memory to keep what it is given, and nothing has
    /// changed. If it is `Deliver`, there was no memory for the event that the next call of `take`
    /// might return, and it stopped before that call: the octets that were used are off the pipe,
    /// their events are kept, and another `Deliver` continues from there. `Deliver` would also
    /// stop after 2^64 - 1 calls of `take`, which is not expected.
    Memory,
}
