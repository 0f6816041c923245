//! Frame types (RFC 9113, section 6).

ghost use Rattle.std.specs.Prelude.{◌≡◌};
ghost use Rattle.h2_frame.specs.Codes.{kind_of, number_of};

/// The type of a frame.
#[derive(Clone, Copy, Debug, PartialEq, Eq, Hash)]
pub enum Kind {
    /// 0, DATA: octets of a message's body.
    Data,
    /// 1, HEADERS: the beginning of a field block.
    Headers,
    /// 2, PRIORITY, which an end ignores.
    Priority,
    /// 3, RST_STREAM: a stream ends with an error code.
    RstStream,
    /// 4, SETTINGS: values, or the acknowledgment of the peer's values.
    Settings,
    /// 5, PUSH_PROMISE, which [`head_fault`](crate::head_fault) refuses.
    PushPromise,
    /// 6, PING: eight octets to be sent back, or the answer with them.
    Ping,
    /// 7, GOAWAY: the sender accepts no further streams.
    GoAway,
    /// 8, WINDOW_UPDATE: more octets may be sent.
    WindowUpdate,
    /// 9, CONTINUATION: the next part of a field block.
    Continuation,
    /// Another type, by its number; [`Kind::from_number`] returns this only for 10 and above.
    Unknown(u8),
}

impl Kind {
    // rule: 6 Each type of frame has its number
    /// Returns the frame type with this number.
    #[tactic(auto, unfolding(crate::specs::Codes::kind_of))]
    pub fn from_number(number: u8) -> Kind
        ensures { result ≡ kind_of number }
    {
        match number {
            0 => Kind::Data,
            1 => Kind::Headers,
            2 => Kind::Priority,
            3 => Kind::RstStream,
            4 => Kind::Settings,
            5 => Kind::PushPromise,
            6 => Kind::Ping,
            7 => Kind::GoAway,
            8 => Kind::WindowUpdate,
            9 => Kind::Continuation,
            other => Kind::Unknown(other),
        }
    }

    // rule: 6 Each type of frame has its number
    /// Returns the type's number.
    pub fn number(self) -> u8
        ensures { result ≡ number_of self }
    {
        match self {
            Kind::Data => 0,
            Kind::Headers => 1,
            Kind::Priority => 2,
            Kind::RstStream => 3,
            Kind::Settings => 4,
            Kind::PushPromise => 5,
            Kind::Ping => 6,
            Kind::GoAway => 7,
            Kind::WindowUpdate => 8,
            Kind::Continuation => 9,
            Kind::Unknown(number) => number,
        }
    }
}
