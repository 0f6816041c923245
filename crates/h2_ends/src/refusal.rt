//! Why a call of a client or a server is refused.

ghost use Rattle.std.specs.Prelude.{◌≡◌};

use h2_message::{Malformed, Message};
use h2_spec_log::Refusal;
use thiserror::Error;

/// Why a call was refused. [`EndRefusal::NotAsked`] (E3) is checked first, then
/// [`EndRefusal::Answered`] (E4), [`EndRefusal::BadMessage`] (E1) and [`EndRefusal::Conn`] (E2). A
/// refused call has changed nothing, unless its documentation says otherwise.
#[derive(Clone, Copy, Debug, PartialEq, Eq, Hash, Error)]
pub enum EndRefusal {
    /// E1: the message is malformed; the value is the first rule that it breaks.
    #[error("E1 BadMessage: {0}")]
    BadMessage(Malformed),
    /// E2: the connection refuses the call; the value is why.
    #[error("E2 Conn: {0}")]
    Conn(Refusal),
    /// E3: the stream isn't active; or, for a server's `respond` and `begin`, no request on it was
    /// handed out; or, for `send_body` and `send_trailers`, no message was begun on it, or the
    /// message has ended.
    #[error("E3 NotAsked: the stream has no request to answer, or no open message")]
    NotAsked,
    /// E4: the stream has its response, or one was begun.
    #[error("E4 Answered: the request was answered already")]
    Answered,
}

impl From<(Message, EndRefusal)> for EndRefusal {
    ghost from_gives = { λ back made. made ≡ back.1 };

    /// Returns the refusal, and drops the message that was handed back.
    fn from(back: (Message, EndRefusal)) -> EndRefusal {
        let (_, refusal) = back;
        refusal
    }
}

impl From<Malformed> for EndRefusal {
    ghost use Rattle.h2_ends.specs.declared.refusal.EndRefusal.TheVariants.{BadMessage};

    ghost from_gives = { λ rule made. made ≡ BadMessage rule };

    fn from(rule: Malformed) -> EndRefusal {
        EndRefusal::BadMessage(rule)
    }
}

impl From<Refusal> for EndRefusal {
    ghost use Rattle.h2_ends.specs.declared.refusal.EndRefusal.TheVariants.{Conn};

    ghost from_gives = { λ refusal made. made ≡ Conn refusal };

    fn from(refusal: Refusal) -> EndRefusal {
        EndRefusal::Conn(refusal)
    }
}
