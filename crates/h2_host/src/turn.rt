//! Turns, and what a connection may do in one.

ghost use Rattle.std.specs.Prelude.{◌≡◌};
ghost use Rattle.h2_host.specs.Turns.{counted_in, has_turn, is_time, needs_turn, turn_left};
ghost use Rattle.h2_host.specs.Turns.{turn_of};

use crate::party::Own;
use crate::token::Token;

/// The maximum number of octets taken in a turn: those of two frames with payloads of 16,384
/// octets, the greatest length that every end accepts (RFC 9113, section 4.2), and their heads.
pub const MOST_TAKEN: usize = 32_786;

/// The maximum number of octets given in a turn.
pub const MOST_GIVEN: usize = 65_536;

/// Whose turn it is, and what was used of it.
#[derive(Clone, Copy, Debug)]
pub struct Turn {
    /// Whose turn it is, if anyone's.
    pub(crate) token: Option<Token>,
    /// Whether octets were received in it.
    pub(crate) came: bool,
    /// Whether the connection has acted in it.
    pub(crate) asked: bool,
    /// The octets written in it.
    pub(crate) gave: usize,
}

impl Turn {
    /// A new turn.
    pub(crate) fn of(token: Option<Token>) -> Turn
        ensures { result ≡ turn_of token }
    {
        Turn {
            token,
            came: false,
            asked: false,
            gave: 0,
        }
    }

    /// Whether it is the turn of this connection.
    pub(crate) fn is_of(&self, token: Token) -> bool
        ensures { result ≡ has_turn self.now.token token }
    {
        match self.token {
            Some(one) => one.place == token.place && one.generation == token.generation,
            None => false,
        }
    }

    /// The turn after a step of a connection; none if the step is not allowed now.
    pub(crate) fn after(self, token: Token, own: Own, octets: usize) -> Option<Turn>
        ensures { result ≡ turn_left self token own octets }
    {
        if is_time_step(own) {
            return None;
        }
        if !is_of_turn(own) {
            return Some(self);
        }
        if self.is_of(token) {
            self.counted(own, octets)
        } else {
            None
        }
    }

    // rule: hosts (own) A turn takes 32,786 octets and gives 65,536 at most
    /// The turn after a step of the connection that has it.
    fn counted(self, own: Own, octets: usize) -> Option<Turn>
        ensures { result ≡ counted_in self own octets }
    {
        let mut turn = self;
        match own {
            Own::Came => {
                if turn.came || octets > MOST_TAKEN {
                    return None;
                }
                turn.came = true;
            }
            Own::Turn => {
                if turn.asked {
                    return None;
                }
                turn.asked = true;
            }
            Own::Went { count } => {
                let gave = turn.gave.saturating_add(count);
                if gave > MOST_GIVEN {
                    return None;
                }
                turn.gave = gave;
            }
            _ => {}
        }
        Some(turn)
    }
}

/// Whether a step is `Passed`.
fn is_time_step(own: Own) -> bool
    ensures { result ≡ is_time own }
{
    matches!(own, Own::Passed { .. })
}

/// Whether a step needs the turn.
fn is_of_turn(own: Own) -> bool
    ensures { result ≡ needs_turn own }
{
    matches!(own, Own::Came | Own::Turn | Own::Went { .. })
}
