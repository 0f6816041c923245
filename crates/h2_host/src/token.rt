//! Tokens, which name the connections of a host.

ghost use Rattle.std.specs.Prelude.{◌≡◌};
ghost use Rattle.h2_host.specs.Tokens.{token_number};

/// The maximum number of places of a host: 2^20.
pub const MOST_PLACES: usize = 1_048_576;

/// The name of a connection of a host: its place, and how often that was given before. No token
/// is given twice, so a stale token names nothing.
#[derive(Clone, Copy, Debug, PartialEq, Eq, PartialOrd, Ord, Hash)]
pub struct Token {
    /// The place, below [`MOST_PLACES`].
    pub place: u32,
    /// The number of connections that had the place before.
    pub generation: u32,
}

impl Token {
    /// Returns the token as a number, the generation above the place, for a poll that names a
    /// transport by a number.
    pub fn to_number(self) -> u64
        ensures { result ≡ token_number self }
    {
        u64::from(self.generation) * 4_294_967_296 + u64::from(self.place)
    }

    /// Returns the token of a number that [`Token::to_number`] returned.
    pub fn from_number(number: u64) -> Token
        ensures { token_number result ≡ number }
    {
        Token {
            place: (number % 4_294_967_296) as u32,
            generation: (number / 4_294_967_296) as u32,
        }
    }
}
