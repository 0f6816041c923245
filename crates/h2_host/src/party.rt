//! The interface of a connection to its host.

ghost use Rattle.std.specs.Prelude.{◌≡◌, ◌≤◌, ℕ, List, Bool, length};
ghost use Rattle.h2_host.specs.declared.party.Own.{Own as OwnStep};
ghost use Rattle.h2_host.specs.declared.party.Own.TheVariants as owns;
ghost use Rattle.h2_host.specs.declared.party.Answer.{Answer as OwnAnswer};
ghost use Rattle.h2_host.specs.declared.party.Answer.TheVariants as answers;
ghost use Rattle.h2_host.specs.Parties.{IsGivenUp, IsRefusal};
ghost use Rattle.h2_host.specs.Readers.{LendsFirst};
ghost use Rattle.h2_host.specs.Turns.{most_taken};

/// A step of one connection.
#[derive(Clone, Copy, Debug, PartialEq, Eq)]
pub enum Own {
    /// The transport can be read or written.
    Ready {
        /// Whether it can be read.
        reads: bool,
        /// Whether it can be written.
        writes: bool,
    },
    /// Octets were received: once in a turn, at most [`MOST_TAKEN`](crate::MOST_TAKEN). As many
    /// are read as [`Party::read_size`] says, or fewer.
    Came,
    /// Nothing was received: the transport cannot be read now.
    NoneCame,
    /// The peer ended its side.
    Ended,
    /// The connection acts: it sends what can go. Once in a turn.
    Turn,
    /// This many octets of its output were written, in its turn and at most
    /// [`MOST_GIVEN`](crate::MOST_GIVEN) in all.
    Went {
        /// The number.
        count: usize,
    },
    /// Nothing was written: the transport cannot be written now.
    NoneWent,
    /// The transport has failed: nothing can be read or written any more.
    Lost,
    /// Time has passed. The host makes this step for all connections at once.
    Passed {
        /// The time, in milliseconds.
        now: u64,
    },
    /// The connection is refused.
    Refused {
        /// The reason.
        bound: Bound,
    },
}

/// Why a connection is closed at once.
#[derive(Clone, Copy, Debug, PartialEq, Eq)]
pub enum Bound {
    /// It holds more octets than one connection may.
    Held,
    /// All connections together hold more octets than they may, and this one holds the most.
    HeldInAll,
    /// An allocation was refused.
    Memory,
}

/// The answer of a connection to a step.
#[derive(Clone, Copy, Debug, PartialEq, Eq)]
pub enum Answer {
    /// It goes on.
    Goes,
    /// The connection is over, and its transport must be closed. The party says why, if it can.
    Over,
}

/// A connection of a host. The host calls `held` and `is_ready` several times in a step: store
/// their results if they take long to compute.
pub trait Party: Drop {
    /// Relates the state before a step, the step, its octets and its answer to the state after it.
    ghost steps: { Self → OwnStep → (octets : List ℕ) → OwnAnswer → Self → Type 0 };

    /// How many octets it holds.
    ghost held_of: { Self → ℕ };

    /// Whether there is something to do in a turn.
    ghost ready_of: { Self → Bool };

    /// Relates a state to the result of [`Party::read_size`].
    ghost takes: { Self → ℕ → Type 0 };

    /// The queued octets of its output, in order.
    ghost output_of: { Self → List ℕ };

    /// Makes a step; `octets` are those received, if it is [`Own::Came`]. `room` is scratch space.
    /// After [`Own::Refused`] the party holds nothing, is ready, and answers [`Answer::Over`]; after
    /// [`Own::Lost`] it answers that too.
    fn step(&mut self, own: Own, octets: &[u8], room: &mut [u8]) -> Answer
        ensures steps { steps self.old own octets.now result self.new }
        ensures refused { IsRefusal own → IsGivenUp result (held_of self.new) (ready_of self.new) }
        ensures lost { own ≡ owns.Lost → result ≡ answers.Over }
        ensures room { length room.new ≡ length room.old };

    /// Returns the octets that it holds and that count against the limits.
    fn held(&self) -> usize
        ensures { result ≡ held_of self.now };

    /// Whether there is something to do in a turn. A party that is over is ready, so that it
    /// gets the turn in which its transport is closed.
    fn is_ready(&self) -> bool
        ensures { result ≡ ready_of self.now };

    /// Returns how many octets to read now, at most; 0 if it takes no input.
    fn read_size(&self) -> usize
        ensures takes { takes self.now result }
        ensures within { result ≤ most_taken };

    /// Returns the first two parts of its queued output, in order. If output is queued, the
    /// first part is not empty.
    fn output(&self) -> (&[u8], &[u8])
        ensures { LendsFirst (output_of self.now) result.0.now result.1.now };
}
