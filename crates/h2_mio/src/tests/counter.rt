//! A party that stores what it receives.

use h2_host::{Answer, MOST_TAKEN, Own, Party};
use std::alloc::Global;

/// A party that stores what it receives, and counts what was sent. It is always ready.
#[derive(Drop)]
pub(crate) struct Counter<'a> {
    /// What was received.
    came: Vec<u8>,
    /// Whether the peer has ended its side.
    pub(crate) ended: bool,
    /// How many turns it has acted in.
    pub(crate) acted: usize,
    /// How many octets of its output have gone.
    pub(crate) went: usize,
    /// How often it was told that its socket would wait.
    pub(crate) waits: usize,
    /// How many octets it takes in a read, at most.
    takes: usize,
    /// Its output.
    put: &'a [u8],
}

impl<'a> Counter<'a> {
    /// A party that has this output, and takes so many octets in a read.
    pub(crate) fn new(alloc: Global, put: &'a [u8], takes: usize) -> Counter<'a> {
        Counter {
            came: Vec::new(alloc),
            ended: false,
            acted: 0,
            went: 0,
            waits: 0,
            takes,
            put,
        }
    }

    /// Whether exactly these octets were received.
    pub(crate) fn has(&self, octets: &[u8]) -> bool {
        self.came.as_slice() == octets
    }
}

impl Party for Counter<'_> {
    ghost use Rattle.std.specs.Prelude.{⊤, ◌≡◌, drop, min, true};
    ghost use Rattle.h2_host.specs.Turns.{most_taken};

    ghost steps = { λ _ _ _ _ _. ⊤ };

    ghost held_of = { λ _. 0 };

    ghost ready_of = { λ _. true };

    ghost takes = { λ counter size. size ≡ min counter.takes most_taken };

    ghost output_of = { λ counter. drop counter.went counter.put.now };

    fn step(&mut self, own: Own, octets: &[u8], _room: &mut [u8]) -> Answer {
        match own {
            Own::Came if self.came.extend_from_slice(octets).is_ok() => {}
            Own::Came | Own::Lost | Own::Refused { .. } => return Answer::Over,
            Own::Ended => self.ended = true,
            Own::Turn => self.acted = self.acted.saturating_add(1),
            Own::Went { count } => self.went = self.went.saturating_add(count),
            Own::NoneCame | Own::NoneWent => self.waits = self.waits.saturating_add(1),
            _ => {}
        }
        Answer::Goes
    }

    fn held(&self) -> usize {
        0
    }

    fn is_ready(&self) -> bool {
        true
    }

    fn read_size(&self) -> usize {
        self.takes.min(MOST_TAKEN)
    }

    /// Two octets, and the others.
    fn output(&self) -> (&[u8], &[u8]) {
        let rest = &self.put[self.went.min(self.put.len())..];
        rest.split_at(rest.len().min(2))
    }
}
