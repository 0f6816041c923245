//! A party that counts octets.

use h2_host::{Answer, MOST_TAKEN, Own, Party};

/// A party that keeps count of the octets that it has taken, and holds so many; what is written of
/// its output it holds no more.
#[derive(Drop)]
pub struct Till {
    /// How many octets it holds.
    pub kept: usize,
    /// Whether it was refused.
    pub over: bool,
    /// The time that it has seen.
    pub seen: u64,
    /// How many turns it has acted in.
    pub acted: u64,
    /// Its output, each time.
    pub put: Vec<u8>,
}

impl Till {
    /// A party that holds so many octets, with this output.
    pub fn new(kept: usize, put: Vec<u8>) -> Till {
        Till {
            kept,
            over: false,
            seen: 0,
            acted: 0,
            put,
        }
    }
}

impl Party for Till {
    ghost use Rattle.std.specs.Prelude.{⊤, ◌≡◌, ◌||◌, ◌++◌, if◌then◌else◌, nat_lt};
    ghost use Rattle.h2_host.specs.Turns.{most_taken};

    ghost steps = { λ _ _ _ _ _. ⊤ };

    ghost held_of = { λ till. till.kept };

    ghost ready_of = { λ till. till.over || nat_lt 0 till.kept };

    ghost takes = { λ till size. size ≡ (if till.over then 0 else most_taken) };

    ghost output_of = { λ till. till.put.items ++ till.put.items };

    fn step(&mut self, own: Own, octets: &[u8], _room: &mut [u8]) -> Answer {
        match own {
            Own::Came => self.kept = self.kept.saturating_add(octets.len()),
            Own::Turn => self.acted = self.acted.saturating_add(1),
            Own::Went { count } => self.kept = self.kept.saturating_sub(count),
            Own::Passed { now } => self.seen = now,
            Own::Lost | Own::Refused { .. } => {
                self.kept = 0;
                self.over = true;
                return Answer::Over;
            }
            _ => {}
        }
        if self.over {
            Answer::Over
        } else {
            Answer::Goes
        }
    }

    fn held(&self) -> usize {
        self.kept
    }

    fn is_ready(&self) -> bool {
        self.over || self.kept > 0
    }

    fn read_size(&self) -> usize {
        if self.over { 0 } else { MOST_TAKEN }
    }

    fn output(&self) -> (&[u8], &[u8]) {
        (&self.put, &self.put)
    }
}
