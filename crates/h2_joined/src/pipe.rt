//! A pipe: octets that one end has sent and the other has not received yet.

ghost use Rattle.std.specs.Prelude.{◌≡◌, ◌≤◌, ◌*◌, ℕ, List, [], take, drop, length};
ghost use Rattle.h2_joined.specs.Kept.{HoldsOctets};

use std::alloc::Global;

/// Octets in order, with how many of the first were delivered.
#[derive(Debug, Drop)]
pub(crate) struct Pipe {
    /// The octets.
    pub(crate) octets: Vec<u8>,
    /// How many of them were delivered.
    pub(crate) used: usize,
}

impl Pipe {
    /// Returns an empty pipe.
    pub(crate) fn new(alloc: Global) -> Pipe
        ensures { HoldsOctets result [] }
    {
        Pipe {
            octets: Vec::new(alloc),
            used: 0,
        }
    }

    /// Returns how many octets were not delivered.
    pub(crate) fn len(&self) -> usize
        ensures { (octets : List ℕ) → HoldsOctets self.now octets → result ≡ length octets }
    {
        self.octets.len().saturating_sub(self.used)
    }

    /// Returns the first `count` of them, or all if there are fewer.
    pub(crate) fn first(&self, count: usize) -> &[u8]
        ensures { (octets : List ℕ) → HoldsOctets self.now octets
            → result.now ≡ take count octets }
    {
        let start = self.used.min(self.octets.len());
        let end = start.saturating_add(count).min(self.octets.len());
        &self.octets[start..end]
    }

    // rule: joined (own) The first octets of a pipe are given to its end
    /// Marks the first `count` of them as delivered. Delivered octets are dropped once they are
    /// half of all, so a pipe holds at most twice the octets that were not delivered.
    pub(crate) fn deliver(&mut self, count: usize)
        ensures holds { (octets : List ℕ) → HoldsOctets self.old octets
            → HoldsOctets self.new (drop count octets) }
        ensures half { 2 * self.new.used ≤ length self.new.octets.items }
    {
        let used = self.used.saturating_add(count).min(self.octets.len());
        if used < self.octets.len() / 2 {
            self.used = used;
            return;
        }
        self.octets.drain(..used);
        self.used = 0;
    }
}
