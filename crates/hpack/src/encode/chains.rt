//! Chains through the entries of a table, from the newest on.

ghost use Rattle.std.specs.Prelude.{◌≡◌, ℕ, ◌+◌, ◌-◌, ◌*◌, ◌^◌, ◌<◌, ◌≤◌, List, [], ◌∷◌, drop};
ghost use Rattle.std.specs.Prelude.{length, slice_index_or, IfOk, max};
ghost use Rattle.hpack.specs.Entry.{Entry};
ghost use Rattle.hpack.specs.Hashes.{bucket_of};
ghost use Rattle.hpack.specs.Chains.{LeadsTo, AreChains};

use crate::encode::hash::bucket_at;
use crate::types::chains::Chains;
use circular_buffer::HeapCircularBuffer;
use std::alloc::{AllocError, Global};

/// By how much numbers are lowered before they would overflow.
const REBASE: u32 = 1 << 31;

impl Chains {
    /// Makes the chains of no entries, with the capacity for `capacity` of them.
    pub(crate) fn new(alloc: Global, capacity: usize) -> Result<Chains, AllocError>
        requires some { 0 < capacity }
        requires few { capacity ≤ 2 ^ 28 }
        ensures chains { IfOk result (λ chains. (bucket : Entry → ℕ) → AreChains bucket [] chains) }
        ensures capacity { IfOk result (λ chains. chains.skips.capacity ≡ capacity) }
    {
        Ok(Chains {
            newest: vec![in alloc; 0; capacity]?,
            skips: HeapCircularBuffer::with_capacity(alloc, capacity)?,
            pushed: 0,
        })
    }

    /// The place of the newest entry in the bucket of a hash; past the last entry if there is
    /// none.
    #[inline(always)]
    pub(crate) fn first(&self, hash: u64) -> usize
        requires { hash < 2 ^ 64 }
        ensures { (bucket : Entry → ℕ) (entries : List Entry) → AreChains bucket entries self.now
            → LeadsTo bucket (bucket_of (length self.now.newest.items) hash) entries result }
    {
        let newest = self.newest[bucket_at(self.newest.len(), hash)];
        self.pushed.saturating_sub(newest) as usize
    }

    /// How many entries lie between the one at a place and the next one in its bucket.
    #[inline(always)]
    pub(crate) fn skip(&self, place: usize) -> usize
        ensures small { result < 2 ^ 32 }
        ensures leads { (bucket : Entry → ℕ) (entries : List Entry) (other : Entry)
            → AreChains bucket entries self.now → place < length entries
            → LeadsTo bucket (bucket (slice_index_or entries place other))
            (drop (place + 1) entries) result }
    {
        match self.skips.get(place) {
            Some(skip) => *skip as usize,
            None => 0,
        }
    }

    /// Pushes a new entry into the bucket of its hash. It takes no memory.
    #[inline(always)]
    pub(crate) fn push(&mut self, hash: u64)
        ensures chains { (bucket : Entry → ℕ) (entries : List Entry) (one : Entry)
            → AreChains bucket entries self.old
            → bucket one ≡ bucket_of (length self.old.newest.items) hash
            → length entries < self.old.skips.capacity
            → AreChains bucket (one ∷ entries) self.new }
        ensures buckets { length self.new.newest.items ≡ length self.old.newest.items }
        ensures capacity { self.new.skips.capacity ≡ self.old.skips.capacity }
    {
        self.keep_countable();
        let bucket = bucket_at(self.newest.len(), hash);
        self.skips
            .push_front(self.pushed.saturating_sub(self.newest[bucket]));
        self.pushed += 1;
        self.newest[bucket] = self.pushed;
    }

    /// Lowers all numbers before they would overflow.
    #[inline(always)]
    fn keep_countable(&mut self)
        ensures chains { (bucket : Entry → ℕ) (entries : List Entry)
            → AreChains bucket entries self.old → length entries < self.old.skips.capacity
            → AreChains bucket entries self.new }
        ensures below { self.new.pushed < 2 ^ 32 - 1 }
        ensures buckets { length self.new.newest.items ≡ length self.old.newest.items }
        ensures capacity { self.new.skips.capacity ≡ self.old.skips.capacity }
    {
        if self.pushed == u32::MAX {
            lower(&mut self.newest);
            self.pushed -= REBASE;
        }
    }
}

/// Lowers all numbers before they would overflow. An entry whose number becomes 0 is lost, but
/// is older than any that is still kept.
fn lower(newest: &mut Vec<u32>)
    ensures len { length newest.new.items ≡ length newest.old.items }
    ensures lowered { (one : ℕ) → one < length newest.old.items
        → slice_index_or newest.new.items one 0 ≡ slice_index_or newest.old.items one 0 - 2 ^ 31 }
{
    for one in 0..newest.len() {
        newest[one] = newest[one].saturating_sub(REBASE);
    }
}
