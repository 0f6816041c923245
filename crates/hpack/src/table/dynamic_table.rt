//! The dynamic table (RFC 7541, sections 2.3.2 and 4).

ghost use Rattle.std.specs.Prelude.{◌≡◌, ◌⊎◌, ◌+◌, ◌-◌, ◌*◌, ◌/◌, ◌<◌, ◌≤◌, ◌==◌, [], length, max};
ghost use Rattle.std.specs.Prelude.{slice_get, Some, IfOk, IsOk, OnOk, OnErr, MatchOption};
ghost use Rattle.std.specs.Prelude.{take, drop};
ghost use Rattle.circular_buffer.specs.Buffer.{buffer};
ghost use Rattle.hpack.specs.Sizes.{table_size, add};
ghost use Rattle.hpack.specs.Tables.{resized};
ghost use Rattle.hpack.specs.Lists.{empty_table};

use crate::table::eviction::{evict, move_entries, size_of};
use crate::types::entry::Entry;
use circular_buffer::HeapCircularBuffer;
use std::alloc::{AllocError, Global};
use std::fmt;
use std::marker::Model;

/// The least size of an entry.
const LEAST_SIZE: u32 = 32;

/// A dynamic table: entries, the newest first, and a maximum for their size. An entry's size is
/// the number of octets of its name and its value, plus 32; the table's size is the sum of its
/// entries' sizes, at most the maximum.
#[derive(Drop)]
pub struct Table {
    /// The entries, the newest at the front. It has room for all that the maximum allows.
    ring: HeapCircularBuffer<Entry>,
    /// The size of the entries.
    size: usize,
    /// The maximum size.
    maximum: u32,
}

impl Model for Table {
    ghost use Rattle.hpack.specs.Tables.{Entries};
    ghost use Rattle.hpack.specs.TableInvariant.{entries_of, TableInvariant};

    ghost Value = { Entries };

    ghost view = { entries_of };

    ghost invariant = { TableInvariant };
}

impl Table {
    /// Makes an empty table with room for all the entries that the maximum allows.
    pub(crate) fn new(alloc: Global, maximum: u32) -> Result<Table, AllocError>
        ensures { IfOk result (λ table. table ≡ empty_table maximum) }
    {
        Ok(Table {
            ring: HeapCircularBuffer::with_capacity(alloc, capacity_for(maximum))?,
            size: 0,
            maximum,
        })
    }

    // rule: HPACK 2.3.2 (own) A table says its length, size and maximum
    /// Returns the number of entries, at most the maximum divided by 32. It takes no memory.
    pub fn len(&self) -> usize
        ensures value { result ≡ length self.now.entries }
        ensures bound { result ≤ self.now.maximum / 32 }
    {
        self.ring.len()
    }

    // rule: HPACK 2.3.2 (own) A table says its length, size and maximum
    /// Returns whether there is no entry. It takes no memory.
    pub fn is_empty(&self) -> bool
        ensures { result ≡ (length self.now.entries == 0) }
    {
        self.ring.is_empty()
    }

    // contract: 10.5 (own) What an end holds of a stream is bounded
    // rule: 10.5 (own) What an end holds of a stream is bounded
    // contract: HPACK 4.4 The oldest entries leave until the size is at most the maximum
    // rule: HPACK 2.3.2 (own) A table says its length, size and maximum
    /// Returns the size of the entries in octets, at most the maximum (RFC 7541, section 4.1).
    /// It takes no memory.
    pub fn size(&self) -> usize
        ensures value { result ≡ table_size self.now.entries }
        ensures bound { result ≤ self.now.maximum }
    {
        self.size
    }

    // rule: HPACK 2.3.2 (own) A table says its length, size and maximum
    /// Returns the maximum size in octets (section 4.2). It takes no memory.
    pub fn maximum(&self) -> u32
        ensures { result ≡ self.now.maximum }
    {
        self.maximum
    }

    // rule: HPACK 2.3.2 The dynamic table has its newest entry first
    /// Returns the name and the value of an entry by its place: 1 is the newest. It takes no
    /// memory.
    pub fn get(&self, place: usize) -> Option<(&[u8], &[u8])>
        ensures { MatchOption result ((place ≡ 0) ⊎ (length self.now.entries < place))
            (λ found. (0 < place) × (slice_get self.now.entries (place - 1)
            ≡ Some (record { name = found.0.now; value = found.1.now }))) }
    {
        if place == 0 {
            return None;
        }
        let entry = self.ring.get(place - 1)?;
        Some((entry.name(), entry.value()))
    }

    // rule: HPACK 2.3.2 The dynamic table has its newest entry first
    /// The name followed by the value of an entry, by its place as in [`Table::get`], and the
    /// length of the name.
    #[inline(always)]
    pub(crate) fn joined(&self, place: usize) -> Option<(&[u8], usize)>
        ensures { MatchOption result ((place ≡ 0) ⊎ (length self.now.entries < place))
            (λ found. (0 < place) × (found.1 ≤ length found.0.now)
            × (slice_get self.now.entries (place - 1) ≡ Some (record {
              name = take found.1 found.0.now;
              value = drop found.1 found.0.now;
            }))) }
    {
        if place == 0 {
            return None;
        }
        let found = self.ring.get(place - 1)?;
        Some(found.joined())
    }

    // rule: HPACK 2.3.2 The dynamic table has its newest entry first
    /// Returns the ring of the entries, the newest at the front. Its capacity is the maximum
    /// divided by 32, but at least 1. It takes no memory.
    pub fn ring(&self) -> &HeapCircularBuffer<Entry>
        ensures items { result.now.items ≡ self.now.entries }
        ensures capacity { result.now.capacity ≡ max (self.now.maximum / 32) 1 }
    {
        &self.ring
    }

    // contract: HPACK 6.3 A size update sets the maximum
    // rule: HPACK 6.3 A size update sets the maximum
    /// Sets the maximum, and evicts the oldest entries until the size is within it (section
    /// 4.3). It takes memory only where the ring's capacity changes.
    ///
    /// # Errors
    ///
    /// [`AllocError`] where the allocation of a ring for the maximum was refused; nothing has
    /// changed.
    pub(crate) fn resize(&mut self, maximum: u32) -> Result<(), AllocError>
        ensures ok { OnOk result (self.new ≡ resized self.old maximum) }
        ensures err { OnErr result (self.new ≡ self.old) }
        ensures memory { max (maximum / 32) 1 ≡ max (self.old.maximum / 32) 1 → IsOk result }
    {
        self.resize_twice(maximum, maximum)
    }

    // rule: HPACK 6.3 A size update sets the maximum
    /// Sets the maximum to `first` and then to `last`, and evicts the oldest entries until the
    /// size is within both. It takes memory only where the ring's capacity changes.
    ///
    /// # Errors
    ///
    /// [`AllocError`] where the allocation of a ring for the last maximum was refused; nothing
    /// has changed.
    pub(crate) fn resize_twice(&mut self, first: u32, last: u32) -> Result<(), AllocError>
        ensures ok { OnOk result (self.new ≡ resized (resized self.old first) last) }
        ensures err { OnErr result (self.new ≡ self.old) }
        ensures memory { max (last / 32) 1 ≡ max (self.old.maximum / 32) 1 → IsOk result }
    {
        let ring = self.ring_for(last)?;
        let size = evict(&mut self.ring, self.size, first as usize);
        self.size = evict(&mut self.ring, size, last as usize);
        self.maximum = last;
        if let Some(mut ring) = ring {
            move_entries(&mut self.ring, &mut ring);
            self.ring = ring;
        }
        Ok(())
    }

    /// An empty ring with the capacity for a maximum, if the ring now has another capacity.
    fn ring_for(&self, maximum: u32) -> Result<Option<HeapCircularBuffer<Entry>>, AllocError>
        ensures ring { IfOk result (λ found. MatchOption found
            (max (maximum / 32) 1 ≡ max (self.now.maximum / 32) 1)
            (λ ring. ring ≡ buffer [] (max (maximum / 32) 1))) }
        ensures memory { max (maximum / 32) 1 ≡ max (self.now.maximum / 32) 1 → IsOk result }
    {
        let capacity = capacity_for(maximum);
        if capacity == self.ring.capacity() {
            return Ok(None);
        }
        let ring = HeapCircularBuffer::with_capacity(*self.ring.allocator(), capacity)?;
        Ok(Some(ring))
    }

    /// Evicts all entries. It takes no memory.
    pub(crate) fn clear(&mut self)
        ensures { self.new ≡ record { entries = []; maximum = self.old.maximum } }
    {
        self.ring.clear();
        self.size = 0;
    }

    // rule: HPACK 2.3.2 The dynamic table has its newest entry first
    // contract: HPACK 4.4 An entry larger than the maximum empties the table
    // rule: HPACK 4.4 An entry larger than the maximum empties the table
    /// Adds the entry as the newest, and evicts the oldest until the size is within the
    /// maximum; an entry that alone is larger empties the table (section 4.4). It takes no
    /// memory.
    #[inline(always)]
    pub(crate) fn add(&mut self, entry: Entry)
        ensures { self.new ≡ record {
          entries = add self.old.entries entry self.old.maximum;
          maximum = self.old.maximum;
        } }
    {
        let size = size_of(&entry);
        let maximum = self.maximum as usize;
        if size > maximum {
            self.clear();
            return;
        }
        self.size = size + evict(&mut self.ring, self.size, maximum - size);
        // There is room for one more, so none is overwritten.
        self.ring.push_front(entry);
    }
}

impl fmt::Debug for Table {
    fn fmt<W: fmt::Write>(&self, f: &mut fmt::Formatter<W>) -> fmt::Result {
        f.debug_struct("Table")
            .field("len", &self.ring.len())
            .field("size", &self.size)
            .field("maximum", &self.maximum)
            .finish()
    }
}

/// The capacity of the ring for a maximum: as many entries as the maximum allows, but at least 1.
fn capacity_for(maximum: u32) -> usize
    ensures { result ≡ max (maximum / 32) 1 }
{
    ((maximum / LEAST_SIZE) as usize).max(1)
}
