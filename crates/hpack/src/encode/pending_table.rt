//! The table with the changes of the block that is being encoded.

ghost use Rattle.std.specs.Prelude.{◌≡◌, ℕ, ◌+◌, ◌-◌, ◌^◌, ◌/◌, ◌<◌, ◌≤◌, [], ◌∷◌, ◌++◌, min};
ghost use Rattle.std.specs.Prelude.{length};
ghost use Rattle.std.specs.Prelude.{take, reverse, slice_get, slice_index_or, Some, IfOk, OnOk};
ghost use Rattle.std.specs.Prelude.{MatchOption};
ghost use Rattle.hpack.specs.Entry.{Entry};
ghost use Rattle.hpack.specs.Sizes.{entry_size, table_size, fit};
ghost use Rattle.hpack.specs.Tables.{resized, added_to};
ghost use Rattle.hpack.specs.Sought.{is_sought, first_index};
ghost use Rattle.hpack.specs.PendingTable.{newest_first, represented, IsPendingTable};
ghost use Rattle.hpack.specs.PendingTable.{all_added, capacity_of, IsReady};
ghost use Rattle.hpack.specs.Chains.{AreHashes, sought_hash};
ghost use Rattle.hpack.specs.Lists.{empty_table};

use crate::encode::search::{Sought, is_match};
use crate::table::dynamic_table::Table;
use crate::table::eviction::{size_of, size_of_octets};
use crate::types::chains::{Hashes, Index};
use crate::types::entry::Entry;
use crate::types::field::Field;
use std::alloc::{AllocError, Global};

/// The index of the newest entry of a dynamic table.
const FIRST_INDEX: u64 = 62;

/// A table with changes not made in it yet: of the entries added, newest first, and then the
/// table's own, the first `live` are in it.
#[derive(Drop)]
pub(crate) struct PendingTable {
    /// Copies of the entries added, the newest last.
    added: Vec<Entry>,
    /// The number of entries in it.
    live: usize,
    /// The size of these.
    size: usize,
    /// The maximum size.
    maximum: u32,
    /// Finds these entries.
    pub(crate) index: Index,
}

impl PendingTable {
    /// Makes an empty table.
    pub(crate) fn new(alloc: Global, maximum: u32) -> Result<PendingTable, AllocError>
        ensures ready { IfOk result (λ pending. IsReady pending (empty_table maximum)) }
    {
        Ok(PendingTable {
            added: Vec::new(alloc),
            live: 0,
            size: 0,
            maximum,
            index: Index::new(alloc, maximum)?,
        })
    }

    /// Reserves the capacity to find the entries of a table with this maximum.
    pub(crate) fn reserve(
        &mut self,
        alloc: Global,
        table: &Table,
        maximum: u32,
    ) -> Result<(), AllocError>
        requires { IsReady self.old table.now }
        ensures ready { IsReady self.new table.now }
        ensures room { OnOk result (maximum / 32 < capacity_of self.new) }
    {
        self.index.reserve(alloc, maximum, table)
    }

    /// Starts from the table itself, without changes.
    pub(crate) fn begin(&mut self, table: &Table)
        requires { IsReady self.old table.now }
        ensures same { represented self.new table.now ≡ table.now }
        ensures pending { IsPendingTable self.new table.now }
        ensures none_added { self.new.added.items ≡ [] }
        ensures capacity { capacity_of self.new ≡ capacity_of self.old }
    {
        self.live = table.len();
        self.size = table.size();
        self.maximum = table.maximum();
    }

    // rule: HPACK 3.1 What is encoded is a block of the list
    /// Drops all changes. It takes no memory.
    pub(crate) fn undo(&mut self, table: &Table)
        requires { table.now.maximum / 32 < capacity_of self.old }
        ensures { IsReady self.new table.now }
    {
        self.added.clear();
        self.index.rebuild(table);
    }

    /// Sets the maximum, and evicts the oldest entries.
    pub(crate) fn resize(&mut self, table: &Table, maximum: u32)
        requires pending { IsPendingTable self.old table.now }
        requires room { maximum / 32 < capacity_of self.old }
        ensures resized { represented self.new table.now
            ≡ resized (represented self.old table.now) maximum }
        ensures pending { IsPendingTable self.new table.now }
        ensures added { self.new.added ≡ self.old.added }
        ensures capacity { capacity_of self.new ≡ capacity_of self.old }
    {
        (self.live, self.size) = self.fitting(table, maximum as usize);
        self.maximum = maximum;
    }

    /// Adds an entry with these hashes, and evicts the oldest entries.
    pub(crate) fn add(
        &mut self,
        table: &Table,
        entry: Entry,
        hashes: Hashes,
    ) -> Result<(), AllocError>
        requires pending { IsPendingTable self.old table.now }
        requires hashes { AreHashes hashes entry.name entry.value }
        requires fits { entry_size entry ≤ self.old.maximum }
        ensures added { OnOk result (self.new.added.items ≡ self.old.added.items ++ entry ∷ []) }
        ensures represented { OnOk result (represented self.new table.now
            ≡ added_to (represented self.old table.now) entry) }
        ensures pending { OnOk result (IsPendingTable self.new table.now) }
        ensures capacity { capacity_of self.new ≡ capacity_of self.old }
    {
        let size = size_of(&entry);
        self.added.push(entry)?;
        self.index.push(hashes);
        self.live += 1;
        self.size += size;
        (self.live, self.size) = self.fitting(table, self.maximum as usize);
        Ok(())
    }

    // rule: HPACK 6.1 (own) A field with an exact entry is its least index
    /// The least index of the dynamic entries sought, or 0.
    #[inline(always)]
    pub(crate) fn dynamic_index(
        &self,
        table: &Table,
        sought: Sought,
        hash: u64,
        field: &Field,
    ) -> u64
        requires pending { IsPendingTable self.now table.now }
        requires hash { hash ≡ sought_hash sought field.now.name field.now.value }
        ensures { result ≡ first_index (is_sought sought field.now) 62
            (represented self.now table.now).entries }
    {
        let chains = self.index.chains(sought);
        let mut place = chains.first(hash);
        while place < self.live {
            if self.is_match_at(table, place, sought, field) {
                return FIRST_INDEX + place as u64;
            }
            place += 1 + chains.skip(place);
        }
        0
    }

    /// The maximum.
    pub(crate) fn maximum(&self) -> u32
        ensures { result ≡ self.now.maximum }
    {
        self.maximum
    }

    // rule: HPACK 6.2.1 (own) Any other field is added to the table
    /// Adds to the table the entries that were added here. It takes no memory.
    pub(crate) fn commit(&mut self, table: &mut Table)
        ensures table { table.new ≡ all_added table.old self.old.added.items }
        ensures none_added { self.new.added.items ≡ [] }
        ensures index { self.new.index ≡ self.old.index }
    {
        self.added.reverse();
        while let Some(entry) = self.added.pop() {
            table.add(entry);
        }
    }

    /// The number of the entries, newest first, whose size together is at most the bound, and
    /// that size.
    #[inline(always)]
    fn fitting(&self, table: &Table, bound: usize) -> (usize, usize)
        requires live { self.now.live ≤ length (newest_first self.now table.now) }
        requires counted { self.now.size ≡ table_size
            (take self.now.live (newest_first self.now table.now)) }
        ensures fitting { take result.0 (newest_first self.now table.now)
            ≡ fit (take self.now.live (newest_first self.now table.now)) bound }
        ensures live { result.0 ≤ self.now.live }
        ensures counted { result.1 ≡ table_size (take result.0 (newest_first self.now table.now)) }
        ensures within { result.1 ≤ bound }
    {
        let mut live = self.live;
        let mut size = self.size;
        while size > bound {
            live -= 1;
            size -= self.size_at(table, live);
        }
        (live, size)
    }

    /// Whether the entry at a place, counted from the newest, is one sought.
    #[inline(always)]
    fn is_match_at(&self, table: &Table, place: usize, sought: Sought, field: &Field) -> bool
        ensures { (other : Entry) → place < length (newest_first self.now table.now)
            → result ≡ is_sought sought field.now
            (slice_index_or (newest_first self.now table.now) place other) }
    {
        match self.get(table, place) {
            Some((name, value)) => is_match(sought, field, name, value),
            None => false,
        }
    }

    /// The size of an entry, by its place counted from the newest.
    #[inline(always)]
    fn size_at(&self, table: &Table, place: usize) -> usize
        ensures { (other : Entry) → place < length (newest_first self.now table.now)
            → result
            ≡ min (entry_size (slice_index_or (newest_first self.now table.now) place other))
            (2 ^ 64 - 1) }
    {
        match self.get(table, place) {
            Some((name, value)) => size_of_octets(name, value),
            None => 0,
        }
    }

    /// The name and the value of an entry, by its place counted from the newest.
    #[inline(always)]
    fn get<'a>(&'a self, table: &'a Table, place: usize) -> Option<(&'a [u8], &'a [u8])>
        ensures { MatchOption result (length (newest_first self.now table.now) ≤ place)
            (λ found. slice_get (newest_first self.now table.now) place
            ≡ Some (record { name = found.0.now; value = found.1.now })) }
    {
        let count = self.added.len();
        if place >= count {
            let own = place - count;
            return if own < table.len() {
                table.get(own + 1)
            } else {
                None
            };
        }
        let entry = &self.added[count - 1 - place];
        Some((entry.name(), entry.value()))
    }
}
