//! Finding the entries of a table by their names, and by their names and values.

ghost use Rattle.std.specs.Prelude.{◌≡◌, ◌+◌, ◌/◌, ◌^◌, ◌<◌, ◌≤◌, List, [], ◌∷◌, length};
ghost use Rattle.std.specs.Prelude.{IfOk, OnOk};
ghost use Rattle.hpack.specs.Entry.{Entry};
ghost use Rattle.hpack.specs.declared.encode.search.Sought.TheVariants.{Exact, Name};
ghost use Rattle.hpack.specs.Chains.{IsIndexOf, AreChains, AreHashes, bucket_by};

use crate::encode::hash::hash_from;
use crate::encode::search::Sought;
use crate::table::dynamic_table::Table;
use crate::types::chains::{Chains, Hashes, Index};
use std::alloc::{AllocError, Global};

/// The hashes of a name and a value.
pub(crate) fn hashes_of(name: &[u8], value: &[u8]) -> Hashes
    ensures { AreHashes result name.now value.now }
{
    let name = hash_from(0, name);
    Hashes {
        name,
        exact: hash_from(name, value),
    }
}

impl Index {
    /// Makes the index of no entries, with the capacity for those of a table with this maximum.
    pub(crate) fn new(alloc: Global, maximum: u32) -> Result<Index, AllocError>
        ensures empty { IfOk result (λ index. IsIndexOf index []) }
        ensures capacity { IfOk result (λ index. index.names.skips.capacity ≡ maximum / 32 + 1) }
    {
        let capacity = (maximum / 32) as usize + 1;
        Ok(Index {
            names: Chains::new(alloc, capacity)?,
            exacts: Chains::new(alloc, capacity)?,
        })
    }

    /// The chains by which to search.
    #[inline(always)]
    pub(crate) fn chains(&self, sought: Sought) -> &Chains
        ensures { (entries : List Entry) → IsIndexOf self.now entries
            → AreChains (bucket_by sought (length result.now.newest.items)) entries result.now }
    {
        match sought {
            Sought::Name => &self.names,
            Sought::Exact => &self.exacts,
        }
    }

    /// Adds a new entry. It takes no memory.
    #[inline(always)]
    pub(crate) fn push(&mut self, hashes: Hashes)
        ensures entries { (entries : List Entry) (one : Entry) → IsIndexOf self.old entries
            → AreHashes hashes one.name one.value
            → length entries < self.old.names.skips.capacity
            → IsIndexOf self.new (one ∷ entries) }
        ensures capacity { self.new.names.skips.capacity ≡ self.old.names.skips.capacity }
    {
        self.names.push(hashes.name);
        self.exacts.push(hashes.exact);
    }

    /// Makes the index of a table's entries anew. It takes no memory.
    pub(crate) fn rebuild(&mut self, table: &Table)
        requires { table.now.maximum / 32 < self.old.names.skips.capacity }
        ensures entries { IsIndexOf self.new table.now.entries }
        ensures capacity { self.new.names.skips.capacity ≡ self.old.names.skips.capacity }
    {
        let mut place = table.len();
        while let Some((name, value)) = table.get(place) {
            self.push(hashes_of(name, value));
            place -= 1;
        }
    }

    /// Reserves the capacity for a table with this maximum.
    pub(crate) fn reserve(
        &mut self,
        alloc: Global,
        maximum: u32,
        table: &Table,
    ) -> Result<(), AllocError>
        requires index { IsIndexOf self.old table.now.entries }
        requires room { table.now.maximum / 32 < self.old.names.skips.capacity }
        ensures ok { OnOk result (maximum / 32 < self.new.names.skips.capacity) }
        ensures index { IsIndexOf self.new table.now.entries }
        ensures room { self.old.names.skips.capacity ≤ self.new.names.skips.capacity }
    {
        if (maximum / 32) as usize >= self.names.skips.capacity() {
            let mut index = Index::new(alloc, maximum)?;
            index.rebuild(table);
            *self = index;
        }
        Ok(())
    }
}
