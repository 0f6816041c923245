//! The table: a value is found by one comparison or by a hash.

ghost use Rattle.std.specs.Prelude.{◌≡◌, [], None, Some, IsSome, OnOk, OnErr};
ghost use Rattle.std.specs.Option.{option_copied, option_copied_mut};
ghost use Rattle.std.specs.Borrow.{sem};
ghost use Rattle.h2_numbers.specs.Entries.{value_at, SetsValue};
ghost use Rattle.h2_numbers.specs.TableLends.{table_lends_at};
ghost use Rattle.h2_numbers.specs.Tables.{all_of, is_newest};

use std::alloc::{AllocError, Global};
use std::collections::HashMap;
use std::marker::Model;

/// Values by number. The value inserted last, mostly of the stream that is in use, is found by
/// one comparison, the others by the hash of their number. So a look-up costs about the same
/// for a thousand numbers as for one.
#[derive(Drop)]
pub struct NumberTable<V> {
    /// The number inserted last.
    number: u32,
    /// Its value, until it is removed.
    newest: Option<V>,
    /// The others.
    older: HashMap<u32, V>,
}

impl<V> Model for NumberTable<V> {
    ghost use Rattle.h2_numbers.specs.Tables.{TableEntries, number_table_code, IsApart};

    ghost Value = { TableEntries V };

    ghost coded = { number_table_code V.code };

    ghost view = { λ table. record {
      number = table.number;
      newest = table.newest;
      older = table.older.entries;
    } };

    ghost invariant = { λ table. IsApart table.number table.newest table.older.entries };
}

impl<V> NumberTable<V> {
    /// Returns an empty table. It takes no memory.
    pub fn new(alloc: Global) -> NumberTable<V>
        ensures empty { all_of result ≡ [] }
    {
        NumberTable {
            number: 0,
            newest: None,
            older: HashMap::new(alloc),
        }
    }

    // rule: 5.1 (own) What is kept of a stream is found by its number
    /// Returns the value at a number. It takes no memory.
    #[inline(always)]
    pub fn get(&self, id: u32) -> Option<&V>
        ensures value { option_copied result ≡ value_at id (all_of self.now) }
    {
        if self.is_newest(id) {
            return self.newest.as_ref();
        }
        if self.older.is_empty() {
            return None;
        }
        self.older.get(&id)
    }

    // rule: 5.1 (own) What is kept of a stream is found by its number
    // rule: 5.1 (own) A change of a stream changes that stream alone
    /// Returns the value at a number, to be changed. It takes no memory.
    #[inline(always)]
    pub fn get_mut(&mut self, id: u32) -> Option<&mut V>
        ensures* writes_back { sem 𝓛 (table_lends_at V.row self.entry id result) }
        ensures value { option_copied_mut result ≡ value_at id (all_of self.old) }
    {
        if self.is_newest(id) {
            return self.newest.as_mut();
        }
        if self.older.is_empty() {
            return None;
        }
        self.older.get_mut(&id)
    }

    // rule: 5.1 (own) A change of a stream changes that stream alone
    /// Sets the value at a number that has none.
    ///
    /// # Errors
    ///
    /// [`AllocError`] where an allocation was refused; the table has not changed.
    #[inline(always)]
    pub fn insert(&mut self, id: u32, value: V) -> Result<(), AllocError>
    where
        V: Drop,
        requires absent { value_at id (all_of self.old) ≡ None }
        ensures updates { OnOk result (SetsValue id (Some value) (all_of self.old)
            (all_of self.new)) }
        ensures err { OnErr result (all_of self.new ≡ all_of self.old) }
    {
        if let Some(held) = self.newest.take() {
            if let Err(refused) = self.older.insert(self.number, held) {
                self.newest = Some(refused.value.1);
                return Err(AllocError);
            }
        }
        self.number = id;
        self.newest = Some(value);
        Ok(())
    }

    // rule: 5.1 (own) A change of a stream changes that stream alone
    /// Removes the value at a number, if there is one, and returns it. It takes no memory.
    #[inline(always)]
    pub fn take(&mut self, id: u32) -> Option<V>
        ensures value { result ≡ value_at id (all_of self.old) }
        ensures updates { SetsValue id None (all_of self.old) (all_of self.new) }
    {
        if self.is_newest(id) {
            return self.newest.take();
        }
        if self.older.is_empty() {
            return None;
        }
        self.older.remove(&id)
    }

    // rule: 5.1 (own) A change of a stream changes that stream alone
    /// Removes the value at a number, if there is one, and drops it. It takes no memory.
    #[inline(always)]
    pub fn remove(&mut self, id: u32)
    where
        V: Drop,
        ensures updates { SetsValue id None (all_of self.old) (all_of self.new) }
    {
        self.take(id);
    }

    /// Returns whether a number was inserted last and still has its value.
    #[inline(always)]
    fn is_newest(&self, id: u32) -> bool
        ensures { result ≡ is_newest id self.now }
    {
        self.number == id && self.newest.is_some()
    }

    /// Returns the value inserted last, unless it was removed. It takes no memory.
    pub fn newest(&self) -> Option<&V>
        ensures { option_copied result ≡ self.now.newest }
    {
        self.newest.as_ref()
    }

    /// Returns the number inserted last; 0 if none was. It takes no memory.
    pub fn newest_number(&self) -> u32
        ensures { result ≡ self.now.number }
    {
        self.number
    }

    /// Returns the values except that of the number inserted last. It takes no memory.
    pub fn older(&self) -> &HashMap<u32, V>
        ensures older { result.now.entries ≡ self.now.older }
        ensures apart { IsSome self.now.newest
            → value_at self.now.number self.now.older ≡ None }
    {
        &self.older
    }
}
