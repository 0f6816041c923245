//! The map, which also knows the next number above another.

ghost use Rattle.std.specs.Prelude.{◌≡◌, ◌<◌, [], Some, None, IfSome, OnOk, OnErr, true};
ghost use Rattle.std.specs.Option.{option_copied, option_copied_mut};
ghost use Rattle.std.specs.Borrow.{sem};
ghost use Rattle.h2_numbers.specs.Entries.{value_at, SetsValue, IsNextAbove, Ascends, IsFirstAbove};
ghost use Rattle.h2_numbers.specs.Entries.{IsAboveAll};
ghost use Rattle.h2_numbers.specs.Lends.{lends_at};

use crate::table::NumberTable;
use std::alloc::{AllocError, Global};
use std::marker::Model;

/// Values by number, in a [`NumberTable`], with the numbers in rising order beside it for
/// [`NumberMap::next_above`]. A number above all others, as that of a new stream, is inserted
/// in one step, and the highest is removed in one step.
#[derive(Drop)]
pub struct NumberMap<V> {
    /// The values, by number.
    table: NumberTable<V>,
    /// Their numbers, in rising order.
    order: Vec<u32>,
}

impl<V> Model for NumberMap<V> {
    ghost use Rattle.h2_numbers.specs.Entries.{NumberEntries, entries_code, IsOrderOf};
    ghost use Rattle.h2_numbers.specs.Tables.{all_of};

    ghost Value = { NumberEntries V };

    ghost coded = { entries_code V.code };

    ghost view = { λ map. record { entries = all_of map.table } };

    ghost invariant = { λ map. IsOrderOf (all_of map.table) map.order.items };
}

impl<V> NumberMap<V> {
    /// Returns an empty map. It takes no memory.
    pub fn new(alloc: Global) -> NumberMap<V>
        ensures empty { result.entries ≡ [] }
    {
        NumberMap {
            table: NumberTable::new(alloc),
            order: Vec::new(alloc),
        }
    }

    // rule: 5.1 (own) What is kept of a stream is found by its number
    /// Returns the value at a number. It takes no memory.
    pub fn get(&self, id: u32) -> Option<&V>
        ensures value { option_copied result ≡ value_at id self.now.entries }
    {
        self.table.get(id)
    }

    // rule: 5.1 (own) What is kept of a stream is found by its number
    // rule: 5.1 (own) A change of a stream changes that stream alone
    /// Returns the value at a number, to be changed. It takes no memory.
    pub fn get_mut(&mut self, id: u32) -> Option<&mut V>
        ensures* writes_back { sem 𝓛 (lends_at V.row self.entry id result) }
        ensures value { option_copied_mut result ≡ value_at id self.old.entries }
    {
        // A number above all others, as that of a new stream, needs no search.
        if is_above_all(&self.order, id) {
            return None;
        }
        self.table.get_mut(id)
    }

    // rule: 5.1 (own) A change of a stream changes that stream alone
    /// Sets the value at a number, and drops the one that was there.
    ///
    /// # Errors
    ///
    /// [`AllocError`] where an allocation was refused; the map has not changed.
    pub fn insert(&mut self, id: u32, value: V) -> Result<(), AllocError>
    where
        V: Drop,
        ensures updates { OnOk result (SetsValue id (Some value) self.old.entries
            self.new.entries) }
        ensures err { OnErr result (self.new.entries ≡ self.old.entries) }
    {
        if let Some(held) = self.get_mut(id) {
            *held = value;
            return Ok(());
        }
        self.order.reserve(1)?;
        self.table.insert(id, value)?;
        let at = first_above(&self.order, id);
        // There is room for one more.
        let _placed = self.order.insert(at, id);
        Ok(())
    }

    // rule: 5.1 (own) A change of a stream changes that stream alone
    /// Removes the value at a number, if there is one. It takes no memory.
    pub fn remove(&mut self, id: u32)
    where
        V: Drop,
        ensures updates { SetsValue id None self.old.entries self.new.entries }
    {
        self.table.remove(id);
        let end = first_above(&self.order, id);
        if end > 0 && self.order[end - 1] == id {
            self.order.remove(end - 1);
        }
    }

    // rule: 5.1 (own) What is kept of a stream is found by its number
    /// Returns the least number above another that has a value. It takes no memory.
    pub fn next_above(&self, above: u32) -> Option<u32>
        ensures next { IsNextAbove self.now.entries above result }
        ensures above { IfSome result (λ id. above < id) }
    {
        let at = first_above(&self.order, above);
        if at < self.order.len() {
            Some(self.order[at])
        } else {
            None
        }
    }
}

/// Returns whether a number is above all of these.
fn is_above_all(order: &[u32], number: u32) -> bool
    requires { Ascends order.now }
    ensures { result ≡ true → IsAboveAll order.now number }
{
    let end = order.len();
    end == 0 || order[end - 1] < number
}

/// Returns the place of the first of these numbers that is above another.
fn first_above(order: &[u32], number: u32) -> usize
    requires { Ascends order.now }
    ensures { IsFirstAbove order.now number result }
{
    let mut low = 0usize;
    let mut high = order.len();
    if high > 0 && order[high - 1] <= number {
        return high;
    }
    while low < high {
        let middle = low + (high - low) / 2;
        if order[middle] <= number {
            low = middle + 1;
        } else {
            high = middle;
        }
    }
    low
}
