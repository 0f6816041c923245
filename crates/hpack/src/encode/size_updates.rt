//! The size updates at a block's beginning (RFC 7541, section 4.2).

ghost use Rattle.std.specs.Prelude.{◌≡◌, ℕ, ◌/◌, ◌<◌, ◌≤◌, ◌++◌, OnOk, OnErr, IfErr, flat_map};
ghost use Rattle.hpack_text.specs.Integers.{integer};
ghost use Rattle.hpack_text.specs.Appended.{IsExtended};
ghost use Rattle.hpack.specs.Lists.{EncoderState};
ghost use Rattle.hpack.specs.Choice.{size_updates as size_updates_of, after_updates};
ghost use Rattle.hpack.specs.PendingTable.{represented, IsPendingTable, capacity_of};
ghost use Rattle.hpack.specs.ChoiceModel.{maxima_of, AreBelow};

use crate::encode::field::append_int;
use crate::encode::pending_table::PendingTable;
use crate::table::dynamic_table::Table;
use crate::types::fault::Fault;

/// The number of bits of a maximum in an update's first octet.
const PREFIX: u8 = 5;

/// The first bits of an update.
const FIRST_BITS: u8 = 0x20;

/// The size updates that a block begins with.
#[derive(Clone, Copy)]
pub(crate) enum SizeUpdates {
    /// None.
    Nothing,
    /// One.
    Once(u32),
    /// The least limit since the last block, and the limit now.
    Twice(u32, u32),
}

impl SizeUpdates {
    // rule: HPACK 4.2 After the limit fell a block begins with one update or two
    // rule: HPACK 4.2 After the limit only rose the block begins with one update to it
    /// The updates due for a table with this maximum. If the limit fell below the maximum: the
    /// least limit, and the limit now if it is another. Otherwise, if the limit is above the
    /// maximum: the limit now.
    pub(crate) fn due(maximum: u32, least: u32, limit: u32) -> SizeUpdates
        ensures due { (state : EncoderState) → state.table.maximum ≡ maximum → state.least ≡ least
            → state.limit ≡ limit → maxima_of result ≡ size_updates_of state }
        ensures below { (capacity : ℕ) → least ≤ limit → limit / 32 < capacity
            → AreBelow result capacity }
    {
        if least < maximum {
            if limit == least {
                return SizeUpdates::Once(least);
            }
            return SizeUpdates::Twice(least, limit);
        }
        if maximum < limit {
            return SizeUpdates::Once(limit);
        }
        SizeUpdates::Nothing
    }

    /// Appends the updates. On `Err` a prefix of them has been appended.
    pub(crate) fn append(self, out: &mut Vec<u8>) -> Result<(), Fault>
        ensures ok { OnOk result (out.new.items ≡ out.old.items
            ++ flat_map (integer 5 0x20) (maxima_of self)) }
        ensures extended { IsExtended out.old.items out.new.items }
    {
        match self {
            SizeUpdates::Nothing => Ok(()),
            SizeUpdates::Once(maximum) => append_int(PREFIX, FIRST_BITS, u64::from(maximum), out),
            SizeUpdates::Twice(first, last) => {
                append_int(PREFIX, FIRST_BITS, u64::from(first), out)?;
                append_int(PREFIX, FIRST_BITS, u64::from(last), out)
            }
        }
    }

    /// Applies the updates to a pending table.
    pub(crate) fn apply_to_pending(self, pending: &mut PendingTable, table: &Table)
        requires pending { IsPendingTable pending.old table.now }
        requires room { AreBelow self (capacity_of pending.old) }
        ensures resized { represented pending.new table.now
            ≡ after_updates (represented pending.old table.now) (maxima_of self) }
        ensures pending { IsPendingTable pending.new table.now }
        ensures added { pending.new.added ≡ pending.old.added }
        ensures capacity { capacity_of pending.new ≡ capacity_of pending.old }
    {
        match self {
            SizeUpdates::Nothing => {}
            SizeUpdates::Once(maximum) => pending.resize(table, maximum),
            SizeUpdates::Twice(first, last) => {
                pending.resize(table, first);
                pending.resize(table, last);
            }
        }
    }

    /// Applies the updates to the table. On `Err` nothing has changed.
    pub(crate) fn apply(self, table: &mut Table) -> Result<(), Fault>
        ensures ok { OnOk result (table.new ≡ after_updates table.old (maxima_of self)) }
        ensures err { OnErr result (table.new ≡ table.old) }
    {
        match self {
            SizeUpdates::Nothing => {}
            SizeUpdates::Once(maximum) => table.resize(maximum)?,
            SizeUpdates::Twice(first, last) => table.resize_twice(first, last)?,
        }
        Ok(())
    }
}
