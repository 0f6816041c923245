//! The encoder of field blocks (RFC 7541, sections 3.2, 4.2 and 6).

ghost use Rattle.std.specs.Prelude.{◌≡◌, ℕ, ◌^◌, ◌<◌, ◌≤◌, ◌++◌, IfOk, IfErr, OnOk, OnErr};
ghost use Rattle.hpack_text.specs.Appended.{IsExtended};
ghost use Rattle.hpack.specs.Choice.{block_of, after_block};
ghost use Rattle.hpack.specs.Lists.{list_size, empty_table};
ghost use Rattle.hpack.specs.Blocks.{Block};
ghost use Rattle.hpack.specs.Limits.{after_limit};

use crate::encode::fields::append_fields;
use crate::encode::pending_table::PendingTable;
use crate::encode::room::reserve_block;
use crate::encode::size_updates::SizeUpdates;
use crate::table::dynamic_table::Table;
use crate::types::fault::Fault;
use crate::types::field::Field;
use std::alloc::Global;
use std::fmt;
use std::marker::Model;

/// The octets reserved for a field before its encoding is known; most have fewer.
const FIELD_ROOM: usize = 32;

/// Encodes the field blocks of one direction of a connection, in order.
#[derive(Drop)]
pub struct Encoder {
    alloc: Global,
    table: Table,
    /// The table with the changes of the block that is being encoded.
    pending: PendingTable,
    /// The least limit since the last block, that block's own included.
    least: u32,
    /// The limit now.
    limit: u32,
}

impl Model for Encoder {
    ghost use Rattle.hpack.specs.Lists.{EncoderState};

    ghost Value = { EncoderState };

    ghost view = { λ encoder. record {
      table = encoder.table;
      least = encoder.least;
      limit =
          encoder.limit;
    } };

    ghost use Rattle.hpack.specs.EncoderInvariant.{EncoderInvariant};

    ghost invariant = { EncoderInvariant };
}

impl Encoder {
    /// Makes an encoder with an empty table. The table's maximum size and the limit of the peer's
    /// table ([`Encoder::set_limit`]) are `maximum` octets.
    ///
    /// # Errors
    ///
    /// [`Fault::Memory`] where the allocation of the table was refused.
    pub fn new(alloc: Global, maximum: u32) -> Result<Encoder, Fault>
        ensures ok { IfOk result (λ encoder. encoder ≡ record {
          table = empty_table maximum;
          least =
              maximum;
          limit = maximum;
        }) }
        ensures err { IfErr result (λ fault. fault ≡ Fault.Memory) }
    {
        Ok(Encoder {
            alloc,
            table: Table::new(alloc, maximum)?,
            pending: PendingTable::new(alloc, maximum)?,
            least: maximum,
            limit: maximum,
        })
    }

    // rule: HPACK 4.2 After the limit fell a block begins with one update or two
    /// Sets the limit, in octets, of the peer's table (RFC 7541, section 4.2); the next block
    /// announces the change. It takes no memory, but the next block allocates room for `limit / 32`
    /// entries, and [`Encoder::encode`] returns [`Fault::Memory`] as long as this allocation is
    /// refused. So a limit that a peer sets should be capped first, which the standard allows.
    pub fn set_limit(&mut self, limit: u32)
        ensures { self.new ≡ after_limit self.old limit }
    {
        self.least = self.least.min(limit);
        self.limit = limit;
    }

    // rule: HPACK 2.3.2 (own) The table that is lent is the decoder's or the encoder's own
    /// Returns the dynamic table, for reading. It takes no memory.
    pub fn table(&self) -> &Table
        ensures { result.now ≡ self.now.table }
    {
        &self.table
    }

    // contract: HPACK 6.1 (own) A field with an exact entry is its least index
    // contract: HPACK 3.1 What is encoded is a block of the list
    // rule: HPACK 3.1 What is encoded is a block of the list
    /// Appends the block of the fields (RFC 7541, section 6): the size updates that are due,
    /// then each field as the least index of an entry equal to it, or else as a literal with
    /// the least index of its name. A sensitive field is always a literal that is never
    /// indexed; another literal is added to the table unless it is larger than the maximum.
    /// Strings are Huffman-encoded where that is not longer. The list's size
    /// ([`list_size`](crate::list_size)) must be below 2<sup>35</sup>.
    ///
    /// # Errors
    ///
    /// [`Fault::Memory`] where an allocation was refused; neither the encoder nor `out` has
    /// changed.
    pub fn encode(&mut self, fields: &[Field], out: &mut Vec<u8>) -> Result<(), Fault>
        requires { list_size fields.now < 2 ^ 35 }
        ensures ok { OnOk result ((out.new.items ≡ out.old.items ++ block_of self.old fields.now)
            × (self.new ≡ after_block self.old fields.now)) }

        // It is a block of the list, for every decoder with the same table and no lower limit.
        ensures block { OnOk result ((limit : ℕ) → self.old.limit ≤ limit
            → Block self.old.table limit (block_of self.old fields.now) fields.now self.new.table) }
        ensures err { IfErr result (λ fault. (fault ≡ Fault.Memory)
            × (out.new.items ≡ out.old.items) × (self.new ≡ self.old)) }
    {
        out.reserve(fields.len().saturating_mul(FIELD_ROOM))?;
        self.append_whole(fields, out)
    }

    // rule: HPACK 3.1 What is encoded is a block of the list
    /// Does what [`Encoder::encode`] does for a caller that knows the list's size: `size` is
    /// what [`list_size`](crate::list_size) returns for the fields, below 2<sup>35</sup>.
    ///
    /// # Errors
    ///
    /// [`Fault::Memory`] where an allocation was refused; neither the encoder nor `out` has
    /// changed.
    pub fn encode_sized(
        &mut self,
        fields: &[Field],
        size: usize,
        out: &mut Vec<u8>,
    ) -> Result<(), Fault>
        requires bound { list_size fields.now < 2 ^ 35 }
        requires size { size ≡ list_size fields.now }
        ensures ok { OnOk result ((out.new.items ≡ out.old.items ++ block_of self.old fields.now)
            × (self.new ≡ after_block self.old fields.now)) }
        ensures block { OnOk result ((limit : ℕ) → self.old.limit ≤ limit
            → Block self.old.table limit (block_of self.old fields.now) fields.now self.new.table) }
        ensures err { IfErr result (λ fault. (fault ≡ Fault.Memory)
            × (out.new.items ≡ out.old.items) × (self.new ≡ self.old)) }
    {
        reserve_block(fields, size, out)?;
        self.append_whole(fields, out)
    }

    /// Appends the block of the fields. On `Err` neither the encoder nor `out` has changed.
    fn append_whole(&mut self, fields: &[Field], out: &mut Vec<u8>) -> Result<(), Fault>
        requires { list_size fields.now < 2 ^ 35 }
        ensures ok { OnOk result ((out.new.items ≡ out.old.items ++ block_of self.old fields.now)
            × (self.new ≡ after_block self.old fields.now)) }
        ensures block { OnOk result ((limit : ℕ) → self.old.limit ≤ limit
            → Block self.old.table limit (block_of self.old fields.now) fields.now self.new.table) }
        ensures err { IfErr result (λ fault. (fault ≡ Fault.Memory)
            × (out.new.items ≡ out.old.items) × (self.new ≡ self.old)) }
    {
        let start = out.len();
        if self.append_block(fields, out).is_err() {
            out.truncate(start);
            return Err(Fault::Memory);
        }
        Ok(())
    }

    // rule: HPACK 3.1 What is encoded is a block of the list
    /// Appends the block of the fields. The table is changed last, after all that can fail. On
    /// `Err` a prefix of the block has been appended.
    fn append_block(&mut self, fields: &[Field], out: &mut Vec<u8>) -> Result<(), Fault>
        requires { list_size fields.now < 2 ^ 35 }
        ensures block { OnOk result ((limit : ℕ) → self.old.limit ≤ limit
            → Block self.old.table limit (block_of self.old fields.now) fields.now self.new.table) }
        ensures written { OnOk result
            (out.new.items ≡ out.old.items ++ block_of self.old fields.now) }
        ensures after { OnOk result (self.new ≡ after_block self.old fields.now) }
        ensures err { OnErr result (self.new ≡ self.old) }
        ensures extended { IsExtended out.old.items out.new.items }
    {
        let updates = SizeUpdates::due(self.table.maximum(), self.least, self.limit);
        updates.append(out)?;
        self.pending.reserve(self.alloc, &self.table, self.limit)?;
        self.pending.begin(&self.table);
        updates.apply_to_pending(&mut self.pending, &self.table);
        if append_fields(self.alloc, &mut self.pending, &self.table, fields, out).is_err()
            || updates.apply(&mut self.table).is_err()
        {
            self.pending.undo(&self.table);
            return Err(Fault::Memory);
        }
        self.pending.commit(&mut self.table);
        self.least = self.limit;
        Ok(())
    }
}

impl fmt::Debug for Encoder {
    fn fmt<W: fmt::Write>(&self, f: &mut fmt::Formatter<W>) -> fmt::Result {
        f.debug_struct("Encoder")
            .field("table", &self.table)
            .field("least", &self.least)
            .field("limit", &self.limit)
            .finish()
    }
}
