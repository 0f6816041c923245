//! The decoder of field blocks (RFC 7541, sections 3.2 and 6).

ghost use Rattle.std.specs.Prelude.{◌≡◌, true, false, [], IfOk, OnOk, IfErr, OnErr, List as Items};
ghost use Rattle.hpack.specs.declared.types.field.Field.{Field as OneField};
ghost use Rattle.hpack.specs.Tables.{Entries};
ghost use Rattle.hpack.specs.Blocks.{Block};
ghost use Rattle.hpack.specs.Lists.{Decodes, DecodesInto, DecodeFault, empty_table};

use crate::decode::block::{decode_block, decode_owned};
use crate::table::dynamic_table::Table;
use crate::types::fault::Fault;
use crate::types::field::{Decoded, List};
use crate::types::field_list::FieldList;
use std::alloc::Global;
use std::marker::Model;

/// Decodes the field blocks of one direction of a connection, in order.
#[derive(Debug, Drop)]
pub struct Decoder {
    alloc: Global,
    table: Table,
    limit: u32,
    failed: bool,
}

impl Model for Decoder {
    ghost use Rattle.hpack.specs.Lists.{DecoderState};

    ghost Value = { DecoderState };

    ghost view = { λ decoder. record {
      table = decoder.table;
      limit = decoder.limit;
      failed =
          decoder.failed;
    } };
}

impl Decoder {
    /// Makes a decoder with an empty table. The table's maximum size and the limit for size
    /// updates ([`Decoder::set_limit`]) are `maximum` octets.
    ///
    /// # Errors
    ///
    /// [`Fault::Memory`] where the allocation of the table was refused.
    pub fn new(alloc: Global, maximum: u32) -> Result<Decoder, Fault>
        ensures ok { IfOk result (λ decoder. decoder ≡ record {
          table = empty_table maximum;
          limit =
              maximum;
          failed = false;
        }) }
        ensures err { IfErr result (λ fault. fault ≡ Fault.Memory) }
    {
        Ok(Decoder {
            alloc,
            table: Table::new(alloc, maximum)?,
            limit: maximum,
            failed: false,
        })
    }

    /// Sets the limit, in octets, for the size updates of later blocks (RFC 7541, section 4.2).
    /// The table's maximum changes only by such an update. It takes no memory.
    pub fn set_limit(&mut self, limit: u32)
        ensures { self.new ≡ record self.old { limit = limit } }
    {
        self.limit = limit;
    }

    // rule: HPACK 2.3.2 (own) The table that is lent is the decoder's or the encoder's own
    /// Returns the dynamic table, for reading. It takes no memory.
    pub fn table(&self) -> &Table
        ensures { result.now ≡ self.now.table }
    {
        &self.table
    }

    // contract: 5.4.1 After a fault each layer answers that fault and changes nothing
    // rule: 5.4.1 After a fault each layer answers that fault and changes nothing
    // contract: 10.5.1 A list above 65,536 octets is a stream error ENHANCE_YOUR_CALM
    // contract: HPACK 2.3.3 Indices 1 to 61 name the static table, those from 62 the dynamic
    // contract: HPACK 6.3 A size update sets the maximum
    // contract: HPACK 4.4 An entry larger than the maximum empties the table
    // contract: HPACK 3.1 A block is decoded exactly where its octets are one
    // rule: HPACK 3.1 A block is decoded exactly where its octets are one
    // contract: HPACK 4.2 Size updates stand at the beginning of a block
    /// Decodes a complete block, and returns its fields in order, or [`List::TooLarge`] where
    /// their size ([`list_size`](crate::list_size)) is above `list_limit` octets (RFC 9113,
    /// section 6.5.2). Either way the complete block has changed the table. Once the size is above
    /// the limit, the rest of the block is read for the table alone, and no list is kept.
    ///
    /// # Errors
    ///
    /// [`Fault::Compression`] where the octets are no block for this table and limit, and
    /// [`Fault::Memory`] where an allocation was refused. After either, the decoder has failed, and
    /// every later `decode` or `decode_into` returns [`Fault::Failed`].
    pub fn decode(&mut self, octets: &[u8], list_limit: u32) -> Result<List, Fault>
        ensures failed { self.old.failed ≡ true → (result ≡ Err Fault.Failed)
            × (self.new ≡ self.old) }
        ensures ok { IfOk result (λ list. (self.old.failed ≡ false)
            × Decodes self.old octets.now list_limit list self.new) }

        // A block is decoded, unless memory runs out.
        ensures only { (fields : Items OneField) (after : Entries) → self.old.failed ≡ false
            → Block self.old.table self.old.limit octets.now fields after
            → IfErr result (λ fault. fault ≡ Fault.Memory) }
        ensures fault { self.old.failed ≡ false → IfErr result
            (DecodeFault self.old.table self.old.limit octets.now) }
        ensures broken { OnErr result (self.new.failed ≡ true) }
    {
        self.check()?;
        let list = decode_owned(self.alloc, &mut self.table, self.limit, octets, list_limit);
        self.failed = list.is_err();
        list
    }

    // contract: HPACK 3.1 A block is decoded exactly where its octets are one
    // rule: HPACK 3.1 A block is decoded exactly where its octets are one
    // contract: HPACK 4.2 Size updates stand at the beginning of a block
    // rule: HPACK 3.2 (own) A list that the caller keeps is emptied, then has the block's fields
    /// Decodes a complete block as [`Decoder::decode`] does, into a list that the caller keeps. The
    /// list is emptied first, and its capacity is reused; it stays empty where the result is
    /// [`Decoded::TooLarge`].
    ///
    /// It allocates where the list must grow, for each entry that is added to the table, and once
    /// if the block's size updates change the capacity of the table's ring.
    ///
    /// # Errors
    ///
    /// Those of [`Decoder::decode`]; the list is then empty.
    pub fn decode_into(
        &mut self,
        octets: &[u8],
        list_limit: u32,
        list: &mut FieldList,
    ) -> Result<Decoded, Fault>
        ensures failed { self.old.failed ≡ true → (result ≡ Err Fault.Failed)
            × (self.new ≡ self.old) }
        ensures ok { IfOk result (λ decoded. (self.old.failed ≡ false)
            × DecodesInto self.old octets.now list_limit decoded list.new self.new) }

        // A block is decoded, unless memory runs out.
        ensures only { (fields : Items OneField) (after : Entries) → self.old.failed ≡ false
            → Block self.old.table self.old.limit octets.now fields after
            → IfErr result (λ fault. fault ≡ Fault.Memory) }
        ensures fault { self.old.failed ≡ false → IfErr result
            (DecodeFault self.old.table self.old.limit octets.now) }
        ensures broken { OnErr result (self.new.failed ≡ true) }
        ensures emptied { OnErr result (list.new ≡ []) }
    {
        list.clear();
        self.check()?;
        let decoded = decode_block(
            self.alloc,
            &mut self.table,
            self.limit,
            octets,
            list_limit,
            list,
        );
        self.failed = decoded.is_err();
        decoded
    }

    /// Returns [`Fault::Failed`] if an earlier block failed.
    fn check(&self) -> Result<(), Fault>
        ensures ok { OnOk result (self.now.failed ≡ false) }
        ensures err { IfErr result (λ fault. (fault ≡ Fault.Failed) × (self.now.failed ≡ true)) }
    {
        if self.failed {
            return Err(Fault::Failed);
        }
        Ok(())
    }
}
