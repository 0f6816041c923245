//! Laws of field blocks, each the contract of a function that does nothing.

ghost use Rattle.std.specs.Prelude.{◌≡◌, ℕ, ◌≤◌, List, ◌∷◌, ◌++◌, length};
ghost use Rattle.hpack.specs.declared.types.field.Field.{Field};
ghost use Rattle.hpack.specs.Entry.{Entry};
ghost use Rattle.hpack.specs.Sizes.{table_size, fit};
ghost use Rattle.hpack.specs.Tables.{Entries};
ghost use Rattle.hpack.specs.Blocks.{Block, Update};
ghost use Rattle.hpack.specs.Lists.{NoBlock};

// contract: HPACK 3.1 A block is decoded exactly where its octets are one
/// For a given table and limit, octets can be read as a block in at most one way: they determine
/// its list of fields and the table after it.
pub fn one_block()
    ensures { (table after other : Entries) (limit : ℕ) (octets : List ℕ)
        (fields others : List Field)
        → Block table limit octets fields after → Block table limit octets others other
        → (fields ≡ others) × (after ≡ other) }
{}

// contract: HPACK 4.4 The oldest entries leave until the size is at most the maximum
/// The entries of a table that fit a bound (RFC 7541, sections 4.3 and 4.4) are its longest prefix
/// whose size is at most the bound.
pub fn longest_prefix()
    ensures prefix { (entries : List Entry) (bound : ℕ)
        → (left : List Entry) × (entries ≡ fit entries bound ++ left) }
    ensures within { (entries : List Entry) (bound : ℕ) → table_size (fit entries bound) ≤ bound }
    ensures longest { (prefix left : List Entry) (bound : ℕ) → table_size prefix ≤ bound
        → length prefix ≤ length (fit (prefix ++ left) bound) }
{}

// contract: HPACK 4.2 Size updates stand at the beginning of a block
/// Size updates come only at the beginning of a block (RFC 7541, section 4.2): octets in which
/// an update follows a field are no block.
pub fn no_update_after_a_field()
    ensures { (table after : Entries) (limit maximum : ℕ) (octets update others : List ℕ)
        (field : Field) (fields : List Field)
        → Block table limit octets (field ∷ fields) after → Update maximum update
        → NoBlock table limit (octets ++ (update ++ others)) }
{}
