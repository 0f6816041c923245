//! What the encoder writes, as laws: each is the contract of a function that does nothing.

ghost use Rattle.std.specs.Prelude.{◌≡◌, ℕ, ◌^◌, ◌<◌, ◌≤◌, List, length, fold};
ghost use Rattle.hpack.specs.declared.types.field.Field.{Field};
ghost use Rattle.hpack.specs.Blocks.{Block};
ghost use Rattle.hpack.specs.Lists.{EncoderState, list_size, empty_table};
ghost use Rattle.hpack.specs.Choice.{block_of, after_block, most_octets};
ghost use Rattle.hpack.specs.Written.{IsValidEncoder, AreOctets};
ghost use Rattle.hpack.specs.Limits.{after_limit, chosen, IsSettled};

// contract: HPACK 3.1 What is encoded is a block of the list
/// What an encoder writes for a list is a block of that list for every decoder that has the
/// encoder's table and a limit not below the encoder's. It leaves the decoder with the table that
/// the encoder then has.
pub fn written_block()
    ensures block { (state : EncoderState) (limit : ℕ) (fields : List Field) → IsValidEncoder state
        → AreOctets fields → list_size fields < 2 ^ 35
        → state.limit ≤ limit → Block state.table limit (block_of state fields) fields
        (after_block state fields).table }

    // It holds for a new encoder, and after a block: the table is within its maximum, the
    // limit.
    ensures begins { (maximum : ℕ) → maximum < 2 ^ 32
        → IsValidEncoder (record {
          table = empty_table maximum;
          least = maximum;
          limit =
              maximum;
        }) }
    ensures goes_on { (state : EncoderState) (fields : List Field) → IsValidEncoder state
        → IsValidEncoder (after_block state fields) }
    ensures maximum { (state : EncoderState) (fields : List Field) → IsValidEncoder state
        → (after_block state fields).table.maximum ≡ state.limit }
{}

// contract: HPACK 4.2 After the limit fell a block begins with one update or two
/// Of the limits set between two blocks only the least and the last decide which size updates the
/// next block begins with. So an encoder, which keeps these two alone, writes the same as one that
/// kept all of them, in order.
pub fn least_and_last()
    ensures block { (state : EncoderState) (limits : List ℕ) (fields : List Field) → IsSettled state
        → block_of (fold after_limit state limits) fields ≡ chosen state.table limits fields }

    // An encoder begins with no limits set, and each block leaves it so.
    ensures begins { (maximum : ℕ)
        → IsSettled (record { table = empty_table maximum; least = maximum; limit = maximum }) }
    ensures settled { (state : EncoderState) (fields : List Field) → IsValidEncoder state
        → IsSettled (after_block state fields) }

    // Setting a limit leaves an encoder valid, so that what it writes is a block.
    ensures limited { (state : EncoderState) (limit : ℕ) → limit < 2 ^ 32 → IsValidEncoder state
        → IsValidEncoder (after_limit state limit) }
{}

// contract: HPACK 3.1 What is encoded is a block of the list
/// A block that an encoder writes has at most as many octets as the names and values of its fields,
/// plus 18 for each field, plus 12.
pub fn most_octets_of_a_block()
    ensures { (state : EncoderState) (fields : List Field)
        → length (block_of state fields) ≤ most_octets fields }
{}
