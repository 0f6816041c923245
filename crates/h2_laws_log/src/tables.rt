//! Header tables of two ends.

ghost use Rattle.std.specs.Prelude.{◌≡◌, ℕ, ◌≤◌, min, List, length};
ghost use Rattle.hpack.specs.declared.types.field.Field.{Field};
ghost use Rattle.hpack.specs.Lists.{EncoderState, list_size};
ghost use Rattle.hpack.specs.Choice.{block_of};
ghost use Rattle.hpack.specs.Written.{IsValidEncoder};
ghost use Rattle.h2_block.specs.Grouping.{Item, max_block_octets};
ghost use Rattle.h2_spec_log.specs.declared.role.Role.{Role};
ghost use Rattle.h2_spec_log.specs.Acts.{Values};
ghost use Rattle.h2_spec_log.specs.Histories.{IsLog};
ghost use Rattle.h2_spec_log.specs.Log.{Log, acked};
ghost use Rattle.h2_spec_log.specs.Settings.{value_read, own_value};
ghost use Rattle.h2_spec_log.specs.Limits.{max_list};
ghost use Rattle.h2_spec_log.specs.Allowed.{HasAcknowledged, IsReader};
ghost use Rattle.h2_laws_log.specs.Tables.{SentBlock, octets_sent, encoder_after, AreWithinLimits};
ghost use Rattle.h2_laws_log.specs.Tables.{AreRead};

/// What an encoder writes, block by block, with limits that change between blocks, its reader
/// decodes block by block, with the same table after each, where the reader's limit is never below
/// the encoder's.
pub fn tables_in_step()
    ensures { (encoder : EncoderState) (sendings : List SentBlock) → IsValidEncoder encoder
        → AreWithinLimits encoder sendings
        → AreRead encoder.table (octets_sent encoder sendings) sendings
        (encoder_after encoder sendings).table }
{}

// contract: 6.5.3 Settings apply in order: the first fault decides, the last value counts
// contract: 6.5.3 Own SETTINGS hold once they are acknowledged, and not before
/// The value of a setting that an end has read last is the one in force at its peer, once the peer
/// has read what the end has written, and the end has acknowledged what it has read. So a table
/// limit and an initial window are the same at both ends.
pub fn limits_agree()
    ensures { (id first : ℕ) (role : Role) (received sent unread : List Item) (log : Log)
        → HasAcknowledged received sent
        → IsReader role received sent unread log → own_value id first (acked log) log.sent
        ≡ value_read id first received }
{}

// contract: 4.3 A block that may be sent is one that may be gathered
/// A list that an end may send is a block that its peer may gather.
pub fn block_fits()
    ensures { (encoder : EncoderState) (fields : List Field) → list_size fields ≤ max_list
        → length (block_of encoder fields) ≤ max_block_octets }
{}

// contract: 4.3.1 The encoder follows each HEADER_TABLE_SIZE, up to 4,096 (own)
/// The encoder of a log is one whose blocks are read, and its limit is the peer's table limit that
/// was read last, 4,096 at most.
pub fn encoder_of_a_log()
    ensures { (role : Role) (values : Values) (log : Log) → IsLog role values log
        → IsValidEncoder log.encoder × (log.encoder.limit
        ≡ min (value_read 1 4096 log.received) 4096) }
{}
