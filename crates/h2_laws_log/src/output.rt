//! What is read of the items that were written, and with which greatest payloads they were.

ghost use Rattle.std.specs.Prelude.{ℕ, ◌^◌, ◌<◌, ◌≤◌, Bool, List, [], ◌++◌, None};
ghost use Rattle.std.specs.List.{AllByRecursion};
ghost use Rattle.h2_wire.specs.Streams.{Limits, Frames, expected_preface};
ghost use Rattle.h2_block.specs.Grouping.{Item, Groups};
ghost use Rattle.h2_spec_log.specs.declared.role.Role.{Role};
ghost use Rattle.h2_spec_log.specs.Items.{encoding_of_items};
ghost use Rattle.h2_spec_log.specs.Acts.{Values};
ghost use Rattle.h2_spec_log.specs.Settings.{value_read};
ghost use Rattle.h2_spec_log.specs.Log.{Log, max_payload_sent};
ghost use Rattle.h2_spec_log.specs.Histories.{IsLog};
ghost use Rattle.h2_laws_log.specs.Sending.{IsSendable, AreSendable, frames_of_items, frames_by};
ghost use Rattle.h2_laws_log.specs.Sending.{oldest_first};
ghost use Rattle.h2_laws_log.specs.Payloads.{WrittenByPayloads, encoding_by};

// contract: 4.1 What an end sends is read as its frames, without a fault
/// What is written of items that can be sent, whatever the greatest payload is, is read as their
/// frames, whole and without a fault, wherever payloads of so many octets may be read; and these
/// frames group to the items (RFC 9113, sections 4.1 to 4.3). So it is where each item has a
/// greatest payload of its own, wherever payloads as long as the greatest of these may be read.
pub fn written_items_are_read()
    ensures frames { (most : ℕ) (expects : Bool) (limits : Limits) (items : List Item)
        → most < 2 ^ 24 → ((place : ℕ) → most ≤ limits place)
        → AllByRecursion (IsSendable most) items
        → Frames expects limits (expected_preface expects ++ encoding_of_items most items)
        (frames_of_items most items) [] }
    ensures items { (most : ℕ) (items : List Item) → 1 ≤ most
        → AllByRecursion (IsSendable most) items
        → Groups (frames_of_items most items) (oldest_first items) None }
    ensures frames_by { (bound : ℕ) (expects : Bool) (limits : Limits) (payloads : List ℕ)
        (items : List Item) → bound < 2 ^ 24 → ((place : ℕ) → bound ≤ limits place)
        → AllByRecursion (λ most. (16384 ≤ most) × (most ≤ bound)) payloads
        → AreSendable payloads items
        → Frames expects limits (expected_preface expects ++ encoding_by payloads items)
        (frames_by payloads items) [] }
    ensures items_by { (bound : ℕ) (payloads : List ℕ) (items : List Item)
        → AllByRecursion (λ most. (16384 ≤ most) × (most ≤ bound)) payloads
        → AreSendable payloads items
        → Groups (frames_by payloads items) (oldest_first items) None }
{}

/// The greatest payload that an end sends is no greater than the SETTINGS_MAX_FRAME_SIZE that it
/// has received last (RFC 9113, section 4.2).
pub fn payload_fits()
    ensures { (role : Role) (values : Values) (log : Log) → IsLog role values log
        → max_payload_sent log ≤ value_read 5 16384 log.received }
{}

// contract: 4.2 (own) Each item is written with the greatest payload in force then
/// All that an end has written is a client's preface and its items, each as it is encoded with the
/// greatest payload that was in force by what the end had read before it (RFC 9113, sections 4.2
/// and 6.5.2): of SETTINGS just those that it had acknowledged by then, with that item.
pub fn output_by_payloads()
    ensures { (role : Role) (values : Values) (log : Log) → IsLog role values log
        → WrittenByPayloads log }
{}
