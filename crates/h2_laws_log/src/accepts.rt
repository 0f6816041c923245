//! No item that an end may write is a fault for an end that has read just what was written before
//! it, however much more that end has written meanwhile.

ghost use Rattle.std.specs.Prelude.{◌≡◌, ◌≢◌, ℕ, ◌≤◌, Bool, true, false, List, [], Option, Some};
ghost use Rattle.std.specs.Prelude.{None, length};
ghost use Rattle.hpack.specs.Lists.{list_size};
ghost use Rattle.h2_frame.specs.Frames.{Data, Reset, Settings, Ping, GoAway, WindowUpdate};
ghost use Rattle.h2_frame.specs.Encoding.{payload_of};
ghost use Rattle.h2_block.specs.Grouping.{Item, alone, block};
ghost use Rattle.h2_spec_log.specs.declared.role.Role.{Role};
ghost use Rattle.h2_spec_log.specs.Acts.{Values, AreInRange};
ghost use Rattle.h2_spec_log.specs.Settings.{peer_of};
ghost use Rattle.h2_spec_log.specs.Log.{Log};
ghost use Rattle.h2_spec_log.specs.LogView.{log_view};
ghost use Rattle.h2_spec_log.specs.Verdicts.{NoEvent, Reported, is_fault};
ghost use Rattle.h2_spec_log.specs.ItemRules.{Decoded, verdict_by_rules};
ghost use Rattle.h2_spec_log.specs.Limits.{max_list};
ghost use Rattle.h2_spec_log.specs.CallRules.{opening_pairs};
ghost use Rattle.h2_spec_log.specs.Allowed.{HasAcknowledged, MayContinue, MayOpen, MaySendData};
ghost use Rattle.h2_spec_log.specs.Allowed.{MayReset, MayUpdateWindow, MayChangeSettings, Allowed};
ghost use Rattle.h2_spec_log.specs.Allowed.{AllowedHistory, IsReader};
ghost use Rattle.h2_laws_log.specs.Accepting.{IsDecodable};

/// A field block that opens a stream is no fault, and the stream isn't refused: as many are active
/// at most as the server allows.
pub fn opening_is_no_fault()
    ensures { (role : Role) (received sent unread : List Item) (log : Log) (i : ℕ) (end : Bool)
        (octets : List ℕ) (decoded : Decoded) → AllowedHistory role received sent
        → HasAcknowledged received sent → MayOpen role i received sent
        → IsReader role received sent unread log → list_size decoded.fields ≤ max_list
        → is_fault (verdict_by_rules (log_view log) (Some decoded) (block i end octets)) ≡ false }
{}

/// A later field block is no fault.
pub fn block_is_no_fault()
    ensures { (role : Role) (received sent unread : List Item) (log : Log) (i : ℕ) (end : Bool)
        (octets : List ℕ) (decoded : Decoded) → AllowedHistory role received sent
        → MayContinue role i received sent → IsReader role received sent unread log
        → list_size decoded.fields ≤ max_list
        → is_fault (verdict_by_rules (log_view log) (Some decoded) (block i end octets)) ≡ false }
{}

/// DATA is no fault, ends, resets and GOAWAY under way included: it passes neither window.
pub fn data_is_no_fault()
    ensures { (role : Role) (received sent unread : List Item) (log : Log) (i : ℕ) (end : Bool)
        (octets : List ℕ) (pad : Option ℕ) → AllowedHistory role received sent
        → HasAcknowledged received sent → MaySendData role i (length (payload_of
        (Data i end octets pad))) received sent → IsReader role received sent unread log
        → is_fault (verdict_by_rules (log_view log) None (alone (Data i end octets pad))) ≡ false }
{}

/// RST_STREAM is no fault.
pub fn reset_is_no_fault()
    ensures { (role : Role) (received sent unread : List Item) (log : Log) (i code : ℕ)
        → AllowedHistory role received sent → MayReset role i received sent
        → IsReader role received sent unread log
        → is_fault (verdict_by_rules (log_view log) None (alone (Reset i code))) ≡ false }
{}

/// WINDOW_UPDATE of a stream is no fault: it brings no window above the greatest.
pub fn update_is_no_fault()
    ensures { (role : Role) (received sent unread : List Item) (log : Log) (i increment : ℕ)
        → AllowedHistory role received sent → i ≢ 0
        → MayUpdateWindow role i increment received sent → IsReader role received sent unread log
        → is_fault (verdict_by_rules (log_view log) None (alone (WindowUpdate i increment)))
        ≡ false }
{}

/// WINDOW_UPDATE of the connection is no fault.
pub fn connection_update_is_no_fault()
    ensures { (role : Role) (received sent unread : List Item) (log : Log) (increment : ℕ)
        → AllowedHistory role received sent
        → MayUpdateWindow role 0 increment received sent → IsReader role received sent unread log
        → is_fault (verdict_by_rules (log_view log) None (alone (WindowUpdate 0 increment)))
        ≡ false }
{}

/// The SETTINGS that an end opens with are no fault for an end that has read nothing.
pub fn first_settings_are_no_fault()
    ensures { (role : Role) (values : Values) (log : Log) → AreInRange values → log.role
        ≡ peer_of role → log.received ≡ []
        → verdict_by_rules (log_view log) None (alone (Settings false
        (opening_pairs role values))) ≡ NoEvent }
{}

/// Changed SETTINGS are no fault: the shift brings no stream's window above the greatest.
pub fn settings_are_no_fault()
    ensures { (role : Role) (received sent unread : List Item) (log : Log) (pairs : List (ℕ × ℕ))
        → AllowedHistory role received sent
        → MayChangeSettings role pairs received sent → IsReader role received sent unread log
        → is_fault (verdict_by_rules (log_view log) None (alone (Settings false pairs))) ≡ false }
{}

// contract: 6.5.3 An acknowledgment that is awaited is reported, others are ignored
/// An acknowledgment of SETTINGS is awaited, and reported.
pub fn acknowledgment_is_awaited()
    ensures { (role : Role) (received sent unread : List Item) (log : Log)
        → AllowedHistory role received sent → Allowed role received sent (alone (Settings true []))
        → IsReader role received sent unread log
        → verdict_by_rules (log_view log) None (alone (Settings true [])) ≡ Reported }
{}

/// PING is no fault, nor is its answer.
pub fn ping_is_no_fault()
    ensures { (log : Log) (ack : Bool) (octets : List ℕ)
        → is_fault (verdict_by_rules (log_view log) None (alone (Ping ack octets))) ≡ false }
{}

/// GOAWAY is no fault.
pub fn goaway_is_no_fault()
    ensures { (log : Log) (last code : ℕ) (debug : List ℕ)
        → is_fault (verdict_by_rules (log_view log) None (alone (GoAway last code debug))) ≡ false }
{}

// contract: 4.1 What an end sends is read as its frames, without a fault
/// All of it at once: what an end may write is no fault for an end that has read just what was
/// written before it, where each block decodes at its place to a list that may be sent.
pub fn what_may_be_written_is_no_fault()
    ensures { (role : Role) (received sent unread : List Item) (log : Log)
        (decoded : Option Decoded) (item : Item) → AllowedHistory role received sent
        → Allowed role received sent item → IsReader role received sent unread log
        → IsDecodable decoded item
        → is_fault (verdict_by_rules (log_view log) decoded item) ≡ false }
{}
