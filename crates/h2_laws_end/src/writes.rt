//! What an end writes.

ghost use Rattle.std.specs.Prelude.{◌≡◌, ℕ, ◌+◌, ◌<◌, Bool, true, false, List, ◌++◌, Option, Some};
ghost use Rattle.std.specs.Prelude.{None, pos, ◌+ℤ◌, int_lt, ◌≢◌};
ghost use Rattle.std.specs.List.{AllByRecursion, list_any};
ghost use Rattle.h2_frame.specs.declared.code.Code.{Code};
ghost use Rattle.h2_spec_log.specs.declared.role.Role.{Role};
ghost use Rattle.h2_block.specs.Grouping.{Item};
ghost use Rattle.h2_spec_log.specs.Items.{data_on, ends, increment_on, total};
ghost use Rattle.h2_spec_log.specs.Acts.{Values, Act, Answer, SendData, Refuse, Count, Fail};
ghost use Rattle.h2_spec_log.specs.Settings.{own_value, value_read};
ghost use Rattle.h2_spec_log.specs.Windows.{first_window, connection_send_window};
ghost use Rattle.h2_spec_log.specs.Limits.{max_frame_size_sent};
ghost use Rattle.h2_spec_log.specs.Log.{Log, acked, active, owed, recv_window, send_window};
ghost use Rattle.h2_spec_log.specs.LogView.{log_view};
ghost use Rattle.h2_spec_log.specs.Verdicts.{ConnectionFault};
ghost use Rattle.h2_spec_log.specs.ItemRules.{Decoded, verdict_of, replies_to};
ghost use Rattle.h2_spec_log.specs.CallRules.{refusal_of, answer_of, items_of, refuse_fault};
ghost use Rattle.h2_spec_log.specs.LogSteps.{with_item};
ghost use Rattle.h2_spec_log.specs.LogCalls.{MayAnswer, with_call};
ghost use Rattle.h2_spec_log.specs.Histories.{IsLog};
ghost use Rattle.h2_laws_log.specs.Sending.{IsSendable, AreSendable};
ghost use Rattle.h2_laws_end.specs.Failures.{EndsInGoAway};
ghost use Rattle.h2_laws_end.specs.Replies.{replies_owed, replies_among};
ghost use Rattle.h2_laws_end.specs.Sendings.{EncodesInOrder, settings_received, lists_accepted};
ghost use Rattle.h2_laws_end.specs.WithinWindows.{KeepsWindows};
ghost use Rattle.h2_laws_end.specs.Written.{Writes};

// contract: 6.5.3 SETTINGS are acknowledged before anything else is sent
// contract: 6.7 PING is answered with its octets and ACK, and an answer is not answered
/// Each SETTINGS that was read has been acknowledged once, and each PING answered once with its
/// octets, in order, and nothing else (RFC 9113, sections 6.5.3 and 6.7).
pub fn each_is_replied_to()
    ensures { (role : Role) (values : Values) (log : Log) → IsLog role values log
        → replies_among log.sent ≡ replies_owed log.received }
{}

// contract: 5.4.1 A connection error is answered by GOAWAY, and nothing is sent after
/// An end that has failed has written GOAWAY last, with its code, and with the greatest stream that
/// was processed, or a greater one, that of the last frame; and no call makes it write more
/// (section 5.4.1).
pub fn nothing_follows_a_failure()
    ensures last { (role : Role) (values : Values) (log : Log) (code : Code)
        → IsLog role values log → log.failed ≡ Some code → EndsInGoAway log code }
    ensures calls { (log : Log) (code : Code) (act : Act) (answer : Answer)
        → log.failed ≡ Some code → MayAnswer log act answer
        → (with_call log act answer).written ≡ log.written }
{}

// contract: 4.1 What an end sends is read as its frames, without a fault
/// Each item that an end has written can be sent: no refusal of writing holds for its frame, its
/// numbers are those of its types, and its payload or block is within the limits, which are the
/// greatest payload in force as it was written, and 65,536 octets (sections 4.1, 4.2 and 4.3).
pub fn written_items_can_be_sent()
    ensures bound { (role : Role) (values : Values) (log : Log) → IsLog role values log
        → AllByRecursion (IsSendable max_frame_size_sent) log.sent }
    ensures payloads { (role : Role) (values : Values) (log : Log) → IsLog role values log
        → AreSendable log.payloads log.sent }
{}

/// The field blocks that an end has written are what its encoder makes of the lists of the calls
/// that were accepted, in order, each with the limits that were acknowledged before it (section
/// 4.3).
pub fn blocks_are_of_the_lists()
    ensures { (role : Role) (values : Values) (log : Log) → IsLog role values log
        → EncodesInOrder log.sent (settings_received log.received) (lists_accepted log.calls)
        log.encoder }
{}

/// On a stream that is active and that the peer hasn't ended, what the peer may send and what is
/// owed are the own initial window that is in force (section 6.9.2).
pub fn receive_window_is_kept()
    ensures { (role : Role) (values : Values) (log : Log) (i : ℕ) → IsLog role values log
        → active log i ≡ true → list_any (ends i) log.received ≡ false
        → recv_window log i +ℤ pos (owed log i)
        ≡ pos (own_value 4 first_window (acked log) log.sent) }
{}

// contract: 4.3 No other frame is sent between the frames of a field block
/// What each step writes: of a call that is accepted, and does not make the connection fail, what
/// it owes; of an item that is no fault of the connection, what is replied to it; and credit.
/// Nothing comes in between, so that field blocks are unbroken (section 4.3).
pub fn each_step_writes_what_it_owes()
    ensures call { (log : Log) (act : Act) (answer : Answer)
        → answer ≡ answer_of (log_view log) act
        → ((id code : ℕ) → act ≡ Refuse id code → refuse_fault (log_view log) code ≡ None)
        → ((code : Code) → act ≢ Fail code)
        → Writes log (with_call log act answer) (items_of (log_view log) act answer) }
    ensures item { (log : Log) (decoded : Option Decoded) (item : Item)
        → ((code : Code) → verdict_of (log_view log) decoded item ≡ ConnectionFault code → ⊥)
        → Writes log (with_item log decoded item)
        (replies_to (verdict_of (log_view log) decoded item) item) }
{}

// contract: 6.9.1 DATA is sent within both windows
/// No DATA of an end's whole history passes its windows. Of the item that was written last, if it
/// is DATA with octets, neither send window is negative by all that was read (`newest`), as
/// [`windows_hold_data`] says of each call; of any other such DATA that was written, by some first
/// part of all that was read up to now, with just the SETTINGS that had been acknowledged
/// (`within`). And on each stream as many octets of DATA were written as calls of `data` have sent
/// (section 6.9.1).
pub fn no_data_passes_windows()
    ensures { (role : Role) (values : Values) (log : Log) → IsLog role values log
        → KeepsWindows log }
{}

/// Right after DATA with octets was written, neither send window is negative (section 6.9.1).
pub fn windows_hold_data()
    ensures { (log : Log) (id count : ℕ) (octets : List ℕ) (end : Bool)
        → refusal_of (log_view log) (SendData id octets end) ≡ None
        → answer_of (log_view log) (SendData id octets end) ≡ Count count → 0 < count
        → (int_lt (send_window (with_call log (SendData id octets end) (Count count)) id) (pos 0)
        ≡ false)
        × (int_lt (connection_send_window log.received
        (with_call log (SendData id octets end) (Count count)).sent) (pos 0) ≡ false) }
{}

/// A stream's window is conserved: what one end may send, its DATA under way, the increments that
/// come back and what the other end owes are the initial window in force at the other end, as long
/// as that is the one that was read last, and the stream is active there and not ended.
pub fn stream_window_is_conserved()
    ensures { (role : Role) (values : Values) (log theirs : Log) (way back : List Item) (i : ℕ)
        → IsLog role values theirs → log.sent ≡ way ++ theirs.received
        → theirs.sent ≡ back ++ log.received
        → active theirs i ≡ true → list_any (ends i) theirs.received ≡ false
        → value_read 4 first_window log.received
        ≡ own_value 4 first_window (acked theirs) theirs.sent
        → (send_window log i +ℤ pos (total (data_on i) way))
        +ℤ pos (total (increment_on i) back + owed theirs i)
        ≡ pos (own_value 4 first_window (acked theirs) theirs.sent) }
{}
