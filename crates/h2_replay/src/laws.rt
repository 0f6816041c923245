//! Laws of what [`replay`](crate::replay) keeps, each the contract of a function that does
//! nothing.

ghost use Rattle.std.specs.Prelude.{◌≡◌, ◌<◌, ℕ, Bool, List, ◌∷◌, ◌++◌, not, Some, None, pos};
ghost use Rattle.std.specs.Prelude.{int_lt, false, reverse};
ghost use Rattle.std.specs.List.{AllByRecursion};
ghost use Rattle.h2_frame.specs.declared.code.Code.{Code};
ghost use Rattle.h2_wire.specs.Streams.{expected_preface};
ghost use Rattle.h2_spec_log.specs.declared.role.Role.{Role};
ghost use Rattle.h2_spec_log.specs.Acts.{Values, Act, SendData, Count, Turn};
ghost use Rattle.h2_spec_log.specs.Limits.{max_frame_size_sent};
ghost use Rattle.h2_spec_log.specs.Log.{Log, send_window};
ghost use Rattle.h2_spec_log.specs.Histories.{IsLog};
ghost use Rattle.h2_spec_log.specs.LogCalls.{MayAnswer, with_call};
ghost use Rattle.h2_spec_log.specs.Settings.{is_server};
ghost use Rattle.h2_spec_log.specs.Windows.{connection_send_window};
ghost use Rattle.h2_laws_log.specs.Payloads.{encoding_by};
ghost use Rattle.h2_laws_log.specs.Sending.{IsSendable};
ghost use Rattle.h2_laws_end.specs.Failures.{EndsInGoAway};
ghost use Rattle.h2_laws_end.specs.Grouped.{AreGrouped};
ghost use Rattle.h2_laws_end.specs.Readings.{HasReadings};
ghost use Rattle.h2_laws_end.specs.Replays.{ReplayAct, Make, IsReplay, octets_of_acts};
ghost use Rattle.h2_laws_end.specs.Replies.{replies_owed, replies_among};
ghost use Rattle.h2_laws_end.specs.Scripts.{script_of};
ghost use Rattle.h2_laws_end.specs.Sendings.{EncodesInOrder, settings_received, lists_accepted};
ghost use Rattle.h2_replay.specs.declared.turns.Turn as code;
ghost use Rattle.h2_replay.specs.Joined.{used_in, written_in, event_in, joined};
ghost use Rattle.h2_replay.specs.Joined.{EndsWithCall};
ghost use Rattle.h2_replay.specs.Replay.{KeepsReplay};

// contract: replay (own) A replay keeps each act, its answer, its octets and its events
/// The octets of the turns are those of the log. Those used are a prefix of the octets of the
/// acts, and all of them while the connection has not failed; those that joined the output are
/// all that was written. The events are those that were reported, in order.
pub fn turns_are_of_the_log()
    ensures input { (role : Role) (values : Values) (acts : List ReplayAct)
        (kept : List code.Turn) (log : Log) (turns : List Turn)
        → KeepsReplay role values acts kept log turns → joined used_in kept ≡ log.input }
    ensures used { (role : Role) (values : Values) (acts : List ReplayAct)
        (kept : List code.Turn) (log : Log) (turns : List Turn)
        → KeepsReplay role values acts kept log turns
        → (unused : List ℕ) × (octets_of_acts acts ≡ joined used_in kept ++ unused) }
    ensures all_used { (role : Role) (values : Values) (acts : List ReplayAct)
        (kept : List code.Turn) (log : Log) (turns : List Turn)
        → KeepsReplay role values acts kept log turns → log.failed ≡ None
        → octets_of_acts acts ≡ joined used_in kept }
    ensures output { (role : Role) (values : Values) (acts : List ReplayAct)
        (kept : List code.Turn) (log : Log) (turns : List Turn)
        → KeepsReplay role values acts kept log turns → joined written_in kept ≡ log.written }
    ensures events { (role : Role) (values : Values) (acts : List ReplayAct)
        (kept : List code.Turn) (log : Log) (turns : List Turn)
        → KeepsReplay role values acts kept log turns
        → joined event_in kept ≡ reverse log.reported }
{}

// contract: replay (own) A replay keeps each act, its answer, its octets and its events
/// The output is a client's preface, if the end is one, and then the items written, each of
/// which may be sent. Each SETTINGS and each PING is answered once, in order, and the field
/// blocks are those of the accepted lists, in order (RFC 9113, sections 3.4, 4.1 to 4.3, 6.5.3
/// and 6.7).
pub fn output_of_a_replay()
    ensures items { (role : Role) (values : Values) (acts : List ReplayAct)
        (kept : List code.Turn) (log : Log) (turns : List Turn)
        → KeepsReplay role values acts kept log turns
        → joined written_in kept ≡ expected_preface (not (is_server log.role))
        ++ encoding_by log.payloads log.sent }
    ensures sendable { (role : Role) (values : Values) (acts : List ReplayAct) (log : Log)
        (turns : List Turn) → IsReplay role values acts log turns
        → AllByRecursion (IsSendable max_frame_size_sent) log.sent }
    ensures replies { (role : Role) (values : Values) (acts : List ReplayAct) (log : Log)
        (turns : List Turn) → IsReplay role values acts log turns
        → replies_among log.sent ≡ replies_owed log.received }
    ensures blocks { (role : Role) (values : Values) (acts : List ReplayAct) (log : Log)
        (turns : List Turn) → IsReplay role values acts log turns
        → EncodesInOrder log.sent (settings_received log.received) (lists_accepted log.calls)
        log.encoder }
{}

/// The events are those of the items read, which are the frames, grouped (sections 4.3 and
/// 6.10). How the octets are divided into acts does not matter: replays that used the same
/// octets, with the same calls and answers at the same places among them, report the same
/// events.
pub fn events_of_a_replay()
    ensures grouped { (role : Role) (values : Values) (acts : List ReplayAct) (log : Log)
        (turns : List Turn) → IsReplay role values acts log turns → AreGrouped log }
    ensures readings { (role : Role) (values : Values) (acts : List ReplayAct) (log : Log)
        (turns : List Turn) → IsReplay role values acts log turns → HasReadings log }
    ensures however_cut { (role : Role) (values : Values) (acts others : List ReplayAct)
        (kept also : List code.Turn) (log other : Log) (turns more : List Turn)
        (history : IsLog role values log) (another : IsLog role values other)
        → KeepsReplay role values acts kept log turns
        → KeepsReplay role values others also other more
        → script_of history ≡ script_of another → joined event_in kept ≡ joined event_in also }
{}

/// If the connection has failed, the last frame of the output is GOAWAY with its code (section
/// 5.4.1).
pub fn fault_of_a_replay()
    ensures { (role : Role) (values : Values) (acts : List ReplayAct) (log : Log)
        (turns : List Turn) (code : Code) → IsReplay role values acts log turns
        → log.failed ≡ Some code → EndsInGoAway log code }
{}

/// Each call has an answer that it may have after the acts before it: it is refused for the
/// first condition that holds, or for lack of memory, and otherwise does what the rules say.
pub fn calls_of_a_replay()
    ensures { (role : Role) (values : Values) (acts : List ReplayAct) (act : Act) (after : Log)
        (turns : List Turn) → IsReplay role values (Make act ∷ acts) after turns
        → EndsWithCall role values acts act after }
{}

/// Right after DATA with octets, neither send window is negative (section 6.9.1).
pub fn windows_of_a_replay()
    ensures { (role : Role) (values : Values) (acts : List ReplayAct) (log : Log)
        (turns : List Turn) (id count : ℕ) (octets : List ℕ) (end : Bool)
        → IsReplay role values acts log turns
        → MayAnswer log (SendData id octets end) (Count count) → 0 < count
        → (int_lt (send_window (with_call log (SendData id octets end) (Count count)) id) (pos 0)
        ≡ false)
        × (int_lt (connection_send_window log.received
        (with_call log (SendData id octets end) (Count count)).sent) (pos 0) ≡ false) }
{}
