//! What is bounded at one end, and that its connection's receive window is conserved: over the
//! machine, whatever comes and whatever is asked of it.

ghost use Rattle.std.specs.Prelude.{◌≡◌, ◌≢◌, ℕ, ◌≤◌, length, Option, None};
ghost use Rattle.std.specs.FinMap as map;
ghost use Rattle.h2_frame.specs.Encoding.{stream_of};
ghost use Rattle.h2_spec_log.specs.States.{greatest_number};
ghost use Rattle.h2_frame.specs.declared.code.Code.{Code};
ghost use Rattle.h2_frame.specs.Frames.{Frame};
ghost use Rattle.h2_spec_machine.specs.End.{end_view, End};
ghost use Rattle.h2_spec_log.specs.Acts.{Values, AreInRange, Act, IsTypedAct};
ghost use Rattle.h2_spec_log.specs.ItemRules.{Decoded};
ghost use Rattle.h2_spec_machine.specs.Machine.{new_end, after_frame, after_call, fail};
ghost use Rattle.h2_spec_machine.specs.Machine.{close_unprocessed, unprocessed_of_end};
ghost use Rattle.h2_spec_log.specs.CallRules.{refusal_of};
ghost use Rattle.h2_spec_log.specs.Histories.{IsLog};
ghost use Rattle.h2_spec_log.specs.Log.{Log, waiting, resets_written, active_count};
ghost use Rattle.h2_spec_log.specs.declared.role.Role.{Role};
ghost use Rattle.h2_laws_machine.specs.Bounds.{IsBounded, KeepsConnectionWindow};
ghost use Rattle.h2_laws_machine.specs.Ranges.{ValuesAreInRange, IsDecodedAt, CountsEntries};

// contract: 10.5 (own) An end that resets 1,001 streams ends with ENHANCE_YOUR_CALM
// contract: 10.5 (own) Replies above 262,144 waiting octets are ENHANCE_YOUR_CALM
/// An end has at most 1,000 active streams, has reset at most 1,000, and has at most 262,144 octets
/// of output waiting, and 17 more once it has failed: at first, and after each frame, fault, stream
/// that is reported as unprocessed, and call.
pub fn everything_is_bounded()
    ensures begins { (role : Role) (values : Values) → AreInRange values
        → IsBounded (new_end role values) }
    ensures frame { (e : End) (decoded : Option Decoded) (frame : Frame) → e.failed ≡ None
        → IsBounded e → IsBounded (after_frame e decoded frame) }
    ensures fault { (e : End) (code : Code) → e.failed ≡ None → IsBounded e
        → IsBounded (fail code e.streams.last_processed e) }
    ensures unprocessed { (e : End) (i : ℕ) → e.failed ≡ None → IsBounded e
        → IsBounded (close_unprocessed e i) }
    ensures call { (e : End) (act : Act) → refusal_of (end_view e) act ≡ None → IsTypedAct act
        → IsBounded e → IsBounded (after_call e act) }
{}

/// By every log that comes about an end has at most 262,144 octets of output waiting, and 262,161
/// once it has failed, with the GOAWAY that says so; it has reset at most 1,000 streams, and at
/// most 1,000 are active (own; RFC 9113, section 10.5).
pub fn logs_are_bounded()
    ensures waiting { (role : Role) (values : Values) (log : Log) → IsLog role values log
        → waiting log ≤ 262161 }
    ensures up { (role : Role) (values : Values) (log : Log) → IsLog role values log
        → log.failed ≡ None → waiting log ≤ 262144 }
    ensures resets { (role : Role) (values : Values) (log : Log) → IsLog role values log
        → resets_written log ≤ 1000 }
    ensures active { (role : Role) (values : Values) (log : Log) → IsLog role values log
        → active_count log ≤ 1000 }
{}

// contract: 6.9 Nothing of the window of the connection is lost
/// What the peer may send on the connection, what is owed on all streams, and what is unreturned,
/// are 65,535 octets and what the window was widened by, where nothing is kept of numbers that
/// weren't used: at first, and after each frame, fault, stream that is reported as unprocessed, and
/// call (RFC 9113, section 6.9).
pub fn connection_window_is_kept()
    ensures begins { (role : Role) (values : Values)
        → KeepsConnectionWindow (new_end role values) }
    ensures frame { (e : End) (decoded : Option Decoded) (frame : Frame)
        → KeepsConnectionWindow e → KeepsConnectionWindow (after_frame e decoded frame) }
    ensures fault { (e : End) (code : Code) → KeepsConnectionWindow e
        → KeepsConnectionWindow (fail code e.streams.last_processed e) }
    ensures unprocessed { (e : End) (i : ℕ) → KeepsConnectionWindow e
        → KeepsConnectionWindow (close_unprocessed e i) }
    ensures call { (e : End) (act : Act) → refusal_of (end_view e) act ≡ None
        → KeepsConnectionWindow e → KeepsConnectionWindow (after_call e act) }
{}

/// The values of an end are in the ranges that its definitions give them, so that code can keep
/// them in numbers of 32 and 64 bits: at first, and after each frame whose stream has 31 bits and
/// whose field block decodes as it was seen, fault, stream that is reported as unprocessed, and
/// call.
pub fn values_are_in_range()
    ensures begins { (role : Role) (values : Values) → AreInRange values
        → ValuesAreInRange (new_end role values) }
    ensures frame { (e : End) (decoded : Option Decoded) (frame : Frame) → e.failed ≡ None
        → stream_of frame ≤ greatest_number → IsDecodedAt e decoded frame → ValuesAreInRange e
        → ValuesAreInRange (after_frame e decoded frame) }
    ensures fault { (e : End) (code : Code) → ValuesAreInRange e
        → ValuesAreInRange (fail code e.streams.last_processed e) }
    ensures unprocessed { (e : End) (i : ℕ) → ValuesAreInRange e
        → ValuesAreInRange (close_unprocessed e i) }
    ensures call { (e : End) (act : Act) → refusal_of (end_view e) act ≡ None → IsTypedAct act
        → ValuesAreInRange e → ValuesAreInRange (after_call e act) }
{}

/// An end keeps as many entries of streams as are active and as were reset, by its counts, so at
/// most 2,000 where these are bounded: at first, and after each frame, fault, the stream that is
/// next to be reported as unprocessed, and call.
pub fn entries_are_counted()
    ensures begins { (role : Role) (values : Values) → CountsEntries (new_end role values) }
    ensures frame { (e : End) (decoded : Option Decoded) (frame : Frame) → CountsEntries e
        → CountsEntries (after_frame e decoded frame) }
    ensures fault { (e : End) (code : Code) → CountsEntries e
        → CountsEntries (fail code e.streams.last_processed e) }
    ensures unprocessed { (e : End) (i : ℕ)
        → i ≡ unprocessed_of_end e.role e.streams.entries e.goaway.received → i ≢ 0
        → CountsEntries e → CountsEntries (close_unprocessed e i) }
    ensures call { (e : End) (act : Act) → refusal_of (end_view e) act ≡ None → CountsEntries e
        → CountsEntries (after_call e act) }
    ensures most { (e : End) → IsBounded e → CountsEntries e
        → length (map.entries e.streams.entries) ≤ 2000 }
{}
