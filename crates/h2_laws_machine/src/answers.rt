//! What a machine answers is what the log that it represents says.

ghost use Rattle.std.specs.Prelude.{◌≡◌, ℕ, ◌==◌, ◌||◌, if◌then◌else◌, length, pos, Option};
ghost use Rattle.std.specs.Prelude.{None, Some, is_some};
ghost use Rattle.std.specs.FinMap as map;
ghost use Rattle.std.specs.Option.{option_map};
ghost use Rattle.h2_frame.specs.Frames.{Frame};
ghost use Rattle.h2_block.specs.Grouping.{Item};
ghost use Rattle.h2_spec_log.specs.Acts.{Values, Act, PutOut};
ghost use Rattle.h2_spec_log.specs.View.{owed_on};
ghost use Rattle.h2_spec_log.specs.Log.{Log, waiting, next_active, reader_next_live};
ghost use Rattle.h2_spec_log.specs.LogView.{log_view};
ghost use Rattle.h2_spec_log.specs.ItemRules.{Decoded, frame_step, verdict_of};
ghost use Rattle.h2_spec_log.specs.ItemEffects.{events_of};
ghost use Rattle.h2_spec_log.specs.CallRules.{answer_of, reader_room, reader_owed, reader_due};
ghost use Rattle.h2_spec_log.specs.CallRules.{has_failed};
ghost use Rattle.h2_spec_machine.specs.End.{end_view, End, stream_at};
ghost use Rattle.h2_spec_machine.specs.Machine.{with_begun, first_active};
ghost use Rattle.h2_spec_machine.specs.Represents.{Represents};

/// A machine that represents a log makes of a frame what the log does: an item, a block that has
/// begun, or a fault; of an item it has the log's verdict, and reports the log's events.
pub fn frames_are_taken_alike()
    ensures step { (values : Values) (e : End) (log : Log) (frame : Frame)
        → Represents values e log → e.failed ≡ None
        → frame_step (end_view e) frame ≡ frame_step (log_view log) frame }
    ensures verdict { (values : Values) (e : End) (log : Log) (decoded : Option Decoded)
        (item : Item) → Represents values e log → e.failed ≡ None
        → verdict_of (end_view (with_begun e None)) decoded item
        ≡ verdict_of (log_view (record log { begun = None })) decoded item }
    ensures events { (values : Values) (e : End) (log : Log) (decoded : Option Decoded)
        (item : Item) → Represents values e log → e.failed ≡ None
        → events_of (end_view (with_begun e None)) decoded
        (verdict_of (end_view (with_begun e None)) decoded item) item
        ≡ events_of (log_view (record log { begun = None })) decoded
        (verdict_of (log_view (record log { begun = None })) decoded item) item }
{}

/// A machine that represents a log answers a call as the log does, and what it says of itself is
/// what the log says: how many octets wait, how many may be sent on the connection (0) or a stream,
/// how many are owed and unreturned, and which stream is the next active one. Once the connection
/// has failed output is put out all the same, and all but the octets that wait are 0 or nothing.
pub fn machines_answer_alike()
    ensures answer { (values : Values) (e : End) (log : Log) (act : Act)
        → Represents values e log → e.failed ≡ None
        → answer_of (end_view e) act ≡ answer_of (log_view log) act }
    ensures put_out { (values : Values) (e : End) (log : Log) (count : ℕ)
        → Represents values e log
        → answer_of (end_view e) (PutOut count) ≡ answer_of (log_view log) (PutOut count) }
    ensures waiting { (values : Values) (e : End) (log : Log) → Represents values e log
        → length e.output.waiting ≡ waiting log }
    ensures room { (values : Values) (e : End) (log : Log) (id : ℕ) → Represents values e log
        → (if is_some e.failed then None else if id == 0 then Some (pos e.windows.send)
        else option_map (λ stream. stream.send_window) (stream_at e id))
        ≡ reader_room (log_view log) id }
    ensures owed { (values : Values) (e : End) (log : Log) (id : ℕ) → Represents values e log
        → (if is_some e.failed then 0 else owed_on (stream_at e id))
        ≡ reader_owed (log_view log) id }
    ensures due { (values : Values) (e : End) (log : Log) → Represents values e log
        → (if is_some e.failed then 0 else e.windows.unreturned) ≡ reader_due (log_view log) }
    ensures next { (values : Values) (e : End) (log : Log) (id : ℕ) → Represents values e log
        → first_active id (map.entries e.streams.entries) ≡ next_active log id }
    ensures live { (values : Values) (e : End) (log : Log) (id : ℕ) → Represents values e log
        → (if is_some e.failed || first_active id (map.entries e.streams.entries) == 0 then None
        else Some (first_active id (map.entries e.streams.entries))) ≡ reader_next_live log id }
{}

/// What the peer may still send on the connection (0) or a stream is, by a machine, what the log
/// says that it represents; nothing once the connection has failed.
pub fn receive_windows_are_alike()
    ensures { (values : Values) (e : End) (log : Log) (id : ℕ) → Represents values e log
        → (if is_some e.failed then None else if id == 0 then Some (pos e.windows.recv)
        else option_map (λ stream. stream.recv_window) (stream_at e id))
        ≡ (if has_failed (log_view log) then None
        else if id == 0 then Some (log_view log).recv_window
        else option_map (λ stream. stream.recv_window) ((log_view log).stream id)) }
{}
