//! Laws of a log's octets and frames, each the contract of a function that does nothing.

ghost use Rattle.std.specs.Prelude.{◌≡◌, ℕ, ◌≤◌, Bool, true, List, [], length, Some, None};
ghost use Rattle.hpack.specs.declared.types.field.Field.{Field};
ghost use Rattle.hpack.specs.Tables.{Entries};
ghost use Rattle.h2_frame.specs.Frames.{Frame, Headers};
ghost use Rattle.h2_frame.specs.Encoding.{payload_of, refusal as writing_refusal, IsTyped};
ghost use Rattle.h2_wire.specs.Streams.{Frames};
ghost use Rattle.h2_spec_log.specs.declared.role.Role.{Role as AnyRole};
ghost use Rattle.h2_spec_log.specs.Acts.{Values};
ghost use Rattle.h2_spec_log.specs.Settings.{is_server, payload_limit};
ghost use Rattle.h2_spec_log.specs.Log.{Log, acked};
ghost use Rattle.h2_spec_log.specs.Histories.{IsLog, TakesOctets, IsDecodedFor};
ghost use Rattle.h2_spec_log.specs.WrittenFrames.{takes, takes_block};

/// As long as an end hasn't failed its frames are those of its octets, with the limits that were in
/// force, and after them stands the rest (RFC 9113, sections 3.4 and 4.1). Its role is the one that
/// it was made with.
pub fn frames_of_a_log()
    ensures frames { (role : AnyRole) (values : Values) (log : Log) → IsLog role values log
        → log.failed ≡ None
        → Frames (is_server role) log.limits log.input log.frames log.unparsed }
    ensures role { (role : AnyRole) (values : Values) (log : Log) → IsLog role values log
        → log.role ≡ role }
{}

/// A frame that can be written, within the limit that is in force, comes in its encoding where
/// nothing stands after the frames before it: a log that comes about so. The frame makes no block
/// whole, or one that says nothing (sections 4.1 and 4.2).
pub fn frame_in_its_encoding()
    ensures { (role : AnyRole) (values : Values) (log : Log) (frame : Frame)
        → IsLog role values log → TakesOctets log → log.unparsed ≡ []
        → IsTyped frame → writing_refusal frame ≡ None
        → length (payload_of frame) ≤ payload_limit (acked log) log.sent
        → IsDecodedFor log None frame → IsLog role values (takes log frame) }
{}

/// So does a field block in one HEADERS frame, with what it says (sections 4.3 and 6.2).
pub fn block_in_its_encoding()
    ensures { (role : AnyRole) (values : Values) (log : Log) (stream : ℕ) (end : Bool)
        (octets : List ℕ) (fields : List Field) (after : Entries)
        → IsLog role values log → TakesOctets log → log.unparsed ≡ []
        → writing_refusal (Headers stream end true octets None None) ≡ None
        → length octets ≤ payload_limit (acked log) log.sent
        → IsDecodedFor log (Some (record { fields = fields; after = after }))
        (Headers stream end true octets None None)
        → IsLog role values (takes_block log stream end octets fields after) }
{}
