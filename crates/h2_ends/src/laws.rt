//! Laws of messages at two ends. Each is the contract of a function that does nothing.

ghost use Rattle.std.specs.Prelude.{◌≡◌, ◌⊎◌, ◌<◌, ℕ, Bool, List, Option};
ghost use Rattle.std.specs.List.{AllByRecursion};
ghost use Rattle.h2_spec_log.specs.Acts.{Values};
ghost use Rattle.h2_message.specs.declared.reading.Reads.{Reads};
ghost use Rattle.h2_message.specs.Reading.{Part, IsReadable};
ghost use Rattle.h2_laws_pair.specs.Tokens.{Said, IsPrefixOfTokens, said_tokens};
ghost use Rattle.h2_ends.specs.Ends.{EndLog, IsNoEmptyPart, tokens_of_parts, tokens_out};
ghost use Rattle.h2_ends.specs.EndCalls.{BodyWaits, IsOpen};
ghost use Rattle.h2_ends.specs.Represents.{EndRepresents};
ghost use Rattle.h2_ends.specs.declared.end.End.{End};
ghost use Rattle.h2_ends.specs.declared.span.Turn.{Turn};
ghost use Rattle.h2_ends.specs.SoundSaid.{IsSoundSaid};
ghost use Rattle.h2_ends.specs.Passes.{Halt, Shares, Waits, numbers, share_size};
ghost use Rattle.h2_ends.specs.Turns.{ComesBefore, HasRoomFor, IsNotStopped, GetsShare, EndsAt};
ghost use Rattle.h2_ends.specs.Turns.{Meanwhile, Pass, turn_after};

// contract: 8.1 (own) What has come of a message that breaks no rule can be read
/// If a message breaks no rule as it is sent (or, where it is sent in parts, has broken none so
/// far), every prefix of it that was received can be read. Its body may come in any number of DATA
/// frames, as long as none is empty without END_STREAM (RFC 9113, section 8.1).
pub fn sent_parts_are_readable()
    ensures { (reads : Reads) (said : Said) (parts : List (Part × Bool)) → IsSoundSaid reads said
        → AllByRecursion IsNoEmptyPart parts
        → IsPrefixOfTokens (tokens_of_parts parts) (said_tokens said)
        → IsReadable reads parts }
{}

// contract: 8.1 (own) A part of a message is sent where one was begun, and is checked
/// If a message was begun and has not ended, all that was accepted of it was written to the
/// output: nothing of it waits for `pump` (RFC 9113, section 8.1).
pub fn parts_are_sent_at_once()
    ensures { (values : Values) (end : End) (happened : EndLog) (id : ℕ) (said : Said)
        (number : Option ℕ) → EndRepresents values end happened
        → IsOpen happened id said number → tokens_out happened id ≡ said_tokens said }
{}

// contract: 8.1 (own) Between two shares of a stream each other that waits gets one
/// Suppose that one stream gets a share in each of two passes, and that something waits on
/// another stream as each of these passes begins. Then the other stream gets a share between
/// the two: later in the first pass, in a pass between, or earlier in the second, even if the
/// second share is cut short (RFC 9113, section 5.2.1). This holds whatever happens between
/// passes. A share that is not refused sends at least one octet where octets wait and the
/// windows have room.
pub fn shares_are_given_in_turn()
    ensures turns { (i j : ℕ) → j < numbers → (first last : Pass) → GetsShare first i
        → Waits first.end j → (GetsShare first j → ComesBefore first.end.turn.id j i)
        → Meanwhile i j (turn_after first) last.end.turn → GetsShare last i ⊎ EndsAt last i
        → Waits last.end j → GetsShare last j × ComesBefore last.end.turn.id j i }
    ensures sends { (turn : Turn) (most id count : ℕ) (end after : EndLog) (halt : Option Halt)
        (octets : List ℕ) (ends : Bool) → Shares (share_size turn most id) id end count halt after
        → BodyWaits end id octets ends → HasRoomFor end id → IsNotStopped halt → 0 < count }
{}
