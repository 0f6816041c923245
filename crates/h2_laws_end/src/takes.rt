//! What a call of `take` answers.

ghost use Rattle.std.specs.Prelude.{◌≡◌, ◌≢◌, List, ℕ, Option, None, false};
ghost use Rattle.h2_frame.specs.declared.code.Code.TheVariants.{InternalError};
ghost use Rattle.h2_frame.specs.Frames.{Frame};
ghost use Rattle.h2_spec_log.specs.declared.role.Role.{Role};
ghost use Rattle.h2_spec_log.specs.Acts.{Values};
ghost use Rattle.h2_spec_log.specs.Log.{Log};
ghost use Rattle.h2_spec_log.specs.LogView.{log_view};
ghost use Rattle.h2_spec_log.specs.Memory.{frame_needs_memory};
ghost use Rattle.h2_spec_log.specs.ItemRules.{Decoded};
ghost use Rattle.h2_spec_log.specs.LogSteps.{took_frame};
ghost use Rattle.h2_spec_log.specs.Histories.{IsLog, TakesOctets, TakesFrame, IsDecodedFor};
ghost use Rattle.h2_laws_end.specs.Promises.{NeedsNoMemory, IsFree};
ghost use Rattle.h2_laws_end.specs.Takes.{TakeAnswer, Failed, MayTake, HadMemory, AfterTake};

// contract: calls (own) take uses octets up to one frame's end, and answers one event at most
/// After each call an end has a log that comes about. The octets used are a prefix of the piece,
/// the event is the newest of the log, and there is none but that; a failed end answers its code.
/// Of each frame there is an answer. Where memory isn't refused, what is answered and the log after
/// it follow from the log and the piece.
pub fn take_answers()
    ensures closed { (role : Role) (values : Values) (log after : Log) (piece : List ℕ)
        (answer : TakeAnswer) → IsLog role values log → MayTake log piece answer after
        → IsLog role values after }
    ensures after { (log after : Log) (piece : List ℕ) (answer : TakeAnswer)
        → MayTake log piece answer after → AfterTake log after piece answer }
    ensures some { (log : Log) (octets : List ℕ) (frame : Frame) (decoded : Option Decoded)
        → TakesOctets log → TakesFrame log.role log octets frame → IsDecodedFor log decoded frame
        → (answer : TakeAnswer)
        × MayTake log octets answer (took_frame log octets decoded frame) }
    ensures one { (log after other : Log) (piece : List ℕ) (answer answered : TakeAnswer)
        → (a : MayTake log piece answer after) → (b : MayTake log piece answered other)
        → HadMemory a → HadMemory b → (answer ≡ answered) × (after ≡ other) }
{}

// contract: 5.4 (own) A frame whole in its piece that needs no memory is never refused any
/// A piece that begins with a frame is not answered with INTERNAL_ERROR where nothing is unparsed,
/// all unprocessed streams were reported and the frame takes no memory (`promised`). PRIORITY, a
/// frame of an unknown type, the answer to a PING, WINDOW_UPDATE without a fault and DATA without
/// END_STREAM that is reported take none (`free`).
pub fn frames_without_memory_are_taken()
    ensures promised { (log after : Log) (piece : List ℕ) (answer : TakeAnswer)
        → MayTake log piece answer after → NeedsNoMemory log piece
        → answer ≢ Failed InternalError }
    ensures free { (log : Log) (frame : Frame)
        → IsFree (log_view (record log { begun = None })) frame
        → frame_needs_memory log frame ≡ false }
{}
