//! Which streams are active: what opens and closes one, and what is owed.

ghost use Rattle.std.specs.Prelude.{◌≡◌, ◌≢◌, ℕ, Bool, true, false, List, Some, None};
ghost use Rattle.hpack.specs.declared.types.field.Field.{Field};
ghost use Rattle.h2_spec_log.specs.declared.role.Role.TheVariants.{Server};
ghost use Rattle.h2_spec_log.specs.declared.role.Role.{Role};
ghost use Rattle.h2_spec_log.specs.Acts.{Values, Act, Answer, Open, Refuse, Number};
ghost use Rattle.h2_spec_log.specs.Events.{FieldsEvent};
ghost use Rattle.h2_spec_log.specs.Log.{Log, active, owed};
ghost use Rattle.h2_spec_log.specs.LogCalls.{MayAnswer, with_call};
ghost use Rattle.h2_spec_log.specs.Histories.{IsLog};
ghost use Rattle.h2_laws_end.specs.Takes.{TakeAnswer, MayTake, Took};
ghost use Rattle.h2_laws_end.specs.Activity.{call_may_close, take_may_close, take_has_data};
ghost use Rattle.h2_laws_end.specs.Activity.{take_has_fields};

// contract: 5.1 A stream becomes active, and ceases to be, by calls and events alone
/// A stream stays active, unless a call ends this side of it or resets it, or what `take` answers
/// says that it may be closed (RFC 9113, section 5.1). A failure closes none.
pub fn active_streams_stay_active()
    ensures calls { (role : Role) (values : Values) (log : Log) (act : Act) (answer : Answer)
        (i : ℕ) → IsLog role values log → MayAnswer log act answer → active log i ≡ true
        → call_may_close i act answer ≡ false → active (with_call log act answer) i ≡ true }
    ensures takes { (role : Role) (values : Values) (log after : Log) (piece : List ℕ)
        (answer : TakeAnswer) (i : ℕ) → IsLog role values log → MayTake log piece answer after
        → active log i ≡ true → take_may_close i answer ≡ false → active after i ≡ true }
{}

// contract: 5.1 A stream becomes active, and ceases to be, by calls and events alone
/// A stream that isn't active becomes so where a call answers its number, or where `take` reports
/// a field block of it: at a server (sections 5.1 and 5.1.1).
pub fn streams_become_active()
    ensures calls { (log : Log) (act : Act) (answer : Answer) (i : ℕ) → MayAnswer log act answer
        → active log i ≡ false → answer ≢ Number i
        → active (with_call log act answer) i ≡ false }
    ensures opened { (role : Role) (values : Values) (log : Log) (fields : List Field)
        (end : Bool) (id : ℕ) → IsLog role values log → MayAnswer log (Open fields end) (Number id)
        → active (with_call log (Open fields end) (Number id)) id ≡ true }
    ensures takes { (role : Role) (values : Values) (log after : Log) (piece : List ℕ)
        (answer : TakeAnswer) (i : ℕ) → IsLog role values log → MayTake log piece answer after
        → active log i ≡ false → take_has_fields i answer ≡ false → active after i ≡ false }
    ensures fields { (role : Role) (values : Values) (log after : Log) (piece : List ℕ)
        (count id : ℕ) (list : List Field) (end : Bool) → IsLog role values log
        → MayTake log piece (Took count (Some (FieldsEvent id list end))) after
        → active log id ≡ false → (log.role ≡ Server) × (active after id ≡ true) }
{}

/// A stream that was refused isn't active, unless the connection has failed.
pub fn refused_streams_are_closed()
    ensures { (log : Log) (id code : ℕ) (answer : Answer) → MayAnswer log (Refuse id code) answer
        → (with_call log (Refuse id code) answer).failed ≡ None
        → active (with_call log (Refuse id code) answer) id ≡ false }
{}

/// Where nothing is owed on a stream, nothing is after a call, nor after octets, unless `take`
/// reports octets of the stream (section 6.9).
pub fn owed_octets_are_reported()
    ensures calls { (role : Role) (values : Values) (log : Log) (act : Act) (answer : Answer)
        (i : ℕ) → IsLog role values log → MayAnswer log act answer → owed log i ≡ 0
        → owed (with_call log act answer) i ≡ 0 }
    ensures takes { (role : Role) (values : Values) (log after : Log) (piece : List ℕ)
        (answer : TakeAnswer) (i : ℕ) → IsLog role values log → MayTake log piece answer after
        → owed log i ≡ 0 → take_has_data i answer ≡ false → owed after i ≡ 0 }
{}
