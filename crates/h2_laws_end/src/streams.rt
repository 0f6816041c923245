//! Streams that are over, and what a call leaves as it is on the others.

ghost use Rattle.std.specs.Prelude.{◌≡◌, ℕ, Bool, true, false, List, Option, Some};
ghost use Rattle.hpack.specs.declared.types.field.Field.{Field};
ghost use Rattle.h2_spec_log.specs.declared.role.Role.TheVariants.{Client};
ghost use Rattle.h2_spec_log.specs.declared.role.Role.{Role};
ghost use Rattle.h2_spec_log.specs.Acts.{Values, Act, Answer, Open, SendFields, SendData, Release};
ghost use Rattle.h2_spec_log.specs.Acts.{Number, Done};
ghost use Rattle.h2_spec_log.specs.Events.{FieldsEvent, DataEvent};
ghost use Rattle.h2_spec_log.specs.Log.{Log, owed, next_number};
ghost use Rattle.h2_spec_log.specs.LogCalls.{MayAnswer, with_call};
ghost use Rattle.h2_spec_log.specs.Histories.{IsLog};
ghost use Rattle.h2_laws_end.specs.Takes.{TakeAnswer, MayTake, Took};
ghost use Rattle.h2_laws_end.specs.Over.{is_number_used, IsOver, has_room};

// contract: 5.1 A used number stays used, and a stream that is over stays over
/// A number that was used stays used, and a stream that is over stays over (RFC 9113, section
/// 5.1).
pub fn over_streams_stay_over()
    ensures used_by_calls { (log : Log) (act : Act) (answer : Answer) (i : ℕ)
        → is_number_used log i ≡ true → is_number_used (with_call log act answer) i ≡ true }
    ensures used_by_takes { (log after : Log) (piece : List ℕ) (answer : TakeAnswer) (i : ℕ)
        → MayTake log piece answer after → is_number_used log i ≡ true
        → is_number_used after i ≡ true }
    ensures over_by_calls { (log : Log) (act : Act) (answer : Answer) (i : ℕ)
        → MayAnswer log act answer → IsOver log i → IsOver (with_call log act answer) i }
    ensures over_by_takes { (log after : Log) (piece : List ℕ) (answer : TakeAnswer) (i : ℕ)
        → MayTake log piece answer after → IsOver log i → IsOver after i }
{}

// contract: 5.1 A used number stays used, and a stream that is over stays over
/// Fields and octets are reported of streams that are not over, and that are used from then on
/// (sections 5.1 and 5.1.1).
pub fn events_are_of_streams_in_use()
    ensures fields { (log after : Log) (piece : List ℕ) (count id : ℕ) (list : List Field)
        (end : Bool) → MayTake log piece (Took count (Some (FieldsEvent id list end))) after
        → (IsOver log id → ⊥) × (is_number_used after id ≡ true) }
    ensures data { (log after : Log) (piece : List ℕ) (count id : ℕ) (octets : List ℕ) (flow : ℕ)
        (end : Bool) → MayTake log piece (Took count (Some (DataEvent id octets flow end))) after
        → (IsOver log id → ⊥) × (is_number_used after id ≡ true) }
{}

/// A call that opens a stream answers the next number, which wasn't used before, and is from then
/// on (section 5.1.1).
pub fn opened_numbers_are_new()
    ensures { (role : Role) (values : Values) (log : Log) (fields : List Field) (end : Bool)
        (id : ℕ) → IsLog role values log → MayAnswer log (Open fields end) (Number id)
        → (log.role ≡ Client) × (id ≡ next_number log) × (is_number_used log id ≡ false)
        × (is_number_used (with_call log (Open fields end) (Number id)) id ≡ true) }
{}

// contract: 6.9 Where nothing is owed nothing is, until octets are reported
/// Sending on one stream gives no other one room (section 6.9.1).
pub fn sending_gives_no_room()
    ensures fields { (log : Log) (id i : ℕ) (fields : List Field) (end : Bool) (answer : Answer)
        → MayAnswer log (SendFields id fields end) answer → has_room log i ≡ false
        → has_room (with_call log (SendFields id fields end) answer) i ≡ false }
    ensures data { (log : Log) (id i : ℕ) (octets : List ℕ) (end : Bool) (answer : Answer)
        → MayAnswer log (SendData id octets end) answer → has_room log i ≡ false
        → has_room (with_call log (SendData id octets end) answer) i ≡ false }
{}

// contract: 6.9 Where nothing is owed nothing is, until octets are reported
/// Once all that is owed on a stream was released, nothing is; and releasing on one stream makes
/// nothing owed on another (section 6.9).
pub fn released_is_not_owed()
    ensures all { (log : Log) (id : ℕ) → MayAnswer log (Release id (owed log id)) Done
        → owed (with_call log (Release id (owed log id)) Done) id ≡ 0 }
    ensures others { (log : Log) (id count i : ℕ) (answer : Answer)
        → MayAnswer log (Release id count) answer → owed log i ≡ 0
        → owed (with_call log (Release id count) answer) i ≡ 0 }
{}
