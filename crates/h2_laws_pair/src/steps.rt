//! What is done with one end of a pair, as steps of the pair.

ghost use Rattle.std.specs.Prelude.{◌≡◌, ◌≢◌, ℕ, List, [], ◌++◌, None};
ghost use Rattle.h2_frame.specs.declared.code.Code.TheVariants.{InternalError};
ghost use Rattle.h2_spec_log.specs.Acts.{Values, Act, Answer, PutOut};
ghost use Rattle.h2_spec_log.specs.Log.{Log, next_unprocessed};
ghost use Rattle.h2_spec_log.specs.LogCalls.{MayAnswer, with_call};
ghost use Rattle.h2_laws_end.specs.Takes.{TakeAnswer, MayTake, Took, Failed};
ghost use Rattle.h2_laws_pair.specs.Pairs.{Half, IsPair, given_since};
ghost use Rattle.h2_laws_pair.specs.Steps.{HalfSteps, AreUndisturbed, TakesInPair};
ghost use Rattle.h2_laws_pair.specs.Undisturbed.{IsUndisturbed};

/// A pair comes about with steps at either end, and is undisturbed where it was and they are.
pub fn steps_keep_a_pair()
    ensures client { (client_values server_values : Values)
        (client server new_client new_server : Half)
        → (pair : IsPair client_values server_values client server)
        → (steps : HalfSteps client server new_client new_server)
        → (after : IsPair client_values server_values new_client new_server)
        × (IsUndisturbed pair → AreUndisturbed steps → IsUndisturbed after) }
    ensures server { (client_values server_values : Values)
        (client server new_client new_server : Half)
        → (pair : IsPair client_values server_values client server)
        → (steps : HalfSteps server client new_server new_client)
        → (after : IsPair client_values server_values new_client new_server)
        × (IsUndisturbed pair → AreUndisturbed steps → IsUndisturbed after) }
{}

/// A call of `take` with octets that lie first on the pipe is made of steps of the pair, and is
/// undisturbed unless it answers INTERNAL_ERROR. What it does not use lies on the pipe still.
pub fn takes_are_steps()
    ensures { (one other : Half) (piece later : List ℕ) (answer : TakeAnswer) (after : Log)
        → one.incoming ≡ piece ++ later → MayTake one.log piece answer after
        → (taken : TakesInPair one other piece later answer after)
        × (answer ≢ Failed InternalError → AreUndisturbed taken.steps) }
{}

/// A call gives out no octets, unless it takes some of the output away.
pub fn calls_give_nothing_out()
    ensures { (log : Log) (act : Act) (answer : Answer) → MayAnswer log act answer
        → ((count : ℕ) → act ≢ PutOut count) → given_since log (with_call log act answer) ≡ [] }
{}

/// Once a call of `take` reports nothing, each stream that the peer does not process was reported;
/// and no call leaves one that was not.
pub fn unprocessed_streams_are_reported()
    ensures takes { (log after : Log) (piece : List ℕ) (count : ℕ)
        → MayTake log piece (Took count None) after → next_unprocessed after ≡ 0 }
    ensures calls { (log : Log) (act : Act) (answer : Answer)
        → MayAnswer log act answer → next_unprocessed log ≡ 0
        → next_unprocessed (with_call log act answer) ≡ 0 }
{}
