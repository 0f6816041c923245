//! How octets are cut into pieces doesn't matter.

ghost use Rattle.std.specs.Prelude.{◌≡◌, ◌≤◌, ℕ, List, ◌++◌};
ghost use Rattle.std.specs.List.{AllByRecursion};
ghost use Rattle.h2_wire.specs.Streams.{Limits};
ghost use Rattle.h2_spec_log.specs.declared.role.Role.{Role};
ghost use Rattle.h2_spec_log.specs.Acts.{Values};
ghost use Rattle.h2_spec_log.specs.Log.{Log};
ghost use Rattle.h2_spec_log.specs.Histories.{IsLog};
ghost use Rattle.h2_laws_end.specs.Prefixes.{IsPrefixOfItems};
ghost use Rattle.h2_laws_end.specs.Scripts.{script_of, AreSameButTurns};

// contract: 4.1 The frames of a stream do not depend on the pieces of its octets
/// Two ends of one role and configuration that have used the same octets, with the same calls and
/// answers, and memory refused, at the same places among them, have the same frames, items, events,
/// output and fault, however the octets were cut into pieces: their logs are the same but for the
/// turns.
pub fn pieces_do_not_matter()
    ensures { (role : Role) (values : Values) (log other : Log) (history : IsLog role values log)
        (another : IsLog role values other) → script_of history ≡ script_of another
        → AreSameButTurns log other }
{}

/// A prefix of what an end has written is read as the first of its items, a field block that has
/// begun, and the octets of a frame that isn't complete, without a fault, where payloads may be
/// read that are as long as the greatest with which its items were written.
pub fn prefix_of_the_output()
    ensures { (role : Role) (values : Values) (log : Log) (limits : Limits) (octets more : List ℕ)
        → IsLog role values log → log.written ≡ octets ++ more
        → (bound : ℕ) → AllByRecursion (λ most. most ≤ bound) log.payloads
        → ((place : ℕ) → bound ≤ limits place)
        → IsPrefixOfItems role limits octets log.sent }
{}
