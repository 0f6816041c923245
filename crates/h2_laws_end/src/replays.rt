//! Logs of `replay`.

ghost use Rattle.std.specs.Prelude.{◌≡◌, ℕ, List, ◌++◌, None};
ghost use Rattle.h2_spec_log.specs.declared.role.Role.{Role};
ghost use Rattle.h2_spec_log.specs.Acts.{Values, Turn};
ghost use Rattle.h2_spec_log.specs.Log.{Log};
ghost use Rattle.h2_spec_log.specs.Histories.{IsLog};
ghost use Rattle.h2_laws_log.specs.Turns.{octets_in, octets_out, events_in};
ghost use Rattle.h2_laws_end.specs.Replays.{ReplayAct, IsReplay, acts_of_turns, script_phase};
ghost use Rattle.h2_laws_end.specs.Replays.{Between};
ghost use Rattle.h2_laws_end.specs.Replays.{octets_of_acts};

/// The log of a replay comes about. Its turns tell of the acts, in order, with one call and one
/// answer each; of the octets used, the octets written and the events of the log. Those used are
/// the octets of the acts, and a prefix of them once the connection has failed.
pub fn replays_are_logs()
    ensures closed { (role : Role) (values : Values) (acts : List ReplayAct) (log : Log)
        (turns : List Turn) → IsReplay role values acts log turns → IsLog role values log }
    ensures acts { (role : Role) (values : Values) (acts : List ReplayAct) (log : Log)
        (turns : List Turn) → IsReplay role values acts log turns → acts_of_turns turns ≡ acts }
    ensures answers { (role : Role) (values : Values) (acts : List ReplayAct) (log : Log)
        (turns : List Turn) → IsReplay role values acts log turns → script_phase turns ≡ Between }
    ensures recorded { (role : Role) (values : Values) (acts : List ReplayAct) (log : Log)
        (turns : List Turn) → IsReplay role values acts log turns
        → (octets_in turns ≡ log.input) × (octets_out turns ≡ log.written)
        × (events_in turns ≡ log.reported) }
    ensures used { (role : Role) (values : Values) (acts : List ReplayAct) (log : Log)
        (turns : List Turn) → IsReplay role values acts log turns
        → (unused : List ℕ) × (octets_of_acts acts ≡ log.input ++ unused) }
    ensures all_used { (role : Role) (values : Values) (acts : List ReplayAct) (log : Log)
        (turns : List Turn) → IsReplay role values acts log turns → log.failed ≡ None
        → octets_of_acts acts ≡ log.input }
{}
