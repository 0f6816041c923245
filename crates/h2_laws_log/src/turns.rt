//! What the turns of a log tell.

ghost use Rattle.h2_spec_log.specs.declared.role.Role.{Role};
ghost use Rattle.h2_spec_log.specs.Acts.{Values};
ghost use Rattle.h2_spec_log.specs.Log.{Log};
ghost use Rattle.h2_spec_log.specs.Histories.{IsLog};
ghost use Rattle.h2_laws_log.specs.Turns.{TurnsRecord};

/// The turns of a log tell all of it: joined, the octets that came in and those that joined the
/// output; and the events, the calls and their answers, in order. The output is a client's preface,
/// and the frames of the items that were written.
pub fn turns_of_a_log()
    ensures { (role : Role) (values : Values) (log : Log) → IsLog role values log
        → TurnsRecord log }
{}
