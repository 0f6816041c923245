//! The law of the reason of a connection's failure, the contract of a function that does nothing:
//! a log has one reason.
#![tactic(auto)]

ghost use Rattle.std.specs.Prelude.{◌≡◌, Option};
ghost use Rattle.h2_spec_log.specs.declared.role.Role.{Role};
ghost use Rattle.h2_spec_log.specs.Acts.{Values};
ghost use Rattle.h2_spec_log.specs.Log.{Log};
ghost use Rattle.h2_conn.specs.declared.why.Why.{Why};
ghost use Rattle.h2_conn.specs.Why.{FailedFor, IsWhy};

// contract: 5.4.1 (own) A connection that has failed says why
/// A log has one reason of its connection's failure, if that has failed, by whatever history it
/// has come about (RFC 9113, section 5.4.1).
pub fn one_reason()
    ensures one { (role : Role) (values : Values) (log : Log) (one other : Why)
        → FailedFor role values log one → FailedFor role values log other → one ≡ other }
    ensures whys { (values : Values) (log : Log) (one other : Option Why)
        → IsWhy values log one → IsWhy values log other → one ≡ other }
{}
