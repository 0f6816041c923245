//! What is sent on a stream is what is written.

ghost use Rattle.std.specs.Prelude.{◌≡◌, ℕ};
ghost use Rattle.h2_spec_log.specs.declared.role.Role.{Role};
ghost use Rattle.h2_spec_log.specs.Acts.{Values};
ghost use Rattle.h2_spec_log.specs.Log.{Log};
ghost use Rattle.h2_spec_log.specs.Histories.{IsLog};
ghost use Rattle.h2_laws_end.specs.Sendings.{lists_accepted};
ghost use Rattle.h2_laws_pair.specs.Tokens.{tokens_sent, tokens_written};

// contract: 8.1 What was sent on a stream is a prefix of its message
/// What an end has sent on a stream is what the items that it has written say of it: the lists that
/// its blocks there encode, the octets of its DATA, and the end (sections 4.3, 6.1 and 8.1). The
/// law `h2_laws_end::blocks_are_of_the_lists` says that the blocks encode just these lists, each
/// one, in order. By both, calls send nothing but what is written, and nothing is written that no
/// call has sent.
pub fn what_is_sent_is_written()
    ensures { (role : Role) (values : Values) (log : Log) (i : ℕ) → IsLog role values log
        → tokens_written i log.sent (lists_accepted log.calls) ≡ tokens_sent i log.calls }
{}
