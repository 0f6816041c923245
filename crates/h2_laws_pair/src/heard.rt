//! What is heard on a stream is what was sent on it.

ghost use Rattle.std.specs.Prelude.{◌≡◌, ℕ, List};
ghost use Rattle.std.specs.List.{AllByRecursion};
ghost use Rattle.h2_spec_log.specs.Acts.{Values};
ghost use Rattle.h2_laws_pair.specs.Pairs.{Half, IsPair};
ghost use Rattle.h2_laws_pair.specs.Undisturbed.{IsUndisturbed};
ghost use Rattle.h2_laws_pair.specs.Tokens.{Token, tokens_sent, tokens_heard, IsPrefixOfTokens};
ghost use Rattle.h2_laws_pair.specs.Tokens.{IsNoEmptyData};
ghost use Rattle.h2_laws_pair.specs.Tokens.{Said, said_tokens};
ghost use Rattle.h2_laws_pair.specs.Quiet.{IsQuiet, WasReset, IsSending, IsStuck};

/// What one end has reported of a stream is a prefix of what the other was given for it, token by
/// token: always, after faults, refusals and resets too.
pub fn heard_is_a_prefix()
    ensures at_server { (client_values server_values : Values) (client server : Half) (i : ℕ)
        → IsPair client_values server_values client server
        → IsPrefixOfTokens (tokens_heard i server.log.reported) (tokens_sent i client.log.calls) }
    ensures at_client { (client_values server_values : Values) (client server : Half) (i : ℕ)
        → IsPair client_values server_values client server
        → IsPrefixOfTokens (tokens_heard i client.log.reported) (tokens_sent i server.log.calls) }
    ensures of_a_request { (client_values server_values : Values) (client server : Half) (i : ℕ)
        (said : Said) (waiting : List Token)
        → IsPair client_values server_values client server
        → IsSending client.log i said waiting
        → IsPrefixOfTokens (tokens_heard i server.log.reported) (said_tokens said) }
    ensures of_a_response { (client_values server_values : Values) (client server : Half) (i : ℕ)
        (said : Said) (waiting : List Token)
        → IsPair client_values server_values client server
        → IsSending server.log i said waiting
        → IsPrefixOfTokens (tokens_heard i client.log.reported) (said_tokens said) }
{}

/// Once an undisturbed pair is quiet, all that was sent on a stream that wasn't reset was heard.
/// A reset of another stream takes nothing from it.
pub fn all_is_heard()
    ensures at_server { (client_values server_values : Values) (client server : Half) (i : ℕ)
        (pair : IsPair client_values server_values client server) → IsUndisturbed pair
        → IsQuiet client server → (WasReset client.log server.log i → ⊥)
        → tokens_heard i server.log.reported ≡ tokens_sent i client.log.calls }
    ensures at_client { (client_values server_values : Values) (client server : Half) (i : ℕ)
        (pair : IsPair client_values server_values client server) → IsUndisturbed pair
        → IsQuiet client server → (WasReset client.log server.log i → ⊥)
        → tokens_heard i client.log.reported ≡ tokens_sent i server.log.calls }
{}

/// Once an undisturbed pair is quiet, and what waits of a message could not go, all that was given
/// of it was heard on its stream, unless that was reset: in a quiet pair no window holds it back.
/// That a pair becomes quiet isn't promised.
pub fn quiet_messages_are_whole()
    ensures at_server { (client_values server_values : Values) (client server : Half) (i : ℕ)
        (said : Said) (waiting : List Token)
        (pair : IsPair client_values server_values client server) → IsUndisturbed pair
        → IsQuiet client server → (WasReset client.log server.log i → ⊥)
        → IsSending client.log i said waiting → IsStuck client.log i waiting
        → tokens_heard i server.log.reported ≡ said_tokens said }
    ensures at_client { (client_values server_values : Values) (client server : Half) (i : ℕ)
        (said : Said) (waiting : List Token)
        (pair : IsPair client_values server_values client server) → IsUndisturbed pair
        → IsQuiet client server → (WasReset client.log server.log i → ⊥)
        → IsSending server.log i said waiting → IsStuck server.log i waiting
        → tokens_heard i client.log.reported ≡ said_tokens said }
{}

/// No DATA that an end of a pair reports is empty, unless it has END_STREAM: the other end sends
/// none.
pub fn no_data_is_empty()
    ensures at_server { (client_values server_values : Values) (client server : Half)
        → IsPair client_values server_values client server
        → AllByRecursion IsNoEmptyData server.log.reported }
    ensures at_client { (client_values server_values : Values) (client server : Half)
        → IsPair client_values server_values client server
        → AllByRecursion IsNoEmptyData client.log.reported }
{}
