//! Where what an end has written comes from.

ghost use Rattle.std.specs.Prelude.{◌≡◌, ◌⊎◌, List, ◌∷◌, ◌++◌};
ghost use Rattle.h2_block.specs.Grouping.{Item};
ghost use Rattle.h2_spec_log.specs.declared.role.Role.{Role};
ghost use Rattle.h2_spec_log.specs.Acts.{Values};
ghost use Rattle.h2_spec_log.specs.Log.{Log};
ghost use Rattle.h2_spec_log.specs.Histories.{IsLog};
ghost use Rattle.h2_spec_log.specs.Allowed.{AllowedHistory, Origin, IsOpening};

// contract: 5.1 Each frame is sent only in states that allow it
/// Each item that an end has written is its opening, or has a front of what the end has read, at
/// which writing it was allowed, after what was written before it.
pub fn origin()
    ensures { (role : Role) (received sent after before : List Item) (item : Item)
        → AllowedHistory role received sent → sent ≡ after ++ item ∷ before
        → Origin role received before item ⊎ IsOpening role before item }
{}

// contract: 5.1.2 A client has at most as many active streams as the server allows
// contract: 3.4 Both ends begin with SETTINGS
// contract: 4.2 (own) Payloads of at most 65,536 octets are sent, where the peer reads them
// contract: 5.1 Each frame is sent only in states that allow it
// contract: 5.1.1 A client opens odd numbers, each above all before it
// contract: 5.1.1 When the numbers of 31 bits are used up no stream is opened
// contract: 5.4.2 RST_STREAM is not answered by RST_STREAM, nor sent twice
// contract: 6.5.3 SETTINGS are acknowledged before anything else is sent
// contract: 6.5.3 (own) Own SETTINGS are changed once those before are acknowledged
// contract: 6.7 (own) One own PING at a time awaits its answer
// contract: 6.8 No stream is opened after GOAWAY was received
// contract: 6.9.1 DATA is sent within both windows
/// Whatever octets have come, and whatever was asked of it, what an end has written was allowed
/// when it wrote it: the lists of its log are lists that come about so.
pub fn what_is_written_is_allowed()
    ensures { (role : Role) (values : Values) (log : Log) → IsLog role values log
        → AllowedHistory role log.received log.sent }
{}
