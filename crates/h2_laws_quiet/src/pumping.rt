//! What a pump sends, whatever the peer.

ghost use Rattle.std.specs.Prelude.{◌≡◌, ◌⊎◌, ◌≤◌, ◌<◌, ℕ, min, Bool, List, [], Ok};
ghost use Rattle.hpack.specs.declared.types.field.Field.{Field};
ghost use Rattle.h2_spec_log.specs.Limits.{full_output};
ghost use Rattle.h2_spec_log.specs.Log.{waiting};
ghost use Rattle.h2_ends.specs.Ends.{EndLog, tokens_waiting};
ghost use Rattle.h2_ends.specs.EndCalls.{BodyWaits, TrailersWait, MayPump, unsent_on};
ghost use Rattle.h2_ends.specs.Pumping.{IsStuckBelow};
ghost use Rattle.h2_laws_quiet.specs.Going.{CouldGoOn, WentOn, most_sendable};

// contract: 8.1 (own) pump sends the lower streams first, and all that can go
/// A `pump` that is refused no memory sends what could go, whatever the peer (RFC 9113,
/// sections 6.9 and 8.1). Where fewer than 65,536 octets of output wait:
///
/// - It sends more on the lowest stream on which something could go. If octets of a body wait
///   there, it returns at least 1, and at least what one call may send there; if only trailers
///   or an end wait, they go.
/// - So it sends on some stream, if something could go on any.
///
/// Where octets of a body could go on some stream, it returns at least 1, or the output is full
/// after it.
pub fn pump_sends_what_could_go()
    ensures lowest { (end after : EndLog) (id count : ℕ) → MayPump end (Ok count) after
        → waiting end.log < full_output → CouldGoOn end id → IsStuckBelow end id
        → WentOn end after id }
    ensures octets { (end after : EndLog) (id count : ℕ) (octets : List ℕ) (ends : Bool)
        → MayPump end (Ok count) after → waiting end.log < full_output → CouldGoOn end id
        → IsStuckBelow end id → BodyWaits end id octets ends → 0 < count }
    ensures amount { (end after : EndLog) (id count : ℕ) → MayPump end (Ok count) after
        → waiting end.log < full_output → CouldGoOn end id → IsStuckBelow end id
        → min (unsent_on end id) (most_sendable end.log id) ≤ count }
    ensures trailers { (end after : EndLog) (id count : ℕ) (list : List Field)
        → MayPump end (Ok count) after → waiting end.log < full_output → CouldGoOn end id
        → IsStuckBelow end id → TrailersWait end id list → tokens_waiting after id ≡ [] }
    ensures or_full { (end after : EndLog) (id count : ℕ) (octets : List ℕ) (ends : Bool)
        → MayPump end (Ok count) after → CouldGoOn end id → BodyWaits end id octets ends
        → (0 < count) ⊎ (full_output ≤ waiting after.log) }
    ensures any { (end after : EndLog) (id count : ℕ) → MayPump end (Ok count) after
        → waiting end.log < full_output → CouldGoOn end id
        → (lowest : ℕ) × (lowest ≤ id) × WentOn end after lowest }
{}
