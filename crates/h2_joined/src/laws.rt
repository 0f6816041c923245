//! Laws of two joined ends, whatever acts were made. Each is the contract of a function that
//! does nothing.

ghost use Rattle.std.specs.Prelude.{◌≡◌, ℕ, List, [], None};
ghost use Rattle.h2_block.specs.Grouping.{Item};
ghost use Rattle.h2_spec_log.specs.Acts.{Values};
ghost use Rattle.h2_laws_pair.specs.Pairs.{IsPair};
ghost use Rattle.h2_laws_pair.specs.Directions.{AreUnderWay, BoundsStreams, ConservesConnection};
ghost use Rattle.h2_laws_pair.specs.Directions.{ConservesStream, IsCarried};
ghost use Rattle.h2_laws_pair.specs.HeaderTables.{HeaderTablesInStep};
ghost use Rattle.h2_laws_pair.specs.Undisturbed.{IsUndisturbed};
ghost use Rattle.h2_ends.specs.Ends.{said_for};
ghost use Rattle.h2_ends.specs.MessageTokens.{parts_heard, parts_said, IsPrefixOfParts};
ghost use Rattle.h2_joined.specs.declared.act.Side.TheVariants.{Client, Server};
ghost use Rattle.h2_joined.specs.Joints.{JointEnd, Made, IsJoint, MemorySufficed, half_of};
ghost use Rattle.h2_joined.specs.Joints.{NoneWasEnded};
ghost use Rattle.h2_joined.specs.Headline.{AreQuiet, WasResetIn, ReportsNoFault, HoldsTheRest};

// contract: joined (own) What one end has handed out is a prefix of what the other accepted
/// Two joined ends with their pipes are a pair (`docs/PAIR.md`), so all laws of pairs hold of
/// their octets, header tables and windows. If no connection has failed for lack of memory and no
/// [`JointAct::Fail`](crate::JointAct::Fail) was made, the pair is undisturbed, so the laws of
/// undisturbed pairs hold too.
pub fn joined_ends_are_a_pair()
    ensures { (client_values server_values : Values) (made : List Made)
        (client server : JointEnd) → IsJoint client_values server_values made client server
        → (client_lost : List ℕ) × (server_lost : List ℕ)
        × (pair : IsPair client_values server_values (half_of client client_lost)
        (half_of server server_lost)) × (MemorySufficed client server → NoneWasEnded made
        → IsUndisturbed pair) }
{}

/// What an end has handed out on a stream is a prefix of what the other has accepted for it, token
/// by token: an interim head, the head, an octet of the body, the trailers and the end are
/// different tokens. This holds after faults, refusals and resets too.
pub fn handed_out_is_a_prefix()
    ensures at_server { (client_values server_values : Values) (made : List Made)
        (client server : JointEnd) (i : ℕ)
        → IsJoint client_values server_values made client server
        → IsPrefixOfParts (parts_heard i server.happened.handed)
        (parts_said (said_for i client.happened.accepted)) }
    ensures at_client { (client_values server_values : Values) (made : List Made)
        (client server : JointEnd) (i : ℕ)
        → IsJoint client_values server_values made client server
        → IsPrefixOfParts (parts_heard i client.happened.handed)
        (parts_said (said_for i server.happened.accepted)) }
{}

/// If no connection has failed for lack of memory and no [`JointAct::Fail`](crate::JointAct::Fail)
/// was made, neither end reports a fault: no connection has failed, no end has handed out a reset
/// of its own, and each stream that an end reports as reset by the peer was reset by a
/// [`JointAct::Reset`](crate::JointAct::Reset) made at the peer.
pub fn no_fault_is_reported()
    ensures at_client { (client_values server_values : Values) (made : List Made)
        (client server : JointEnd) → IsJoint client_values server_values made client server
        → MemorySufficed client server → NoneWasEnded made
        → ReportsNoFault made client.happened Server }
    ensures at_server { (client_values server_values : Values) (made : List Made)
        (client server : JointEnd) → IsJoint client_values server_values made client server
        → MemorySufficed client server → NoneWasEnded made
        → ReportsNoFault made server.happened Client }
{}

/// Once the pair is quiet ([`Joined::quiet`](crate::Joined::quiet)), all that an end has accepted
/// for a stream was handed out at the other, unless that stream was reset or reported as
/// unprocessed.
pub fn quiet_ends_have_all()
    ensures at_server { (client_values server_values : Values) (made : List Made)
        (client server : JointEnd) (i : ℕ)
        → IsJoint client_values server_values made client server
        → AreQuiet client server → (WasResetIn made client i → ⊥)
        → parts_heard i server.happened.handed
        ≡ parts_said (said_for i client.happened.accepted) }
    ensures at_client { (client_values server_values : Values) (made : List Made)
        (client server : JointEnd) (i : ℕ)
        → IsJoint client_values server_values made client server
        → AreQuiet client server → (WasResetIn made client i → ⊥)
        → parts_heard i client.happened.handed
        ≡ parts_said (said_for i server.happened.accepted) }
{}

// contract: joined (own) Two joined ends are quiet where both are, and both pipes are empty
/// The ends of a quiet pair ([`Joined::quiet`](crate::Joined::quiet)) hold no octets of an
/// incomplete frame.
pub fn quiet_ends_hold_nothing()
    ensures { (client_values server_values : Values) (made : List Made)
        (client server : JointEnd) → IsJoint client_values server_values made client server
        → AreQuiet client server
        → (client.happened.log.unparsed ≡ []) × (server.happened.log.unparsed ≡ []) }
{}

// contract: joined (own) The header tables of joined ends agree, no window is lost
/// The header tables are in step, whatever settings change: once the reader has decoded the field
/// blocks under way, its table is the writer's, and each of those blocks decodes to the list that
/// the writer was given (RFC 9113, section 4.3).
pub fn header_tables_are_in_step()
    ensures to_server { (client_values server_values : Values) (made : List Made)
        (client server : JointEnd) (way : List Item)
        → IsJoint client_values server_values made client server
        → AreUnderWay client.happened.log server.happened.log way
        → HeaderTablesInStep client.happened.log server.happened.log way }
    ensures to_client { (client_values server_values : Values) (made : List Made)
        (client server : JointEnd) (way : List Item)
        → IsJoint client_values server_values made client server
        → AreUnderWay server.happened.log client.happened.log way
        → HeaderTablesInStep server.happened.log client.happened.log way }
{}

// contract: joined (own) The header tables of joined ends agree, no window is lost
/// Nothing of the connection's window is lost, as long as the reader has not failed: what the
/// writer may send, the DATA under way, the increments on their way back, and what the reader owes
/// or has not returned add up to 65,535 octets plus what the reader widened the window by (RFC
/// 9113, section 6.9).
pub fn connection_windows_are_conserved()
    ensures to_server { (client_values server_values : Values) (made : List Made)
        (client server : JointEnd) (way back : List Item) (bound : ℕ)
        → IsJoint client_values server_values made client server
        → server.happened.log.failed ≡ None
        → AreUnderWay client.happened.log server.happened.log way
        → AreUnderWay server.happened.log client.happened.log back
        → BoundsStreams server.happened.log bound
        → ConservesConnection client.happened.log server.happened.log way back bound }
    ensures to_client { (client_values server_values : Values) (made : List Made)
        (client server : JointEnd) (way back : List Item) (bound : ℕ)
        → IsJoint client_values server_values made client server
        → client.happened.log.failed ≡ None
        → AreUnderWay server.happened.log client.happened.log way
        → AreUnderWay client.happened.log server.happened.log back
        → BoundsStreams client.happened.log bound
        → ConservesConnection server.happened.log client.happened.log way back bound }
{}

// contract: joined (own) What slow readers hold of the window is all that others lack
/// What the reader has not released is all that is missing from the connection's window, as long
/// as the reader has not failed. Once nothing is under way in either direction and the reader has
/// no credit due ([`Conn::due`](h2_ends::Conn::due)), what the writer may send on the connection
/// and what the reader owes on its streams add up to 65,535 octets plus what the reader widened
/// the window by (RFC 9113, section 6.9).
pub fn held_credit()
    ensures to_server { (client_values server_values : Values) (made : List Made)
        (client server : JointEnd) (bound : ℕ)
        → IsJoint client_values server_values made client server
        → server.happened.log.failed ≡ None
        → AreUnderWay client.happened.log server.happened.log []
        → AreUnderWay server.happened.log client.happened.log []
        → server.happened.log.unreturned ≡ 0 → BoundsStreams server.happened.log bound
        → HoldsTheRest client.happened.log server.happened.log bound }
    ensures to_client { (client_values server_values : Values) (made : List Made)
        (client server : JointEnd) (bound : ℕ)
        → IsJoint client_values server_values made client server
        → client.happened.log.failed ≡ None
        → AreUnderWay server.happened.log client.happened.log []
        → AreUnderWay client.happened.log server.happened.log []
        → client.happened.log.unreturned ≡ 0 → BoundsStreams client.happened.log bound
        → HoldsTheRest server.happened.log client.happened.log bound }
{}

/// Nothing of a stream's window is lost, whatever settings change, while the stream is active at
/// the writer, and the reader has neither closed it nor read its end: what the writer may send on
/// it, its DATA under way, the increments on their way back, and what the reader owes on it add up
/// to the last SETTINGS_INITIAL_WINDOW_SIZE that the writer has received, 65,535 if none (RFC
/// 9113, section 6.9.2).
pub fn stream_windows_are_conserved()
    ensures to_server { (client_values server_values : Values) (made : List Made)
        (client server : JointEnd) (way back : List Item) (i : ℕ)
        → IsJoint client_values server_values made client server
        → AreUnderWay client.happened.log server.happened.log way
        → AreUnderWay server.happened.log client.happened.log back
        → IsCarried client.happened.log server.happened.log i
        → ConservesStream client.happened.log server.happened.log way back i }
    ensures to_client { (client_values server_values : Values) (made : List Made)
        (client server : JointEnd) (way back : List Item) (i : ℕ)
        → IsJoint client_values server_values made client server
        → AreUnderWay server.happened.log client.happened.log way
        → AreUnderWay client.happened.log server.happened.log back
        → IsCarried server.happened.log client.happened.log i
        → ConservesStream server.happened.log client.happened.log way back i }
{}
