//! Laws of streams, each the contract of a function that does nothing.

ghost use Rattle.std.specs.Prelude.{◌≡◌, ℕ, ◌+◌, ◌≤◌, ◌++◌, Bool, List, length, drop, Some};
ghost use Rattle.h2_frame.specs.declared.code.Code.{Code};
ghost use Rattle.h2_frame.specs.declared.head_faults.HeadFault.{HeadFault};
ghost use Rattle.h2_frame.specs.Heads.{head_of, head_fault};
ghost use Rattle.h2_frame.specs.Frames.{Frame, payload_fault};
ghost use Rattle.h2_wire.specs.declared.fault.WireFault.{WireFault as Fault};
ghost use Rattle.h2_wire.specs.Streams.{Limits, IsFrame, IsPartial, Frames, WireFaultAt};

// contract: 4.1 The frames of a stream do not depend on the pieces of its octets
/// A stream has at most one reading: its frames and its unparsed octets are the same, however it
/// was cut.
pub fn one_reading()
    ensures { (expects : Bool) (limits : Limits) (stream : List ℕ) (frames others : List Frame)
        (unparsed other : List ℕ)
        → Frames expects limits stream frames unparsed → Frames expects limits stream others other
        → (frames ≡ others) × (unparsed ≡ other) }
{}

// contract: 4.2 A payload as long as the limit is received
/// A stream that can be read with some limits of payloads has the same frames and unparsed octets
/// with any other limits that are at no octet below these.
pub fn frames_are_read_with_wider_limits()
    ensures { (expects : Bool) (limits others : Limits) (stream : List ℕ) (frames : List Frame)
        (unparsed : List ℕ) → ((place : ℕ) → limits place ≤ others place)
        → Frames expects limits stream frames unparsed
        → Frames expects others stream frames unparsed }
{}

// contract: 5.4.1 A stream of octets has one fault at most, at one place
/// A stream has at most one fault: the fault, its place and the frames before it are the same,
/// whatever octets follow.
pub fn one_fault()
    ensures { (expects : Bool) (limits : Limits) (stream more : List ℕ) (frames others : List Frame)
        (place other : ℕ) (fault another : Fault)
        → WireFaultAt expects limits stream frames place fault
        → WireFaultAt expects limits (stream ++ more) others other another
        → (frames ≡ others) × (place ≡ other) × (fault ≡ another) }
{}

// contract: 5.4.1 A stream of octets has one fault at most, at one place
/// A stream that is at fault can't be read as frames and unparsed octets, whatever follows it.
pub fn no_reading_past_a_fault()
    ensures { (expects : Bool) (limits : Limits) (stream more : List ℕ) (frames others : List Frame)
        (place : ℕ) (fault : Fault) (unparsed : List ℕ)
        → WireFaultAt expects limits stream frames place fault
        → Frames expects limits (stream ++ more) others unparsed → ⊥ }
{}

// contract: 4.1 Unparsed octets hold no complete frame and no fault
/// No prefix of a partial frame is a frame, a head at fault, or a frame with a payload at fault.
pub fn nothing_in_a_partial_frame()
    ensures frame { (limit : ℕ) (prefix more : List ℕ) (frame : Frame)
        → IsPartial limit (prefix ++ more) → IsFrame limit frame prefix → ⊥ }
    ensures head { (limit : ℕ) (prefix more : List ℕ) (fault : HeadFault)
        → IsPartial limit (prefix ++ more) → length prefix ≡ 9
        → head_fault (head_of prefix) limit ≡ Some fault → ⊥ }
    ensures payload { (limit : ℕ) (prefix more : List ℕ) (code : Code)
        → IsPartial limit (prefix ++ more) → length prefix ≡ 9 + (head_of prefix).length
        → payload_fault (head_of prefix) (drop 9 prefix) ≡ Some code → ⊥ }
{}
