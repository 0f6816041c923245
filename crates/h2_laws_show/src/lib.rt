//! Laws of streams of octets, of the field blocks in them and of what `h2 show` prints of them,
//! each the contract of a function that does nothing.
//!
//! What a longer stream has beside a shorter one; that each stream and each list of frames can be
//! read, or has a fault (RFC 9113, sections 3.4, 4.1 and 4.3); and that an input has one output and
//! one status.
#![tactic(auto)]

ghost use Rattle.std.specs.Prelude.{◌≡◌, Bool, List, ℕ, ◌⊎◌, ◌+◌, ◌++◌, length, drop, Option, None};
ghost use Rattle.h2_frame.specs.Heads.{head_of, form_fault};
ghost use Rattle.h2_frame.specs.Frames.{Frame, Encodes, payload_fault};
ghost use Rattle.h2_wire.specs.Streams.{Limits, Frames, WireFaultAt};
ghost use Rattle.h2_wire.specs.declared.fault.WireFault.{WireFault};
ghost use Rattle.h2_block.specs.declared.fault.BlockFault.{BlockFault};
ghost use Rattle.h2_block.specs.Grouping.{Item, Begun, Groups, GroupingFaultAt};
ghost use Rattle.h2_show.specs.declared.options.ShowOptions.{ShowOptions};
ghost use Rattle.h2_cli.specs.declared.status.Status.{Status};
ghost use Rattle.h2_cli.specs.declared.status.Status.TheVariants.{Good, Fault};
ghost use Rattle.h2_show.specs.Report.{StatusReports, StatusReportsInput};
ghost use Rattle.h2_show.specs.Shown.{Shows, ShowsInput};
ghost use Rattle.h2_show.specs.ShownLines.{ShowLine};

// contract: 4.1 Octets encode a frame exactly where they have no fault
/// Octets that encode a frame have no fault: neither their head, whose form is checked whatever the
/// limit is, nor their payload.
pub fn frames_have_no_fault()
    ensures head { (frame : Frame) (octets : List ℕ) → Encodes frame octets
        → form_fault (head_of octets) ≡ None }
    ensures payload { (frame : Frame) (octets : List ℕ) → Encodes frame octets
        → payload_fault (head_of octets) (drop 9 octets) ≡ None }
{}

// contract: 4.1 Octets encode a frame exactly where they have no fault
/// Octets without a fault, as many as their head asks for, encode a frame.
pub fn octets_without_fault_are_a_frame()
    ensures { (octets : List ℕ) → length octets ≡ 9 + (head_of octets).length
        → form_fault (head_of octets) ≡ None
        → payload_fault (head_of octets) (drop 9 octets) ≡ None
        → (frame : Frame) × Encodes frame octets }
{}

// contract: 5.4.1 Each stream of octets has a reading or a fault; prefixes agree
/// The frames of a stream are the first of those of a longer one.
pub fn frames_continue()
    ensures { (expects : Bool) (limits : Limits) (stream more : List ℕ) (frames others : List Frame)
        (unparsed other : List ℕ)
        → Frames expects limits stream frames unparsed
        → Frames expects limits (stream ++ more) others other
        → (following : List Frame) × (others ≡ frames ++ following) }
{}

/// The frames of a stream are the first of those before the fault of a longer one.
pub fn frames_before_a_fault_continue()
    ensures { (expects : Bool) (limits : Limits) (stream more : List ℕ) (frames others : List Frame)
        (unparsed : List ℕ) (place : ℕ) (fault : WireFault)
        → Frames expects limits stream frames unparsed
        → WireFaultAt expects limits (stream ++ more) others place fault
        → (following : List Frame) × (others ≡ frames ++ following) }
{}

// contract: 5.4.1 Each stream of octets has a reading or a fault; prefixes agree
/// Each stream has a reading, or a fault.
pub fn reading_or_fault()
    ensures { (expects : Bool) (limits : Limits) (stream : List ℕ)
        → ((frames : List Frame) × (unparsed : List ℕ)
        × Frames expects limits stream frames unparsed)
        ⊎ ((frames : List Frame) × (place : ℕ) × (fault : WireFault)
        × WireFaultAt expects limits stream frames place fault) }
{}

// contract: 4.3 Each list of frames groups or has a fault; prefixes agree
/// The items of frames are the first of those of more frames.
pub fn items_continue()
    ensures { (frames more : List Frame) (items others : List Item) (begun other : Option Begun)
        → Groups frames items begun → Groups (frames ++ more) others other
        → (following : List Item) × (others ≡ items ++ following) }
{}

// contract: 4.3 Each list of frames groups or has a fault; prefixes agree
/// Each list of frames has a grouping, or a fault at one of its frames.
pub fn grouping_or_fault()
    ensures { (frames : List Frame)
        → ((items : List Item) × (begun : Option Begun) × Groups frames items begun)
        ⊎ ((first others : List Frame) × (items : List Item) × (fault : BlockFault)
        × (frames ≡ first ++ others) × GroupingFaultAt first items fault) }
{}

// contract: show (own) An input has one output: preface, frames, then how it ends
/// A stream has one output and one status: its lines, in whatever style they are printed, are
/// determined by its octets.
pub fn one_output()
    ensures { (expects : Bool) (limits : Limits) (stream : List ℕ) (status other : Status)
        (output another : List ShowLine)
        → Shows expects limits stream status output → Shows expects limits stream other another
        → (status ≡ other) × (output ≡ another) }
{}

// contract: show (own) An input has one output: preface, frames, then how it ends
/// An input has one output and one status, under given options.
pub fn one_output_of_an_input()
    ensures { (options : ShowOptions) (given : List ℕ) (status other : Status)
        (output another : List ℕ)
        → ShowsInput options given status output → ShowsInput options given other another
        → (status ≡ other) × (output ≡ another) }
{}

/// The status that comes with an output reports the stream.
pub fn shown_status_reports()
    ensures { (expects : Bool) (limits : Limits) (stream : List ℕ) (status : Status)
        (output : List ShowLine)
        → Shows expects limits stream status output → StatusReports expects limits stream status }
{}

/// A stream that is complete is not at fault: a status of 0 and one of 1 exclude each other.
pub fn good_excludes_fault()
    ensures stream { (expects : Bool) (limits : Limits) (stream : List ℕ)
        → StatusReports expects limits stream Good → StatusReports expects limits stream Fault
        → ⊥ }
    ensures input { (options : ShowOptions) (given : List ℕ)
        → StatusReportsInput options given Good → StatusReportsInput options given Fault → ⊥ }
{}
