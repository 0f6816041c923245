//! Laws of field blocks in frames, each the contract of a function that does nothing.

ghost use Rattle.std.specs.Prelude.{◌≡◌, ℕ, ◌^◌, ◌<◌, ◌≤◌, ◌++◌, Bool, List, [], ◌∷◌, length};
ghost use Rattle.std.specs.Prelude.{Option, None};
ghost use Rattle.std.specs.List.{AllByRecursion};
ghost use Rattle.h2_frame.specs.Frames.{Frame};
ghost use Rattle.h2_frame.specs.Encoding.{payload_of, refusal, IsTyped};
ghost use Rattle.h2_block.specs.declared.fault.BlockFault.{BlockFault};
ghost use Rattle.h2_block.specs.Grouping.{Item, block, Begun, Groups, GroupingFaultAt};
ghost use Rattle.h2_block.specs.Spread.{spread_frames};

// contract: 4.3 Each list of frames groups or has a fault; prefixes agree
/// Frames have at most one grouping: one list of items, and after them one block that has
/// begun, or none.
pub fn one_grouping()
    ensures { (frames : List Frame) (items others : List Item) (begun other : Option Begun)
        → Groups frames items begun → Groups frames others other
        → (items ≡ others) × (begun ≡ other) }
{}

// contract: 4.3 Each list of frames groups or has a fault; prefixes agree
/// If the last frame of a list is at fault, the list has no grouping into items (blocks, and
/// frames outside blocks), whatever frames follow it. That fault is the only one: no later frame
/// has a fault, and the items before it are always the same.
pub fn no_grouping_past_a_fault()
    ensures grouping { (frames more : List Frame) (items others : List Item) (fault : BlockFault)
        (begun : Option Begun)
        → GroupingFaultAt frames items fault → Groups (frames ++ more) others begun → ⊥ }
    ensures fault { (frames more : List Frame) (items others : List Item) (fault other : BlockFault)
        → GroupingFaultAt frames items fault → GroupingFaultAt (frames ++ more) others other
        → (items ≡ others) × (fault ≡ other) × (more ≡ []) }
{}

// contract: 4.2 (own) Payloads of at most 65,536 octets are sent, where the peer reads them
// contract: 4.3 A block is sent as contiguous HEADERS and CONTINUATION, each full but one
/// The frames over which a block is spread are one block of its octets, whatever the greatest
/// payload (`most`) is. If `most` is less than 2<sup>24</sup> and the stream from 1 to
/// 2<sup>31</sup> - 1, each payload has at most `most` octets, and no frame is refused when it is
/// written.
pub fn spread_block()
    ensures grouped { (most stream : ℕ) (end : Bool) (octets : List ℕ) → 1 ≤ most
        → length octets ≤ 65552
        → Groups (spread_frames most stream end octets) (block stream end octets ∷ []) None }
    ensures writable { (most stream : ℕ) (end : Bool) (octets : List ℕ) → most < 2 ^ 24
        → 1 ≤ stream → stream < 2 ^ 31
        → AllByRecursion (λ frame. (refusal frame ≡ None) × IsTyped frame
        × (length (payload_of frame) ≤ most)) (spread_frames most stream end octets) }
{}
