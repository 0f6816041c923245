//! Laws of frames, each the contract of a function that does nothing.

ghost use Rattle.std.specs.Prelude.{◌≡◌, ℕ, ◌+◌, ◌≤◌, ◌++◌, List, length, drop, None};
ghost use Rattle.h2_frame.specs.declared.heads.Head.{Head};
ghost use Rattle.h2_frame.specs.Heads.{head_of, form_fault, head_fault as fault_of};
ghost use Rattle.h2_frame.specs.Frames.{Frame, Encodes, payload_fault};
ghost use Rattle.h2_frame.specs.Encoding.{payload_of, encoding_of, refusal, IsTyped};

// contract: 4.1 Octets encode at most one frame
/// The same octets never encode two different frames.
pub fn one_frame()
    ensures { (frame other : Frame) (octets : List ℕ) → Encodes frame octets → Encodes other octets
        → frame ≡ other }
{}

// contract: 4.1 A head is 24 bits of length, 8 of type, 8 of flags, 1 + 31 of stream
/// A head depends on its nine octets alone, whatever follows them.
pub fn nine_octets()
    ensures { (octets more : List ℕ) → 9 ≤ length octets
        → head_of (octets ++ more) ≡ head_of octets }
{}

/// A head without fault has a length within the limit, and none of the faults that do not
/// depend on the limit.
pub fn within_limit()
    ensures length { (read : Head) (limit : ℕ) → fault_of read limit ≡ None → read.length ≤ limit }
    ensures form { (read : Head) (limit : ℕ) → fault_of read limit ≡ None → form_fault read ≡ None }
{}

// contract: 4.1 A frame is sent without its reserved bit and undefined flags
// contract: 4.1 A frame is sent with the length of its payload
/// The octets written for a frame that may be written encode that frame, so it is read back. If
/// the limit allows its length, neither its head nor its payload has a fault.
pub fn written_frame_is_read()
    ensures length { (frame : Frame) → length (encoding_of frame) ≡ 9 + length (payload_of frame) }
    ensures encodes { (frame : Frame) → IsTyped frame → refusal frame ≡ None
        → Encodes frame (encoding_of frame) }
    ensures sound_head { (frame : Frame) (limit : ℕ) → IsTyped frame → refusal frame ≡ None
        → length (payload_of frame) ≤ limit
        → fault_of (head_of (encoding_of frame)) limit ≡ None }
    ensures sound_payload { (frame : Frame) → IsTyped frame → refusal frame ≡ None
        → payload_fault (head_of (encoding_of frame)) (drop 9 (encoding_of frame)) ≡ None }
{}
