//! Shows tshark's text of both directions of a connection to its end.

ghost use Rattle.std.specs.Prelude.{◌≡◌, ◌≢◌, ℕ, List, [], Some, IfOk, IfErr, IfSome};
ghost use Rattle.std.specs.Io.KnownBytes.{Appends};
ghost use Rattle.h2_cli.specs.declared.failure.Failure.TheVariants as failures;
ghost use Rattle.h2_follow.specs.Follower.{FollowerShows};
ghost use Rattle.h2_follow.specs.Follows.{FollowsText, FollowsToBadLine, hint_of_line};
ghost use Rattle.h2_follow.specs.Follows.{has_order_of_octets, is_capture_line};

use crate::follower::Follower;
use crate::hint::FollowHint;
use crate::text::{Part, read_line};
use h2_cli::{Failure, HexError, PIECE, Status, is_capture};
use std::alloc::{AllocError, Global};
use std::io::{self, BufRead, BufReader, ErrorKind, Read, Write};

/// How a text is shown.
#[derive(Clone, Copy, Debug, PartialEq, Eq)]
pub struct FollowOptions {
    /// The payload length that is always accepted, whatever the SETTINGS of the other side say.
    /// A longer frame is a fault unless they allow it.
    pub max_frame: u32,
}

/// The result of showing a text.
#[derive(Clone, Copy, Debug, PartialEq, Eq)]
pub struct Followed {
    /// How the command ends: [`Status::Good`] or [`Status::Fault`].
    pub status: Status,
    /// What is likely wrong with the text or with the capture.
    pub hint: Option<FollowHint>,
}

/// Why a text is not shown to its end.
#[derive(Clone, Copy, Debug, PartialEq, Eq)]
pub struct Unfollowed {
    /// Why the command fails.
    pub failure: Failure,
    /// What is wrong with the text, if that is the cause.
    pub hint: Option<FollowHint>,
}

impl From<Failure> for Unfollowed {
    ghost from_gives = { λ failure unfollowed. unfollowed.failure ≡ failure };

    fn from(failure: Failure) -> Unfollowed {
        Unfollowed {
            failure,
            hint: None,
        }
    }
}

impl From<io::Error> for Unfollowed {
    ghost from_gives = { λ error unfollowed. unfollowed.failure ≢ failures.BadHex };

    fn from(error: io::Error) -> Unfollowed {
        Unfollowed {
            failure: Failure::from(error),
            hint: None,
        }
    }
}

impl From<AllocError> for Unfollowed {
    ghost from_gives = { λ error unfollowed. unfollowed.failure ≢ failures.BadHex };

    fn from(_error: AllocError) -> Unfollowed {
        Unfollowed {
            failure: Failure::Memory,
            hint: None,
        }
    }
}

// contract: follow (own) Both sides are read of the text that tshark prints of them
// contract: follow (own) Each side has the lines that show prints of it, after its mark
// contract: follow (own) A line stands where the last octet of its frame came
// contract: follow (own) A side's fault ends that side, while the other goes on
// contract: follow (own) The status is 0 only where both sides are good to their ends
// contract: follow (own) A line that is not of tshark's text ends all, with its number
/// Shows both sides of the text, each line of the client after `> ` and each of the server after `<
/// `, in the order in which the octets arrived; then the end of each side, the client's first.
///
/// The lines of each side are those that `h2 show` prints, within the limits that the SETTINGS
/// of the other side set. Returns [`Status::Good`] only if both sides are valid and complete. A
/// fault of a side ends that side alone. One line of the text is kept at a time, with its octets
/// and their lines.
///
/// # Errors
///
/// [`Failure::BadHex`] if a line is not tshark's, with its number: the lines of the text before
/// it are written then, but not the sides' ends. [`Failure::Device`] if a read or a write
/// failed, and [`Failure::Memory`] if out of memory, since a line may be of any length. What was
/// printed before is written, unless a write fails.
pub fn follow_input<R: Read, W: Write>(
    alloc: Global,
    options: FollowOptions,
    input: &mut R,
    out: &mut W,
) -> Result<Followed, Unfollowed>
    ensures follows { IfOk result (λ followed. IfSome (R.remaining input.old) (λ text.
        (lines : List ℕ) × FollowsText options.max_frame text followed.status lines
        × Appends (W.contents out.old) (W.contents out.new) lines)) }
    ensures bad_line { IfErr result (λ unfollowed. unfollowed.failure ≡ failures.BadHex
        → IfSome (R.remaining input.old) (λ text. (lines : List ℕ)
        × FollowsToBadLine options.max_frame text unfollowed.hint lines
        × Appends (W.contents out.old) (W.contents out.new) lines)) }
{
    let mut lines = BufReader::with_capacity(alloc, PIECE, input)?;
    let mut follower = Follower::new(alloc, options.max_frame)?;
    follow_lines(alloc, &mut follower, &mut lines, out)
}

// rule: follow (own) Both sides are read of the text that tshark prints of them
// Shows the lines that a reader has left.
fn follow_lines<B: BufRead, W: Write>(
    alloc: Global,
    follower: &mut Follower,
    input: &mut B,
    out: &mut W,
) -> Result<Followed, Unfollowed>
    ensures follows { IfOk result (λ followed. IfSome (B.Read.remaining input.old) (λ text.
        (max_frame : ℕ) → FollowerShows follower.old max_frame [] []
        → (lines : List ℕ) × FollowsText max_frame text followed.status lines
        × Appends (W.contents out.old) (W.contents out.new) lines)) }
    ensures bad_line { IfErr result (λ unfollowed. unfollowed.failure ≡ failures.BadHex
        → IfSome (B.Read.remaining input.old) (λ text.
        (max_frame : ℕ) → FollowerShows follower.old max_frame [] []
        → (lines : List ℕ) × FollowsToBadLine max_frame text unfollowed.hint lines
        × Appends (W.contents out.old) (W.contents out.new) lines)) }
{
    let mut part = Part::Head;
    let mut line = Vec::new(alloc);
    for count in 0..u64::MAX {
        line.clear();
        if input.read_until(b'\n', &mut line)? == 0 {
            let status = follower.end(out)?;
            return Ok(Followed {
                status,
                hint: follower.hint(),
            });
        }
        match read_line(alloc, part, &line) {
            Ok(next) => {
                part = next.part;
                follower.take_line(count + 1, next.read, out)?;
            }
            Err(HexError::BadHex) => return Err(bad_line(count + 1, &line)),
            Err(HexError::Memory) => return Err(Unfollowed::from(Failure::Memory)),
        }
    }
    Err(Unfollowed::from(io::Error::from(ErrorKind::Other)))
}

// rule: follow (own) A line that is not of tshark's text ends all, with its number
// The failure of the line with this number.
fn bad_line(number: u64, line: &[u8]) -> Unfollowed
    ensures { result.hint ≡ Some (hint_of_line number line.now) }
{
    let hint = if is_capture_line(number, line) {
        FollowHint::Capture
    } else {
        FollowHint::BadLine(number)
    };
    Unfollowed {
        failure: Failure::BadHex,
        hint: Some(hint),
    }
}

// Whether the line with this number is part of a packet capture.
fn is_capture_line(number: u64, line: &[u8]) -> bool
    ensures { result ≡ is_capture_line number line.now }
{
    number == 1 && is_capture(line) || number == 3 && has_order_of_octets(line)
}

// Whether a line is the third of a capture in the format pcapng.
fn has_order_of_octets(line: &[u8]) -> bool
    ensures { result ≡ has_order_of_octets line.now }
{
    let after = &line[line.len().min(4)..];
    after.starts_with(b"\x4d\x3c\x2b\x1a") || after.starts_with(b"\x1a\x2b\x3c\x4d")
}
