//! Shows one side of a connection part by part.

ghost use Rattle.std.specs.Prelude.{◌≡◌, ◌≢◌, ℕ, true, false, List, [], ◌++◌, length, take, OnOk};
ghost use Rattle.std.specs.Prelude.{IfOk};
ghost use Rattle.std.specs.Prelude.{IfErr};
ghost use Rattle.h2_frame.specs.declared.code.Code.TheVariants as codes_of;
ghost use Rattle.h2_frame.specs.Frames.{frame_of};
ghost use Rattle.h2_wire.specs.declared.fault.WireFault.TheVariants as wire_faults;
ghost use Rattle.h2_wire.specs.Cutter.{CutterFails};
ghost use Rattle.h2_show.specs.Lines.{fault_line};
ghost use Rattle.h2_show.specs.Printed.{error_lines};
ghost use Rattle.h2_show.specs.Styles.{text_from};
ghost use Rattle.h2_show.specs.Report.{begins_with_preface};
ghost use Rattle.h2_show.specs.Viewer.{IsStreamFault};
ghost use Rattle.h2_follow.specs.Follower.{EndsSide, Scans, SideAdvances, SideShows, ShowsPart};
ghost use Rattle.h2_follow.specs.InForce.{bound_of};
ghost use Rattle.h2_follow.specs.Stretches.{ends_block};

use crate::hint::FollowHint;
use crate::in_force::InForce;
use crate::noting::note_frame;
use h2_cli::Status;
use h2_frame::limits::{LEAST_MAX_FRAME, MOST_MAX_FRAME};
use h2_frame::{Code, FrameRef, HeadFault};
use h2_show::{ShowError, ShowOptions, Side, Style, Viewer};
use h2_wire::{Cutter, WireFault};
use std::alloc::{AllocError, Global};
use std::io::{self, ErrorKind, Write};

/// One side of a connection.
#[derive(Debug, Drop)]
pub(crate) struct OneSide {
    viewer: Viewer,
    // Cuts the same octets, for the SETTINGS of both sides.
    scanner: Cutter,
    // The maximum payload length that it may send, as of the last frames.
    allowed: u32,
    // Whether a fault has ended it.
    is_over: bool,
    // The likely cause of the fault.
    hint: Option<FollowHint>,
}

/// Octets that were read together.
#[derive(Clone, Copy, Debug, PartialEq, Eq)]
pub(crate) struct Scanned {
    /// The number of octets.
    pub(crate) used: usize,
    /// Whether they end a block.
    pub(crate) ends_block: bool,
}

impl OneSide {
    /// Creates a side, before its first octet.
    ///
    /// # Errors
    ///
    /// [`AllocError`] if out of memory.
    pub(crate) fn new(alloc: Global, side: Side) -> Result<OneSide, AllocError>
        ensures { IfOk result (λ one. SideShows one side []) }
    {
        let options = ShowOptions {
            hex: false,
            from: side,
            max_frame: LEAST_MAX_FRAME,
            style: Style::Plain,
        };
        Ok(OneSide {
            viewer: Viewer::new(alloc, options)?,
            scanner: Cutter::new(alloc, LEAST_MAX_FRAME, begins_with_preface(side)),
            allowed: LEAST_MAX_FRAME,
            is_over: false,
            hint: None,
        })
    }

    /// Whether a fault has ended the side.
    pub(crate) fn is_over(&self) -> bool
        ensures { result ≡ self.now.is_over }
    {
        self.is_over
    }

    // contract: follow (own) A side's fault ends that side, while the other goes on
    // rule: follow (own) A side's fault ends that side, while the other goes on
    // contract: follow (own) What a side may send follows the other's SETTINGS, and its own ACK
    // rule: follow (own) What a side may send follows the other's SETTINGS, and its own ACK
    /// Reads octets of a side that has no fault, up to the end of a frame or all of them, and
    /// adds their lines and that of their fault to the text. `own` is what the side may send,
    /// and `others` what the other side may send.
    ///
    /// # Errors
    ///
    /// `OutOfMemory`.
    pub(crate) fn show(
        &mut self,
        least: u32,
        octets: &[u8],
        own: &mut InForce,
        others: &mut InForce,
        text: &mut Vec<u8>,
    ) -> io::Result<usize>
        ensures { IfOk result (λ used. self.old.is_over ≡ false → SideAdvances self.old self.new least
            octets.now used own.old own.new others.old others.new text.old.items text.new.items) }
    {
        let allowed = own.max_frame(least);
        let limit = allowed.min(MOST_MAX_FRAME);
        let table = own.table();
        self.allowed = allowed;
        self.scanner.set_limit(limit);
        self.viewer.set_max_frame(limit);
        match scan(&mut self.scanner, octets, own, others) {
            Ok(scanned) => {
                self.show_part(&octets[..scanned.used], scanned.ends_block, table, text)?;
                Ok(scanned.used)
            }
            Err(fault) => {
                self.show_fault(fault, octets, text)?;
                Ok(octets.len())
            }
        }
    }

    // rule: follow (own) Each side has the lines that show prints of it, after its mark
    // contract: follow (own) A block after which the table is above what is in force is a fault
    // rule: follow (own) A block after which the table is above what is in force is a fault
    // Adds the lines of octets, and of their fault.
    fn show_part(
        &mut self,
        octets: &[u8],
        ends_block: bool,
        table: u32,
        text: &mut Vec<u8>,
    ) -> io::Result<()>
        ensures part { OnOk result ((printed : List ℕ)
            × (text.new.items ≡ text.old.items ++ printed)
            × (self.old.is_over ≡ false
            → ShowsPart self.old self.new octets.now ends_block table printed)) }
        ensures scanner { self.new.scanner ≡ self.old.scanner }
    {
        let before = text.len();
        match self.viewer.show_piece(octets, text) {
            Ok(()) => {
                if ends_block && self.viewer.table_maximum() > table {
                    text.truncate(before);
                    self.is_over = true;
                    self.hint = Some(FollowHint::Table);
                    add_table_fault(self.viewer.place(), text)?;
                }
                Ok(())
            }
            Err(error) => self.end_with(error, text),
        }
    }

    // rule: follow (own) A side's fault ends that side, while the other goes on
    // Adds the lines of octets in which the scanner has found this fault, and the line of that fault.
    fn show_fault(&mut self, fault: WireFault, octets: &[u8], text: &mut Vec<u8>) -> io::Result<()>
        ensures other { OnOk result (fault ≢ wire_faults.Memory) }
        ensures part { OnOk result ((printed : List ℕ)
            × (text.new.items ≡ text.old.items ++ printed)
            × (self.new.is_over ≡ true)
            × ShowsPart self.old self.new octets.now false 0 printed) }
        ensures scanner { self.new.scanner ≡ self.old.scanner }
    {
        if let WireFault::Memory = fault {
            return Err(io::Error::from(ErrorKind::OutOfMemory));
        }
        match self.viewer.show_piece(octets, text) {
            // Unreachable: the viewer finds the scanner's fault too.
            Ok(()) => Err(io::Error::from(ErrorKind::Other)),
            Err(error) => self.end_with(error, text),
        }
    }

    // Adds the line of a fault, which ends the side.
    fn end_with(&mut self, error: ShowError, text: &mut Vec<u8>) -> io::Result<()>
        ensures lines { OnOk result (text.new.items ≡ text.old.items
            ++ text_from self.old.viewer.printer.style self.old.viewer.printer.next
            (error_lines error self.old.viewer.cutter.place self.old.viewer.printer.is_due)) }
        ensures fault { OnOk result (IsStreamFault error) }
        ensures over { self.new.is_over ≡ true }
        ensures scanner { self.new.scanner ≡ self.old.scanner }
    {
        self.is_over = true;
        self.hint = Some(hint_of(&error, self.allowed));
        self.viewer.show_error(error, text)?;
        Ok(())
    }

    // contract: follow (own) The status is 0 only where both sides are good to their ends
    // rule: follow (own) The status is 0 only where both sides are good to their ends
    /// Adds what the end of the octets leaves unfinished, unless the side has a fault.
    ///
    /// # Errors
    ///
    /// `OutOfMemory`.
    pub(crate) fn end(&self, text: &mut Vec<u8>) -> io::Result<Status>
        ensures { IfOk result (λ status. (printed : List ℕ)
            × (text.new.items ≡ text.old.items ++ printed)
            × EndsSide self.now status printed) }
    {
        if self.is_over {
            return Ok(Status::Fault);
        }
        self.viewer.show_end(text)
    }

    // rule (tested): follow (own) A hint says why a side may be at fault, or which line is bad
    /// The likely cause of the side's fault, or that it ends inside the preface or a frame.
    pub(crate) fn hint(&self) -> Option<FollowHint> {
        if !self.is_over && self.scanner.held() != 0 {
            return Some(FollowHint::CutOff);
        }
        self.hint
    }
}

// rule: follow (own) A block after which the table is above what is in force is a fault
// Adds the line of the fault of a block at this place.
fn add_table_fault(place: u64, text: &mut Vec<u8>) -> io::Result<()>
    ensures { OnOk result (text.new.items ≡ text.old.items
        ++ fault_line codes_of.CompressionError place) }
{
    writeln!(text, "fault {} at {place}", Code::CompressionError)
}

// rule: follow (own) What a side may send follows the other's SETTINGS, and its own ACK
// Reads octets up to the end of a frame, or all of them, and notes that frame.
fn scan(
    scanner: &mut Cutter,
    octets: &[u8],
    own: &mut InForce,
    others: &mut InForce,
) -> Result<Scanned, WireFault>
    ensures ok { IfOk result (λ scanned. Scans scanner.old scanner.new octets.now scanned
        own.old own.new others.old others.new) }
    ensures err { IfErr result (λ fault. fault ≢ wire_faults.Memory
        → CutterFails scanner.old octets.now fault scanner.new
        × (own.new ≡ own.old) × (others.new ≡ others.old)) }
{
    let advance = scanner.advance(octets)?;
    let Some(complete) = advance.frame else {
        return Ok(Scanned {
            used: advance.used,
            ends_block: false,
        });
    };
    let frame = scanner.frame(octets, complete);
    match note_frame(frame, own, others) {
        Ok(()) => Ok(Scanned {
            used: advance.used,
            ends_block: ends_block(frame),
        }),
        Err(_) => Err(WireFault::Memory),
    }
}

// Whether a side begins with the preface (RFC 9113, section 3.4).
fn begins_with_preface(side: Side) -> bool
    ensures { result ≡ begins_with_preface side }
{
    matches!(side, Side::Client)
}

// Whether a frame ends a block.
fn ends_block(frame: FrameRef<'_>) -> bool
    ensures { result ≡ ends_block (frame_of frame.entry) }
{
    match frame {
        FrameRef::Headers { whole, .. } | FrameRef::Continuation { whole, .. } => whole,
        _ => false,
    }
}

// rule (tested): follow (own) A hint says why a side may be at fault, or which line is bad
// The likely cause of a fault of a side that may send payloads of this length.
fn hint_of(error: &ShowError, allowed: u32) -> FollowHint {
    match error {
        ShowError::Wire(WireFault::BadPreface) => FollowHint::NoPreface,
        ShowError::Wire(WireFault::HeadFault(HeadFault::TooLong)) => hint_of_length(allowed),
        _ => FollowHint::Fault,
    }
}

// The likely cause of a length above the limit.
fn hint_of_length(allowed: u32) -> FollowHint {
    if allowed < MOST_MAX_FRAME {
        FollowHint::LongFrame
    } else {
        FollowHint::Fault
    }
}
