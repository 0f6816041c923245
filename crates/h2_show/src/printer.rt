//! Prints lines in a style.

ghost use Rattle.std.specs.Prelude.{◌≡◌, ◌+◌, ◌&&◌, [], ◌∷◌, length, OnOk, if◌then◌else◌, false};
ghost use Rattle.h2_frame.specs.Encoding.{payload_of};
ghost use Rattle.h2_wire.specs.Cutter.{saturated};
ghost use Rattle.std.specs.Io.KnownBytes.{Appends};
ghost use Rattle.h2_frame.specs.Frames.{frame_of};
ghost use Rattle.h2_show.specs.Report.{begins_with_preface};
ghost use Rattle.h2_show.specs.Printed.{due_line};
ghost use Rattle.h2_show.specs.ShownLines.{decoded_listing, fault_shown, frame_shown};
ghost use Rattle.h2_show.specs.ShownLines.{preface_shown, rest_shown, unfinished_shown};
ghost use Rattle.h2_show.specs.Styles.{AppendsLines, text_from};

use crate::json_lines::{write_json_fault, write_json_frame, write_json_line, write_json_rest};
use crate::lines::{write_frame, write_list};
use crate::options::{ShowOptions, Style};
use crate::styled_lines::{
    write_styled_fault, write_styled_frame, write_styled_preface, write_styled_rest,
    write_styled_unfinished,
};
use h2_frame::{Code, FrameRef, HEAD_LEN};
use hpack::{Decoded, FieldList};
use std::alloc::Global;
use std::io::{self, Write};

/// The octets of the preface (RFC 9113, section 3.4).
const PREFACE: u64 = 24;

/// Prints lines, and counts the octets shown if the style shows positions.
#[derive(Debug, Drop)]
pub(crate) struct Printer {
    alloc: Global,
    style: Style,
    // Whether the line of the preface has not been printed yet.
    is_due: bool,
    // The position of the first octet of the next frame, or of the preface, counted from 1.
    next: u64,
}

impl Printer {
    /// Creates a printer.
    pub(crate) fn new(alloc: Global, options: ShowOptions) -> Printer
        ensures style { result.style ≡ options.style }
        ensures due { result.is_due ≡ begins_with_preface options.from }
        ensures first { result.next ≡ 1 }
    {
        Printer {
            alloc,
            style: options.style,
            is_due: options.from.begins_with_preface(),
            next: 1,
        }
    }

    /// Prints the line of the preface, once it is complete and if it has not been printed.
    pub(crate) fn advance<W: Write>(&mut self, is_complete: bool, out: &mut W) -> io::Result<()>
        ensures due { OnOk result (self.new.is_due ≡ (if is_complete then false
            else self.old.is_due)) }
        ensures line { OnOk result (AppendsLines self.old.style self.old.next self.new.next
            (W.contents out.old) (W.contents out.new)
            (due_line (self.old.is_due && is_complete))) }
        ensures same { self.new.style ≡ self.old.style }
    {
        if self.is_due && is_complete {
            self.is_due = false;
            self.preface(out)?;
        }
        Ok(())
    }

    // rule: show (own) The words choose names, places, colors and JSON
    // Prints the line of the preface.
    fn preface<W: Write>(&mut self, out: &mut W) -> io::Result<()>
        ensures line { OnOk result (AppendsLines self.old.style self.old.next self.new.next
            (W.contents out.old) (W.contents out.new) (preface_shown ∷ [])) }
        ensures same { self.new ≡ record self.old { next = self.new.next } }
    {
        match self.style {
            Style::Plain => return out.write_all(b"preface\n"),
            Style::Text(style) => write_styled_preface(style, self.next, out)?,
            Style::Json => write_json_line(self.alloc, self.next, "preface", out)?,
        }
        self.next = self.next.saturating_add(PREFACE);
        Ok(())
    }

    // rule: show (own) The words choose names, places, colors and JSON
    /// Prints the lines of a frame, and of the fields of the block that it ends, if any.
    pub(crate) fn frame<W: Write>(
        &mut self,
        frame: FrameRef<'_>,
        decoded: Option<Decoded>,
        list: &FieldList,
        out: &mut W,
    ) -> io::Result<()>
        ensures line { OnOk result (AppendsLines self.old.style self.old.next self.new.next
            (W.contents out.old) (W.contents out.new)
            (frame_shown (frame_of frame.entry) (decoded_listing decoded list.now) ∷ [])) }
        ensures same { self.new ≡ record self.old { next = self.new.next } }
    {
        match self.style {
            Style::Plain => {
                write_frame(frame, out)?;
                return write_list(decoded, list, out);
            }
            Style::Text(style) => {
                write_styled_frame(self.alloc, style, self.next, frame, decoded, list, out)?;
            }
            Style::Json => write_json_frame(self.alloc, self.next, frame, decoded, list, out)?,
        }
        self.next = self.next.saturating_add(frame_octets(frame));
        Ok(())
    }

    // rule: show (own) A fault is printed with the name of its code and its place
    /// Prints the line of a fault, at the octet with this number.
    pub(crate) fn fault<W: Write>(&self, code: Code, place: u64, out: &mut W) -> io::Result<()>
        ensures { OnOk result (Appends (W.contents out.old) (W.contents out.new)
            (text_from self.now.style self.now.next (fault_shown code place ∷ []))) }
    {
        match self.style {
            Style::Plain => writeln!(out, "fault {code} at {place}"),
            Style::Text(style) => write_styled_fault(style, code, place, out),
            Style::Json => write_json_fault(self.alloc, code, place, out),
        }
    }

    /// Prints the line for an incomplete frame or preface.
    pub(crate) fn rest<W: Write>(&self, count: usize, out: &mut W) -> io::Result<()>
        ensures { OnOk result (Appends (W.contents out.old) (W.contents out.new)
            (text_from self.now.style self.now.next (rest_shown count ∷ []))) }
    {
        match self.style {
            Style::Plain => writeln!(out, "rest {count}"),
            Style::Text(style) => write_styled_rest(style, count, out),
            Style::Json => write_json_rest(self.alloc, self.next, count, out),
        }
    }

    /// Prints the line for an incomplete field block.
    pub(crate) fn unfinished<W: Write>(&self, out: &mut W) -> io::Result<()>
        ensures { OnOk result (Appends (W.contents out.old) (W.contents out.new)
            (text_from self.now.style self.now.next (unfinished_shown ∷ []))) }
    {
        match self.style {
            Style::Plain => out.write_all(b"unfinished block\n"),
            Style::Text(style) => write_styled_unfinished(style, out),
            Style::Json => write_json_line(self.alloc, self.next, "unfinished block", out),
        }
    }
}

// The octets of a frame with its header, at most 2^64 - 1.
fn frame_octets(frame: FrameRef<'_>) -> u64
    ensures { result ≡ saturated (9 + length (payload_of (frame_of frame.entry))) }
{
    frame.payload_len().saturating_add(HEAD_LEN) as u64
}
