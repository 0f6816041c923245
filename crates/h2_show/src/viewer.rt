//! Shows a stream of frames that arrives in pieces.

ghost use Rattle.std.specs.Prelude.{◌≡◌, ◌==◌, not, ◌&&◌, length, if◌then◌else◌, List, [], ◌∷◌};
ghost use Rattle.std.specs.Prelude.{OnOk, IfOk, IfErr};
ghost use Rattle.std.specs.Io.KnownBytes.{Appends};
ghost use Rattle.std.specs.Option.{is_some};
ghost use Rattle.h2_show.specs.ShownLines.{ShowLine, fault_shown};
ghost use Rattle.h2_show.specs.Styles.{AppendsLines, text_from};
ghost use Rattle.h2_show.specs.Printed.{error_lines, end_lines, ViewerShows};
ghost use Rattle.h2_show.specs.Printed.{ViewerPrints};
ghost use Rattle.h2_show.specs.Printed.{ViewerFailsWith};
ghost use Rattle.h2_show.specs.Limited.{ViewerLimited};
ghost use Rattle.h2_show.specs.Report.{begins_with_preface, limits_of};
ghost use Rattle.h2_show.specs.Viewer.{ViewerRepresents, ViewerContinues, ViewerFails};
ghost use Rattle.h2_show.specs.Viewer.{IsStreamFault};
ghost use Rattle.h2_show.specs.declared.viewer.ShowError.TheVariants.{Wire, Block, Output};

use crate::blocks::{BlockError, Blocks};
use crate::options::ShowOptions;
use crate::printer::Printer;
use h2_cli::Status;
use h2_frame::Code;
use h2_wire::{Cutter, WireFault};
use std::alloc::{AllocError, Global};
use std::io::{self, ErrorKind, Write};

/// Shows a stream of frames.
#[derive(Debug, Drop)]
pub struct Viewer {
    cutter: Cutter,
    blocks: Blocks,
    printer: Printer,
}

/// Why a stream is not shown further.
#[derive(Debug, Drop)]
pub enum ShowError {
    /// An octet is at fault, or out of memory.
    Wire(WireFault),
    /// A frame is not allowed here or ends a block that does not decode, or out of memory.
    Block(BlockError),
    /// A write failed.
    Output(io::Error),
}

impl From<WireFault> for ShowError {
    ghost from_gives = { λ fault error. error ≡ Wire fault };

    fn from(fault: WireFault) -> ShowError {
        ShowError::Wire(fault)
    }
}

impl From<BlockError> for ShowError {
    ghost from_gives = { λ block_error error. error ≡ Block block_error };

    fn from(block_error: BlockError) -> ShowError {
        ShowError::Block(block_error)
    }
}

impl From<io::Error> for ShowError {
    ghost from_gives = { λ io_error error. error ≡ Output io_error };

    fn from(io_error: io::Error) -> ShowError {
        ShowError::Output(io_error)
    }
}

impl Viewer {
    // rule: show (own) The words choose the limit of payloads
    /// Creates a viewer for the octets that `from` sent, from the first one on, with the style
    /// and the `max_frame` of the options.
    ///
    /// # Errors
    ///
    /// [`AllocError`] if out of memory.
    pub fn new(alloc: Global, options: ShowOptions) -> Result<Viewer, AllocError>
        ensures represents { IfOk result (λ viewer. ViewerRepresents viewer.cutter viewer.blocks
            (begins_with_preface options.from) (limits_of options) []) }
        ensures shows { IfOk result (λ viewer. ViewerShows viewer.cutter viewer.blocks
            viewer.printer.is_due (begins_with_preface options.from) (limits_of options) [] []) }
        ensures style { IfOk result (λ viewer. viewer.printer.style ≡ options.style) }
        ensures first { IfOk result (λ viewer. viewer.printer.next ≡ 1) }
    {
        let expect_preface = options.from.begins_with_preface();
        Ok(Viewer {
            cutter: Cutter::new(alloc, options.max_frame, expect_preface),
            blocks: Blocks::new(alloc)?,
            printer: Printer::new(alloc, options),
        })
    }

    // rule: show (own) The status is 0 only where the input is good to its end
    /// Prints what the piece completes.
    ///
    /// By `ok`, the piece was used to its end: the cutter and the blocks represent all octets so
    /// far, in whatever pieces. By `err`, the stream is at fault right after the frames taken,
    /// or with the last of them. The lines printed show the octets so far: each frame in order,
    /// and the fields of each block.
    ///
    /// # Errors
    ///
    /// [`ShowError::Wire`] and [`ShowError::Block`] with the fault of the stream, or if out of
    /// memory; [`ShowError::Output`] if a write failed.
    pub fn show_piece<W: Write>(&mut self, piece: &[u8], out: &mut W) -> Result<(), ShowError>
        ensures ok { OnOk result (ViewerContinues self.old.cutter self.old.blocks piece.now
            self.new.cutter self.new.blocks) }
        ensures err { IfErr result (λ error. ViewerFails self.old.cutter self.old.blocks piece.now
            error self.new.cutter) }
        ensures shown { OnOk result ((printed : List ShowLine)
            × AppendsLines self.old.printer.style self.old.printer.next self.new.printer.next
            (W.contents out.old) (W.contents out.new) printed
            × ViewerPrints self.old.cutter self.old.blocks self.old.printer.is_due piece.now
            self.new.cutter self.new.blocks self.new.printer.is_due printed) }
        ensures fault { IfErr result (λ error. IsStreamFault error → (printed : List ShowLine)
            × AppendsLines self.old.printer.style self.old.printer.next self.new.printer.next
            (W.contents out.old) (W.contents out.new) printed
            × ViewerFailsWith self.old.cutter self.old.blocks self.old.printer.is_due piece.now
            error self.new.cutter self.new.printer.is_due printed) }
        ensures style { self.new.printer.style ≡ self.old.printer.style }
    {
        let mut done = 0;
        while done < piece.len() {
            let cut = self.cutter.cut(&piece[done..])?;
            done += cut.used;
            let Some(frame) = cut.frame else {
                self.printer.advance(self.cutter.is_past_preface(), out)?;
                continue;
            };
            let decoded = self.blocks.take(frame)?;
            self.printer.advance(true, out)?;
            self.printer.frame(frame, decoded, self.blocks.list(), out)?;
        }
        Ok(())
    }

    // contract: 4.2 (own) A cutter's limit is changed for heads that are still to come
    // rule: 4.2 (own) A cutter's limit is changed for heads that are still to come
    /// Sets the maximum payload length, for frames whose ninth octet has not arrived yet.
    pub fn set_max_frame(&mut self, max_frame: u32)
        ensures limited { ViewerLimited self.old.cutter self.old.blocks self.old.printer.is_due
            max_frame self.new.cutter self.new.blocks self.new.printer.is_due }
        ensures unparsed { self.new.cutter.unparsed ≡ self.old.cutter.unparsed }
        ensures printer { self.new.printer ≡ self.old.printer }
    {
        self.cutter.set_limit(max_frame);
    }

    // rule: HPACK 4.2 A block without the update that a lower limit asks for is a fault
    /// Returns the maximum size of the decoder's table after the blocks so far (RFC 7541,
    /// section 4.2).
    pub fn table_maximum(&self) -> u32
        ensures { result ≡ self.now.blocks.decoder.table.maximum }
    {
        self.blocks.table_maximum()
    }

    // contract: show (own) Lines are written before the next read and before the end
    // rule: show (own) Lines are written before the next read and before the end
    /// Prints the line of the fault that ends the stream.
    ///
    /// # Errors
    ///
    /// If `error` is not a fault of the stream, it is returned: `OutOfMemory`, or the writer's
    /// error. A failed write of the line is returned too.
    pub fn show_error<W: Write>(&mut self, error: ShowError, out: &mut W) -> io::Result<Status>
        ensures status { IfOk result (λ status. (status ≡ Status.Fault) × IsStreamFault error) }
        ensures lines { OnOk result (Appends (W.contents out.old) (W.contents out.new)
            (text_from self.old.printer.style self.old.printer.next
            (error_lines error self.old.cutter.place self.old.printer.is_due))) }
    {
        match error {
            ShowError::Output(error) => Err(error),
            ShowError::Wire(WireFault::Memory) | ShowError::Block(BlockError::Memory) => {
                Err(io::Error::from(ErrorKind::OutOfMemory))
            }
            ShowError::Wire(WireFault::BadPreface) => self.show_fault(Code::ProtocolError, out),
            ShowError::Wire(WireFault::HeadFault(fault)) => {
                self.printer.advance(true, out)?;
                self.show_fault(fault.code(), out)
            }
            ShowError::Wire(WireFault::PayloadFault(code))
            | ShowError::Block(BlockError::Fault(code)) => {
                self.printer.advance(true, out)?;
                self.show_fault(code, out)
            }
        }
    }

    // rule: show (own) The status is 1 only where the stream is cut off or at fault
    // rule: show (own) A fault is printed with the name of its code and its place
    // Prints the line of a fault with this code.
    fn show_fault<W: Write>(&self, code: Code, out: &mut W) -> io::Result<Status>
        ensures status { IfOk result (λ status. status ≡ Status.Fault) }
        ensures line { IfOk result (λ status. Appends (W.contents out.old) (W.contents out.new)
            (text_from self.now.printer.style self.now.printer.next
            (fault_shown code self.now.cutter.place ∷ []))) }
    {
        self.printer.fault(code, self.cutter.place(), out)?;
        Ok(Status::Fault)
    }

    // rule: show (own) The status is 1 only where the stream is cut off or at fault
    /// Prints what the end of the input leaves unfinished: part of a frame or of the preface, or
    /// else a block. Returns [`Status::Good`] if nothing is.
    ///
    /// # Errors
    ///
    /// Those of the writer.
    pub fn show_end<W: Write>(&self, out: &mut W) -> io::Result<Status>
        ensures status { IfOk result (λ status. status ≡
            (if length self.now.cutter.unparsed == 0 && not (is_some self.now.blocks.gather.begun)
            then Status.Good else Status.Fault)) }
        ensures lines { OnOk result (Appends (W.contents out.old) (W.contents out.new)
            (text_from self.now.printer.style self.now.printer.next
            (end_lines (length self.now.cutter.unparsed)
            (is_some self.now.blocks.gather.begun)))) }
    {
        let held = self.cutter.held();
        if held != 0 {
            self.printer.rest(held, out)?;
            return Ok(Status::Fault);
        }
        if self.blocks.is_inside() {
            self.printer.unfinished(out)?;
            return Ok(Status::Fault);
        }
        Ok(Status::Good)
    }

    // rule: show (own) A fault is printed with the name of its code and its place
    /// Returns the number of octets used, or the position of the octet at fault, counted from 1.
    pub fn place(&self) -> u64
        ensures { result ≡ self.now.cutter.place }
    {
        self.cutter.place()
    }
}
