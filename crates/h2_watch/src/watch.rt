//! Shows the frames of both sides of a connection as they arrive.

ghost use Rattle.std.specs.Prelude.{◌≡◌, ◌++◌, ℕ, true, List, [], IfOk, OnOk};
ghost use Rattle.std.specs.Io.KnownBytes.{Appends};
ghost use Rattle.h2_follow.specs.Follows.{marked, mark_of};
ghost use Rattle.h2_show.specs.Printed.{error_lines};
ghost use Rattle.h2_show.specs.Styles.{text_from};
ghost use Rattle.h2_show.specs.Viewer.{IsStreamFault};
ghost use Rattle.h2_watch.specs.Watches.{HasShown, ShowsMore};

use h2_follow::{mark_lines, mark_of};
use h2_frame::limits::MOST_MAX_FRAME;
use h2_show::{ShowError, ShowOptions, Side, Style, Viewer};
use std::alloc::{AllocError, Global};
use std::io::{self, Write};

/// Shows the frames of both sides of a connection as they arrive. After a fault of a side
/// nothing more of it is shown.
#[derive(Debug, Drop)]
pub struct Watch {
    pub(crate) alloc: Global,
    pub(crate) client: WatchedSide,
    pub(crate) server: WatchedSide,
}

/// One side of a connection that is shown.
#[derive(Debug, Drop)]
pub(crate) struct WatchedSide {
    pub(crate) viewer: Viewer,
    // Whether a fault has ended it.
    pub(crate) is_over: bool,
}

impl Watch {
    /// Creates a watch, before the first octet of either side.
    ///
    /// # Errors
    ///
    /// [`AllocError`] if out of memory.
    pub fn new(alloc: Global) -> Result<Watch, AllocError>
        ensures client { IfOk result (λ watch. HasShown Side.Client watch.client [] []) }
        ensures server { IfOk result (λ watch. HasShown Side.Server watch.server [] []) }
    {
        Ok(Watch {
            alloc,
            client: WatchedSide::new(alloc, Side::Client)?,
            server: WatchedSide::new(alloc, Side::Server)?,
        })
    }

    // contract: engines (own) get -v shows the frames of both sides as they come
    // rule: engines (own) get -v shows the frames of both sides as they come
    /// Prints the lines that these octets of a side complete, each after `> ` for the client or
    /// `< ` for the server.
    ///
    /// # Errors
    ///
    /// `OutOfMemory`, and those of the writer. Do not call it again after an error.
    pub fn show<E: Write>(&mut self, side: Side, octets: &[u8], out: &mut E) -> io::Result<()>
        ensures { OnOk result ((printed : List ℕ)
            × Appends (E.contents out.old) (E.contents out.new)
            (marked (mark_of side) true printed)
            × ShowsMore self.old self.new side octets.now printed) }
    {
        let mut text = Vec::new(self.alloc);
        self.add_lines(side, octets, &mut text)?;
        let mut lines = Vec::new(self.alloc);
        mark_lines(&text, mark_of(side), &mut lines)?;
        out.write_all(&lines)
    }

    // rule: engines (own) get -v shows the frames of both sides as they come
    // Adds the lines of octets of a side to the text.
    fn add_lines(&mut self, side: Side, octets: &[u8], text: &mut Vec<u8>) -> io::Result<()>
        ensures { OnOk result ((printed : List ℕ) × (text.new.items ≡ text.old.items ++ printed)
            × ShowsMore self.old self.new side octets.now printed) }
    {
        match side {
            Side::Client => self.client.add_lines(octets, text),
            Side::Server => self.server.add_lines(octets, text),
        }
    }
}

impl WatchedSide {
    // Creates one side.
    fn new(alloc: Global, side: Side) -> Result<WatchedSide, AllocError>
        ensures { IfOk result (λ one. HasShown side one [] []) }
    {
        let options = ShowOptions {
            hex: false,
            from: side,
            max_frame: MOST_MAX_FRAME,
            style: Style::Plain,
        };
        Ok(WatchedSide {
            viewer: Viewer::new(alloc, options)?,
            is_over: false,
        })
    }

    // rule: engines (own) get -v shows the frames of both sides as they come
    // Adds the lines of octets to the text, and that of their fault; none after a fault.
    fn add_lines(&mut self, octets: &[u8], text: &mut Vec<u8>) -> io::Result<()>
        ensures { OnOk result ((printed : List ℕ) × (text.new.items ≡ text.old.items ++ printed)
            × ((from : Side) (before shown : List ℕ) → HasShown from self.old before shown
            → HasShown from self.new (before ++ octets.now) (shown ++ printed))) }
    {
        if self.is_over {
            return Ok(());
        }
        match self.viewer.show_piece(octets, text) {
            Ok(()) => Ok(()),
            Err(error) => self.end_with(error, text),
        }
    }

    // Adds the line of a fault, which ends the side.
    fn end_with(&mut self, error: ShowError, text: &mut Vec<u8>) -> io::Result<()>
        ensures lines { OnOk result (text.new.items ≡ text.old.items
            ++ text_from self.old.viewer.printer.style self.old.viewer.printer.next
            (error_lines error self.old.viewer.cutter.place self.old.viewer.printer.is_due)) }
        ensures fault { OnOk result (IsStreamFault error) }
        ensures over { self.new.is_over ≡ true }
    {
        self.is_over = true;
        self.viewer.show_error(error, text)?;
        Ok(())
    }
}
