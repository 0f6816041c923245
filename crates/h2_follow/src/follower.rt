//! Shows both sides of a connection as their octets arrive.

ghost use Rattle.std.specs.Prelude.{◌≡◌, ◌<◌, ◌≤◌, ◌≢◌, ℕ, false, List, [], ◌∷◌, ◌++◌, length};
ghost use Rattle.std.specs.Prelude.{OnOk, IfOk};
ghost use Rattle.std.specs.Io.KnownBytes.{Appends};
ghost use Rattle.h2_cli.specs.declared.status.Status.{Status as End};
ghost use Rattle.h2_follow.specs.FollowText.{pieces_read};
ghost use Rattle.h2_follow.specs.Follower.{ChoosesClient, EndsSide, FollowerAdvances};
ghost use Rattle.h2_follow.specs.Follower.{FollowerShows, NotesUnchecked};
ghost use Rattle.h2_follow.specs.Follower.{FollowerSteps, FollowerTakes, SideSteps, one_of};
ghost use Rattle.h2_follow.specs.Follows.{marked_of, output_of, status_of_both};
ghost use Rattle.h2_follow.specs.InForce.{bound_of};
ghost use Rattle.h2_follow.specs.Stretches.{Stretches};
ghost use Rattle.h2_follow.specs.Unchecked.{noted_with, unchecked_line};
ghost use Rattle.h2_show.specs.declared.options.Side.TheVariants as sides;

use crate::hint::FollowHint;
use crate::in_force::InForce;
use crate::marks::{mark_lines, mark_of};
use crate::one_side::OneSide;
use crate::text::{Node, Read, client_by, is_lost_segment, side_of};
use h2_cli::{Status, asks_http1};
use h2_show::Side;
use std::alloc::{AllocError, Global};
use std::io::{self, Write};

/// Both sides of a connection.
#[derive(Debug, Drop)]
pub(crate) struct Follower {
    client_side: OneSide,
    server_side: OneSide,
    // What the client may send, by the server's SETTINGS.
    client_bound: InForce,
    // What the server may send.
    server_bound: InForce,
    // Whether the line `not checked` of the side was printed.
    is_client_noted: bool,
    is_server_noted: bool,
    // The payload length that is always accepted.
    least: u32,
    // The client's node, once there were octets.
    client: Option<Node>,
    // What the octets show about the capture, if anything.
    notice: Option<FollowHint>,
    // The lines of one part.
    text: Vec<u8>,
    // The lines of a piece, each after its mark.
    lines: Vec<u8>,
}

impl Follower {
    /// Creates a follower, before the first octets.
    ///
    /// # Errors
    ///
    /// [`AllocError`] if out of memory.
    pub(crate) fn new(alloc: Global, least: u32) -> Result<Follower, AllocError>
        ensures { IfOk result (λ follower. FollowerShows follower least [] []) }
    {
        Ok(Follower {
            client_side: OneSide::new(alloc, Side::Client)?,
            server_side: OneSide::new(alloc, Side::Server)?,
            client_bound: InForce::new(alloc),
            server_bound: InForce::new(alloc),
            is_client_noted: false,
            is_server_noted: false,
            least,
            client: None,
            notice: None,
            text: Vec::new(alloc),
            lines: Vec::new(alloc),
        })
    }

    // contract: follow (own) A line stands where the last octet of its frame came
    // rule: follow (own) A line stands where the last octet of its frame came
    /// Shows the octets of the line with this number, if it has any.
    ///
    /// # Errors
    ///
    /// `OutOfMemory`, and those of the writer. What was printed before is written, unless a
    /// write fails.
    pub(crate) fn take_line<W: Write>(
        &mut self,
        number: u64,
        read: Option<Read>,
        out: &mut W,
    ) -> io::Result<()>
        ensures { OnOk result ((newer : Stretches)
            × Appends (W.contents out.old) (W.contents out.new) (output_of newer)
            × FollowerTakes self.old self.new (pieces_read read) newer) }
    {
        match read {
            Some(read) => self.take(number, &read, out),
            None => Ok(()),
        }
    }

    // rule: follow (own) A line stands where the last octet of its frame came
    // Shows the octets of the line with this number.
    fn take<W: Write>(&mut self, number: u64, read: &Read, out: &mut W) -> io::Result<()>
        ensures { OnOk result ((newer : Stretches)
            × Appends (W.contents out.old) (W.contents out.new) (output_of newer)
            × FollowerTakes self.old self.new ((read.now.node, read.now.octets.items) ∷ []) newer) }
    {
        self.notice = self.notice_with(number, &read.octets);
        let client = self.client_with(read);
        self.client = Some(client);
        self.show(side_of(client, read.node), &read.octets, out)
    }

    // rule (tested): follow (own) A hint says why a side may be at fault, or which line is bad
    // What the octets show about the capture, including those of this line.
    fn notice_with(&self, number: u64, octets: &[u8]) -> Option<FollowHint> {
        if self.notice.is_some() {
            return self.notice;
        }
        if self.client.is_none() && asks_http1(octets) {
            return Some(FollowHint::Http1);
        }
        if is_lost_segment(octets) {
            return Some(FollowHint::LostSegment(number));
        }
        None
    }

    // rule: follow (own) The client is whose octets come first as the preface, or else the other
    // The client's node, as known or by these octets.
    fn client_with(&self, read: &Read) -> Node
        ensures { ChoosesClient self.now.client (read.now.node, read.now.octets.items) result }
    {
        match self.client {
            Some(client) => client,
            None => client_by(read),
        }
    }

    // contract: follow (own) A side's fault ends that side, while the other goes on
    // rule: follow (own) A side's fault ends that side, while the other goes on
    // Shows octets of one side.
    fn show<W: Write>(&mut self, side: Side, octets: &[u8], out: &mut W) -> io::Result<()>
        ensures { OnOk result ((lines : List ℕ)
            × Appends (W.contents out.old) (W.contents out.new) lines
            × FollowerAdvances self.old self.new side octets.now [] lines) }
    {
        self.lines.clear();
        let shown = self.show_parts(side, octets);
        out.write_all(&self.lines)?;
        out.flush()?;
        shown
    }

    // contract: follow (own) What a side may send follows the other's SETTINGS, and its own ACK
    // rule: follow (own) What a side may send follows the other's SETTINGS, and its own ACK
    // Adds the lines of octets of one side, frame by frame, unless a fault ends it.
    fn show_parts(&mut self, side: Side, octets: &[u8]) -> io::Result<()>
        ensures { OnOk result (FollowerAdvances self.old self.new side octets.now self.old.lines.items
            self.new.lines.items) }
    {
        let mut done = 0;
        while done < octets.len() && !self.is_over(side) {
            done += self.show_part(side, &octets[done..])?;
        }
        Ok(())
    }

    // Whether a fault has ended the side.
    fn is_over(&self, side: Side) -> bool
        ensures { result ≡ (one_of side self.now).is_over }
    {
        match side {
            Side::Client => self.client_side.is_over(),
            Side::Server => self.server_side.is_over(),
        }
    }

    // rule: follow (own) Each side has the lines that show prints of it, after its mark
    // Adds the lines of the first octets of a side that no fault has ended, each after its mark.
    fn show_part(&mut self, side: Side, octets: &[u8]) -> io::Result<usize>
        ensures { IfOk result (λ used. (one_of side self.old).is_over ≡ false
            → FollowerSteps self.old self.new side octets.now used) }
    {
        self.text.clear();
        self.note_unchecked(side)?;
        let shown = self.read_part(side, octets);
        mark_lines(&self.text, mark_of(side), &mut self.lines)?;
        shown
    }

    // contract: follow (own) Where SETTINGS allow a side more than is read, a line says so once
    // rule: follow (own) Where SETTINGS allow a side more than is read, a line says so once
    // Adds the line `not checked` of a side to the text, where it first applies.
    fn note_unchecked(&mut self, side: Side) -> Result<(), AllocError>
        ensures { OnOk result (NotesUnchecked side self.old self.new) }
    {
        match side {
            Side::Client => add_unchecked(
                &self.client_bound,
                &mut self.is_client_noted,
                &mut self.text,
            ),
            Side::Server => add_unchecked(
                &self.server_bound,
                &mut self.is_server_noted,
                &mut self.text,
            ),
        }
    }

    // Adds the lines of the first octets of a side to the text.
    fn read_part(&mut self, side: Side, octets: &[u8]) -> io::Result<usize>
        ensures { IfOk result (λ used. (one_of side self.old).is_over ≡ false
            → SideSteps side self.old self.new octets.now used) }
    {
        let least = self.least;
        match side {
            Side::Client => self.client_side.show(
                least,
                octets,
                &mut self.client_bound,
                &mut self.server_bound,
                &mut self.text,
            ),
            Side::Server => self.server_side.show(
                least,
                octets,
                &mut self.server_bound,
                &mut self.client_bound,
                &mut self.text,
            ),
        }
    }

    // rule: follow (own) Each side has the lines that show prints of it, after its mark
    // Writes the text of a side, each line after its mark.
    fn write_text<W: Write>(&mut self, side: Side, out: &mut W) -> io::Result<()>
        ensures written { OnOk result (Appends (W.contents out.old) (W.contents out.new)
            (marked_of (side, self.old.text.items))) }
        ensures same { self.new ≡ record self.old { lines = self.new.lines } }
    {
        self.lines.clear();
        mark_lines(&self.text, mark_of(side), &mut self.lines)?;
        out.write_all(&self.lines)?;
        out.flush()
    }

    // contract: follow (own) The status is 0 only where both sides are good to their ends
    // rule: follow (own) The status is 0 only where both sides are good to their ends
    /// Shows the ends of both sides, the client's first.
    ///
    /// # Errors
    ///
    /// `OutOfMemory`, and those of the writer.
    pub(crate) fn end<W: Write>(&mut self, out: &mut W) -> io::Result<Status>
        ensures { IfOk result (λ status. (client : End) × (server : End) × (one : List ℕ) × (two : List ℕ)
            × (status ≡ status_of_both client server)
            × EndsSide self.old.client_side client one × EndsSide self.old.server_side server two
            × Appends (W.contents out.old) (W.contents out.new)
            (marked_of (sides.Client, one) ++ marked_of (sides.Server, two))) }
    {
        self.text.clear();
        let client = self.client_side.end(&mut self.text)?;
        self.write_text(Side::Client, out)?;
        self.text.clear();
        let server = self.server_side.end(&mut self.text)?;
        self.write_text(Side::Server, out)?;
        Ok(both(client, server))
    }

    // rule (tested): follow (own) A hint says why a side may be at fault, or which line is bad
    /// What is likely wrong with the text or the capture: there are no octets, what they show,
    /// or else the cause of a side's fault, the client's first.
    pub(crate) fn hint(&self) -> Option<FollowHint> {
        if self.client.is_none() {
            return Some(FollowHint::NoOctets);
        }
        let client = hint_with(self.client_side.hint(), self.is_client_noted);
        let server = hint_with(self.server_side.hint(), self.is_server_noted);
        match client {
            // A fault is more specific.
            Some(FollowHint::CutOff | FollowHint::NotChecked) => {
                self.notice.or(server).or(client)
            }
            _ => self.notice.or(client).or(server),
        }
    }
}

// contract: follow (own) Where SETTINGS allow a side more than is read, a line says so once
// rule: follow (own) Where SETTINGS allow a side more than is read, a line says so once
// Adds the line `not checked` of a side, unless it was printed before.
fn add_unchecked(bound: &InForce, is_noted: &mut bool, text: &mut Vec<u8>) -> Result<(), AllocError>
    ensures noted { OnOk result (is_noted.new ≡ noted_with is_noted.old (bound_of bound.now)) }
    ensures text { OnOk result (text.new.items
        ≡ text.old.items ++ unchecked_line is_noted.old (bound_of bound.now)) }
{
    if !*is_noted && bound.allows_unread() {
        text.extend_from_slice(b"not checked\n")?;
        *is_noted = true;
    }
    Ok(())
}

// rule (tested): follow (own) A hint says why a side may be at fault, or which line is bad
// The hint for a side; after the line `not checked` what is reported as its fault may be none.
fn hint_with(hint: Option<FollowHint>, is_noted: bool) -> Option<FollowHint> {
    match hint {
        Some(FollowHint::CutOff) => hint,
        _ if is_noted => Some(FollowHint::NotChecked),
        _ => hint,
    }
}

// contract: follow (own) The status is 0 only where both sides are good to their ends
// rule: follow (own) The status is 0 only where both sides are good to their ends
// The status of both sides.
pub(crate) fn both(client: Status, server: Status) -> Status
    ensures { result ≡ status_of_both client server }
{
    match (client, server) {
        (Status::Good, Status::Good) => Status::Good,
        _ => Status::Fault,
    }
}
