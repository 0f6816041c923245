//! Removing queued output of an end.

ghost use Rattle.std.specs.Prelude.{◌≡◌, ◌+◌, ◌≤◌, ◌<◌, length, drop, min, true, false, None};
ghost use Rattle.std.specs.Prelude.{IfOk, IfErr, IsOk, if◌then◌else◌, vec_len};
ghost use Rattle.std.specs.Vec.{vec_capacity};
ghost use Rattle.std.specs.Io.{StartsWith};
ghost use Rattle.h2_spec_log.specs.CallRules.{returns_before_put_out};
ghost use Rattle.h2_spec_machine.specs.End.{end_view};
ghost use Rattle.h2_spec_machine.specs.Machine.{before_put_out_at};
ghost use Rattle.h2_core.specs.Endpoint.{end_of, IsSoundEnd};
ghost use Rattle.h2_core.specs.Readers.{Consumes, PutsOut};

use crate::endpoint::Endpoint;
use h2_frame::limits::{FULL_OUTPUT, SMALL_FRAME};
use h2_spec_log::Refusal;

impl Endpoint {
    // contract: 6.9 Nothing of the window of the connection is lost
    // contract: calls (own) A call that sends nothing takes no memory
    /// Appends at most `count` octets of the queued output to `out`, removes them from the
    /// queue, and returns their number. If credit is unreturned and fewer than 65,536 octets
    /// are queued, its WINDOW_UPDATE is queued first. It works after a failure too.
    ///
    /// # Errors
    ///
    /// [`Refusal::Memory`] (C12) where an allocation was refused. A refused call changes
    /// nothing.
    pub fn put_out(&mut self, count: usize, out: &mut Vec<u8>) -> Result<usize, Refusal>
        requires sound { self.old.failed ≡ None → IsSoundEnd (end_of self.old) }
        ensures ok { IfOk result (λ given. PutsOut (end_of self.old) count given out.old.items
            out.new.items (end_of self.new)) }
        ensures err { IfErr result (λ refusal. (refusal ≡ Refusal.Memory)
            × (out.new.items ≡ out.old.items) × (end_of self.new ≡ end_of self.old)) }

        // Where no credit is returned first, and nothing is put out, it takes no memory.
        ensures nothing { returns_before_put_out (end_view (end_of self.old)) ≡ false
            → min count (length self.old.output.waiting) ≡ 0 → IsOk result }

        // Where no credit is returned first, capacity in `out` is enough.
        ensures room { returns_before_put_out (end_view (end_of self.old)) ≡ false
            → vec_len out.old + min count (length self.old.output.waiting) ≤ vec_capacity out.old
            → IsOk result }

        // Where credit may be returned first, so are that and room for its WINDOW_UPDATE.
        ensures due { 13 ≤ self.old.output.spare
            → vec_len out.old + min count (length self.old.output.waiting + 13)
            ≤ vec_capacity out.old → IsOk result }
    {
        let update = self.update_room();
        let given = count.min(self.output.len() + update);
        if out.reserve(given).is_err() || self.output.reserve(update).is_err() {
            return Err(Refusal::Memory);
        }
        self.return_before_output();
        Ok(self.output.put_out(count, out).unwrap())
    }

    // contract: 6.9 Nothing of the window of the connection is lost
    // contract: calls (own) A call that sends nothing takes no memory
    /// Removes at most `count` octets of the queued output, which were read where they lie, and
    /// returns their number. If credit is unreturned and fewer than 65,536 octets are queued,
    /// its WINDOW_UPDATE is queued first. It works after a failure too.
    ///
    /// # Errors
    ///
    /// [`Refusal::Memory`] (C12) where an allocation was refused. A refused call changes
    /// nothing.
    pub fn consume(&mut self, count: usize) -> Result<usize, Refusal>
        requires sound { self.old.failed ≡ None → IsSoundEnd (end_of self.old) }
        ensures ok { IfOk result (λ given. Consumes (end_of self.old) count given
            (end_of self.new)) }
        ensures err { IfErr result (λ refusal. (refusal ≡ Refusal.Memory)
            × (end_of self.new ≡ end_of self.old)) }

        // Where no credit is returned first, or there is room for its WINDOW_UPDATE, it takes
        // no memory.
        ensures nothing { returns_before_put_out (end_view (end_of self.old)) ≡ false
            → IsOk result }
        ensures due { 13 ≤ self.old.output.spare → IsOk result }
    {
        let update = self.update_room();
        if self.output.reserve(update).is_err() {
            return Err(Refusal::Memory);
        }
        self.return_before_output();
        Ok(self.output.consume(count))
    }

    /// The room needed for the WINDOW_UPDATE that is queued before output is removed, if one
    /// is.
    fn update_room(&self) -> usize
        ensures { result ≡ (if returns_before_put_out (end_view (end_of self.now)) then 13 else 0) }
    {
        if self.returns_before_output() {
            SMALL_FRAME
        } else {
            0
        }
    }

    /// Whether unreturned credit is returned before output is removed.
    fn returns_before_output(&self) -> bool
        ensures { result ≡ returns_before_put_out (end_view (end_of self.now)) }
    {
        self.failed.is_none() && self.unreturned > 0 && self.output.len() < FULL_OUTPUT
    }

    /// Returns the unreturned credit, if that happens before output is removed; then there is
    /// room for a WINDOW_UPDATE.
    fn return_before_output(&mut self)
        requires sound { self.old.failed ≡ None → IsSoundEnd (end_of self.old) }
        requires room { returns_before_put_out (end_view (end_of self.old)) ≡ true
            → 13 ≤ self.old.output.spare }
        ensures { end_of self.new ≡ before_put_out_at (end_of self.old) }
    {
        if self.returns_before_output() {
            self.return_credit();
        }
    }

    // contract: calls (own) An end answers of its state, and of little once it has failed
    // rule: calls (own) An end answers of its state, and of little once it has failed
    /// Returns the number of octets of queued output. It takes no memory.
    pub fn waiting(&self) -> usize
        ensures { result ≡ length self.now.output.waiting }
    {
        self.output.len()
    }

    // contract: calls (own) An end lends its output, and says the place of a fault
    // rule: calls (own) An end lends its output, and says the place of a fault
    /// Lends the queued output from offset `at` on, as much as lies there in one piece. It
    /// takes no memory.
    pub fn waiting_from(&self, at: usize) -> &[u8]
        ensures part { StartsWith (drop at self.now.output.waiting) result.now }
        ensures some { at < length self.now.output.waiting → 0 < length result.now }
    {
        self.output.waiting_from(at)
    }
}
