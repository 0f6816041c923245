//! Reading and removing the queued output.

ghost use Rattle.std.specs.Prelude.{◌≡◌, ◌≤◌, ◌+◌, ◌++◌, ◌<◌, length, drop, min, false, vec_len, IfOk, IsOk};
ghost use Rattle.std.specs.Prelude.{OnErr, OnOk};
ghost use Rattle.std.specs.Vec.{vec_capacity};
ghost use Rattle.std.specs.Io.{StartsWith};
ghost use Rattle.h2_spec_log.specs.Acts.{Values, PutOut, Count};
ghost use Rattle.h2_spec_log.specs.CallRules.{returns_before_put_out};
ghost use Rattle.h2_spec_log.specs.Log.{Log, waiting};
ghost use Rattle.h2_spec_log.specs.LogView.{log_view};
ghost use Rattle.h2_conn.specs.Conn.{ConnAnswers, ConnRepresents, GivesOut, LendsFrom, answer_by};
ghost use Rattle.h2_conn.specs.Conn.{octets_queued};

use crate::conn::Conn;
use h2_spec_log::Refusal;
use std::alloc::AllocError;

impl Conn {
    // contract: calls (own) An end lends its output, and says the place of a fault
    // rule: calls (own) An end lends its output, and says the place of a fault
    /// Lends the queued output from offset `at` on, as much as lies there in one piece. The
    /// slice is empty only if no output is queued from there on. The slices lent at 0, then at
    /// the end of that one, and so on, are all the queued output in order. It works after a
    /// failure too.
    pub fn waiting_from(&self, at: usize) -> &[u8]
        ensures lends { LendsFrom self.now at result.now }
        ensures part { StartsWith (drop at (octets_queued self.now)) result.now }
        ensures some { at < length (octets_queued self.now) → 0 < length result.now }
    {
        self.end.waiting_from(at)
    }

    // rule: calls (own) An end lends its output, and says the place of a fault
    /// Appends the queued output from offset `from` on to `out`, and leaves it queued. It works
    /// after a failure too.
    ///
    /// # Errors
    ///
    /// [`AllocError`] where an allocation was refused; a prefix may have been appended.
    pub fn append_waiting(&self, from: usize, out: &mut Vec<u8>) -> Result<(), AllocError>
        ensures { OnOk result ((values : Values) (log : Log) → ConnRepresents values self.now log
            → out.new.items ≡ out.old.items ++ drop from (drop log.given log.written)) }
    {
        let waiting = self.waiting();
        let mut at = from;
        while at < waiting {
            let part = self.waiting_from(at);
            out.extend_from_slice(part)?;
            at += part.len();
        }
        Ok(())
    }

    // rule: calls (own) Output is given out in order and once
    /// Appends at most `count` octets of the queued output to `out`, removes them from the
    /// queue, and returns their number. If credit is due ([`Conn::due`]) and fewer than 65,536
    /// octets are queued, its WINDOW_UPDATE is queued first. It works after a failure too.
    ///
    /// # Errors
    ///
    /// [`Refusal::Memory`] (C12); nothing has changed. If `out` has the capacity, C12 is returned
    /// only where a WINDOW_UPDATE has to be queued first; then it may come even for a `count` of 0.
    pub fn put_out(&mut self, count: usize, out: &mut Vec<u8>) -> Result<usize, Refusal>
        ensures answers { ConnAnswers self.old (PutOut count)
            (answer_by (λ given. Count given) result) self.new }
        ensures ok { IfOk result (λ given. GivesOut self.old count given out.old.items
            out.new.items) }
        ensures err { OnErr result (out.new.items ≡ out.old.items) }

        // Where no credit is returned first, capacity in `out` is enough.
        ensures room { (values : Values) (log : Log) → ConnRepresents values self.old log
            → returns_before_put_out (log_view log) ≡ false
            → vec_len out.old + min count (waiting log) ≤ vec_capacity out.old → IsOk result }
    {
        self.end.put_out(count, out)
    }

    // rule: calls (own) Output is given out in order and once
    /// Makes the queued output ready to be written from where it lies: if [`Conn::due`] is not 0
    /// and fewer than 65,536 octets are queued, a WINDOW_UPDATE that returns the due octets is
    /// queued. Then [`Conn::waiting_from`] lends what [`Conn::put_out`] would give, and
    /// [`Conn::consume`] removes what was written. It does what [`Conn::consume`] of 0 octets
    /// does.
    ///
    /// # Errors
    ///
    /// [`Refusal::Memory`] (C12), only where a WINDOW_UPDATE has to be queued; nothing has changed.
    pub fn ready(&mut self) -> Result<(), Refusal>
        ensures answers { ConnAnswers self.old (PutOut 0)
            (answer_by (λ done. Count 0) result) self.new }

        // Then no credit is returned first, so consuming takes no memory.
        ensures returned { OnOk result ((values : Values) (log : Log)
            → ConnRepresents values self.new log → returns_before_put_out (log_view log) ≡ false) }
        ensures room { (values : Values) (log : Log) → ConnRepresents values self.old log
            → returns_before_put_out (log_view log) ≡ false → IsOk result }
    {
        self.end.consume(0)?;
        Ok(())
    }

    // rule: calls (own) Output is given out in order and once
    /// Removes at most `count` octets of the queued output, which [`Conn::waiting_from`] has
    /// lent and the caller has written, and returns their number. As in [`Conn::put_out`], the
    /// WINDOW_UPDATE for credit that is due is queued first, and its octets may be among those
    /// removed. So call [`Conn::ready`] before each [`Conn::waiting_from`], and pass no more
    /// than the number of octets written.
    ///
    /// # Errors
    ///
    /// [`Refusal::Memory`] (C12), only where a WINDOW_UPDATE has to be queued; nothing has
    /// changed. It does not come if only readers were called since [`Conn::ready`] returned `Ok`.
    pub fn consume(&mut self, count: usize) -> Result<usize, Refusal>
        ensures answers { ConnAnswers self.old (PutOut count)
            (answer_by (λ given. Count given) result) self.new }
        ensures room { (values : Values) (log : Log) → ConnRepresents values self.old log
            → returns_before_put_out (log_view log) ≡ false → IsOk result }
    {
        self.end.consume(count)
    }
}
