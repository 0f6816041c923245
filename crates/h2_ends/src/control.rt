//! Resetting a stream at an end.

ghost use Rattle.std.specs.Prelude.{◌≡◌};
ghost use Rattle.h2_spec_log.specs.Acts.{Done, ResetStream};
ghost use Rattle.h2_conn.specs.Conn.{answer_by};
ghost use Rattle.h2_ends.specs.Represents.{EndAnswers};

use crate::end::End;
use h2_conn::Refusal;

impl End {
    // rule: 8.1 (own) The other calls of a client and a server are the connection's
    /// Resets a stream, and drops what waits on it.
    pub(crate) fn reset(&mut self, id: u32, code: u32) -> Result<(), Refusal>
        ensures { EndAnswers self.old (ResetStream id code) (answer_by (λ done. Done) result)
            self.new }
    {
        self.conn.reset(id, code)?;
        self.forget_if_over(id);
        Ok(())
    }
}
