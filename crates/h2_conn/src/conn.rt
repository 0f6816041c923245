//! One end of a connection, as it is kept.

ghost use Rattle.std.specs.Prelude.{◌≡◌, None};
ghost use Rattle.h2_wire.specs.Cutter.{CutterLimited};
ghost use Rattle.h2_spec_machine.specs.End.{payload_limit_of};
ghost use Rattle.h2_core.specs.Endpoint.{end_of, IsSoundEnd};

use crate::counts::Counts;
use crate::why::Why;
use h2_core::Endpoint;
use h2_wire::Cutter;

/// One end of a connection: it takes octets and calls, returns events and octets, and does no
/// input or output. `{:?}` shows its role, the code and the reason of its failure if it has
/// failed, and the results of [`Conn::waiting`] and [`Conn::held`].
#[derive(Drop)]
pub struct Conn {
    /// Cuts the input into frames, and keeps what is unparsed.
    pub(crate) cutter: Cutter,
    /// The end, which takes frames and calls.
    pub(crate) end: Endpoint,
    /// The counts of the frames received.
    pub(crate) counts: Counts,
    /// Why the connection has failed, if it has.
    pub(crate) why: Option<Why>,
    // While the connection has not failed, its values are sound and the cutter has not failed.
    ghost sound: { end.failed ≡ None → IsSoundEnd (end_of end) },
    ghost cuts: { end.failed ≡ None → cutter.fault ≡ None },
}

impl Conn {
    // rule: 4.2 The limit of an end is its greatest MAX_FRAME_SIZE of those in force
    /// Sets the cutter's limit for the payloads of later heads to the end's limit. It takes no
    /// memory.
    pub(crate) fn limit_payloads(&mut self)
        ensures cutter { CutterLimited self.old.cutter
            (payload_limit_of (end_of self.old.end).own) self.new.cutter }
        ensures end { self.new.end ≡ self.old.end }
        ensures counts { self.new.counts ≡ self.old.counts }
        ensures why { self.new.why ≡ self.old.why }
    {
        self.cutter.set_limit(self.end.payload_limit());
    }
}
