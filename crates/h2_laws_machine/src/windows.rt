//! The connection's window, by an end's log and between two ends (RFC 9113, section 6.9).

ghost use Rattle.std.specs.Prelude.{◌≡◌, ℕ, ◌+◌, ◌<◌, ◌≤◌, None, List, ◌++◌, pos, ◌+ℤ◌};
ghost use Rattle.h2_block.specs.Grouping.{Item};
ghost use Rattle.h2_spec_log.specs.Items.{data_of, increment_on, total};
ghost use Rattle.h2_spec_log.specs.Acts.{Values};
ghost use Rattle.h2_spec_log.specs.Histories.{IsLog};
ghost use Rattle.h2_spec_log.specs.declared.role.Role.{Role};
ghost use Rattle.h2_spec_log.specs.Log.{Log, owed, granted, widened};
ghost use Rattle.h2_spec_machine.specs.End.{End, owed_total};
ghost use Rattle.h2_spec_machine.specs.Represents.{Represents};
ghost use Rattle.h2_spec_log.specs.Windows.{connection_send_window, connection_recv_window};
ghost use Rattle.h2_laws_log.specs.Sums.{sum_below};

/// What is owed on all streams of an end is the sum of what its log says is owed on each.
pub fn owed_on_all_streams()
    ensures { (values : Values) (e : End) (log : Log) (n : ℕ) → Represents values e log
        → e.failed ≡ None → e.streams.highest < n
        → owed_total e.streams.entries ≡ sum_below n (owed log) }
{}

/// What the peer may send on the connection, by an end's log, is all but what is owed and
/// unreturned, of 65,535 octets and what it was widened by.
pub fn connection_window_of_a_log()
    ensures { (values : Values) (e : End) (log : Log) (n : ℕ) → Represents values e log
        → e.failed ≡ None → e.streams.highest < n
        → connection_recv_window log.received log.sent
        +ℤ pos (sum_below n (owed log) + log.unreturned) ≡ pos (granted log) }
{}

// contract: 6.9 Nothing of the window of the connection is lost
/// What an end has returned on the connection in all, by WINDOW_UPDATE on stream 0, is no more than
/// what it has read of bodies, padding and padding lengths too, and what the window was widened by,
/// as long as it has not failed.
pub fn connection_updates_are_covered()
    ensures { (role : Role) (values : Values) (log : Log) → IsLog role values log
        → log.failed ≡ None
        → total (increment_on 0) log.sent ≤ total data_of log.received + widened log.calls }
{}

// contract: 6.9 Nothing of the window of the connection is lost
/// The connection's window is conserved: what one end may send, its DATA under way, the increments
/// that come back, what the other end owes on all streams, and what is unreturned there, are 65,535
/// octets and what the other end widened it by.
pub fn connection_window_is_conserved()
    ensures { (values others : Values) (e other : End) (log theirs : Log)
        (way back : List Item) (n : ℕ)
        → Represents values e log → Represents others other theirs
        → e.failed ≡ None → other.failed ≡ None → other.streams.highest < n
        → log.sent ≡ way ++ theirs.received → theirs.sent ≡ back ++ log.received
        → (connection_send_window log.received log.sent +ℤ pos (total data_of way))
        +ℤ pos (total (increment_on 0) back + (sum_below n (owed theirs) + theirs.unreturned))
        ≡ pos (granted theirs) }
{}
