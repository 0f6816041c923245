//! A law of the credit that a server with a handler returns.

ghost use Rattle.std.specs.Prelude.{◌≡◌, ◌<◌, ◌+◌, ◌+ℤ◌, ◌≤ℤ◌, ℕ, None, false, pos, true};
ghost use Rattle.std.specs.List.{list_any};
ghost use Rattle.h2_spec_log.specs.Acts.{Values};
ghost use Rattle.h2_spec_log.specs.Histories.{IsLog};
ghost use Rattle.h2_spec_log.specs.Items.{ends};
ghost use Rattle.h2_spec_log.specs.Limits.{full_output};
ghost use Rattle.h2_spec_log.specs.Log.{Log, acked, active, granted, recv_window, waiting};
ghost use Rattle.h2_spec_log.specs.Settings.{own_value};
ghost use Rattle.h2_spec_log.specs.Windows.{connection_recv_window, first_window};
ghost use Rattle.h2_spec_log.specs.declared.role.Role.TheVariants.{Server};
ghost use Rattle.h2_spec_machine.specs.End.{End};
ghost use Rattle.h2_spec_machine.specs.Represents.{Represents};
ghost use Rattle.h2_laws_log.specs.Sums.{sum_below};
ghost use Rattle.h2_server.specs.Credit.{OwesAtMost};

// contract: 6.9 (own) Before a read that may wait credit is returned for all that is used
/// Once [`advance`](crate::Connection::advance) has returned credit before a read that may wait,
/// and fewer than 65,536 octets of output wait, a client is kept from sending only by what handlers
/// have not used and, on the connection, by what is unreturned: octets of discarded DATA and of
/// closed streams that are still to be returned by WINDOW_UPDATE (RFC 9113, section 6.9).
/// On a stream that the client has not ended, what it may send plus what is unused is at least the
/// initial window in force. On the connection, the sum of what it may send, what is unused on all
/// streams and what is unreturned is at least 65,535 octets plus what the window was widened by.
pub fn handlers_alone_hold_clients_back()
    ensures stream { (values : Values) (log : Log) (unused : ℕ → ℕ) (id : ℕ)
        → IsLog Server values log → log.failed ≡ None → waiting log < full_output
        → OwesAtMost log unused → active log id ≡ true → list_any (ends id) log.received ≡ false
        → pos (own_value 4 first_window (acked log) log.sent)
        ≤ℤ (recv_window log id +ℤ pos (unused id)) }
    ensures connection { (values : Values) (end : End) (log : Log) (unused : ℕ → ℕ) (n : ℕ)
        → Represents values end log → end.failed ≡ None → waiting log < full_output
        → OwesAtMost log unused → end.streams.highest < n
        → pos (granted log) ≤ℤ (connection_recv_window log.received log.sent
        +ℤ pos (sum_below n unused + log.unreturned)) }
{}
