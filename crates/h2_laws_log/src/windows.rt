//! Windows of two ends, of which one writes what the other reads, newest first.

ghost use Rattle.std.specs.Prelude.{◌≡◌, ℕ, ◌+◌, List, ◌++◌, pos, ◌+ℤ◌};
ghost use Rattle.h2_block.specs.Grouping.{Item};
ghost use Rattle.h2_spec_log.specs.Items.{data_on, data_of, increment_on, total};
ghost use Rattle.h2_spec_log.specs.Settings.{value_read, own_value};
ghost use Rattle.h2_spec_log.specs.Windows.{first_window, window, send_window_of};
ghost use Rattle.h2_spec_log.specs.Windows.{connection_send_window, recv_window_of};
ghost use Rattle.h2_spec_log.specs.Windows.{connection_recv_window};

// contract: 6.1 The complete payload of DATA, padding included, counts for windows
/// What one end may send on the connection, with its DATA under way and the increments that come
/// back, is what the other end lets it send (RFC 9113, section 6.9).
pub fn connection_window_meets()
    ensures { (received sent other_received other_sent way back : List Item) → sent
        ≡ way ++ other_received → other_sent ≡ back ++ received
        → (connection_send_window received sent +ℤ pos (total data_of way)) +ℤ pos (total
        (increment_on 0) back) ≡ connection_recv_window other_received other_sent }
{}

// contract: 6.1 The complete payload of DATA, padding included, counts for windows
// contract: 6.9.2 INITIAL_WINDOW_SIZE shifts the window of each stream
// contract: 6.9.2 A new stream has its initial windows
/// What one end may send on a stream, with its DATA under way and the increments that come back, is
/// what the other end lets it send, as far as the initial window is the one that was read last.
/// Where that is the one in force at the other end, as it is where no acknowledgment is under way,
/// it is the other end's credit.
pub fn stream_window_meets()
    ensures read { (i : ℕ) (received sent other_received other_sent way back : List Item) → sent
        ≡ way ++ other_received → other_sent ≡ back ++ received
        → (send_window_of i received sent +ℤ pos (total (data_on i) way)) +ℤ pos (total
        (increment_on i) back)
        ≡ window (value_read 4 first_window received + total (increment_on i) other_sent) (total
        (data_on i) other_received) }
    ensures in_force { (i count : ℕ)
        (received sent other_received other_sent way back : List Item) → sent
        ≡ way ++ other_received
        → other_sent ≡ back ++ received
        → value_read 4 first_window received ≡ own_value 4 first_window count other_sent
        → (send_window_of i received sent +ℤ pos (total (data_on i) way)) +ℤ pos (total
        (increment_on i) back) ≡ recv_window_of i count other_received other_sent }
{}
