//! The states of streams.

ghost use Rattle.std.specs.Prelude.{◌≡◌, ◌≢◌, ℕ, ◌≤◌, ◌<◌, true, false, List};
ghost use Rattle.h2_block.specs.Grouping.{Item};
ghost use Rattle.h2_spec_log.specs.declared.role.Role.{Role};
ghost use Rattle.h2_spec_log.specs.Items.{greatest_block};
ghost use Rattle.h2_spec_log.specs.Events.{Event};
ghost use Rattle.h2_spec_log.specs.States.{Idle, Active, openings, is_used, is_active};
ghost use Rattle.h2_spec_log.specs.States.{stream_state};
ghost use Rattle.h2_spec_log.specs.Log.{Log, active, next_active};

// contract: 5.1 A stream has one state, by what was received and sent
// contract: 5.1.1 A stream that is opened closes all lower idle ones
/// A stream is idle exactly where its number isn't used, and active exactly where it is said to be
/// (RFC 9113, section 5.1).
pub fn states_of_streams()
    ensures idle { (role : Role) (i : ℕ) (received sent : List Item) (reported : List Event)
        → is_used role i received sent ≡ false → stream_state role i received sent reported ≡ Idle }
    ensures used { (role : Role) (i : ℕ) (received sent : List Item) (reported : List Event)
        → is_used role i received sent ≡ true → stream_state role i received sent reported ≢ Idle }
    ensures active { (role : Role) (i : ℕ) (received sent : List Item) (reported : List Event)
        → is_active role i received sent reported ≡ true
        → stream_state role i received sent reported
        ≡ Active }
    ensures active_by_items { (role : Role) (i : ℕ) (received sent : List Item)
        (reported : List Event) → stream_state role i received sent reported ≡ Active
        → is_active role i received sent reported ≡ true }
{}

// contract: 5.1 A stream has one state, by what was received and sent
/// The next active stream above a number is active, above it, and the least such; where it is 0
/// there is none. No active number is above the greatest that was opened, so all of them are
/// counted.
pub fn next_active_stream()
    ensures active { (log : Log) (id : ℕ) → next_active log id ≢ 0
        → active log (next_active log id) ≡ true }
    ensures above { (log : Log) (id : ℕ) → next_active log id ≢ 0 → id < next_active log id }
    ensures found { (log : Log) (id i : ℕ) → active log i ≡ true → id < i → next_active log id ≢ 0 }
    ensures least { (log : Log) (id i : ℕ) → active log i ≡ true → id < i → next_active log id ≤ i }
    ensures counted { (log : Log) (i : ℕ) → active log i ≡ true
        → i ≤ greatest_block (openings log.role log.received log.sent) }
{}
