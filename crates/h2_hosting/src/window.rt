//! The windows of the connections of a host.

ghost use Rattle.std.specs.Prelude.{◌≡◌, ◌⊎◌, ◌-◌, ◌^◌, if◌then◌else◌, min, nat_le};
ghost use Rattle.h2_hosting.specs.Guests.{lacking_of};

use h2_frame::limits::FIRST_WINDOW;
use std::cell::Cell;

/// The window to which a host widens a connection once octets of a body have come, and the octets
/// that are left for widening.
#[derive(Drop)]
pub struct Windows {
    window: u32,
    left: Cell<u64>,
}

impl Windows {
    /// Creates the windows of a host: that of each connection may be widened to `window` octets,
    /// and those of all connections together by at most `most` octets. If fewer octets are left
    /// than a connection lacks, it is not widened for now.
    pub fn new(window: u32, most: u64) -> Windows
        ensures { result.window ≡ window }
    {
        Windows {
            window,
            left: Cell::new(most),
        }
    }

    /// Takes the octets by which one connection is widened: all that it lacks, or none if fewer
    /// are left.
    pub(crate) fn take(&self) -> Widened<'_>
        ensures { (result.count ≡ 0) ⊎ (result.count ≡ lacking_of self.now.window) }
    {
        let left = self.left.get();
        let count = share_of(self.window, left);
        self.left.set(left - u64::from(count));
        Widened {
            windows: self,
            count,
        }
    }
}

/// What a connection lacks of this window, if as many octets are left; otherwise 0.
fn share_of(window: u32, left: u64) -> u32
    ensures { result ≡ (if nat_le (lacking_of window) left then lacking_of window else 0) }
{
    let lacking = window.saturating_sub(FIRST_WINDOW);
    if u64::from(lacking) <= left {
        lacking
    } else {
        0
    }
}

/// The octets by which a connection is widened. Once this is dropped, they are left for others.
pub(crate) struct Widened<'a> {
    windows: &'a Windows,
    count: u32,
}

impl Widened<'_> {
    /// The number of octets.
    pub(crate) fn count(&self) -> u32
        ensures { result ≡ min (2 ^ 32 - 1) self.now.count }
    {
        self.count
    }
}

impl Drop for Widened<'_> {
    fn drop(self) {
        let Widened { windows, count } = self;
        windows
            .left
            .set(windows.left.get().saturating_add(u64::from(count)));
    }
}
