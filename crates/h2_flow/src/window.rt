//! A flow-control window.

ghost use Rattle.std.specs.Prelude.{◌≡◌, ◌≤◌, ◌<◌, pos, ◌+ℤ◌, ◌-ℤ◌, int_lt, true, false, OnOk};
ghost use Rattle.std.specs.Prelude.{OnErr};
ghost use Rattle.h2_spec_log.specs.Windows.{greatest_window};
ghost use Rattle.h2_spec_log.specs.ItemRules.{exceeds, overflows_by};
ghost use Rattle.h2_flow.specs.Window.{is_out_of_range};

use crate::fault::{Exceeded, Overflow};
use h2_frame::limits::GREATEST_WINDOW;

/// A flow-control window: the number of octets that may be sent (RFC 9113, section 6.9), from
/// -2<sup>31</sup> to 2<sup>31</sup> - 1. SETTINGS can make a stream's negative (section
/// 6.9.2).
#[derive(Clone, Copy, Debug, PartialEq, Eq, Hash)]
pub struct Window {
    value: i64,
    ghost in_range: { is_out_of_range value ≡ false },
}

impl Window {
    // rule: 6.9.2 (own) h2_flow: a window may be negative, and is shifted
    /// Makes a window of `octets`, at most 2<sup>31</sup> - 1.
    pub fn new(octets: u32) -> Window
        requires { octets ≤ greatest_window }
        ensures { result.value ≡ pos octets }
    {
        Window {
            value: i64::from(octets),
        }
    }

    // rule: 6.9.2 (own) h2_flow: a window may be negative, and is shifted
    /// Returns the number of octets that may be sent; none may if it is negative.
    pub fn value(&self) -> i64
        ensures { result ≡ self.now.value }
    {
        self.value
    }

    // rule: 6.9.1 (own) h2_flow: a window gives as many octets as it has
    /// Takes the octets of sent DATA out of the window.
    ///
    /// # Errors
    ///
    /// L2 [`Exceeded`] where `octets` is above what the window has; 0 may always be taken (RFC
    /// 9113, section 6.9.1). The window is unchanged.
    pub fn take(&mut self, octets: u32) -> Result<(), Exceeded>
        ensures ok { OnOk result ((exceeds octets self.old.value ≡ false)
            × (self.new.value ≡ self.old.value -ℤ pos octets)) }
        ensures err { OnErr result ((exceeds octets self.old.value ≡ true)
            × (self.new ≡ self.old)) }
    {
        if octets > 0 && self.value < i64::from(octets) {
            return Err(Exceeded);
        }
        self.value -= i64::from(octets);
        Ok(())
    }

    // rule: 6.9.1 (own) h2_flow: a window is filled up to 2^31-1
    /// Widens the window, by WINDOW_UPDATE.
    ///
    /// # Errors
    ///
    /// L1 [`Overflow`] where it would be above 2<sup>31</sup> - 1 (section 6.9.1); it is
    /// unchanged.
    pub fn give(&mut self, octets: u32) -> Result<(), Overflow>
        ensures ok { OnOk result ((overflows_by octets self.old.value ≡ false)
            × (self.new.value ≡ self.old.value +ℤ pos octets)) }
        ensures err { OnErr result ((overflows_by octets self.old.value ≡ true)
            × (self.new ≡ self.old)) }
    {
        let value = self.value + i64::from(octets);
        if value > i64::from(GREATEST_WINDOW) {
            return Err(Overflow);
        }
        self.value = value;
        Ok(())
    }

    // rule: 6.9.2 (own) h2_flow: a window may be negative, and is shifted
    // rule: 6.9.2 (own) h2_flow: a shift above 2^31-1 is refused
    // rule: 6.9.2 (own) h2_flow: a shift below -2^31 is refused
    /// Shifts the window by the difference of two initial windows (section 6.9.2).
    ///
    /// # Errors
    ///
    /// L1 [`Overflow`] where it would be above 2<sup>31</sup> - 1 or below -2<sup>31</sup>; it
    /// is unchanged.
    pub fn shift(&mut self, difference: i64) -> Result<(), Overflow>
        ensures ok { OnOk result ((is_out_of_range (self.old.value +ℤ difference) ≡ false)
            × (self.new.value ≡ self.old.value +ℤ difference)) }
        ensures err { OnErr result ((is_out_of_range (self.old.value +ℤ difference) ≡ true)
            × (self.new ≡ self.old)) }
    {
        match self.value.checked_add(difference) {
            Some(value) if value >= -0x8000_0000 && value <= i64::from(GREATEST_WINDOW) => {
                self.value = value;
                Ok(())
            }
            _ => Err(Overflow),
        }
    }
}
