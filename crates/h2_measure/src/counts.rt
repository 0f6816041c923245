//! The counts of a measurement: units and octets.

/// `struct counts` of `measure.h`.
#[repr(C)]
#[derive(Drop)]
pub struct Counts {
    /// Fields, or frames.
    pub units: u64,
    /// Octets of names and values, or of blocks.
    pub octets: u64,
}

impl Counts {
    /// One more field or frame.
    #[inline(always)]
    pub(crate) fn add_one(&mut self) {
        self.units = self.units.wrapping_add(1);
    }

    /// Adds to the number of octets.
    #[inline(always)]
    pub(crate) fn add_octets(&mut self, octets: usize) {
        self.octets = self.octets.wrapping_add(octets as u64);
    }
}
