//! What the SETTINGS of one side allow the other.

ghost use Rattle.std.specs.Prelude.{◌≡◌, map};
ghost use Rattle.h2_follow.specs.Peaks.{peaks_of};

use crate::peaks::{greatest, pop_peak, push_peak};
use h2_frame::Pairs;
use h2_frame::limits::{FIRST_TABLE, LEAST_MAX_FRAME, MOST_MAX_FRAME};
use std::alloc::{AllocError, Global};
use std::collections::VecDeque;

/// The maximum size of a table that is kept.
const MOST_TABLE: u32 = 65_536;

/// The settings of a side that limit what the other sends.
#[derive(Clone, Copy, Debug, PartialEq, Eq)]
pub(crate) struct Values {
    /// SETTINGS_MAX_FRAME_SIZE: the maximum payload length.
    pub(crate) max_frame: u32,
    /// SETTINGS_HEADER_TABLE_SIZE: the maximum table size of the other's encoder.
    pub(crate) table: u32,
}

/// What the SETTINGS of the other side allow a side (RFC 9113, section 6.5.3).
#[derive(Debug, Drop)]
pub(crate) struct InForce {
    /// The values that the side acknowledged last, or the initial ones.
    pub(crate) acknowledged: Values,
    /// The values of the SETTINGS that it has not acknowledged, in order.
    pub(crate) waiting: VecDeque<Values>,
    /// The values of the last SETTINGS.
    pub(crate) newest: Values,
    // The peaks of the unacknowledged values, so that the greatest is known at once.
    frames: VecDeque<u32>,
    tables: VecDeque<u32>,
    ghost frame_peaks: { frames.items ≡ peaks_of (map (λ values. values.max_frame) waiting.items) },
    ghost table_peaks: { tables.items ≡ peaks_of (map (λ values. values.table) waiting.items) },
}

impl Values {
    ghost use Rattle.h2_follow.specs.InForce.{with_pair};

    // rule: follow (own) What a side may send follows the other's SETTINGS, and its own ACK
    // The values after a pair of SETTINGS.
    fn set(&mut self, id: u16, value: u32)
        ensures { self.new ≡ with_pair self.old (id, value) }
    {
        match id {
            1 => self.table = value,
            5 => self.max_frame = value,
            _ => {}
        }
    }
}

impl InForce {
    ghost use Rattle.std.specs.Prelude.{OnOk};
    ghost use Rattle.h2_frame.specs.Pairs.{lent_pairs};
    ghost use Rattle.h2_follow.specs.InForce.{acknowledged, announced};
    ghost use Rattle.h2_follow.specs.InForce.{bound_of, first_bound, frame_bound, table_bound};
    ghost use Rattle.h2_follow.specs.Unchecked.{allows_unread};

    /// Creates one before any SETTINGS.
    pub(crate) fn new(alloc: Global) -> InForce
        ensures { bound_of result ≡ first_bound }
    {
        let first = Values {
            max_frame: LEAST_MAX_FRAME,
            table: FIRST_TABLE,
        };
        InForce {
            acknowledged: first,
            waiting: VecDeque::new(alloc),
            newest: first,
            frames: VecDeque::new(alloc),
            tables: VecDeque::new(alloc),
        }
    }

    // contract: follow (own) What a side may send follows the other's SETTINGS, and its own ACK
    // rule: follow (own) What a side may send follows the other's SETTINGS, and its own ACK
    // Notes SETTINGS of the other side.
    pub(crate) fn announce(&mut self, pairs: Pairs<'_>) -> Result<(), AllocError>
        ensures { OnOk result (bound_of self.new
            ≡ announced (lent_pairs pairs.entry) (bound_of self.old)) }
    {
        let mut values = self.newest;
        for (id, value) in pairs.iter() {
            values.set(id, value);
        }
        self.waiting.reserve(1)?;
        self.frames.reserve(1)?;
        self.tables.reserve(1)?;
        self.waiting.push_back_reserved(values);
        push_peak(&mut self.frames, values.max_frame);
        push_peak(&mut self.tables, values.table);
        self.newest = values;
        Ok(())
    }

    // contract: follow (own) What a side may send follows the other's SETTINGS, and its own ACK
    // rule: follow (own) What a side may send follows the other's SETTINGS, and its own ACK
    // Notes the acknowledgment of the first unacknowledged SETTINGS.
    pub(crate) fn acknowledge(&mut self)
        ensures { bound_of self.new ≡ acknowledged (bound_of self.old) }
    {
        if let Some(values) = self.waiting.pop_front() {
            pop_peak(&mut self.frames, values.max_frame);
            pop_peak(&mut self.tables, values.table);
            self.acknowledged = values;
        }
    }

    // contract: follow (own) What a side may send follows the other's SETTINGS, and its own ACK
    // rule: follow (own) What a side may send follows the other's SETTINGS, and its own ACK
    /// The maximum payload length that the side may send, at least `least`.
    pub(crate) fn max_frame(&self, least: u32) -> u32
        ensures { result ≡ frame_bound least (bound_of self.now) }
    {
        greatest(&self.frames, least.max(self.acknowledged.max_frame))
    }

    // contract: follow (own) What a side may send follows the other's SETTINGS, and its own ACK
    // rule: follow (own) What a side may send follows the other's SETTINGS, and its own ACK
    /// The maximum table size that the side's encoder may use.
    pub(crate) fn table(&self) -> u32
        ensures { result ≡ table_bound (bound_of self.now) }
    {
        greatest(&self.tables, self.acknowledged.table)
    }
    // contract: follow (own) Where SETTINGS allow a side more than is read, a line says so once
    // rule: follow (own) Where SETTINGS allow a side more than is read, a line says so once
    /// Whether the side may use a larger table, or send longer frames, than this program supports.
    pub(crate) fn allows_unread(&self) -> bool
        ensures { result ≡ allows_unread (bound_of self.now) }
    {
        self.max_frame(0) > MOST_MAX_FRAME || self.table() > MOST_TABLE
    }
}
