//! A link in memory.

ghost use Rattle.std.specs.Prelude.{◌≡◌, ◌≤◌, ◌<◌, ◌-◌, ◌^◌, [], take, length, Some, false};

use crate::link::{Link, LinkFault};
use std::alloc::Global;

/// A link in memory, for tests. It gives the octets of an input and keeps what it takes, at
/// most a set number of octets a call. One of its calls may be made to fail.
#[derive(Debug, Drop)]
pub struct MemoryLink {
    input: Vec<u8>,
    used: usize,
    output: Vec<u8>,
    most_read: usize,
    most_written: usize,
    fails_in: Option<u64>,
    ended: bool,
    stalled: bool,
    failures: u64,
}

impl MemoryLink {
    ghost use Rattle.h2_link.specs.Memory.{octets_given, octets_taken};

    // rule: links (own) A link gives and takes octets in order
    // rule: links (own) The end of the input is a read that gives nothing
    /// Returns a link that gives these octets and then the end, with no limit on the octets of a
    /// call.
    pub fn new(alloc: Global, input: Vec<u8>) -> MemoryLink
        ensures given { octets_given result ≡ [] }
        ensures taken { octets_taken result ≡ [] }
        ensures input { result.input ≡ input }
        ensures ended { result.ended ≡ false }
        ensures stalled { result.stalled ≡ false }
        ensures failures { result.failures ≡ 0 }
    {
        MemoryLink {
            input,
            used: 0,
            output: Vec::new(alloc),
            most_read: usize::MAX,
            most_written: usize::MAX,
            fails_in: None,
            ended: false,
            stalled: false,
            failures: 0,
        }
    }

    // rule: links (own) A link gives and takes octets in order
    /// Limits each read to `read` octets and each write to `written` octets. With 0 a read reports
    /// the end of the input, and a write takes nothing.
    pub fn with_most(mut self, read: usize, written: usize) -> MemoryLink
        ensures { result ≡ record self { most_read = read; most_written = written } }
    {
        self.most_read = read;
        self.most_written = written;
        self
    }

    // rule: links (own) A link counts the calls that fail
    /// Makes one call fail: the one after `calls` others, so with 0 the next one.
    pub fn failing_after(mut self, calls: u64) -> MemoryLink
        ensures { result ≡ record self { fails_in = Some calls } }
    {
        self.fails_in = Some(calls);
        self
    }

    // rule: links (own) A link gives and takes octets in order
    /// Returns the octets that it has taken.
    pub fn output(&self) -> &[u8]
        ensures { result.now ≡ octets_taken self.now }
    {
        &self.output
    }

    // rule: links (own) A link counts the calls that fail
    /// Returns whether this call fails.
    fn fails(&mut self) -> bool
        ensures given { octets_given self.new ≡ octets_given self.old }
        ensures input { self.new.input ≡ self.old.input }
        ensures used { self.new.used ≡ self.old.used }
        ensures taken { octets_taken self.new ≡ octets_taken self.old }
        ensures ended { self.new.ended ≡ self.old.ended }
        ensures stalled { self.new.stalled ≡ self.old.stalled }
        ensures failures { self.new.failures ≡ self.old.failures }
    {
        let Some(calls) = self.fails_in else {
            return false;
        };
        if calls == 0 {
            self.fails_in = None;
            return true;
        }
        self.fails_in = Some(calls - 1);
        false
    }
}

impl Link for MemoryLink {
    ghost given = { λ link. Some (take link.used link.input.items) };

    ghost taken = { λ link. Some link.output.items };

    ghost ended = { λ link. link.ended };

    ghost stalled = { λ link. link.stalled };

    ghost faults = { λ link. link.failures };

    fn read(&mut self, buffer: &mut [u8]) -> Result<usize, LinkFault> {
        if self.fails() {
            self.failures += 1;
            return Err(LinkFault);
        }
        if self.used >= self.input.len() {
            self.ended = !buffer.is_empty() || self.ended;
            return Ok(0);
        }
        let left = self.input.len() - self.used;
        let count = left.min(self.most_read).min(buffer.len());
        buffer[..count].copy_from_slice(&self.input[self.used..self.used + count]);
        self.used += count;
        self.ended = (!buffer.is_empty() && count == 0) || self.ended;
        Ok(count)
    }

    fn write(&mut self, octets: &[u8]) -> Result<usize, LinkFault> {
        let count = octets.len().min(self.most_written);
        if self.fails() || self.output.extend_from_slice(&octets[..count]).is_err() {
            self.failures += 1;
            return Err(LinkFault);
        }
        self.stalled = (!octets.is_empty() && count == 0) || self.stalled;
        Ok(count)
    }

    fn failures(&self) -> u64 {
        self.failures
    }
}
