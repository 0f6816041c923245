//! What a run has shown, and the marks between which allocations are refused.

use h2_ends::EndRefusal;
use std::alloc::{AllocError, Global};

/// Allocations of these numbers of octets are marks. `faults/scarce.c` refuses none of them: those
/// after `BEGIN` count, or are all refused after `ALL`, until `END`; `AGAIN` says that a call was
/// refused memory and is made again, `FAILED` that a connection or a decoder has failed for it.
const BEGIN: usize = 7_919;

const ALL: usize = 7_927;

const END: usize = 7_933;

const AGAIN: usize = 7_937;

const FAILED: usize = 7_949;

/// The number of octets of answers and of output that a record has room for.
const ROOM: usize = 400_000;

/// The numbers of refusals and of counts that it has room for.
const REFUSALS: usize = 100;

const COUNTS: usize = 100;

/// Makes an allocation that is a mark.
fn mark(alloc: Global, size: usize) {
    let _mark: Result<Vec<u8>, AllocError> = Vec::with_capacity(alloc, size);
}

/// Appends octets where there is room, and says whether there was.
fn append(octets: &[u8], out: &mut Vec<u8>) -> bool {
    let room = out.capacity().saturating_sub(out.len());
    octets.len() <= room && out.extend_from_slice(octets).is_ok()
}

/// How much a call has moved that may do a part where memory is refused.
#[derive(Clone, Copy)]
struct Moved {
    count: u64,
    /// Whether the call was refused memory, and this is what it has moved when it was made again.
    is_rest: bool,
}

impl Moved {
    /// Whether a call has moved what it has with ample memory; of a rest, no more than that.
    fn agrees_with(&self, ample: &Moved) -> bool {
        self.count == ample.count || (self.is_rest && self.count < ample.count)
    }
}

/// Whether calls have moved what the first of those with ample memory have.
fn are_first(moved: &[Moved], ample: &[Moved]) -> bool {
    let mut holds = moved.len() <= ample.len();
    for (one, other) in moved.iter().zip(ample.iter()) {
        holds = one.agrees_with(other) && holds;
    }
    holds
}

/// What a run has shown.
#[derive(Drop)]
pub(crate) struct Record {
    pub(crate) alloc: Global,
    /// Answers, what was handed out, and what could be read after each call.
    answers: Vec<u8>,
    /// The octets that were put out.
    output: Vec<u8>,
    /// Refusals, but for those that memory was refused.
    refusals: Vec<EndRefusal>,
    /// How much each call has moved that may do a part.
    moved: Vec<Moved>,
    /// Whether all that was checked has held.
    holds: bool,
    /// Whether a connection, or a decoder, has failed since memory was refused.
    pub(crate) failed: bool,
}

impl Record {
    /// An empty record with room for a run.
    pub(crate) fn new(alloc: Global) -> Result<Record, AllocError> {
        Ok(Record {
            alloc,
            answers: Vec::with_capacity(alloc, ROOM)?,
            output: Vec::with_capacity(alloc, ROOM)?,
            refusals: Vec::with_capacity(alloc, REFUSALS)?,
            moved: Vec::with_capacity(alloc, COUNTS)?,
            holds: true,
            failed: false,
        })
    }

    /// Notes octets.
    pub(crate) fn note_octets(&mut self, octets: &[u8]) {
        self.holds = append(octets, &mut self.answers) && self.holds;
    }

    /// Notes a number.
    pub(crate) fn note(&mut self, number: u64) {
        self.note_octets(&number.to_be_bytes());
    }

    /// Notes octets that were put out.
    pub(crate) fn put_out(&mut self, octets: &[u8]) {
        self.holds = append(octets, &mut self.output) && self.holds;
    }

    /// Notes a refusal.
    pub(crate) fn refuse(&mut self, refusal: EndRefusal) {
        self.holds = self.refusals.len() < REFUSALS && self.holds;
        self.holds = self.refusals.push(refusal).is_ok() && self.holds;
    }

    /// Notes how much a call has moved that may do a part; or only the rest, where it was refused
    /// memory and made again.
    pub(crate) fn note_moved(&mut self, count: u64, is_rest: bool) {
        self.holds = self.moved.len() < COUNTS && self.holds;
        self.holds = self.moved.push(Moved { count, is_rest }).is_ok() && self.holds;
    }

    /// The number of refusals that were noted.
    pub(crate) fn refused(&self) -> usize {
        self.refusals.len()
    }

    /// Notes whether something holds that must.
    pub(crate) fn check(&mut self, holds: bool) {
        self.holds = holds && self.holds;
    }

    /// A call was refused memory, and is made again.
    pub(crate) fn again(&mut self) {
        mark(self.alloc, AGAIN);
    }

    /// A connection, or a decoder, has failed since memory was refused. The first time alone.
    pub(crate) fn fail(&mut self) {
        mark(self.alloc, FAILED);
        self.holds = !self.failed && self.holds;
        self.failed = true;
    }

    /// Whether a run has shown what the one with ample memory has, or the first of it where it has
    /// failed.
    fn agrees_with(&self, ample: &Record) -> bool {
        let begins = ample.answers.starts_with(&self.answers)
            && ample.output.starts_with(&self.output)
            && ample.refusals.starts_with(&self.refusals)
            && are_first(&self.moved, &ample.moved);
        let is_whole = self.answers.len() == ample.answers.len()
            && self.output.len() == ample.output.len()
            && self.refusals.len() == ample.refusals.len()
            && self.moved.len() == ample.moved.len();
        begins && (is_whole || self.failed) && self.holds && ample.holds && !ample.failed
    }
}

/// What is run, with ample memory and without.
pub(crate) trait Scenario {
    /// Runs it, and notes what it shows.
    fn run(&mut self, record: &mut Record);
}

/// Whether a run between the marks has shown what one with ample memory has.
pub(crate) fn holds<S: Scenario>(alloc: Global, first: &mut S, second: &mut S) -> bool {
    runs_after(alloc, BEGIN, first, second)
}

/// The same, where all allocations are refused: so none is made.
pub(crate) fn takes_no_memory<S: Scenario>(alloc: Global, first: &mut S, second: &mut S) -> bool {
    runs_after(alloc, ALL, first, second)
}

/// Whether a run after a mark has shown what one with ample memory has.
fn runs_after<S: Scenario>(alloc: Global, begin: usize, first: &mut S, second: &mut S) -> bool {
    let (Ok(mut ample), Ok(mut scarce)) = (Record::new(alloc), Record::new(alloc)) else {
        return false;
    };
    first.run(&mut ample);
    mark(alloc, begin);
    second.run(&mut scarce);
    mark(alloc, END);
    scarce.agrees_with(&ample)
}
