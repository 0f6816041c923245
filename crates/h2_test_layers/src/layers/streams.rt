//! The table of streams, as an end uses it: steps, as data.

ghost use Rattle.std.specs.Prelude.{◌≡◌, not};
ghost use Rattle.h2_streams.specs.Streams.{is_far};

use h2_flow::StreamState;
use h2_streams::{Entry, Stream, StreamTable};
use std::alloc::Global;

/// The initial window of both directions.
pub(crate) const INITIAL: u32 = 65_535;

/// What is done with a table, or what must hold of it.
#[derive(Clone, Copy)]
enum Step {
    /// A stream is opened, with a number of which nothing is kept.
    Open(u32, Stream),
    /// A stream that is active is changed.
    Set(u32, Stream),
    /// A stream that is active is closed.
    Close(u32),
    /// That a number was reset is kept.
    Reset(u32),
    /// Another initial window of the peer's, and another own one.
    SendInitial(u32),
    RecvInitial(u32),
    /// A stream with this number is active, and is this one.
    IsActive(u32, Stream),
    /// It is kept of this number that it was reset.
    IsReset(u32),
    /// Nothing is kept of this number.
    IsNothing(u32),
    /// The least active number above another.
    Next(u32, Option<u32>),
    /// The greatest send window.
    Greatest(Option<i64>),
}

/// A stream of which neither side has ended.
macro_rules! stream {
    ($send_window:expr, $recv_window:expr, $owed:expr) => {
        Stream {
            send_window: $send_window,
            recv_window: $recv_window,
            owed: $owed,
            state: StreamState {
                ended_in: false,
                ended_out: false,
            },
        }
    };
}

/// A stream as it is opened.
const OPENED: Stream = stream!(65_535, 65_535, 0);

// Whether a window is no further than 2<sup>32</sup> from zero.
fn is_near(window: i64) -> bool
    ensures { result ≡ not (is_far window) }
{
    window <= 1 << 32 && window >= -(1 << 32)
}

/// Opens a stream; returns whether nothing was kept of its number.
pub(crate) fn opens(table: &mut StreamTable, id: u32, stream: Stream) -> bool {
    if table.get(id).is_some() || !is_near(stream.send_window) || !is_near(stream.recv_window) {
        return false;
    }
    table.open(id, stream).is_ok()
}

// Changes a stream; returns whether it is active.
fn sets(table: &mut StreamTable, id: u32, stream: Stream) -> bool {
    if table.stream(id).is_none() || !is_near(stream.send_window) || !is_near(stream.recv_window) {
        return false;
    }
    table.set(id, stream);
    true
}

/// Closes a stream; returns whether it is active.
pub(crate) fn closes(table: &mut StreamTable, id: u32) -> bool {
    if table.stream(id).is_none() {
        return false;
    }
    table.close(id);
    true
}

// Puts another initial window of the peer's in force.
fn set_send_initial(table: &mut StreamTable, initial: u32) -> bool {
    table.set_send_initial(initial);
    true
}

// Puts another own one in force.
fn set_recv_initial(table: &mut StreamTable, initial: u32) -> bool {
    table.set_recv_initial(initial);
    table.recv_initial() == initial
}

// Whether a stream with this number is active, and is this one.
fn is_active(table: &StreamTable, id: u32, stream: Stream) -> bool {
    table.stream(id) == Some(stream) && table.get(id) == Some(Entry::Active(stream))
}

// Whether a number is kept as reset, or not at all.
fn is_inactive(table: &StreamTable, id: u32, entry: Option<Entry>) -> bool {
    table.stream(id).is_none() && table.get(id) == entry
}

// Whether a step is done, or holds.
fn does(table: &mut StreamTable, step: Step) -> bool {
    match step {
        Step::Open(id, stream) => opens(table, id, stream),
        Step::Set(id, stream) => sets(table, id, stream),
        Step::Close(id) => closes(table, id),
        Step::Reset(id) => table.reset(id).is_ok(),
        Step::SendInitial(initial) => set_send_initial(table, initial),
        Step::RecvInitial(initial) => set_recv_initial(table, initial),
        Step::IsActive(id, stream) => is_active(table, id, stream),
        Step::IsReset(id) => is_inactive(table, id, Some(Entry::Reset)),
        Step::IsNothing(id) => is_inactive(table, id, None),
        Step::Next(above, next) => table.next_active(above) == next,
        Step::Greatest(window) => table.greatest_send_window() == window,
    }
}

// The place of the first step that isn't done to a new table, or doesn't hold.
fn first_undone(alloc: Global, recv_initial: u32, steps: &[Step]) -> Option<usize> {
    let mut table = StreamTable::new(alloc, INITIAL, recv_initial);
    for (place, step) in steps.iter().enumerate() {
        if !does(&mut table, *step) {
            return Some(place);
        }
    }
    None
}

const NEW: &[Step] = &[
    Step::Next(0, None),
    Step::Greatest(None),
    Step::IsNothing(1),
];

#[test]
fn a_new_table_is_empty(rt: HostRuntime) {
    assert_eq!(rt; first_undone(rt.alloc(), INITIAL, NEW), None);
}

/// A stream is kept as it was opened, and then as it was changed; another stream is unchanged.
const CHANGED: &[Step] = &[
    Step::Open(1, stream!(65_535, 1000, 0)),
    Step::Open(3, stream!(-5, 999, 1)),
    Step::IsActive(1, stream!(65_535, 1000, 0)),
    Step::IsActive(3, stream!(-5, 999, 1)),
    Step::IsNothing(2),
    Step::Set(1, HALF_CLOSED),
    Step::IsActive(1, HALF_CLOSED),
    Step::IsActive(3, stream!(-5, 999, 1)),
];

/// A stream whose peer has ended its side.
const HALF_CLOSED: Stream = Stream {
    send_window: 70_000,
    recv_window: -1,
    owed: 1001,
    state: StreamState {
        ended_in: true,
        ended_out: false,
    },
};

// rule: 5.1 (own) What is kept of a stream is found by its number
// rule: 5.1 (own) A change of a stream changes that stream alone
#[test]
fn streams_are_opened_and_changed(rt: HostRuntime) {
    assert_eq!(rt; first_undone(rt.alloc(), 1000, CHANGED), None);
}

/// Nothing is kept of a stream that was closed; its neighbours are as they were.
const CLOSED: &[Step] = &[
    Step::Open(1, stream!(1, 0, 1)),
    Step::Open(3, stream!(3, 0, 3)),
    Step::Open(5, stream!(5, 0, 5)),
    Step::Close(3),
    Step::IsNothing(3),
    Step::IsActive(1, stream!(1, 0, 1)),
    Step::IsActive(5, stream!(5, 0, 5)),
    Step::Open(3, OPENED),
    Step::IsActive(3, OPENED),
];

// rule: 5.1 (own) What is kept of a stream is found by its number
// rule: 5.1 (own) A change of a stream changes that stream alone
#[test]
fn closed_streams_are_forgotten(rt: HostRuntime) {
    assert_eq!(rt; first_undone(rt.alloc(), INITIAL, CLOSED), None);
}

/// That a number was reset is kept, whether a stream was active with it or not; its neighbours are
/// as they were.
const RESETS: &[Step] = &[
    Step::Open(1, OPENED),
    Step::Open(3, OPENED),
    Step::Open(5, OPENED),
    Step::Reset(3),
    Step::IsReset(3),
    Step::Reset(7),
    Step::IsReset(7),
    Step::Reset(3),
    Step::IsReset(3),
    Step::IsActive(1, OPENED),
    Step::IsActive(5, OPENED),
    Step::Next(1, Some(5)),
    Step::Next(5, None),
];

// rule: 5.1 (own) What is kept of a stream is found by its number
// rule: 5.1 (own) A change of a stream changes that stream alone
#[test]
fn resets_are_kept(rt: HostRuntime) {
    assert_eq!(rt; first_undone(rt.alloc(), INITIAL, RESETS), None);
}

/// Another initial window of the peer's shifts the send windows alone, perhaps below zero (RFC
/// 9113, section 6.9.2), and differences stay as they were.
const SEND_SHIFTS: &[Step] = &[
    Step::Open(1, stream!(535, 7, 0)),
    Step::Open(3, OPENED),
    Step::Reset(5),
    Step::SendInitial(1000),
    Step::IsActive(1, stream!(-64_000, 7, 0)),
    Step::IsActive(3, stream!(1000, 65_535, 0)),
    Step::IsReset(5),
    Step::Open(7, stream!(1000, 65_535, 0)),
    Step::SendInitial(0x7fff_ffff),
    Step::IsActive(1, stream!(2_147_418_647, 7, 0)),
    Step::IsActive(3, stream!(2_147_483_647, 65_535, 0)),
    Step::IsActive(7, stream!(2_147_483_647, 65_535, 0)),
    Step::SendInitial(INITIAL),
    Step::IsActive(1, stream!(535, 7, 0)),
    Step::IsActive(3, OPENED),
];

#[test]
fn send_windows_are_shifted(rt: HostRuntime) {
    assert_eq!(rt; first_undone(rt.alloc(), INITIAL, SEND_SHIFTS), None);
}

/// Another own initial window shifts the receive windows alone.
const RECV_SHIFTS: &[Step] = &[
    Step::Open(1, stream!(7, 535, 65_000)),
    Step::RecvInitial(0),
    Step::IsActive(1, stream!(7, -65_000, 65_000)),
    Step::Open(3, stream!(65_535, 0, 0)),
    Step::RecvInitial(100_000),
    Step::IsActive(1, stream!(7, 35_000, 65_000)),
    Step::IsActive(3, stream!(65_535, 100_000, 0)),
];

#[test]
fn recv_windows_are_shifted(rt: HostRuntime) {
    assert_eq!(rt; first_undone(rt.alloc(), INITIAL, RECV_SHIFTS), None);
}

/// The greatest send window is that of an active stream, and is shifted with all.
const GREATEST: &[Step] = &[
    Step::Open(1, stream!(-3, 100_000, 0)),
    Step::Open(3, stream!(90_000, 100_000, 0)),
    Step::Open(5, stream!(80_000, 100_000, 0)),
    Step::Greatest(Some(90_000)),
    Step::SendInitial(0),
    Step::Greatest(Some(24_465)),
    Step::Close(3),
    Step::Greatest(Some(14_465)),
    Step::Reset(5),
    Step::Greatest(Some(-65_538)),
    Step::Close(1),
    Step::Greatest(None),
];

#[test]
fn greatest_of_the_send_windows(rt: HostRuntime) {
    assert_eq!(rt; first_undone(rt.alloc(), INITIAL, GREATEST), None);
}

/// The least active number above another, over gaps and resets.
const ORDER: &[Step] = &[
    Step::Open(11, OPENED),
    Step::Open(3, OPENED),
    Step::Open(9, OPENED),
    Step::Open(u32::MAX, OPENED),
    Step::Reset(5),
    Step::Reset(9),
    Step::Next(0, Some(3)),
    Step::Next(2, Some(3)),
    Step::Next(3, Some(11)),
    Step::Next(8, Some(11)),
    Step::Next(11, Some(u32::MAX)),
    Step::Next(u32::MAX - 1, Some(u32::MAX)),
    Step::Next(u32::MAX, None),
    Step::Open(7, OPENED),
    Step::Next(3, Some(7)),
    Step::Next(7, Some(11)),
];

// rule: 5.1 (own) The next active stream is the least above a number
#[test]
fn active_numbers_in_their_order(rt: HostRuntime) {
    assert_eq!(rt; first_undone(rt.alloc(), INITIAL, ORDER), None);
}
