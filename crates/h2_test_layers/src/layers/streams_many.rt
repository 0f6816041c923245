//! A thousand streams: each is found, shifted, reset or closed, and no other with it.

use super::streams::{INITIAL, closes, opens};
use h2_flow::StreamState;
use h2_streams::{Entry, Stream, StreamTable};
use std::alloc::Global;

// A stream by its place, and by how far its send window was shifted.
fn stream_at(place: u32, shift: u32) -> Stream {
    Stream {
        send_window: i64::from(place).saturating_add(i64::from(shift)),
        recv_window: 0,
        owed: place,
        state: StreamState::open(),
    }
}

// The number of a stream.
fn id_at(place: u32) -> u32 {
    place.wrapping_mul(2).wrapping_add(1)
}

// The stream at a place as it is kept, once some are reset and some closed.
fn kept_at(place: u32) -> Option<Entry> {
    match place % 3 {
        0 => Some(Entry::Reset),
        1 => None,
        _ => Some(Entry::Active(stream_at(place, 1))),
    }
}

// Whether the stream at a place is found, and is the next one after those before it, and is then
// reset, closed, or left as it is.
fn changes(table: &mut StreamTable, place: u32) -> bool {
    let id = id_at(place);
    let is_found = table.stream(id) == Some(stream_at(place, 1))
        && table.next_active(id.wrapping_sub(1)) == Some(id);
    match place % 3 {
        0 => is_found && table.reset(id).is_ok(),
        1 => is_found && closes(table, id),
        _ => is_found,
    }
}

// Opens the streams.
fn opens_all(table: &mut StreamTable) -> bool {
    for place in 0..1000_u32 {
        if !opens(table, id_at(place), stream_at(place, 0)) {
            return false;
        }
    }
    true
}

// Changes them.
fn changes_all(table: &mut StreamTable) -> bool {
    for place in 0..1000_u32 {
        if !changes(table, place) {
            return false;
        }
    }
    true
}

// Whether each is kept as it was left.
fn keeps_all(table: &StreamTable) -> bool {
    for place in 0..1000_u32 {
        if table.get(id_at(place)) != kept_at(place) {
            return false;
        }
    }
    table.greatest_send_window() == Some(999) && table.next_active(0) == Some(5)
}

// Whether all of these hold.
fn all_hold(alloc: Global) -> bool {
    let mut table = StreamTable::new(alloc, INITIAL, INITIAL);
    if !opens_all(&mut table) {
        return false;
    }
    table.set_send_initial(INITIAL + 1);
    changes_all(&mut table) && keeps_all(&table)
}

// rule: 5.1 (own) The next active stream is the least above a number
#[test]
fn a_thousand_streams(rt: HostRuntime) {
    assert!(rt; all_hold(rt.alloc()));
}
