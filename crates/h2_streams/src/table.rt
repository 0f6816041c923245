//! The table of streams.

ghost use Rattle.std.specs.Prelude.{◌≡◌, ◌^◌, ◌<◌, ℕ, pos, ◌+ℤ◌, ◌-ℤ◌, true, false, None, Some};
ghost use Rattle.std.specs.Prelude.{IsSome};
ghost use Rattle.std.specs.Prelude.{IfSome, OnOk, OnErr};
ghost use Rattle.std.specs.Option.{option_map};
ghost use Rattle.std.specs.FinMap as map;
ghost use Rattle.h2_spec_machine.specs.End.{stream_in, active_entry, reset_entry, any_above};
ghost use Rattle.h2_spec_machine.specs.Machine.{each_entry, shifted_entry, recv_shifted_entry};
ghost use Rattle.h2_spec_machine.specs.Machine.{first_active};
ghost use Rattle.h2_numbers.specs.Tables.{all_of};
ghost use Rattle.h2_streams.specs.Streams.{stream_view, entry_value, is_far, is_above_by_shift};
ghost use Rattle.h2_streams.specs.Streams.{number_or_none};
ghost use Rattle.h2_streams.specs.Table.{view_of_kept, is_far_offset, IsNearKept};
ghost use Rattle.h2_streams.specs.Table.{greater_of, IsGreatestOffset, IsLeastAbove};

use crate::entry::{Entry, Stream};
use h2_flow::StreamState;
use h2_frame::limits::GREATEST_WINDOW;
use h2_numbers::NumberTable;
use std::alloc::{AllocError, Global};
use std::collections::{BTreeSet, HashMap};
use std::marker::Model;

/// What is kept of an active stream. Its windows are kept as differences from the initial
/// windows in force, so SETTINGS, which shift all windows (RFC 9113, section 6.9.2), change
/// none of these.
#[derive(Clone, Copy, Debug)]
pub(crate) struct Kept {
    pub(crate) send_offset: i64,
    pub(crate) recv_offset: i64,
    pub(crate) owed: u32,
    pub(crate) state: StreamState,
}

/// The streams of one end. The stream opened last is found by one comparison, other active ones
/// by the hashes of their numbers, so a look-up costs about the same for 1,000 streams as for
/// one; `next_active` and `greatest_send_window` go over all of them. The numbers that were
/// reset are few, and in a tree.
#[derive(Drop)]
pub struct StreamTable {
    /// The active streams, by number.
    active: NumberTable<Kept>,
    /// The numbers that this end has reset.
    resets: BTreeSet<u32>,
    /// The initial send window of a stream: the peer's value.
    send_initial: u32,
    /// The initial receive window of a stream: this end's value in force.
    recv_initial: u32,
    /// The greatest difference from the initial window that a send window has had, at least 0.
    send_most: i64,
}

impl Model for StreamTable {
    ghost use Rattle.h2_streams.specs.Table.{TableState, active_map, with_resets, IsKeptWell};
    ghost use Rattle.h2_streams.specs.Table.{IsMost};
    ghost use Rattle.h2_streams.specs.Codes.{table_code};
    ghost use Rattle.h2_numbers.specs.Tables.{all_of};

    ghost Value = { TableState };

    ghost coded = { table_code };

    ghost view = { λ table. record {
      entries = with_resets (active_map table.send_initial table.recv_initial
          (all_of table.active)) table.resets.keys;
      send_initial = table.send_initial;
      recv_initial = table.recv_initial;
    } };

    ghost invariant = { λ table. record {
      well : IsKeptWell (all_of table.active) table.resets.keys;
      most : IsMost (all_of table.active) table.send_most;
    } };
}

impl StreamTable {
    /// Makes a table without streams, with the initial windows of both directions.
    pub fn new(alloc: Global, send_initial: u32, recv_initial: u32) -> StreamTable
        ensures { result ≡ record {
          entries = map.empty;
          send_initial = send_initial;
          recv_initial = recv_initial;
        } }
    {
        StreamTable {
            active: NumberTable::new(alloc),
            resets: BTreeSet::new(alloc),
            send_initial,
            recv_initial,
            send_most: 0,
        }
    }

    // rule: 5.1 (own) What is kept of a stream is found by its number
    /// Returns what is kept of a number, if anything is. It takes no memory.
    pub fn get(&self, id: u32) -> Option<Entry>
        ensures { option_map entry_value result ≡ map.get self.now.entries id }
    {
        match self.stream(id) {
            Some(stream) => Some(Entry::Active(stream)),
            None if self.resets.contains(&id) => Some(Entry::Reset),
            None => None,
        }
    }

    // rule: 5.1 (own) What is kept of a stream is found by its number
    /// Returns the stream with this number, if it is active. It takes no memory.
    pub fn stream(&self, id: u32) -> Option<Stream>
        ensures { option_map stream_view result ≡ stream_in (map.get self.now.entries id) }
    {
        let kept = self.active.get(id)?;
        Some(Stream {
            send_window: kept.send_offset + i64::from(self.send_initial),
            recv_window: kept.recv_offset + i64::from(self.recv_initial),
            owed: kept.owed,
            state: kept.state,
        })
    }

    // rule: 5.1 (own) A change of a stream changes that stream alone
    /// Adds an active stream with a number of which nothing is kept. Its windows must be from
    /// -2<sup>32</sup> to 2<sup>32</sup>.
    ///
    /// # Errors
    ///
    /// [`AllocError`] where an allocation was refused; the table is as before.
    #[inline(always)]
    pub fn open(&mut self, id: u32, stream: Stream) -> Result<(), AllocError>
        requires absent { map.get self.old.entries id ≡ None }
        requires send { is_far stream.send_window ≡ false }
        requires recv { is_far stream.recv_window ≡ false }
        ensures ok { OnOk result (self.new ≡ record self.old {
          entries = map.insert self.old.entries id (active_entry (stream_view stream));
        }) }
        ensures err { OnErr result (self.new ≡ self.old) }
    {
        let kept = self.kept(stream);
        self.active.insert(id, kept)?;
        self.send_most = self.send_most.max(kept.send_offset);
        Ok(())
    }

    // rule: 5.1 (own) A change of a stream changes that stream alone
    /// Changes an active stream. Its windows must be from -2<sup>32</sup> to 2<sup>32</sup>. It
    /// takes no memory.
    pub fn set(&mut self, id: u32, stream: Stream)
        requires active { IsSome (stream_in (map.get self.old.entries id)) }
        requires send { is_far stream.send_window ≡ false }
        requires recv { is_far stream.recv_window ≡ false }
        ensures { self.new ≡ record self.old {
          entries = map.insert self.old.entries id (active_entry (stream_view stream));
        } }
    {
        let kept = self.kept(stream);
        self.send_most = self.send_most.max(kept.send_offset);
        if let Some(old) = self.active.get_mut(id) {
            *old = kept;
        }
    }

    // rule: 5.1 (own) A change of a stream changes that stream alone
    /// Forgets an active stream: both sides have ended it, or the peer has reset it or will not
    /// process it. It takes no memory.
    #[inline(always)]
    pub fn close(&mut self, id: u32)
        requires { IsSome (stream_in (map.get self.old.entries id)) }
        ensures { self.new ≡ record self.old { entries = map.remove self.old.entries id } }
    {
        self.active.remove(id);
    }

    // rule: 5.1 (own) A change of a stream changes that stream alone
    /// Records that this end has reset a number, whether or not a stream was active with it.
    ///
    /// # Errors
    ///
    /// [`AllocError`] where an allocation was refused; the table is as before.
    pub fn reset(&mut self, id: u32) -> Result<(), AllocError>
        ensures ok { OnOk result (self.new ≡ record self.old {
          entries = map.insert self.old.entries id reset_entry;
        }) }
        ensures err { OnErr result (self.new ≡ self.old) }
    {
        let is_new = self.resets.insert(id)?;
        if is_new {
            self.active.remove(id);
        }
        Ok(())
    }

    /// Returns the initial receive window of a stream. It takes no memory.
    pub fn recv_initial(&self) -> u32
        ensures { result ≡ self.now.recv_initial }
    {
        self.recv_initial
    }

    // contract: 6.9.2 INITIAL_WINDOW_SIZE shifts the window of each stream
    // rule: 6.9.2 INITIAL_WINDOW_SIZE shifts the window of each stream
    /// Sets the initial send window, which the peer has changed: the send windows of all active
    /// streams are shifted by the difference (RFC 9113, section 6.9.2), in one step whatever
    /// their number. It takes no memory.
    pub fn set_send_initial(&mut self, initial: u32)
        ensures { self.new ≡ record self.old {
          entries = each_entry (shifted_entry self.old.send_initial initial) self.old.entries;
          send_initial = initial;
        } }
    {
        self.send_initial = initial;
    }

    // rule: 6.9.2 INITIAL_WINDOW_SIZE shifts the window of each stream
    /// Sets the initial receive window, which this end has changed: the receive windows of all
    /// active streams are shifted by the difference. It takes no memory.
    pub fn set_recv_initial(&mut self, initial: u32)
        ensures { self.new ≡ record self.old {
          entries = each_entry (recv_shifted_entry self.old.recv_initial initial) self.old.entries;
          recv_initial = initial;
        } }
    {
        self.recv_initial = initial;
    }

    // contract: 6.9.2 A shift of a window above 2^31-1 is FLOW_CONTROL_ERROR
    // rule: 6.9.2 A shift of a window above 2^31-1 is FLOW_CONTROL_ERROR
    /// Returns `true` if the table knows, without going over the streams, that another initial
    /// window of the peer's brings no send window above 2<sup>31</sup> - 1: that window and the
    /// greatest difference that any send window has had are together at most that. `false`
    /// decides nothing. It takes no memory.
    pub fn is_none_above(&self, initial: u32) -> bool
        ensures { result ≡ true → any_above self.now.send_initial initial
            (map.entries self.now.entries) ≡ false }
    {
        self.send_most + i64::from(initial) <= i64::from(GREATEST_WINDOW)
    }

    // contract: 6.9.2 A shift of a window above 2^31-1 is FLOW_CONTROL_ERROR
    // rule: 6.9.2 A shift of a window above 2^31-1 is FLOW_CONTROL_ERROR
    /// Returns the greatest send window of the active streams, if there are any; it alone
    /// decides whether another initial window brings a send window above 2<sup>31</sup> - 1. It
    /// goes over all active streams, and takes no memory.
    pub fn greatest_send_window(&self) -> Option<i64>
        ensures { (initial : ℕ) → any_above self.now.send_initial initial
            (map.entries self.now.entries)
            ≡ is_above_by_shift self.now.send_initial initial result }
    {
        let offset = greatest_send_offset(&self.active)?;
        Some(offset + i64::from(self.send_initial))
    }

    // rule: 5.1 (own) The next active stream is the least above a number
    /// Returns the least active number above another. If neither of the next two numbers is
    /// active, it goes over all active streams. It takes no memory.
    pub fn next_active(&self, above: u32) -> Option<u32>
        ensures number { number_or_none result
            ≡ first_active above (map.entries self.now.entries) }
        ensures above { IfSome result (λ number. above < number) }
    {
        match next_but_one(&self.active, above) {
            Some(number) => Some(number),
            None => least_above(&self.active, above),
        }
    }

    /// A stream as it is kept.
    fn kept(&self, stream: Stream) -> Kept
        requires send { is_far stream.send_window ≡ false }
        requires recv { is_far stream.recv_window ≡ false }
        ensures view { view_of_kept self.now.send_initial self.now.recv_initial result
            ≡ stream_view stream }
        ensures near { IsNearKept result }
    {
        let send_initial = i64::from(self.send_initial);
        let recv_initial = i64::from(self.recv_initial);
        Kept {
            send_offset: stream.send_window - send_initial,
            recv_offset: stream.recv_window - recv_initial,
            owed: stream.owed,
            state: stream.state,
        }
    }
}

/// The greatest difference of the send windows from the initial window, if there are any.
fn greatest_send_offset(active: &NumberTable<Kept>) -> Option<i64>
    ensures { IsGreatestOffset (all_of active.now) result }
{
    let greatest = greatest_of(active.older());
    match active.newest() {
        Some(kept) => Some(greater_of(greatest, kept.send_offset)),
        None => greatest,
    }
}

/// The greatest difference of the send windows of some streams from the initial window.
fn greatest_of(streams: &HashMap<u32, Kept>) -> Option<i64>
    ensures { IsGreatestOffset streams.now.entries result }
{
    let mut greatest = None;
    for kept in streams.values() {
        greatest = Some(greater_of(greatest, kept.send_offset));
    }
    greatest
}

/// The greater of two differences, or the only one.
fn greater_of(greatest: Option<i64>, offset: i64) -> i64
    ensures { result ≡ greater_of greatest offset }
{
    match greatest {
        Some(other) => other.max(offset),
        None => offset,
    }
}

/// The first of the next two numbers that is active. A client uses odd numbers (RFC 9113,
/// section 5.1.1), so one of the two mostly is, until streams end.
fn next_but_one(active: &NumberTable<Kept>, above: u32) -> Option<u32>
    ensures { IfSome result (λ number. IsLeastAbove above (all_of active.now) (Some number)) }
{
    let first = above.checked_add(1)?;
    if active.get(first).is_some() {
        return Some(first);
    }
    let second = first.checked_add(1)?;
    if active.get(second).is_some() {
        return Some(second);
    }
    None
}

/// The least active number above another, if there is one.
fn least_above(active: &NumberTable<Kept>, above: u32) -> Option<u32>
    ensures { IsLeastAbove above (all_of active.now) result }
{
    let least = least_of(active.older(), above);
    let newest = active.newest_number();
    if active.newest().is_none() || newest <= above {
        return least;
    }
    match least {
        Some(number) => Some(number.min(newest)),
        None => Some(newest),
    }
}

/// The least number above another of some streams, if there is one. Only the numbers above it
/// wrap to less than `rest`, in their order, so each step of the loop is one addition and one
/// minimum.
fn least_of(streams: &HashMap<u32, Kept>, above: u32) -> Option<u32>
    ensures { IsLeastAbove above streams.now.entries result }
{
    let rest = u32::MAX - above;
    let mut least = rest;
    for number in streams.keys() {
        least = least.min(number.wrapping_add(rest));
    }
    if least < rest {
        Some(above + 1 + least)
    } else {
        None
    }
}
