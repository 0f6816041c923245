//! The peaks of a queue of numbers, with which finding the greatest takes constant time.

ghost use Rattle.std.specs.Prelude.{◌≡◌, ◌<◌, ℕ, List, [], ◌∷◌, ◌++◌};
ghost use Rattle.std.specs.VecDeque.{deque_capacity, deque_len};
ghost use Rattle.h2_follow.specs.Peaks.{ends_below, greatest_of, is_first, peaks_of};

use std::collections::VecDeque;

// rule: follow (own) What a side may send follows the other's SETTINGS, and its own ACK
/// Updates the peaks when a number is added at the end of the queue.
pub(crate) fn push_peak(peaks: &mut VecDeque<u32>, number: u32)
    requires { deque_len peaks.old < deque_capacity peaks.old }
    ensures { (numbers : List ℕ) → peaks.old.items ≡ peaks_of numbers
        → peaks.new.items ≡ peaks_of (numbers ++ number ∷ []) }
{
    while ends_below(peaks, number) {
        peaks.pop_back();
    }
    peaks.push_back_reserved(number);
}

// Whether the last peak is below a number.
fn ends_below(peaks: &VecDeque<u32>, number: u32) -> bool
    ensures { result ≡ ends_below number peaks.now.items }
{
    match peaks.back() {
        Some(last) => *last < number,
        None => false,
    }
}

// rule: follow (own) What a side may send follows the other's SETTINGS, and its own ACK
/// Updates the peaks when this number is removed from the start of the queue.
pub(crate) fn pop_peak(peaks: &mut VecDeque<u32>, number: u32)
    ensures { (numbers : List ℕ) → peaks.old.items ≡ peaks_of (number ∷ numbers)
        → peaks.new.items ≡ peaks_of numbers }
{
    if is_first(peaks, number) {
        peaks.pop_front();
    }
}

// Whether a number is the first peak.
fn is_first(peaks: &VecDeque<u32>, number: u32) -> bool
    ensures { result ≡ is_first number peaks.now.items }
{
    match peaks.front() {
        Some(first) => *first == number,
        None => false,
    }
}

// rule: follow (own) What a side may send follows the other's SETTINGS, and its own ACK
/// The greatest number of a queue with these peaks, at least `least`.
pub(crate) fn greatest(peaks: &VecDeque<u32>, least: u32) -> u32
    ensures { (numbers : List ℕ) → peaks.now.items ≡ peaks_of numbers
        → result ≡ greatest_of least numbers }
{
    match peaks.front() {
        Some(first) => least.max(*first),
        None => least,
    }
}
