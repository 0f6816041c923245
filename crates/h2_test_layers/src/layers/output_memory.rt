//! The output's memory: allocations that are refused, and a queue that is filled again.

ghost use Rattle.std.specs.Prelude.{◌≡◌, ◌≤◌, true, false, IfSome};

use super::output::{GOAWAY, adds_data};
use h2_output::Output;
use std::alloc::{AllocError, Global};

// Whether there is room for a hundred octets, also where an allocation was refused first, and then
// nothing is lost.
fn makes_room(output: &mut Output, waiting: usize) -> bool
    ensures room { result ≡ true → 100 ≤ output.new.spare }
    ensures ended { output.new.ended ≡ output.old.ended }
{
    if output.reserve(100).is_ok() {
        return true;
    }
    output.len() == waiting && output.reserve(100).is_ok()
}

// Whether a hundred octets follow the queued output.
fn adds_hundred(output: &mut Output, waiting: usize) -> bool
    requires up { output.old.ended ≡ false }
    ensures { output.new.ended ≡ false }
{
    if !makes_room(output, waiting) {
        return false;
    }
    output.add_octets(&[7; 100]);
    true
}

// Whether `count` octets are put out, also where an allocation was refused first, and then nothing
// is lost.
fn gives_again(output: &mut Output, count: usize, out: &mut Vec<u8>) -> bool {
    let (wait, before) = (output.len(), out.len());
    match output.put_out(count, out) {
        Ok(given) => given == count,
        Err(AllocError) => {
            output.len() == wait && out.len() == before && output.put_out(count, out) == Ok(count)
        }
    }
}

// Whether all queued output is put out.
fn gives_all(alloc: Global, output: &mut Output) -> bool {
    let mut out = Vec::new(alloc);
    gives_again(output, 150, &mut out)
        && gives_again(output, 100, &mut out)
        && gives_again(output, 67, &mut out)
        && output.is_empty()
        && out.get(..300) == Some([7; 300].as_slice())
        && out.get(300..) == Some(GOAWAY)
}

// A new output, also where an allocation was refused first.
fn new_output(alloc: Global) -> Option<Output>
    ensures { IfSome result (λ output. output.ended ≡ false) }
{
    match Output::new(alloc) {
        Ok(output) => Some(output),
        Err(AllocError) => Output::new(alloc).ok(),
    }
}

// Whether nothing is lost.
fn loses_nothing(alloc: Global) -> bool {
    let Some(mut output) = new_output(alloc) else {
        return false;
    };
    if !adds_hundred(&mut output, 0)
        || !adds_hundred(&mut output, 100)
        || !adds_hundred(&mut output, 200)
    {
        return false;
    }
    output.end_with_goaway(5, 1);
    gives_all(alloc, &mut output)
}

// rule: calls (own) Output is given out in order and once
/// Each call that takes memory is tried again where an allocation was refused, and then nothing is
/// lost: so this test passes under `rt try --test --fail-alloc N`, by which the allocation N is
/// refused, for each N.
#[test]
fn a_refused_allocation_loses_nothing(rt: HostRuntime) {
    assert!(rt; loses_nothing(rt.alloc()));
}

// Whether two frames are added, and put out in two pieces.
fn is_filled_again(output: &mut Output, out: &mut Vec<u8>) -> bool
    requires up { output.old.ended ≡ false }
    ensures { output.new.ended ≡ false }
{
    out.clear();
    adds_data(output, &[7; 91], false)
        && adds_data(output, &[8; 91], true)
        && output.put_out(150, out) == Ok(150)
        && output.put_out(150, out) == Ok(50)
        && output.is_empty()
        && out.get(9..100) == Some([7; 91].as_slice())
        && out.get(109..) == Some([8; 91].as_slice())
}

// The first round in which a queue that is emptied isn't filled again.
fn first_not_filled(alloc: Global, rounds: usize) -> Option<usize> {
    let (Ok(mut output), Ok(mut out)) = (Output::new(alloc), Vec::with_capacity(alloc, 200)) else {
        return Some(usize::MAX);
    };
    for round in 0..rounds {
        if !is_filled_again(&mut output, &mut out) {
            return Some(round);
        }
    }
    None
}

// rule: calls (own) Output is given out in order and once
/// A queue that is filled and emptied takes its memory once: `rt try --test --fail-alloc N` fails
/// this test only for N up to 4.
#[test]
fn an_emptied_queue_is_filled_again(rt: HostRuntime) {
    assert_eq!(rt; first_not_filled(rt.alloc(), 10_000), None);
}

// Whether a frame is added, and another one that was queued is put out.
fn goes_on(output: &mut Output, out: &mut Vec<u8>) -> bool
    requires up { output.old.ended ≡ false }
    ensures { output.new.ended ≡ false }
{
    out.clear();
    adds_data(output, &[7; 91], false)
        && output.put_out(100, out) == Ok(100)
        && output.len() == 100
        && out.get(9..) == Some([7; 91].as_slice())
}

// The first round in which a queue that is never empty doesn't go on.
fn first_not_going_on(alloc: Global, rounds: usize) -> Option<usize> {
    let (Ok(mut output), Ok(mut out)) = (Output::new(alloc), Vec::with_capacity(alloc, 200)) else {
        return Some(usize::MAX);
    };
    if !adds_data(&mut output, &[7; 91], false) {
        return Some(usize::MAX);
    }
    for round in 0..rounds {
        if !goes_on(&mut output, &mut out) {
            return Some(round);
        }
    }
    None
}

/// So does a queue that is never empty.
#[test]
fn a_queue_that_is_never_empty(rt: HostRuntime) {
    assert_eq!(rt; first_not_going_on(rt.alloc(), 10_000), None);
}
