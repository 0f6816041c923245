//! Connections that are asked to leave and whose windows are widened, and what is written down.

use h2_host::{Answer, Own, Party};
use h2_hosting::{Guest, Journal, Leaves, TakesLines, Widens, Windows};
use std::alloc::{AllocError, Global};
use std::cell::Cell;
use std::test::Fail;

/// A connection that says by its answers whether it was asked to leave, and keeps by what it was
/// widened.
#[derive(Drop)]
struct Counted<'a> {
    left: usize,
    receives: &'a Cell<bool>,
    widened: &'a Cell<u32>,
}

impl Leaves for Counted<'_> {
    fn leave(&mut self) {
        self.left = self.left.saturating_add(1);
    }
}

impl Widens for Counted<'_> {
    fn is_receiving(&self) -> bool {
        self.receives.get()
    }

    fn widen(&mut self, count: u32) -> bool {
        self.widened.set(self.widened.get().saturating_add(count));
        true
    }
}

impl Party for Counted<'_> {
    ghost use Rattle.std.specs.Prelude.{⊤, [], true};

    ghost steps = { λ _ _ _ _ _. ⊤ };

    ghost held_of = { λ _. 0 };

    ghost ready_of = { λ _. true };

    ghost takes = { λ _ _. ⊤ };

    ghost output_of = { λ _. [] };

    fn step(&mut self, own: Own, _octets: &[u8], _room: &mut [u8]) -> Answer {
        // It goes on until it was asked to leave, or is refused or lost.
        match own {
            Own::Lost | Own::Refused { .. } => Answer::Over,
            _ if self.left == 0 => Answer::Goes,
            _ => Answer::Over,
        }
    }

    fn held(&self) -> usize {
        0
    }

    fn is_ready(&self) -> bool {
        true
    }

    fn read_size(&self) -> usize {
        0
    }

    fn output(&self) -> (&[u8], &[u8]) {
        (&[], &[])
    }
}

/// A guest whose connection counts.
fn guest_of<'a>(
    alloc: Global,
    leaving: &'a Cell<bool>,
    receives: &'a Cell<bool>,
    widened: &'a Cell<u32>,
    windows: &'a Windows,
) -> Result<Guest<'a, Counted<'a>>, AllocError> {
    let counted = Counted {
        left: 0,
        receives,
        widened,
    };
    Guest::new(alloc, counted, leaving, windows)
}

// It leaves as time passes, once the cell says so, and at no other step.
#[test]
fn guests_leave(rt: HostRuntime) -> Result<(), Fail> {
    let (leaving, receives) = (Cell::new(false), Cell::new(false));
    let (widened, windows) = (Cell::new(0), Windows::new(65_535, 0));
    let mut guest = guest_of(rt.alloc(), &leaving, &receives, &widened, &windows)?;
    let mut room = [0u8; 1];
    let passed = Own::Passed { now: 1 };
    assert_eq!(rt; guest.step(passed, &[], &mut room), Answer::Goes);
    leaving.set(true);
    assert_eq!(rt; guest.step(Own::Turn, &[], &mut room), Answer::Goes);
    assert_eq!(rt; guest.step(passed, &[], &mut room), Answer::Over);
    Ok(())
}

/// What three connections are widened by: the first once a body comes, the second while the first is
/// there, and a third after it.
fn widened(alloc: Global, window: u32, most: u64) -> Result<[u32; 3], Fail> {
    let (leaving, receives) = (Cell::new(false), Cell::new(false));
    let windows = Windows::new(window, most);
    let counts = [Cell::new(0), Cell::new(0), Cell::new(0)];
    let [first, second, third] = &counts;
    let mut one = guest_of(alloc, &leaving, &receives, first, &windows)?;
    one.step(Own::Came, b"x", &mut []);
    receives.set(true);
    one.step(Own::Turn, &[], &mut []);
    let before = first.get();
    one.step(Own::Came, b"x", &mut []);
    one.step(Own::Came, b"x", &mut []);
    let mut other = guest_of(alloc, &leaving, &receives, second, &windows)?;
    other.step(Own::Came, b"x", &mut []);
    drop(one);
    let mut last = guest_of(alloc, &leaving, &receives, third, &windows)?;
    last.step(Own::Came, b"x", &mut []);
    Ok([
        first.get().saturating_add(before),
        second.get(),
        third.get(),
    ])
}

// rule: hosts (own) A connection is widened once, as a body comes, by what is left
#[test]
fn windows_are_widened(rt: HostRuntime) -> Result<(), Fail> {
    assert_eq!(rt; widened(rt.alloc(), 65_635, 150)?, [100, 0, 100]);
    assert_eq!(rt; widened(rt.alloc(), 65_535, 150)?, [0, 0, 0]);
    assert_eq!(rt; widened(rt.alloc(), 70_000, 0)?, [0, 0, 0]);
    Ok(())
}

#[test]
fn lines_wait(rt: HostRuntime) -> Result<(), Fail> {
    let journal = Journal::new(rt.alloc());
    let mut lines = &journal;
    lines.add(b"one\n")?;
    lines.add(b"two\n")?;
    assert_eq!(rt; journal.waiting(), 8);
    assert_eq!(rt;
        journal.take(rt.alloc()).as_slice(),
        b"one\ntwo\n".as_slice()
    );
    assert_eq!(rt; journal.waiting(), 0);
    assert!(rt; journal.take(rt.alloc()).is_empty());
    Ok(())
}
