//! A place that C owns, which holds an end or nothing.

ghost use Rattle.std.specs.Prelude.{◌≡◌, Option, None, Some, IsSome, MatchOption};
ghost use Rattle.std.specs.Option.{is_some};
ghost use Rattle.std.specs.Coded.{coded_option};
ghost use Rattle.belkjoef.specs.Events.{address_of};
ghost use Rattle.belkjoef.specs.Places.{place_owns};
ghost use Rattle.belkjoef.specs.contracts.held.Held.{the_row};
ghost use Rattle.belkjoef.specs.declared.held.Held.{Held};

use crate::held::Held;
use crate::loose::Loose;
use std::alloc::Global;
use std::marker::Model;

/// The state of a place that holds an end: "belkjoef" in ASCII, which memory that was never set
/// has only by chance.
pub(crate) const HOLDS_ONE: u64 = 0x6265_6c6b_6a6f_6566;

/// `bj_end`: a place that C owns and that holds an end on the heap, or nothing if its state is
/// any other number, such as the 0 of a new one. The place owns the end.
#[repr(C)]
pub struct BjEnd {
    at: *mut u8,
    state: u64,
    ghost held: { Option Held } by { coded_option the_row.coded },
}

impl Model for BjEnd {
    ghost also_owns = { λ place. place_owns the_row place.at place.state place.held };
}

impl BjEnd {
    /// Returns whether it holds an end.
    pub(crate) fn is_held(&mut self) -> bool
        ensures value { result ≡ is_some self.old.held }
        ensures same { self.new ≡ self.old }
    {
        self.state == HOLDS_ONE
    }

    /// Puts an end here, where there is none.
    pub(crate) fn put(&mut self, loose: Loose<Held, Global>)
        requires { self.old.held ≡ None }
        ensures { self.new.held ≡ Some loose.value }
    {
        let Loose { at, alloc: _ } = loose;
        self.at = at as *mut u8;
        self.state = HOLDS_ONE;
    }

    /// Takes the end that is here.
    pub(crate) fn take(&mut self, alloc: Global) -> Loose<Held, Global>
        requires { IsSome self.old.held }
        ensures empty { self.new.held ≡ None }
        ensures value { Some result.value ≡ self.old.held }
    {
        self.state = 0;
        let at = self.at as *mut Held;
        Loose { at, alloc }
    }

    /// Puts an end back.
    pub(crate) fn keep(&mut self, held: Box<Held>)
        requires { self.old.held ≡ None }
        ensures { self.new.held ≡ Some held.value }
    {
        self.put(Loose::of(held));
    }

    // rule: c (own) A place holds an end or nothing, and each call says which
    /// Takes out the end that is here, if any. The place holds nothing until it is put back.
    pub(crate) fn open(&mut self, alloc: Global) -> Option<Box<Held>>
        ensures empty { self.new.held ≡ None }
        ensures value { MatchOption result (self.old.held ≡ None)
            (λ held. self.old.held ≡ Some held.value) }
    {
        if !self.is_held() {
            return None;
        }
        Some(self.take(alloc).into_box())
    }
}

/// Returns the address of octets.
pub(crate) fn address(octets: &[u8]) -> *const u8
    ensures { result ≡ address_of octets.entry }
{
    octets.as_ptr()
}
