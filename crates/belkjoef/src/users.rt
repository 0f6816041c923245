//! The numbers that C keeps for streams.

ghost use Rattle.std.specs.Prelude.{◌≡◌, [], None, Some, OnOk, OnErr};
ghost use Rattle.h2_numbers.specs.Entries.{SetsValue, value_at};
ghost use Rattle.belkjoef.specs.Calls.{OnPlace};
ghost use Rattle.belkjoef.specs.Helds.{user_at};
ghost use Rattle.belkjoef.specs.Users.{SetsUser, SaysUser};

use crate::held::Held;
use crate::numbers::{EMPTY, MEMORY, OK};
use crate::place::BjEnd;
use h2_numbers::NumberMap;
use std::alloc::{AllocError, Global};
use std::marker::Model;

/// The numbers that C keeps, by stream.
#[derive(Drop)]
pub(crate) struct Users {
    /// The numbers.
    kept: NumberMap<usize>,
    /// Whether there may be any. If not, no look-up is made.
    any: bool,
}

impl Model for Users {
    ghost use Rattle.std.specs.Prelude.{◌≡◌, ℕ, false, None};
    ghost use Rattle.std.specs.Coded.{coded_ℕ};
    ghost use Rattle.h2_numbers.specs.Entries.{NumberEntries, entries_code, value_at};

    ghost Value = { NumberEntries ℕ };

    ghost coded = { entries_code coded_ℕ };

    ghost view = { λ users. users.kept };

    ghost invariant = { λ users. users.any ≡ false
        → (id : ℕ) → value_at id users.kept.entries ≡ None };
}

impl Users {
    /// Returns an empty table. It takes no memory.
    pub(crate) fn new(alloc: Global) -> Users
        ensures { result.entries ≡ [] }
    {
        Users {
            kept: NumberMap::new(alloc),
            any: false,
        }
    }

    /// Returns the number kept for a stream; 0 if none. It takes no memory.
    pub(crate) fn of(&self, id: u32) -> usize
        ensures { result ≡ user_at self.now.entries id }
    {
        if !self.any {
            return 0;
        }
        match self.kept.get(id) {
            Some(user) => *user,
            None => 0,
        }
    }

    // rule: c (own) A number of C's stays beside its stream until it is forgotten
    /// Keeps a number for a stream. It takes memory only if the stream has none.
    fn set(&mut self, id: u32, user: usize) -> Result<(), AllocError>
        ensures updates { OnOk result (SetsValue id (Some user) self.old.entries
            self.new.entries) }
        ensures err { OnErr result ((value_at id self.old.entries ≡ None)
            × (self.new.entries ≡ self.old.entries)) }
    {
        self.any = true;
        if let Some(kept) = self.kept.get_mut(id) {
            *kept = user;
            return Ok(());
        }
        self.kept.insert(id, user)
    }

    /// Forgets the number of a stream. It takes no memory.
    fn forget(&mut self, id: u32)
        ensures { SetsValue id None self.old.entries self.new.entries }
    {
        self.kept.remove(id);
    }
}

// contract: c (own) A number of C's stays beside its stream until it is forgotten
// rule: c (own) A number of C's stays beside its stream until it is forgotten
/// Keeps a number for a stream; 0 forgets it.
#[unsafe(no_mangle)]
pub extern "C" fn bj_set_user(alloc: Global, end: &mut BjEnd, stream: u32, user: usize) -> i32
    ensures { OnPlace result (SetsUser stream user result) end.old.held end.new.held }
{
    let Some(mut held) = end.open(alloc) else {
        return EMPTY;
    };
    let answer = held.set_user(stream, user);
    end.keep(held);
    answer
}

impl Held {
    /// Keeps a number for a stream; 0 forgets it.
    fn set_user(&mut self, stream: u32, user: usize) -> i32
        ensures { SetsUser stream user result self.old self.new }
    {
        if user == 0 {
            self.users.forget(stream);
            return OK;
        }
        match self.users.set(stream, user) {
            Ok(()) => OK,
            Err(_) => MEMORY,
        }
    }
}

// contract: c (own) A number of C's stays beside its stream until it is forgotten
// rule: c (own) A number of C's stays beside its stream until it is forgotten
/// Stores the number that C keeps for a stream; 0 if none.
#[unsafe(no_mangle)]
pub extern "C" fn bj_user(alloc: Global, end: &mut BjEnd, stream: u32, user: &mut usize) -> i32
    ensures call { OnPlace result (SaysUser stream result user.new) end.old.held end.new.held }
    ensures unheld { end.old.held ≡ None → user.new ≡ 0 }
{
    *user = 0;
    let Some(held) = end.open(alloc) else {
        return EMPTY;
    };
    *user = held.user_of(stream);
    end.keep(held);
    OK
}
