//! A connection without the rules of messages, in a place of C's.

ghost use Rattle.std.specs.Prelude.{◌≡◌, Option, None, Some, IsSome, MatchOption};
ghost use Rattle.std.specs.Option.{is_some};
ghost use Rattle.std.specs.Coded.{coded_option};
ghost use Rattle.h2_flow.specs.ConfigValues.{values_of};
ghost use Rattle.h2_spec_log.specs.declared.role.Role.TheVariants as roles;
ghost use Rattle.belkjoef.specs.Calls.{FreesPlace};
ghost use Rattle.belkjoef.specs.Configs.{values_given};
ghost use Rattle.belkjoef.specs.Conns.{IsNewConn, MakesConn};
ghost use Rattle.belkjoef.specs.Making.{MakesHeld};
ghost use Rattle.belkjoef.specs.Places.{place_owns};
ghost use Rattle.belkjoef.specs.contracts.conn.HeldConn.{the_row};
ghost use Rattle.belkjoef.specs.declared.conn.HeldConn.{HeldConn};

use crate::config::BjConfig;
use crate::kept::KeptFields;
use crate::loose::Loose;
use crate::numbers::{EMPTY, HELD, MEMORY, OK, of_config};
use crate::place::HOLDS_ONE;
use h2_conn::Conn;
use std::alloc::Global;
use std::marker::Model;

/// The contents of a place that holds a connection.
#[derive(Drop)]
pub struct HeldConn {
    /// The connection.
    pub(crate) conn: Conn,
    /// Copies of the fields that were sent last.
    pub(crate) fields: KeptFields,
}

/// `bj_conn`: a place that C owns and that holds a connection or nothing, as [`crate::BjEnd`]
/// holds an end.
#[repr(C)]
pub struct BjConn {
    at: *mut u8,
    state: u64,
    ghost held: { Option HeldConn } by { coded_option the_row.coded },
}

impl Model for BjConn {
    ghost also_owns = { λ place. place_owns the_row place.at place.state place.held };
}

impl BjConn {
    /// Returns whether it holds a connection.
    pub(crate) fn is_held(&mut self) -> bool
        ensures value { result ≡ is_some self.old.held }
        ensures same { self.new ≡ self.old }
    {
        self.state == HOLDS_ONE
    }

    /// Puts a connection here, where there is none.
    pub(crate) fn put(&mut self, loose: Loose<HeldConn, Global>)
        requires { self.old.held ≡ None }
        ensures { self.new.held ≡ Some loose.value }
    {
        let Loose { at, alloc: _ } = loose;
        self.at = at as *mut u8;
        self.state = HOLDS_ONE;
    }

    /// Takes the connection that is here.
    pub(crate) fn take(&mut self, alloc: Global) -> Loose<HeldConn, Global>
        requires { IsSome self.old.held }
        ensures empty { self.new.held ≡ None }
        ensures value { Some result.value ≡ self.old.held }
    {
        self.state = 0;
        let at = self.at as *mut HeldConn;
        Loose { at, alloc }
    }

    /// Puts a connection back.
    pub(crate) fn keep(&mut self, held: Box<HeldConn>)
        requires { self.old.held ≡ None }
        ensures { self.new.held ≡ Some held.value }
    {
        self.put(Loose::of(held));
    }

    /// Takes out the connection that is here, if any. The place holds nothing until it is put
    /// back.
    pub(crate) fn open(&mut self, alloc: Global) -> Option<Box<HeldConn>>
        ensures empty { self.new.held ≡ None }
        ensures value { MatchOption result (self.old.held ≡ None)
            (λ held. self.old.held ≡ Some held.value) }
    {
        if !self.is_held() {
            return None;
        }
        Some(self.take(alloc).into_box())
    }
}

// contract: c (own) A new end is made in an empty place, of values within bounds
/// Makes a server's connection in a place that holds none.
#[unsafe(no_mangle)]
pub extern "C" fn bj_conn_server(alloc: Global, config: &BjConfig, conn: &mut BjConn) -> i32
    ensures { MakesConn roles.Server (values_given config.now) result conn.old.held conn.new.held }
{
    if conn.is_held() {
        return HELD;
    }
    match config.config() {
        Ok(config) => match Conn::server(alloc, config) {
            Ok(made) => make(alloc, made, conn),
            Err(_) => MEMORY,
        },
        Err(bad) => of_config(bad),
    }
}

// contract: c (own) A new end is made in an empty place, of values within bounds
/// Makes a client's connection in a place that holds none.
#[unsafe(no_mangle)]
pub extern "C" fn bj_conn_client(alloc: Global, config: &BjConfig, conn: &mut BjConn) -> i32
    ensures { MakesConn roles.Client (values_given config.now) result conn.old.held conn.new.held }
{
    if conn.is_held() {
        return HELD;
    }
    match config.config() {
        Ok(config) => match Conn::client(alloc, config) {
            Ok(made) => make(alloc, made, conn),
            Err(_) => MEMORY,
        },
        Err(bad) => of_config(bad),
    }
}

/// Puts a new connection into a place that holds none.
fn make(alloc: Global, conn: Conn, place: &mut BjConn) -> i32
    requires { place.old.held ≡ None }
    ensures { MakesHeld (λ held. held.conn ≡ conn) result place.old.held place.new.held }
{
    let held = HeldConn {
        conn,
        fields: KeptFields::new(alloc),
    };
    match Box::new(alloc, held) {
        Ok(held) => {
            place.keep(held);
            OK
        }
        Err(failed) => {
            drop(failed);
            MEMORY
        }
    }
}

// contract: c (own) A place holds an end or nothing, and each call says which
/// Frees the connection in a place, which then holds none.
#[unsafe(no_mangle)]
pub extern "C" fn bj_conn_free(alloc: Global, conn: &mut BjConn) -> i32
    ensures empty { conn.new.held ≡ None }
    ensures answer { FreesPlace conn.old.held result }
{
    match conn.open(alloc) {
        Some(held) => {
            drop(held);
            OK
        }
        None => EMPTY,
    }
}
