//! Making an end, and freeing it.

ghost use Rattle.std.specs.Prelude.{◌≡◌, None, IfSome};
ghost use Rattle.h2_flow.specs.ConfigValues.{values_of};
ghost use Rattle.h2_spec_log.specs.declared.role.Role.TheVariants as roles;
ghost use Rattle.belkjoef.specs.Calls.{FreesPlace};
ghost use Rattle.belkjoef.specs.Configs.{values_given};
ghost use Rattle.belkjoef.specs.Making.{IsNewSide, MakesEnd, PutsNew};

use crate::config::BjConfig;
use crate::held::{Held, Side};
use crate::kept::KeptFields;
use crate::numbers::{EMPTY, HELD, MEMORY, OK, of_config};
use crate::place::BjEnd;
use crate::users::Users;
use h2_ends::{Client, Config, Server};
use std::alloc::Global;

// contract: c (own) A new end is made in an empty place, of values within bounds
// rule: c (own) A new end is made in an empty place, of values within bounds
/// Makes a server in a place that holds none.
#[unsafe(no_mangle)]
pub extern "C" fn bj_server_new(alloc: Global, config: &BjConfig, end: &mut BjEnd) -> i32
    ensures { MakesEnd roles.Server (values_given config.now) result end.old.held end.new.held }
{
    if end.is_held() {
        return HELD;
    }
    match config.config() {
        Ok(config) => match server(alloc, config) {
            Some(side) => make(alloc, side, end),
            None => MEMORY,
        },
        Err(bad) => of_config(bad),
    }
}

// contract: c (own) A new end is made in an empty place, of values within bounds
// rule: c (own) A new end is made in an empty place, of values within bounds
/// Makes a client in a place that holds none.
#[unsafe(no_mangle)]
pub extern "C" fn bj_client_new(alloc: Global, config: &BjConfig, end: &mut BjEnd) -> i32
    ensures { MakesEnd roles.Client (values_given config.now) result end.old.held end.new.held }
{
    if end.is_held() {
        return HELD;
    }
    match config.config() {
        Ok(config) => match client(alloc, config) {
            Some(side) => make(alloc, side, end),
            None => MEMORY,
        },
        Err(bad) => of_config(bad),
    }
}

// contract: c (own) A place holds an end or nothing, and each call says which
// rule: c (own) A place holds an end or nothing, and each call says which
/// Frees the end in a place, which then holds none.
#[unsafe(no_mangle)]
pub extern "C" fn bj_free(alloc: Global, end: &mut BjEnd) -> i32
    ensures empty { end.new.held ≡ None }
    ensures answer { FreesPlace end.old.held result }
{
    match end.open(alloc) {
        Some(held) => {
            drop(held);
            OK
        }
        None => EMPTY,
    }
}

/// Returns a new server, or `None` if memory is refused.
fn server(alloc: Global, config: Config) -> Option<Side>
    ensures { IfSome result (λ side. IsNewSide roles.Server (values_of config) side) }
{
    match Server::new(alloc, config) {
        Ok(server) => Some(Side::Server(server)),
        Err(_) => None,
    }
}

/// Returns a new client, or `None` if memory is refused.
fn client(alloc: Global, config: Config) -> Option<Side>
    ensures { IfSome result (λ side. IsNewSide roles.Client (values_of config) side) }
{
    match Client::new(alloc, config) {
        Ok(client) => Some(Side::Client(client)),
        Err(_) => None,
    }
}

/// Puts a new end into a place that holds none.
fn make(alloc: Global, side: Side, end: &mut BjEnd) -> i32
    requires { end.old.held ≡ None }
    ensures { PutsNew side result end.new.held }
{
    let held = Held {
        side,
        users: Users::new(alloc),
        heads: KeptFields::new(alloc),
        trailers: KeptFields::new(alloc),
    };
    match Box::new(alloc, held) {
        Ok(held) => {
            end.keep(held);
            OK
        }
        Err(failed) => {
            drop(failed);
            MEMORY
        }
    }
}
