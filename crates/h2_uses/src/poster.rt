//! A POST over any link.

ghost use Rattle.std.specs.Prelude.{◌<◌, ◌-◌, ◌^◌};

use anyhow::Result;
use h2_engines::{Config, Fetched, Link, Message, fetch_link};
use std::alloc::Global;

/// Posts a body, and returns the complete response.
///
/// # Errors
///
/// Those of [`fetch_link`]; also where an allocation was refused.
pub fn post<L: Link>(
    alloc: Global,
    link: &mut L,
    authority: &[u8],
    path: &[u8],
    body: Vec<u8>,
) -> Result<Fetched>
    requires { L.faults link.old < 2 ^ 64 - 1 }
{
    let mut message = Message::request(alloc, b"POST", authority, path)?;
    message.body = body;
    Ok(fetch_link(alloc, link, Config::default(), message)?)
}
