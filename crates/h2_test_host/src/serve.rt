//! Tests of handlers that serve over a link in memory.
//!
//! - `echoing`: the handler that answers with what was asked, beside `serve_link`; `differing`:
//!   where the two don't do the same. `faulty`: a handler whose answers break a rule. `gathering`:
//!   whole requests. `parts`: a handler that gives
//!   its answers part by part, and is told that they are over. `resetting`: a request that is reset
//!   beside one that is answered. `sharing`: whole bodies beside parts. `using`: credit of what a
//!   part uses.

mod differing;
mod echoing;
mod faulty;
mod gathering;
mod parts;
mod resetting;
mod sharing;
mod using;
