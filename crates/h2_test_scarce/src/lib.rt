//! Tests of refused memory: scenarios that make each call again that was refused it.
//!
//! Each test runs a scenario twice. The first run has ample memory; of the second, which stands
//! between two marks, `faults/scarce` refuses one allocation, another one each time the test is
//! run. A call that is refused memory has changed nothing that can be read, and is made again; a
//! connection that has failed for it ends with GOAWAY. All other answers, and the octets that are
//! put out, are those of the first run, or the first of them. `rt ci` refuses nothing, so its two
//! runs are the same; `faults/scarce --gate`, which the gate runs after it, refuses each in turn.
//!
//! - `record`: what a run has shown, and the marks. `lists`: messages and fields.
//! - `end`, `call`, `walk`: a connection, a client or a server, the calls of it, and lists of them.
//! - `ends`, `joined`, `settling`, `links`: such lists, two joined ends, by acts and driven until
//!   they are quiet, and connections over links. `prefix`: what one joined end has handed out of
//!   what the other has accepted.
//! - `writers`, `coders`, `frames`: the layers below.
//! - `promises`: what takes no memory, with all allocations refused: a cutter, a gatherer and a
//!   writer, `h2_flow`, and a connection that takes frames which need none.
//! - `ignoring`: a scenario that ignores a refusal, by which `faults/scarce` tests itself.
#![tactic(auto)]

#[cfg(test)]
mod call;
#[cfg(test)]
mod coders;
#[cfg(test)]
mod end;
#[cfg(test)]
mod ends;
#[cfg(test)]
mod frames;
#[cfg(test)]
mod ignoring;
#[cfg(test)]
mod joined;
#[cfg(test)]
mod links;
#[cfg(test)]
mod lists;
#[cfg(test)]
mod prefix;
#[cfg(test)]
mod promises;
#[cfg(test)]
mod record;
#[cfg(test)]
mod settling;
#[cfg(test)]
mod walk;
#[cfg(test)]
mod writers;
