//! The groups of cases, and the driver of each.

use crate::{get, location, program};
use h2_case::case::Case;
use h2_case::driver::Answer;
use h2_case::layers::{block, flow, frame, hpack_blocks, text, wire};
use h2_case_conn::{conn, message};
use h2_case_ends::{end, engine, pair};
use h2_case_server::server;
use h2_net::WriteParts;
use std::alloc::Global;
use std::fs::Files;
use std::net::Net;
use std::time::Clock;

/// A group of cases, whose files lie in the folder of its name.
#[derive(Clone, Copy)]
pub(crate) enum Group {
    /// The texts of HPACK.
    Text,
    /// Field blocks.
    Hpack,
    /// Frames.
    Frame,
    /// Streams of frames, cut.
    Wire,
    /// Field blocks in a stream of frames.
    Block,
    /// Settings, windows, the sides of a stream, and an end's own values.
    Flow,
    /// Messages: the rules of each, and how it is read.
    Message,
    /// One end of a connection.
    Conn,
    /// A client or a server of complete messages.
    End,
    /// A client and a server that are joined by two pipes.
    Pair,
    /// Connections over links in memory.
    Engine,
    /// Served connections of a host, in memory.
    Server,
    /// Connections of the program, in memory.
    Get,
    /// What `h2 show` prints of an input.
    Show,
    /// What `h2 replay` prints of an input.
    Replay,
    /// The words of the program: help, and what is wrong with them.
    Words,
    /// What a client posts to a server of the same process, over a socket.
    Loop,
    /// URLs.
    Location,
}

/// All groups, in the order in which their lines are printed.
pub(crate) const GROUPS: [Group; 18] = [
    Group::Text,
    Group::Hpack,
    Group::Frame,
    Group::Wire,
    Group::Block,
    Group::Flow,
    Group::Message,
    Group::Conn,
    Group::End,
    Group::Pair,
    Group::Engine,
    Group::Server,
    Group::Get,
    Group::Show,
    Group::Replay,
    Group::Words,
    Group::Loop,
    Group::Location,
];

impl Group {
    /// The name of the group's folder.
    pub(crate) fn name(self) -> &'static str {
        match self {
            Group::Text => "text",
            Group::Hpack => "hpack",
            Group::Frame => "frame",
            Group::Wire => "wire",
            Group::Block => "block",
            Group::Flow => "flow",
            Group::Message => "message",
            Group::Conn => "conn",
            Group::End => "end",
            Group::Pair => "pair",
            Group::Engine => "engine",
            Group::Server => "server",
            Group::Get => "get",
            Group::Show => "show",
            Group::Replay => "replay",
            Group::Words => "words",
            Group::Loop => "loop",
            Group::Location => "location",
        }
    }
}

/// The answers to a case's commands, up to the first that has none.
pub(crate) fn run_case<R: Net + Files + Clock + Copy>(
    rt: &R,
    alloc: Global,
    group: Group,
    case: &Case,
) -> Vec<Answer>
where
    R::Stream: WriteParts,
{
    match group {
        Group::Text => text::run_case(alloc, case),
        Group::Hpack => hpack_blocks::run_case(alloc, case),
        Group::Frame => frame::run_case(alloc, case),
        Group::Wire => wire::run_case(alloc, case),
        Group::Block => block::run_case(alloc, case),
        Group::Flow => flow::run_case(alloc, case),
        Group::Message => message::run_case(alloc, case),
        Group::Conn => conn::run_case(alloc, case),
        Group::End => end::run_case(alloc, case),
        Group::Pair => pair::run_case(alloc, case),
        Group::Engine => engine::run_case(alloc, case),
        Group::Server => server::run_case(alloc, case),
        Group::Get => get::run_case(alloc, case),
        Group::Location => location::run_case(alloc, case),
        Group::Show | Group::Replay | Group::Words | Group::Loop => {
            program::run_case(rt, alloc, case)
        }
    }
}
