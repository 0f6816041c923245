//! Reads the lines that tshark prints of both directions of a connection.

ghost use Rattle.std.specs.Prelude.{◌≡◌, List, [], ◌∷◌, ◌++◌, IfOk, Err};
ghost use Rattle.h2_cli.specs.declared.hexadecimal.HexError.TheVariants.{BadHex};
ghost use Rattle.h2_follow.specs.FollowText.{is_empty_line, is_label, is_head_line, is_last_line};
ghost use Rattle.h2_follow.specs.FollowText.{node_of, client_by, side_of_node, Line, Piece, LinesSoFar};
ghost use Rattle.h2_follow.specs.FollowText.{IsRefusedLine, pieces_read, belongs, part_after};
ghost use Rattle.h2_follow.specs.FollowText.{begins_as_preface};

use h2_cli::{HexError, from_hex, is_blank};
use h2_show::Side;
use std::alloc::Global;

/// The first octets of the client's preface (RFC 9113, section 3.4).
const PREFACE: &[u8] = b"PRI * HTTP/2.0";

/// An end of the connection, by its number in the text.
#[derive(Clone, Copy, Debug, PartialEq, Eq)]
pub(crate) enum Node {
    /// Node 0.
    Zero,
    /// Node 1.
    One,
}

/// The part of the text that a line is in.
#[derive(Clone, Copy, Debug, PartialEq, Eq)]
pub(crate) enum Part {
    /// Before the first line of octets.
    Head,
    /// After a line of octets.
    Octets,
    /// After the line that ends them.
    Last,
}

/// The octets of one line.
#[derive(Debug, Drop)]
pub(crate) struct Read {
    /// The node that sent them.
    pub(crate) node: Node,
    /// The octets.
    pub(crate) octets: Vec<u8>,
}

/// What a line is.
#[derive(Debug, Drop)]
pub(crate) struct LineRead {
    /// The part of the text that it ends.
    pub(crate) part: Part,
    /// The octets that it gives, if any.
    pub(crate) read: Option<Read>,
}

impl Part {
    // rule: follow (own) Both sides are read of the text that tshark prints of them
    // Whether a line without octets belongs here.
    fn passes(self, line: &[u8]) -> bool
        ensures { result ≡ belongs self line.now }
    {
        match self {
            Part::Head => is_head_line(line),
            Part::Octets | Part::Last => is_last_line(line),
        }
    }

    // The part of such a line.
    fn after(self) -> Part
        ensures { result ≡ part_after self }
    {
        match self {
            Part::Head => Part::Head,
            Part::Octets | Part::Last => Part::Last,
        }
    }
}

// contract: follow (own) Both sides are read of the text that tshark prints of them
// rule: follow (own) Both sides are read of the text that tshark prints of them
// contract: follow (own) A line that is not of tshark's text ends all, with its number
// rule: follow (own) A line that is not of tshark's text ends all, with its number
/// Reads the next line of the text, after lines that end in `part`.
///
/// # Errors
///
/// [`HexError::BadHex`] if such a line cannot follow, and [`HexError::Memory`] if out of memory.
pub(crate) fn read_line(alloc: Global, part: Part, line: &[u8]) -> Result<LineRead, HexError>
    ensures ok { IfOk result (λ next. (lines : List Line) (pieces : List Piece)
        → LinesSoFar part lines pieces
        → LinesSoFar next.part (lines ++ line.now ∷ []) (pieces ++ pieces_read next.read)) }
    ensures err { result ≡ Err BadHex → IsRefusedLine part line.now }
{
    if part.passes(line) {
        return Ok(LineRead {
            part: part.after(),
            read: None,
        });
    }
    if let Part::Last = part {
        return Err(HexError::BadHex);
    }
    if line.starts_with(b" ") {
        return Err(HexError::BadHex);
    }
    let octets = from_hex(alloc, line)?;
    let node = node_of(line);
    Ok(LineRead {
        part: Part::Octets,
        read: Some(Read { node, octets }),
    })
}

// The node whose octets a line gives.
fn node_of(line: &[u8]) -> Node
    ensures { result ≡ node_of line.now }
{
    if line.starts_with(b"\t") {
        Node::One
    } else {
        Node::Zero
    }
}

// Whether a line is of the head.
fn is_head_line(line: &[u8]) -> bool
    ensures { result ≡ is_head_line line.now }
{
    is_last_line(line) || is_label(line)
}

// Whether a line may follow the octets.
fn is_last_line(line: &[u8]) -> bool
    ensures { result ≡ is_last_line line.now }
{
    is_empty_line(line) || line.starts_with(b"====")
}

// Whether a line has only blanks.
fn is_empty_line(line: &[u8]) -> bool
    ensures { result ≡ is_empty_line line.now }
{
    line.iter().all(|octet| is_blank(*octet))
}

// Whether a line says that raw octets of TCP or TLS follow.
fn is_label(line: &[u8]) -> bool
    ensures { result ≡ is_label line.now }
{
    line.starts_with(b"Follow: tcp,raw")
        || line.starts_with(b"Follow: tls,raw")
        || line.starts_with(b"Filter: ")
        || line.starts_with(b"Node 0: ")
        || line.starts_with(b"Node 1: ")
}

// contract: follow (own) The client is whose octets come first as the preface, or else the other
// rule: follow (own) The client is whose octets come first as the preface, or else the other
/// The client, by the octets that came first.
pub(crate) fn client_by(read: &Read) -> Node
    ensures { result ≡ client_by (read.now.node, read.now.octets.items) }
{
    if begins_as_preface(&read.octets) {
        return read.node;
    }
    match read.node {
        Node::Zero => Node::One,
        Node::One => Node::Zero,
    }
}

// rule: follow (own) The client is whose octets come first as the preface, or else the other
// Whether octets are a beginning of the preface, or begin with it.
fn begins_as_preface(octets: &[u8]) -> bool
    ensures { result ≡ begins_as_preface octets.now }
{
    PREFACE.starts_with(&octets[..octets.len().min(PREFACE.len())])
}

/// The side of a node.
pub(crate) fn side_of(client: Node, node: Node) -> Side
    ensures { result ≡ side_of_node client node }
{
    match (client, node) {
        (Node::Zero, Node::Zero) | (Node::One, Node::One) => Side::Client,
        (Node::Zero, Node::One) | (Node::One, Node::Zero) => Side::Server,
    }
}

// rule (tested): follow (own) A hint says why a side may be at fault, or which line is bad
/// Whether octets are those that tshark prints for a segment missing in the capture.
pub(crate) fn is_lost_segment(octets: &[u8]) -> bool {
    octets.starts_with(b"[") && octets.ends_with(b" bytes missing in capture file]\x00")
}
