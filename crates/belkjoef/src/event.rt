//! The event of a call of `bj_take`.

ghost use Rattle.std.specs.Prelude.{◌≡◌, length};
ghost use Rattle.belkjoef.specs.Events.{address_of, flag_of, blank, with_list, event_with};

use crate::place::address;
use h2_ends::{EndEvent, FieldList};

/// `bj_event`: how much of the piece was used, and the event.
#[repr(C)]
#[derive(Drop)]
pub struct BjEvent {
    /// How many octets of the piece were used.
    pub used: usize,
    /// The kind of event; 0 if there is none.
    pub kind: u32,
    /// The stream; of GOAWAY the highest one that the peer may process.
    pub stream: u32,
    /// The error code of a reset, of GOAWAY or of a failure.
    pub code: u32,
    /// 1 if END_STREAM came: the message is complete.
    pub end: u32,
    /// 1 if this end has reset the stream.
    pub ours: u32,
    /// The octets of a PING.
    pub ping: [u8; 8],
    /// How many fields there are.
    pub fields: usize,
    /// The address of the octets of a body.
    pub octets: *const u8,
    /// Their number.
    pub length: usize,
    /// The number that C keeps for the stream.
    pub user: usize,
}

/// No event.
pub(crate) const NOTHING: u32 = 0;

const INTERIM: u32 = 1;

const HEAD: u32 = 2;

const BODY: u32 = 3;

const TRAILERS: u32 = 4;

const RESET: u32 = 5;

const UNPROCESSED: u32 = 6;

const GO_AWAY: u32 = 7;

const ACKED: u32 = 8;

const PONG: u32 = 9;

impl BjEvent {
    /// Clears the event, before a piece is taken.
    pub(crate) fn clear(&mut self, piece: &[u8])
        ensures { self.new ≡ blank (address_of piece.entry) }
    {
        self.used = 0;
        self.kind = NOTHING;
        self.stream = 0;
        self.code = 0;
        self.end = 0;
        self.ours = 0;
        self.ping = [0; 8];
        self.fields = 0;
        self.octets = address(piece);
        self.length = 0;
        self.user = 0;
    }

    // rule: c (own) An event has what was handed out, as numbers and addresses
    /// Stores an event.
    pub(crate) fn say(&mut self, event: EndEvent<&FieldList, &[u8]>)
        ensures { self.new ≡ event_with self.old event.entry }
    {
        match event {
            EndEvent::Interim { id, list } => self.say_fields(INTERIM, id, list, false),
            EndEvent::Head { id, list, end } => self.say_fields(HEAD, id, list, end),
            EndEvent::Trailers { id, list } => self.say_fields(TRAILERS, id, list, true),
            EndEvent::Body { id, bytes, end } => {
                self.kind = BODY;
                self.stream = id;
                self.octets = address(bytes);
                self.length = bytes.len();
                self.end = flag(end);
            }
            EndEvent::Reset { id, code, ours } => {
                self.kind = RESET;
                self.stream = id;
                self.code = code;
                self.ours = flag(ours);
            }
            EndEvent::Unprocessed { id } => {
                self.kind = UNPROCESSED;
                self.stream = id;
            }
            EndEvent::GoAway { last, code } => {
                self.kind = GO_AWAY;
                self.stream = last;
                self.code = code;
            }
            EndEvent::Acked => self.kind = ACKED,
            EndEvent::Pong { octets } => {
                self.kind = PONG;
                self.ping = octets;
            }
        }
    }

    /// Stores the event of a part of a message that has fields.
    fn say_fields(&mut self, kind: u32, id: u32, list: &FieldList, end: bool)
        ensures { self.new ≡ with_list self.old kind id (length list.now) end }
    {
        self.kind = kind;
        self.stream = id;
        self.fields = list.len();
        self.end = flag(end);
    }
}

/// Returns 1 if it is set, else 0.
pub(crate) fn flag(set: bool) -> u32
    ensures { result ≡ flag_of set }
{
    if set { 1 } else { 0 }
}
