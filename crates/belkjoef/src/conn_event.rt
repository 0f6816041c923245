//! The event of a call of `bj_conn_take`.

ghost use Rattle.std.specs.Prelude.{◌≡◌, length};
ghost use Rattle.belkjoef.specs.Events.{address_of};
ghost use Rattle.belkjoef.specs.ConnEvents.{blank_report, report_with};

use crate::event::{NOTHING, flag};
use crate::place::address;
use h2_conn::{Event, FieldList};

/// `bj_report`: how much of the piece was used, and the event.
#[repr(C)]
#[derive(Drop)]
pub struct BjReport {
    /// How many octets of the piece were used.
    pub used: usize,
    /// The kind of event; 0 if there is none.
    pub kind: u32,
    /// The stream; of GOAWAY the highest one that the peer may process.
    pub stream: u32,
    /// The error code of a reset, of GOAWAY or of a failure.
    pub code: u32,
    /// 1 if the peer ended the stream (END_STREAM).
    pub end: u32,
    /// 1 if this end has reset the stream.
    pub ours: u32,
    /// The octets of a PING.
    pub ping: [u8; 8],
    /// How many fields there are.
    pub fields: usize,
    /// The address of the octets of a body.
    pub octets: *const u8,
    /// Their number.
    pub length: usize,
    /// Of DATA: how many octets to release, padding included.
    pub flow: u32,
}

const FIELDS: u32 = 10;

const DATA: u32 = 11;

const RESET: u32 = 5;

const UNPROCESSED: u32 = 6;

const GO_AWAY: u32 = 7;

const ACKED: u32 = 8;

const PONG: u32 = 9;

impl BjReport {
    /// Clears the event, before a piece is taken.
    pub(crate) fn clear(&mut self, piece: &[u8])
        ensures { self.new ≡ blank_report (address_of piece.entry) }
    {
        self.used = 0;
        self.kind = NOTHING;
        self.stream = 0;
        self.code = 0;
        self.end = 0;
        self.ours = 0;
        self.ping = [0; 8];
        self.fields = 0;
        self.octets = address(piece);
        self.length = 0;
        self.flow = 0;
    }

    // rule: c (own) An event has what was handed out, as numbers and addresses
    /// Stores an event.
    pub(crate) fn say(&mut self, event: Event<&FieldList, &[u8]>)
        ensures { self.new ≡ report_with self.old event.entry }
    {
        match event {
            Event::Fields { id, list, end } => {
                self.kind = FIELDS;
                self.stream = id;
                self.fields = list.len();
                self.end = flag(end);
            }
            Event::Data {
                id,
                bytes,
                flow,
                end,
            } => {
                self.kind = DATA;
                self.stream = id;
                self.octets = address(bytes);
                self.length = bytes.len();
                self.flow = flow;
                self.end = flag(end);
            }
            Event::Reset { id, code, ours } => {
                self.kind = RESET;
                self.stream = id;
                self.code = code;
                self.ours = flag(ours);
            }
            Event::Unprocessed { id } => {
                self.kind = UNPROCESSED;
                self.stream = id;
            }
            Event::GoAway { last, code } => {
                self.kind = GO_AWAY;
                self.stream = last;
                self.code = code;
            }
            Event::Acked => self.kind = ACKED,
            Event::Pong { octets } => {
                self.kind = PONG;
                self.ping = octets;
            }
        }
    }
}
