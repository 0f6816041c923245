//! Taking octets, without the rules of messages.

ghost use Rattle.std.specs.Prelude.{◌≡◌, None};
ghost use Rattle.belkjoef.specs.Calls.{OnPlace};
ghost use Rattle.belkjoef.specs.ConnEvents.{TakesReport, TakesConn, blank_report};
ghost use Rattle.belkjoef.specs.Events.{address_of};

use crate::conn::BjConn;
use crate::conn_event::BjReport;
use crate::numbers::{EMPTY, FAILED, OK};
use h2_conn::Conn;
use std::alloc::Global;

// contract: c (own) An event has what was handed out, as numbers and addresses
/// Takes octets of a piece, up to the end of one frame or else all of them, and stores the
/// event.
#[unsafe(no_mangle)]
pub extern "C" fn bj_conn_take(
    alloc: Global,
    conn: &mut BjConn,
    octets: &[u8],
    report: &mut BjReport,
) -> i32
    ensures call { OnPlace result (TakesConn octets.now (blank_report (address_of octets.entry))
        report.new result) conn.old.held conn.new.held }
    ensures unheld { conn.old.held ≡ None → report.new ≡ blank_report (address_of octets.entry) }
{
    report.clear(octets);
    let Some(mut held) = conn.open(alloc) else {
        return EMPTY;
    };
    let answer = conn_takes(&mut held.conn, octets, report);
    conn.keep(held);
    answer
}

/// Takes octets, and stores the event.
fn conn_takes(conn: &mut Conn, octets: &[u8], report: &mut BjReport) -> i32
    ensures { TakesReport conn.old octets.now report.old report.new result conn.new }
{
    match conn.take(octets) {
        Ok(taken) => {
            report.used = taken.used;
            match taken.event {
                Some(reported) => report.say(reported),
                None => {}
            }
            OK
        }
        Err(fault) => {
            report.code = fault.code.number();
            FAILED
        }
    }
}
