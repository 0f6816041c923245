//! The calls of a connection without the rules of messages.

ghost use Rattle.std.specs.Prelude.{◌≡◌, ◌≢◌, None};
ghost use Rattle.h2_flow.specs.Configs.{first_bad};
ghost use Rattle.h2_spec_log.specs.Acts.{Release, Widen, ResetStream, Refuse, SendPing};
ghost use Rattle.h2_spec_log.specs.Acts.{SendGoAway};
ghost use Rattle.h2_spec_log.specs.Acts.{ChangeSettings, Fail, SendFields};
ghost use Rattle.belkjoef.specs.Calls.{OnPlace};
ghost use Rattle.belkjoef.specs.Configs.{values_given, WithinBounds};
ghost use Rattle.belkjoef.specs.Conns.{DoesConn, DoesConnWith, ActsOnConn, ShowsOnConn};
ghost use Rattle.belkjoef.specs.Conns.{OpensOnConn, SendsOnConn, AnswersOfConn, RefusesToOpen};
ghost use Rattle.belkjoef.specs.Conns.{refusal_answer};
ghost use Rattle.belkjoef.specs.Given.{fields_given, Copies, WithCode, stream_or};
ghost use Rattle.belkjoef.specs.Numbers.{answer_number, count_in, ok};

use crate::config::BjConfig;
use crate::conn::{BjConn, HeldConn};
use crate::fields::BjField;
use crate::kept::recopy;
use crate::numbers::{BAD_CODE, EMPTY, MEMORY, OK, of_answer, of_config, of_count, of_refusal};
use h2_conn::Code;
use h2_ends::Field;
use std::alloc::Global;

// contract: c (own) A call of C's is that of the end in its place
/// Releases `count` octets on a stream, so that the peer may send as many more.
#[unsafe(no_mangle)]
pub extern "C" fn bj_conn_release(alloc: Global, conn: &mut BjConn, stream: u32, count: u32) -> i32
    ensures { OnPlace result (DoesConn answer_number (ActsOnConn (Release stream count)) result)
        conn.old.held conn.new.held }
{
    let Some(mut held) = conn.open(alloc) else {
        return EMPTY;
    };
    let answer = held.conn.release(stream, count);
    conn.keep(held);
    of_answer(answer)
}

// contract: c (own) A call of C's is that of the end in its place
/// Lets the peer send `count` octets more on the connection, for good.
#[unsafe(no_mangle)]
pub extern "C" fn bj_conn_widen(alloc: Global, conn: &mut BjConn, count: u32) -> i32
    ensures { OnPlace result (DoesConn answer_number (ActsOnConn (Widen count)) result)
        conn.old.held conn.new.held }
{
    let Some(mut held) = conn.open(alloc) else {
        return EMPTY;
    };
    let answer = held.conn.widen(count);
    conn.keep(held);
    of_answer(answer)
}

// contract: c (own) A call of C's is that of the end in its place
/// Resets a stream with a code.
#[unsafe(no_mangle)]
pub extern "C" fn bj_conn_reset(alloc: Global, conn: &mut BjConn, stream: u32, code: u32) -> i32
    ensures { OnPlace result (DoesConn answer_number (ActsOnConn (ResetStream stream code)) result)
        conn.old.held conn.new.held }
{
    let Some(mut held) = conn.open(alloc) else {
        return EMPTY;
    };
    let answer = held.conn.reset(stream, code);
    conn.keep(held);
    of_answer(answer)
}

// contract: c (own) A call of C's is that of the end in its place
/// Resets a stream for a fault of the peer that the caller has found.
#[unsafe(no_mangle)]
pub extern "C" fn bj_conn_refuse(alloc: Global, conn: &mut BjConn, stream: u32, code: u32) -> i32
    ensures { OnPlace result (DoesConn answer_number (ShowsOnConn (Refuse stream code)) result)
        conn.old.held conn.new.held }
{
    let Some(mut held) = conn.open(alloc) else {
        return EMPTY;
    };
    let answer = held.conn.refuse(stream, code);
    conn.keep(held);
    of_answer(answer)
}

// contract: c (own) A call of C's is that of the end in its place
/// Sends PING.
#[unsafe(no_mangle)]
pub extern "C" fn bj_conn_ping(alloc: Global, conn: &mut BjConn, octets: &[u8; 8]) -> i32
    ensures { OnPlace result (DoesConn answer_number (ActsOnConn (SendPing octets.now)) result)
        conn.old.held conn.new.held }
{
    let Some(mut held) = conn.open(alloc) else {
        return EMPTY;
    };
    let answer = held.conn.ping(*octets);
    conn.keep(held);
    of_answer(answer)
}

// contract: c (own) A call of C's is that of the end in its place
/// Sends GOAWAY.
#[unsafe(no_mangle)]
pub extern "C" fn bj_conn_go_away(alloc: Global, conn: &mut BjConn) -> i32
    ensures { OnPlace result (DoesConn answer_number (ActsOnConn SendGoAway) result)
        conn.old.held conn.new.held }
{
    let Some(mut held) = conn.open(alloc) else {
        return EMPTY;
    };
    let answer = held.conn.go_away();
    conn.keep(held);
    of_answer(answer)
}

// contract: c (own) A call of C's is that of the end in its place
/// Sends octets of a body, as many as windows allow, and stores how many.
#[unsafe(no_mangle)]
pub extern "C" fn bj_conn_send_data(
    alloc: Global,
    conn: &mut BjConn,
    stream: u32,
    octets: &[u8],
    ends: bool,
    sent: &mut usize,
) -> i32
    ensures call { OnPlace result (DoesConnWith answer_number count_in
        (SendsOnConn stream octets.now ends) result sent.new) conn.old.held conn.new.held }
    ensures unheld { conn.old.held ≡ None → sent.new ≡ 0 }
{
    *sent = 0;
    let Some(mut held) = conn.open(alloc) else {
        return EMPTY;
    };
    let answer = held.conn.data(stream, octets, ends);
    conn.keep(held);
    of_count(answer, sent)
}

// contract: c (own) A call of C's is that of the end in its place
/// Changes this end's settings.
#[unsafe(no_mangle)]
pub extern "C" fn bj_conn_change_settings(
    alloc: Global,
    conn: &mut BjConn,
    config: &BjConfig,
) -> i32
    ensures { OnPlace result (WithinBounds (first_bad (values_given config.now)) result
        (DoesConn answer_number (ActsOnConn (ChangeSettings (values_given config.now))) result))
        conn.old.held conn.new.held }
{
    let Some(mut held) = conn.open(alloc) else {
        return EMPTY;
    };
    let answer = held.change(config);
    conn.keep(held);
    answer
}

// contract: c (own) A call of C's is that of the end in its place
/// Fails the connection with an error code.
#[unsafe(no_mangle)]
pub extern "C" fn bj_conn_fail(alloc: Global, conn: &mut BjConn, code: u32) -> i32
    ensures { OnPlace result
        (WithCode code result (λ code. DoesConn answer_number (ActsOnConn (Fail code)) result))
        conn.old.held conn.new.held }
{
    let Some(mut held) = conn.open(alloc) else {
        return EMPTY;
    };
    let answer = held.fail_with(code);
    conn.keep(held);
    answer
}

// contract: c (own) What C gives is copied; without memory nothing has changed
/// Opens a stream with a field section, and stores its number.
#[unsafe(no_mangle)]
pub extern "C" fn bj_conn_open(
    alloc: Global,
    conn: &mut BjConn,
    fields: &[BjField<'_>],
    ends: bool,
    stream: &mut u32,
) -> i32
    ensures call { OnPlace result (Copies result (DoesConnWith answer_number (stream_or stream.old)
        (OpensOnConn (fields_given fields.now) ends) result stream.new))
        conn.old.held conn.new.held }
    ensures refused { result ≢ ok → stream.new ≡ stream.old }
{
    let Some(mut held) = conn.open(alloc) else {
        return EMPTY;
    };
    let answer = held.open_with(alloc, fields, ends, stream);
    conn.keep(held);
    answer
}

// contract: c (own) What C gives is copied; without memory nothing has changed
/// Returns the error that `bj_conn_open` would return for a field section, except for its last
/// BJ_MEMORY.
#[unsafe(no_mangle)]
pub extern "C" fn bj_conn_refusal_to_open(
    alloc: Global,
    conn: &mut BjConn,
    fields: &[BjField<'_>],
) -> i32
    ensures { OnPlace result (Copies result (AnswersOfConn refusal_answer
        (RefusesToOpen (fields_given fields.now)) result)) conn.old.held conn.new.held }
{
    let Some(mut held) = conn.open(alloc) else {
        return EMPTY;
    };
    let answer = held.refusal_with(alloc, fields);
    conn.keep(held);
    answer
}

// contract: c (own) What C gives is copied; without memory nothing has changed
/// Sends a further field section on a stream.
#[unsafe(no_mangle)]
pub extern "C" fn bj_conn_send_fields(
    alloc: Global,
    conn: &mut BjConn,
    stream: u32,
    fields: &[BjField<'_>],
    ends: bool,
) -> i32
    ensures { OnPlace result (Copies result (DoesConn answer_number
        (ActsOnConn (SendFields stream (fields_given fields.now) ends)) result))
        conn.old.held conn.new.held }
{
    let Some(mut held) = conn.open(alloc) else {
        return EMPTY;
    };
    let answer = held.send_fields_with(alloc, stream, fields, ends);
    conn.keep(held);
    answer
}

impl HeldConn {
    /// Changes the settings, if each value is within its bounds.
    fn change(&mut self, config: &BjConfig) -> i32
        ensures { WithinBounds (first_bad (values_given config.now)) result
            (DoesConn answer_number (ActsOnConn (ChangeSettings (values_given config.now)))
            result) self.old self.new }
    {
        match config.config() {
            Ok(config) => of_answer(self.conn.change_settings(config)),
            Err(bad) => of_config(bad),
        }
    }

    /// Fails the connection with the error code of this number, if there is one.
    fn fail_with(&mut self, code: u32) -> i32
        ensures { WithCode code result
            (λ code. DoesConn answer_number (ActsOnConn (Fail code)) result) self.old self.new }
    {
        match Code::from_number(code) {
            Some(code) => of_answer(self.conn.fail(code)),
            None => BAD_CODE,
        }
    }

    /// Opens a stream with fields that C gives.
    fn open_with(
        &mut self,
        alloc: Global,
        fields: &[BjField<'_>],
        ends: bool,
        stream: &mut u32,
    ) -> i32
        ensures call { Copies result (DoesConnWith answer_number (stream_or stream.old)
            (OpensOnConn (fields_given fields.now) ends) result stream.new) self.old self.new }
        ensures refused { result ≢ ok → stream.new ≡ stream.old }
    {
        let mut copies = self.fields.take(alloc);
        let answer = self.open_copied(alloc, fields, ends, stream, &mut copies);
        self.fields.keep(copies);
        answer
    }

    /// Opens a stream with copies of fields.
    fn open_copied(
        &mut self,
        alloc: Global,
        fields: &[BjField<'_>],
        ends: bool,
        stream: &mut u32,
        copies: &mut Vec<Field>,
    ) -> i32
        ensures call { Copies result (DoesConnWith answer_number (stream_or stream.old)
            (OpensOnConn (fields_given fields.now) ends) result stream.new) self.old self.new }
        ensures refused { result ≢ ok → stream.new ≡ stream.old }
    {
        match recopy(alloc, fields, copies) {
            Ok(()) => self.open(copies, ends, stream),
            Err(_) => MEMORY,
        }
    }

    /// Opens a stream.
    fn open(&mut self, fields: &[Field], ends: bool, stream: &mut u32) -> i32
        ensures call { DoesConnWith answer_number (stream_or stream.old)
            (OpensOnConn fields.now ends) result stream.new self.old self.new }
        ensures refused { result ≢ ok → stream.new ≡ stream.old }
    {
        match self.conn.open(fields, ends) {
            Ok(id) => {
                *stream = id;
                OK
            }
            Err(refusal) => of_refusal(refusal),
        }
    }

    /// Returns the error with which a stream would not be opened with fields that C gives, or
    /// 0.
    fn refusal_with(&mut self, alloc: Global, fields: &[BjField<'_>]) -> i32
        ensures { Copies result (AnswersOfConn refusal_answer
            (RefusesToOpen (fields_given fields.now)) result) self.old self.new }
    {
        let mut copies = self.fields.take(alloc);
        let answer = self.refusal_copied(alloc, fields, &mut copies);
        self.fields.keep(copies);
        answer
    }

    /// Returns the error with which a stream would not be opened with copies of fields, or 0.
    fn refusal_copied(&self, alloc: Global, fields: &[BjField<'_>], copies: &mut Vec<Field>) -> i32
        ensures { Copies result (AnswersOfConn refusal_answer
            (RefusesToOpen (fields_given fields.now)) result) self.now self.now }
    {
        match recopy(alloc, fields, copies) {
            Ok(()) => self.refusal(copies),
            Err(_) => MEMORY,
        }
    }

    /// Returns the error with which a stream would not be opened, or 0.
    fn refusal(&self, fields: &[Field]) -> i32
        ensures { AnswersOfConn refusal_answer (RefusesToOpen fields.now) result self.now
            self.now }
    {
        match self.conn.refusal_to_open(fields) {
            Some(refusal) => of_refusal(refusal),
            None => OK,
        }
    }

    /// Sends fields that C gives.
    fn send_fields_with(
        &mut self,
        alloc: Global,
        stream: u32,
        fields: &[BjField<'_>],
        ends: bool,
    ) -> i32
        ensures { Copies result (DoesConn answer_number
            (ActsOnConn (SendFields stream (fields_given fields.now) ends)) result)
            self.old self.new }
    {
        let mut copies = self.fields.take(alloc);
        let answer = self.send_fields_copied(alloc, stream, fields, ends, &mut copies);
        self.fields.keep(copies);
        answer
    }

    /// Sends copies of fields.
    fn send_fields_copied(
        &mut self,
        alloc: Global,
        stream: u32,
        fields: &[BjField<'_>],
        ends: bool,
        copies: &mut Vec<Field>,
    ) -> i32
        ensures { Copies result (DoesConn answer_number
            (ActsOnConn (SendFields stream (fields_given fields.now) ends)) result)
            self.old self.new }
    {
        match recopy(alloc, fields, copies) {
            Ok(()) => of_answer(self.conn.fields(stream, copies, ends)),
            Err(_) => MEMORY,
        }
    }
}
