//! The calls of an end that are its connection's.

ghost use Rattle.std.specs.Prelude.{◌≡◌};
ghost use Rattle.h2_flow.specs.Configs.{first_bad};
ghost use Rattle.h2_spec_log.specs.Acts.{Release, Widen, ResetStream, SendPing, SendGoAway};
ghost use Rattle.h2_spec_log.specs.Acts.{ChangeSettings, Fail};
ghost use Rattle.h2_ends.specs.Represents.{EndReleases};
ghost use Rattle.belkjoef.specs.Calls.{OnPlace, Answers, ActsOnEnd};
ghost use Rattle.belkjoef.specs.Configs.{values_given, WithinBounds};
ghost use Rattle.belkjoef.specs.Given.{WithCode};
ghost use Rattle.belkjoef.specs.Numbers.{answer_number, end_answer_number};

use crate::config::BjConfig;
use crate::held::Held;
use crate::numbers::{BAD_CODE, EMPTY, of_answer, of_config, of_end_answer};
use crate::place::BjEnd;
use h2_ends::Code;
use std::alloc::Global;

// contract: c (own) A call of C's is that of the end in its place
/// Releases octets of a body that was handed out, so that the peer may send as many more.
#[unsafe(no_mangle)]
pub extern "C" fn bj_release(alloc: Global, end: &mut BjEnd, stream: u32, count: u32) -> i32
    ensures { OnPlace result (Answers answer_number (ActsOnEnd (Release stream count)) result)
        end.old.held end.new.held }
{
    let Some(mut held) = end.open(alloc) else {
        return EMPTY;
    };
    let answer = held.release(stream, count);
    end.keep(held);
    of_answer(answer)
}

// contract: c (own) A call of C's is that of the end in its place
/// Releases all that is owed, on every stream.
#[unsafe(no_mangle)]
pub extern "C" fn bj_release_all(alloc: Global, end: &mut BjEnd) -> i32
    ensures { OnPlace result (Answers end_answer_number EndReleases result)
        end.old.held end.new.held }
{
    let Some(mut held) = end.open(alloc) else {
        return EMPTY;
    };
    let answer = held.release_all();
    end.keep(held);
    of_end_answer(answer)
}

// contract: c (own) A call of C's is that of the end in its place
/// Lets the peer send `count` octets more on the connection, for good.
#[unsafe(no_mangle)]
pub extern "C" fn bj_widen(alloc: Global, end: &mut BjEnd, count: u32) -> i32
    ensures { OnPlace result (Answers answer_number (ActsOnEnd (Widen count)) result)
        end.old.held end.new.held }
{
    let Some(mut held) = end.open(alloc) else {
        return EMPTY;
    };
    let answer = held.widen(count);
    end.keep(held);
    of_answer(answer)
}

// contract: c (own) A call of C's is that of the end in its place
/// Resets a stream with a code.
#[unsafe(no_mangle)]
pub extern "C" fn bj_reset(alloc: Global, end: &mut BjEnd, stream: u32, code: u32) -> i32
    ensures { OnPlace result (Answers answer_number (ActsOnEnd (ResetStream stream code)) result)
        end.old.held end.new.held }
{
    let Some(mut held) = end.open(alloc) else {
        return EMPTY;
    };
    let answer = held.reset(stream, code);
    end.keep(held);
    of_answer(answer)
}

// contract: c (own) A call of C's is that of the end in its place
/// Sends PING.
#[unsafe(no_mangle)]
pub extern "C" fn bj_ping(alloc: Global, end: &mut BjEnd, octets: &[u8; 8]) -> i32
    ensures { OnPlace result (Answers answer_number (ActsOnEnd (SendPing octets.now)) result)
        end.old.held end.new.held }
{
    let Some(mut held) = end.open(alloc) else {
        return EMPTY;
    };
    let answer = held.ping(*octets);
    end.keep(held);
    of_answer(answer)
}

// contract: c (own) A call of C's is that of the end in its place
/// Sends GOAWAY.
#[unsafe(no_mangle)]
pub extern "C" fn bj_go_away(alloc: Global, end: &mut BjEnd) -> i32
    ensures { OnPlace result (Answers answer_number (ActsOnEnd SendGoAway) result)
        end.old.held end.new.held }
{
    let Some(mut held) = end.open(alloc) else {
        return EMPTY;
    };
    let answer = held.go_away();
    end.keep(held);
    of_answer(answer)
}

// contract: c (own) A call of C's is that of the end in its place
/// Changes this end's settings.
#[unsafe(no_mangle)]
pub extern "C" fn bj_change_settings(alloc: Global, end: &mut BjEnd, config: &BjConfig) -> i32
    ensures { OnPlace result (WithinBounds (first_bad (values_given config.now)) result
        (Answers answer_number (ActsOnEnd (ChangeSettings (values_given config.now))) result))
        end.old.held end.new.held }
{
    let Some(mut held) = end.open(alloc) else {
        return EMPTY;
    };
    let answer = held.change(config);
    end.keep(held);
    answer
}

impl Held {
    /// Changes the settings, if each value is within its bounds.
    fn change(&mut self, config: &BjConfig) -> i32
        ensures { WithinBounds (first_bad (values_given config.now)) result
            (Answers answer_number (ActsOnEnd (ChangeSettings (values_given config.now))) result)
            self.old self.new }
    {
        match config.config() {
            Ok(config) => of_answer(self.change_settings(config)),
            Err(bad) => of_config(bad),
        }
    }

    /// Fails the connection with the error code of this number, if there is one.
    fn fail_with(&mut self, code: u32) -> i32
        ensures { WithCode code result
            (λ code. Answers answer_number (ActsOnEnd (Fail code)) result) self.old self.new }
    {
        match Code::from_number(code) {
            Some(code) => of_answer(self.fail(code)),
            None => BAD_CODE,
        }
    }
}

// contract: c (own) A call of C's is that of the end in its place
/// Fails the connection with an error code.
#[unsafe(no_mangle)]
pub extern "C" fn bj_fail(alloc: Global, end: &mut BjEnd, code: u32) -> i32
    ensures { OnPlace result
        (WithCode code result (λ code. Answers answer_number (ActsOnEnd (Fail code)) result))
        end.old.held end.new.held }
{
    let Some(mut held) = end.open(alloc) else {
        return EMPTY;
    };
    let answer = held.fail_with(code);
    end.keep(held);
    answer
}
