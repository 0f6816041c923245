//! The numbers of errors: negative, one for each condition.

ghost use Rattle.std.specs.Prelude.{◌≡◌};
ghost use Rattle.belkjoef.specs.Numbers.{config_number, refusal_number, rule_number, end_number};
ghost use Rattle.belkjoef.specs.Numbers.{answer_number, end_answer_number, count_in};
ghost use Rattle.belkjoef.specs.Given.{reply_number};
ghost use Rattle.belkjoef.specs.WhyNumbers.{why_number};
ghost use Rattle.belkjoef.specs.Coders.{decoded_number};

use h2_ends::{BadConfig, EndRefusal, Malformed, Message, Refusal, Why};
use hpack::{Decoded, Fault};

/// No error.
pub(crate) const OK: i32 = 0;
/// The place holds nothing.
pub(crate) const EMPTY: i32 = -1;
/// The place already holds something.
pub(crate) const HELD: i32 = -2;
/// The call is one of the other role: of a server on a client, or of a client on a server.
pub(crate) const ROLE: i32 = -3;
/// The connection has failed.
pub(crate) const FAILED: i32 = -4;
/// There is no such field.
pub(crate) const NO_FIELD: i32 = -5;
/// There is no such value.
pub(crate) const NONE: i32 = -6;
/// The number is no error code.
pub(crate) const BAD_CODE: i32 = -7;
/// C10: the field list is larger than 65,536 octets.
pub(crate) const LIST_TOO_LARGE: i32 = -30;
/// C12: out of memory.
pub(crate) const MEMORY: i32 = -32;

// rule: c (own) Each error has its number
/// Returns the number of a bad configuration.
pub(crate) fn of_config(bad: BadConfig) -> i32
    ensures { result ≡ config_number bad }
{
    match bad {
        BadConfig::TableLimit => -11,
        BadConfig::InitialWindow => -12,
        BadConfig::MaxStreams => -13,
        BadConfig::MaxFrame => -14,
    }
}

// rule: c (own) Each error has its number
/// Returns the number of a refusal of the connection: C1 is -21.
pub(crate) fn of_refusal(refusal: Refusal) -> i32
    ensures { result ≡ refusal_number refusal }
{
    match refusal {
        Refusal::Closed => -21,
        Refusal::NoSuchStream => -22,
        Refusal::Ended => -23,
        Refusal::TooManyStreams => -24,
        Refusal::StreamsExhausted => -25,
        Refusal::GoingAway => -26,
        Refusal::OutputFull => -27,
        Refusal::PingWaits => -28,
        Refusal::TooManyResets => -29,
        Refusal::ListTooLarge => LIST_TOO_LARGE,
        Refusal::NotOwed => -31,
        Refusal::Memory => MEMORY,
        Refusal::SettingsWait => -33,
        Refusal::WindowTooLarge => -34,
    }
}

// rule: c (own) Each error has its number
/// Returns the number of a rule that a message breaks: M1 is -41.
pub(crate) fn of_rule(rule: Malformed) -> i32
    ensures { result ≡ rule_number rule }
{
    match rule {
        Malformed::BadName => -41,
        Malformed::BadValue => -42,
        Malformed::PseudoPlace => -43,
        Malformed::PseudoUnknown => -44,
        Malformed::PseudoTwice => -45,
        Malformed::PseudoMissing => -46,
        Malformed::BadMethod => -47,
        Malformed::BadPath => -48,
        Malformed::BadStatus => -49,
        Malformed::ConnectionField => -50,
        Malformed::BadLength => -51,
        Malformed::BadOrder => -52,
    }
}

// rule: c (own) Each error has its number
/// Returns the number of a refusal of an end.
pub(crate) fn of_end_refusal(refusal: EndRefusal) -> i32
    ensures { result ≡ end_number refusal }
{
    match refusal {
        EndRefusal::BadMessage(rule) => of_rule(rule),
        EndRefusal::Conn(refusal) => of_refusal(refusal),
        EndRefusal::NotAsked => -61,
        EndRefusal::Answered => -62,
    }
}

// rule: c (own) Each error has its number
/// Returns 0, or the number of the fault for which there is no list.
pub(crate) fn of_decoded(answer: Result<Decoded, Fault>) -> i32
    ensures { result ≡ decoded_number answer }
{
    match answer {
        Ok(Decoded::Whole) => OK,
        Ok(Decoded::TooLarge) => LIST_TOO_LARGE,
        Err(Fault::Compression) => -71,
        Err(Fault::Memory) => MEMORY,
        Err(Fault::Failed) => -72,
    }
}

/// Returns 0, or the number of the refusal.
pub(crate) fn of_answer(answer: Result<(), Refusal>) -> i32
    ensures { result ≡ answer_number answer }
{
    match answer {
        Ok(()) => OK,
        Err(refusal) => of_refusal(refusal),
    }
}

/// Returns 0, or the number of the refusal with which the message was handed back.
pub(crate) fn of_reply(answer: Result<(), (Message, EndRefusal)>) -> i32
    ensures { result ≡ reply_number answer }
{
    match answer {
        Ok(()) => OK,
        Err((_, refusal)) => of_end_refusal(refusal),
    }
}

/// Returns 0, or the number of the refusal.
pub(crate) fn of_end_answer(answer: Result<(), EndRefusal>) -> i32
    ensures { result ≡ end_answer_number answer }
{
    match answer {
        Ok(()) => OK,
        Err(refusal) => of_end_refusal(refusal),
    }
}

/// Returns 0 and stores the count, or returns the number of the refusal and stores 0.
pub(crate) fn of_count(answer: Result<usize, Refusal>, count: &mut usize) -> i32
    ensures number { result ≡ answer_number answer }
    ensures count { count.new ≡ count_in answer }
{
    match answer {
        Ok(given) => {
            *count = given;
            OK
        }
        Err(refusal) => {
            *count = 0;
            of_refusal(refusal)
        }
    }
}

/// Returns 0 and stores the count, or returns the number of the refusal and stores 0.
pub(crate) fn of_end_count(answer: Result<usize, EndRefusal>, count: &mut usize) -> i32
    ensures number { result ≡ end_answer_number answer }
    ensures count { count.new ≡ count_in answer }
{
    match answer {
        Ok(given) => {
            *count = given;
            OK
        }
        Err(refusal) => {
            *count = 0;
            of_end_refusal(refusal)
        }
    }
}

/// Returns the number of a reason: its place in [`Why`], from 1 to 27.
pub(crate) fn of_why(why: Why) -> u32
    ensures { result ≡ why_number why }
{
    match why {
        Why::BadPreface => 1,
        Why::FrameTooLong => 2,
        Why::PushPromise => 3,
        Why::WrongStream => 4,
        Why::WrongLength => 5,
        Why::PaddingTooLong => 6,
        Why::FirstFrameNotSettings => 7,
        Why::BlockInterrupted => 8,
        Why::StrayContinuation => 9,
        Why::BlockTooLong => 10,
        Why::BlockNotDecoded => 11,
        Why::FrameOnIdleStream => 12,
        Why::DataOnClosedStream => 13,
        Why::BlockOnClosedStream => 14,
        Why::BlockOnIdleNumber => 15,
        Why::DataAboveConnectionWindow => 16,
        Why::DataAboveStreamWindow => 17,
        Why::ZeroConnectionIncrement => 18,
        Why::ConnectionWindowTooLarge => 19,
        Why::BadEnablePush => 20,
        Why::BadInitialWindow => 21,
        Why::BadMaxFrameSize => 22,
        Why::ShiftTooLarge => 23,
        Why::TooManyResets => 24,
        Why::TooMuchOutput => 25,
        Why::OutOfMemory => 26,
        Why::EndedAbove(_) => 27,
    }
}
