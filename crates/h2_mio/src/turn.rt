//! The turn of one connection: reads, acts and writes.

ghost use Rattle.std.specs.Prelude.{◌≡◌, [], length};
ghost use Rattle.h2_host.specs.Steps.{AnswersOwn};
ghost use Rattle.h2_mio.specs.DriverRuns.{MakesTurn};

use crate::moved::{Moved, read_once, write_once};
use crate::sockets::Socket;
use crate::transport::Transport;
use h2_host::{Answer, Host, Own, Party, Reply, Step, Token};

/// The maximum number of writes in a turn, enough for parts of 4,096 octets or more.
const MOST_WRITES: usize = 16;

/// Whether a connection goes on.
#[derive(Clone, Copy, Debug, PartialEq, Eq)]
pub(crate) enum Fate {
    /// It does.
    Goes,
    /// It is over: its socket must be closed.
    Over,
}

// contract: hosts (own) In a turn a driver makes steps of one connection alone
// contract: hosts (own) A connection gets just what its socket gave; its output alone goes there
// rule: hosts (own) In a turn a driver makes steps of one connection alone
/// Runs the turn of a connection: reads once if it takes input, lets it act, and writes its
/// output until the socket takes no more or the turn is used up.
pub(crate) fn give_turn<P: Party, S: Transport>(
    host: &mut Host<P>,
    token: Token,
    socket: &mut Socket<S>,
    input: &mut [u8],
) -> Fate
    ensures run { MakesTurn P.steps P.held_of P.output_of token
        (S.given socket.old.stream) (S.given socket.new.stream) (S.taken socket.old.stream)
        (S.taken socket.new.stream) host.new host.old }
    ensures input { length input.new ≡ length input.old }
{
    if take_input(host, token, socket, input) == Fate::Over {
        return last_words(host, token, &mut socket.stream);
    }
    if own_step(host, token, Own::Turn) == Fate::Over {
        return last_words(host, token, &mut socket.stream);
    }
    write_output(host, token, &mut socket.stream)
}

/// Reads once, if the connection takes input. A read of few octets tells the connection that the
/// socket has no more, unless the peer has ended its side: then the socket stays readable. A read
/// that a signal interrupts tells it nothing: it stays ready, and reads in its next turn.
fn take_input<P: Party, S: Transport>(
    host: &mut Host<P>,
    token: Token,
    socket: &mut Socket<S>,
    input: &mut [u8],
) -> Fate
    ensures run { MakesTurn P.steps P.held_of P.output_of token
        (S.given socket.old.stream) (S.given socket.new.stream) (S.taken socket.old.stream)
        (S.taken socket.new.stream) host.new host.old }
    ensures input { length input.new ≡ length input.old }
{
    let size = input.len().min(host.read_size(token));
    if size == 0 {
        return Fate::Goes;
    }
    let room = &mut input[..size];
    match read_once(&mut socket.stream, room) {
        Moved::Octets(count) => {
            let step = Step::Own {
                token,
                own: Own::Came,
            };
            let fate = fate_of(host.step(step, &room[..count]));
            if fate == Fate::Over || !socket.hung_up {
                return fate;
            }
            let ready = Own::Ready {
                reads: true,
                writes: false,
            };
            own_step(host, token, ready)
        }
        Moved::Nothing => own_step(host, token, Own::NoneCame),
        Moved::Interrupted => Fate::Goes,
        Moved::Ended => own_step(host, token, Own::Ended),
        Moved::Broken => Fate::Over,
    }
}

/// Writes the output of a connection from where it lies, two parts at a time, until none is
/// queued, the socket takes no more, a signal interrupts a write, or the turn is used up.
fn write_output<P: Party, S: Transport>(host: &mut Host<P>, token: Token, stream: &mut S) -> Fate
    ensures run { MakesTurn P.steps P.held_of P.output_of token
        (S.given stream.old) (S.given stream.new) (S.taken stream.old)
        (S.taken stream.new) host.new host.old }
{
    for _ in 0..MOST_WRITES {
        let (first, second) = host.output(token);
        let length = first.len().saturating_add(second.len());
        if length == 0 {
            return Fate::Goes;
        }
        match write_once(stream, first, second) {
            Moved::Octets(count) => {
                if own_step(host, token, Own::Went { count }) == Fate::Over {
                    return Fate::Over;
                }
                if count < length {
                    return own_step(host, token, Own::NoneWent);
                }
            }
            Moved::Nothing => return own_step(host, token, Own::NoneWent),
            Moved::Interrupted => return Fate::Goes,
            Moved::Ended | Moved::Broken => return Fate::Over,
        }
    }
    Fate::Goes
}

/// Writes the last output of a closed connection, such as GOAWAY, as much as the socket takes at
/// once.
fn last_words<P: Party, S: Transport>(host: &mut Host<P>, token: Token, stream: &mut S) -> Fate
    ensures run { MakesTurn P.steps P.held_of P.output_of token
        (S.given stream.old) (S.given stream.new) (S.taken stream.old)
        (S.taken stream.new) host.new host.old }
{
    let _ = write_output(host, token, stream);
    Fate::Over
}

/// Makes a step that has no octets.
pub(crate) fn own_step<P: Party>(host: &mut Host<P>, token: Token, own: Own) -> Fate
    ensures answers { (reply : Reply P)
        × AnswersOwn P.steps P.held_of host.old host.new token own [] reply }
{
    fate_of(host.step(Step::Own { token, own }, &[]))
}

/// Whether a connection goes on after this reply.
fn fate_of<P: Drop>(reply: Reply<P>) -> Fate {
    match reply {
        Reply::Own(Answer::Goes) | Reply::NotNow => Fate::Goes,
        _ => Fate::Over,
    }
}
