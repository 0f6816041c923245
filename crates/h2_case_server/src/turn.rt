//! The turn of a connection, as `h2_mio` gives it: one read, the act, and writes.

use crate::client::Client;
use crate::served::{Fate, Place, Served};
use h2_case::words::Words;

/// The most writes of a turn.
const MOST_WRITES: usize = 16;

/// Gives a connection its turn.
pub(crate) fn give_turn(
    served: &mut Served<'_>,
    place: Place,
    client: &mut Client,
    words: &mut Words<'_>,
) -> Fate {
    if take_input(served, place, client) == Fate::Over || served.act(place) == Fate::Over {
        let _ = write_output(served, place, client, words);
        return Fate::Over;
    }
    write_output(served, place, client, words)
}

// Reads once, if the connection takes octets.
fn take_input(served: &mut Served<'_>, place: Place, client: &mut Client) -> Fate {
    let size = served.read_size(place);
    if size == 0 {
        return Fate::Goes;
    }
    let unread = client.unread();
    let piece = unread.get(..size).unwrap_or(unread);
    let count = piece.len();
    if count == 0 {
        return take_nothing(served, place, client.has_ended);
    }
    let fate = served.came(place, piece);
    client.mark_read(count);
    if fate == Fate::Over || !client.has_ended {
        return fate;
    }
    served.ready(place, true, false)
}

// No octets are there to be read.
fn take_nothing(served: &mut Served<'_>, place: Place, has_ended: bool) -> Fate {
    if has_ended {
        served.ended(place)
    } else {
        served.none_came(place)
    }
}

// Writes until no output is queued, the client takes no more, or the turn is used up.
fn write_output(
    served: &mut Served<'_>,
    place: Place,
    client: &mut Client,
    words: &mut Words<'_>,
) -> Fate {
    for _ in 0..MOST_WRITES {
        let (first, second) = served.output(place);
        let length = first.len().saturating_add(second.len());
        if length == 0 {
            return Fate::Goes;
        }
        let count = client.write(first, second, words);
        if count == 0 {
            return served.none_went(place);
        }
        if served.went(place, count) == Fate::Over {
            return Fate::Over;
        }
        if count < length {
            return served.none_went(place);
        }
    }
    Fate::Goes
}
