//! The numbers of an end of a connection, and which of them have changed.

use crate::answers::add_option;
use h2_case::text::Text;
use h2_conn::Conn;
use std::alloc::Global;

/// A number of an end, or of one of its streams.
#[derive(Clone, Copy, PartialEq, Eq)]
pub(crate) struct Number {
    name: &'static str,
    /// The stream; 0 for the connection.
    id: u32,
    value: Option<i64>,
}

// A count.
fn wide(count: usize) -> Option<i64> {
    Some(i64::try_from(count).unwrap_or(i64::MAX))
}

// Adds a number to others; that memory was refused is noted.
fn push(
    numbers: &mut Vec<Number>,
    text: &mut Text,
    name: &'static str,
    id: u32,
    value: Option<i64>,
) {
    if numbers.push(Number { name, id, value }).is_err() {
        text.refuse();
    }
}

// Adds the numbers of each active stream, the number of these and the sum of theirs.
fn push_streams(numbers: &mut Vec<Number>, text: &mut Text, conn: &Conn) {
    let (mut last, mut count, mut sum) = (0u32, 0usize, 0i64);
    for _ in 0..u32::MAX {
        let Some(id) = conn.next_live(last) else {
            break;
        };
        push(numbers, text, "room", id, conn.room(id));
        push(numbers, text, "owed", id, Some(i64::from(conn.owed(id))));
        last = id;
        count = count.saturating_add(1);
        sum = sum.saturating_add(i64::from(id));
    }
    push(numbers, text, "live", 0, wide(count));
    push(numbers, text, "sum", 0, Some(sum));
}

/// The numbers of an end: how many octets are queued and held, what is due, how much may be sent;
/// how much of it on each active stream and what is owed there; and how many these are, and the
/// sum of their numbers.
pub(crate) fn numbers_of(alloc: Global, conn: &Conn, text: &mut Text) -> Vec<Number> {
    let mut numbers = Vec::new(alloc);
    push(&mut numbers, text, "waiting", 0, wide(conn.waiting()));
    push(&mut numbers, text, "held", 0, wide(conn.held()));
    push(&mut numbers, text, "due", 0, Some(i64::from(conn.due())));
    push(&mut numbers, text, "room", 0, conn.room(0));
    push_streams(&mut numbers, text, conn);
    numbers
}

// What follows a number among others, if it is there.
fn after<'a>(numbers: &'a [Number], number: &Number) -> Option<&'a [Number]> {
    let mut left = numbers;
    for _ in 0..numbers.len() {
        let [first, others @ ..] = left else {
            break;
        };
        if first == number {
            return Some(others);
        }
        left = others;
    }
    None
}

// Adds the line of a number: its name, its stream where it is of one, and its value.
fn add_number(number: &Number, text: &mut Text) {
    text.push_labeled(number.name, " ");
    if number.id > 0 {
        text.push_value(number.id);
        text.push_str(" ");
    }
    add_option(text, number.value);
}

/// Adds the lines of the numbers that are not among those before; both stand in the same order.
pub(crate) fn add_changed(before: &[Number], now: &[Number], text: &mut Text) {
    let mut left = before;
    for number in now {
        match after(left, number) {
            Some(others) => left = others,
            None => add_number(number, text),
        }
    }
}
