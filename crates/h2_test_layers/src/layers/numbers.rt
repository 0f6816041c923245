//! Values by the numbers of streams.

use h2_numbers::{NumberMap, NumberTable};

// Whether these values are at 1, 3 and 5.
fn has(map: &NumberMap<u8>, values: [Option<u8>; 3]) -> bool {
    [
        map.get(1).copied(),
        map.get(3).copied(),
        map.get(5).copied(),
    ] == values
}

// Changes the value at a number, if there is one.
fn changes(map: &mut NumberMap<u8>, id: u32, value: u8) -> bool {
    match map.get_mut(id) {
        Some(held) => {
            *held = value;
            true
        }
        None => false,
    }
}

// Whether what is put in is found at its number, and then another value that is put there.
fn puts(map: &mut NumberMap<u8>) -> bool {
    map.insert(1, 10).is_ok()
        && map.insert(5, 50).is_ok()
        && map.insert(3, 30).is_ok()
        && has(map, [Some(10), Some(30), Some(50)])
        && map.insert(1, 11).is_ok()
        && has(map, [Some(11), Some(30), Some(50)])
}

#[test]
fn values_are_found_at_their_numbers(rt: HostRuntime) {
    assert!(rt; puts(&mut NumberMap::new(rt.alloc())));
}

#[test]
fn a_value_is_changed_at_its_number(rt: HostRuntime) {
    let mut map = NumberMap::new(rt.alloc());
    assert!(rt;
        puts(&mut map)
            && changes(&mut map, 3, 31)
            && changes(&mut map, 5, 51)
            && !changes(&mut map, 7, 71)
            && has(&map, [Some(11), Some(31), Some(51)])
    );
}

// Whether the one that was put in last goes, and then one that was put in before.
fn takes_out(map: &mut NumberMap<u8>) -> bool {
    map.remove(3);
    let newest_gone = has(map, [Some(11), None, Some(50)]) && map.next_above(1) == Some(5);
    map.remove(1);
    newest_gone && has(map, [None, None, Some(50)]) && map.next_above(0) == Some(5)
}

#[test]
fn a_value_is_taken_out_at_its_number(rt: HostRuntime) {
    let mut map = NumberMap::new(rt.alloc());
    assert!(rt; puts(&mut map) && takes_out(&mut map) && map.next_above(5).is_none());
}

// Puts a value at a number that has none.
fn puts_new(table: &mut NumberTable<u8>, id: u32, value: u8) -> bool {
    table.get(id).is_none() && table.insert(id, value).is_ok()
}

// Whether a table keeps apart what was put in last, and has what was put in before it.
fn keeps_newest(table: &mut NumberTable<u8>) -> bool {
    puts_new(table, 1, 10)
        && table.newest() == Some(&10)
        && table.newest_number() == 1
        && table.older().is_empty()
        && puts_new(table, 3, 30)
        && table.newest() == Some(&30)
        && table.older().get(&1) == Some(&10)
}

#[test]
fn the_newest_value_lies_apart(rt: HostRuntime) {
    assert!(rt; keeps_newest(&mut NumberTable::new(rt.alloc())));
}

// Whether the newest value is taken out, and then one that was put in before it.
fn gives_back(table: &mut NumberTable<u8>) -> bool {
    table.take(3) == Some(30)
        && table.newest().is_none()
        && table.take(1) == Some(10)
        && table.take(1).is_none()
}

#[test]
fn a_value_that_is_taken_is_answered(rt: HostRuntime) {
    let mut table = NumberTable::new(rt.alloc());
    assert!(rt; keeps_newest(&mut table) && gives_back(&mut table));
}
