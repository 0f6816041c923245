//! The lines of the events that follow an end's own calls, which no input makes.

use h2_conn::Event;
use h2_events::write_event;
use std::test::Fail;

#[test]
fn events_of_own_calls(rt: HostRuntime) -> Result<(), Fail> {
    let mut out = Vec::new(rt.alloc());
    write_event(Event::Unprocessed { id: 3 }, &mut out)?;
    let octets = [0, 1, 2, 3, 4, 5, 254, 255];
    write_event(Event::Pong { octets }, &mut out)?;
    assert_eq!(rt;
        out.as_slice(),
        b"unprocessed 3\npong 000102030405feff\n".as_slice()
    );
    Ok(())
}
