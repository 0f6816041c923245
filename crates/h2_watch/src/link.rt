//! A link that shows its octets.

ghost use Rattle.std.specs.Prelude.{◌≡◌, ◌<◌, ◌-◌, ◌^◌, IfSome, [], length, take};
ghost use Rattle.std.specs.Io.KnownBytes.{Appends};
ghost use Rattle.std.specs.Io.Slices.{io_slices_bytes};
ghost use Rattle.h2_link.specs.Links.{failures_after, ended_after, stalled_after, Gives, Takes};
ghost use Rattle.h2_watch.specs.WatchedLinks.{ShowsStill, octets_by};
ghost use Rattle.h2_watch.specs.Watches.{HasShown};

use crate::watch::Watch;
use h2_link::{Link, LinkFault};
use h2_show::Side;
use std::alloc::Global;
use std::io::{IoSlice, Write};

/// A link that shows its frames as they are written and read: writes are the client's, reads the
/// server's. If memory is refused or the writer fails, showing stops, and nothing else.
#[derive(Drop)]
pub struct WatchedLink<'a, L, E> {
    link: &'a mut L,
    out: &'a mut E,
    // `None` once showing has stopped.
    watch: Option<Watch>,
}

impl<'a, L: Link, E: Write> WatchedLink<'a, L, E> {
    /// Wraps a link, and shows its frames on `out`. Shows none if memory for that is refused.
    pub fn new(alloc: Global, link: &'a mut L, out: &'a mut E) -> WatchedLink<'a, L, E>
        ensures link { result.link.now ≡ link.old }
        ensures same_link { result.link.ghost_name ≡ link.entry.ghost_name }
        ensures out { result.out.now ≡ out.old }
        ensures same_out { result.out.ghost_name ≡ out.entry.ghost_name }
        ensures client { IfSome result.watch
            (λ watch. HasShown Side.Client watch.client [] []) }
        ensures server { IfSome result.watch
            (λ watch. HasShown Side.Server watch.server [] []) }
    {
        let watch = Watch::new(alloc).ok();
        WatchedLink { link, out, watch }
    }

    // rule: engines (own) get -v shows the frames of both sides as they come
    // Shows octets of a side, unless showing has stopped.
    fn show(&mut self, side: Side, octets: &[u8])
        ensures link { self.new.link ≡ self.old.link }
        ensures same_out { self.new.out.ghost_name ≡ self.old.out.ghost_name }
        ensures shows { ShowsStill self.old.watch self.new.watch side octets.now
            (E.contents self.old.out.now) (E.contents self.new.out.now) }
    {
        let Some(watch) = &mut self.watch else {
            return;
        };
        match watch.show(side, octets, self.out) {
            Ok(()) => {}
            Err(_) => self.watch = None,
        }
    }

    // rule: engines (own) get -v shows the frames of both sides as they come
    // Shows the first `count` octets of these parts from the client, unless showing has stopped.
    fn show_parts(&mut self, parts: &[IoSlice<'_>], count: usize)
        ensures link { self.new.link ≡ self.old.link }
        ensures same_out { self.new.out.ghost_name ≡ self.old.out.ghost_name }
        ensures shows { ShowsStill self.old.watch self.new.watch Side.Client
            (take count (io_slices_bytes parts.now))
            (E.contents self.old.out.now) (E.contents self.new.out.now) }
    {
        let mut left = count;
        for part in parts {
            let octets = part.as_slice();
            let shown = left.min(octets.len());
            self.show(Side::Client, &octets[..shown]);
            left -= shown;
        }
    }
}

impl<L: Link, E: Write> Link for WatchedLink<'_, L, E> {
    ghost given = { λ watched. L.given watched.link.now };

    ghost taken = { λ watched. L.taken watched.link.now };

    ghost ended = { λ watched. L.ended watched.link.now };

    ghost stalled = { λ watched. L.stalled watched.link.now };

    ghost faults = { λ watched. L.faults watched.link.now };

    fn read(&mut self, buffer: &mut [u8]) -> Result<usize, LinkFault>
        requires { L.faults self.old.link.now < 2 ^ 64 - 1 }
        ensures length { length buffer.new ≡ length buffer.old }
        ensures gives { Gives (L.given self.old.link.now) (L.given self.new.link.now) result
            buffer.new }
        ensures takes_none { Appends (L.taken self.old.link.now) (L.taken self.new.link.now) [] }
        ensures ended { L.ended self.new.link.now
            ≡ ended_after (L.ended self.old.link.now) (length buffer.old) result }
        ensures stalled { L.stalled self.new.link.now ≡ L.stalled self.old.link.now }
        ensures failures { L.faults self.new.link.now
            ≡ failures_after (L.faults self.old.link.now) result }
        ensures same_link { self.new.link.ghost_name ≡ self.old.link.ghost_name }
        ensures same_out { self.new.out.ghost_name ≡ self.old.out.ghost_name }
        ensures shows { ShowsStill self.old.watch self.new.watch Side.Server
            (octets_by result buffer.new) (E.contents self.old.out.now)
            (E.contents self.new.out.now) }
    {
        let count = self.link.read(buffer)?;
        self.show(Side::Server, &buffer[..count]);
        Ok(count)
    }

    fn write(&mut self, octets: &[u8]) -> Result<usize, LinkFault>
        requires { L.faults self.old.link.now < 2 ^ 64 - 1 }
        ensures takes { Takes (L.taken self.old.link.now) (L.taken self.new.link.now) result
            octets.now }
        ensures gives_none { Appends (L.given self.old.link.now) (L.given self.new.link.now) [] }
        ensures ended { L.ended self.new.link.now ≡ L.ended self.old.link.now }
        ensures stalled { L.stalled self.new.link.now
            ≡ stalled_after (L.stalled self.old.link.now) (length octets.now) result }
        ensures failures { L.faults self.new.link.now
            ≡ failures_after (L.faults self.old.link.now) result }
        ensures same_link { self.new.link.ghost_name ≡ self.old.link.ghost_name }
        ensures same_out { self.new.out.ghost_name ≡ self.old.out.ghost_name }
        ensures shows { ShowsStill self.old.watch self.new.watch Side.Client
            (octets_by result octets.now) (E.contents self.old.out.now)
            (E.contents self.new.out.now) }
    {
        let count = self.link.write(octets)?;
        self.show(Side::Client, &octets[..count]);
        Ok(count)
    }

    fn write_parts(&mut self, parts: &[IoSlice<'_>]) -> Result<usize, LinkFault>
        requires { L.faults self.old.link.now < 2 ^ 64 - 1 }
        ensures takes { Takes (L.taken self.old.link.now) (L.taken self.new.link.now) result
            (io_slices_bytes parts.now) }
        ensures gives_none { Appends (L.given self.old.link.now) (L.given self.new.link.now) [] }
        ensures ended { L.ended self.new.link.now ≡ L.ended self.old.link.now }
        ensures stalled { L.stalled self.new.link.now ≡ stalled_after
            (L.stalled self.old.link.now) (length (io_slices_bytes parts.now)) result }
        ensures failures { L.faults self.new.link.now
            ≡ failures_after (L.faults self.old.link.now) result }
        ensures same_link { self.new.link.ghost_name ≡ self.old.link.ghost_name }
        ensures same_out { self.new.out.ghost_name ≡ self.old.out.ghost_name }
        ensures shows { ShowsStill self.old.watch self.new.watch Side.Client
            (octets_by result (io_slices_bytes parts.now)) (E.contents self.old.out.now)
            (E.contents self.new.out.now) }
    {
        let count = self.link.write_parts(parts)?;
        self.show_parts(parts, count);
        Ok(count)
    }

    fn failures(&self) -> u64 {
        self.link.failures()
    }
}
