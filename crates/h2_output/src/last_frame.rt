//! The GOAWAY of a failed connection.

ghost use Rattle.std.specs.Prelude.{◌≡◌, ◌+◌, ◌≤◌, ◌++◌, length, take, drop, vec_len};
ghost use Rattle.std.specs.Vec.{vec_capacity};

use h2_frame::limits::LARGE_FRAME;

/// The GOAWAY of a failed connection, which needs no memory: its octets, and how many of them
/// were removed.
#[derive(Clone, Copy, Debug)]
pub(crate) struct LastFrame {
    pub(crate) octets: [u8; LARGE_FRAME],
    pub(crate) given: usize,
    ghost within: { given ≤ 17 },
}

impl LastFrame {
    // rule: 5.4.1 (own) The GOAWAY of a failed connection goes out last, once, without memory
    /// The number of its octets that are left.
    pub(crate) fn len(&self) -> usize
        ensures value { result ≡ length (drop self.now.given self.now.octets) }
        ensures small { result ≤ 17 }
    {
        LARGE_FRAME - self.given
    }

    // rule: 5.4.1 (own) The GOAWAY of a failed connection goes out last, once, without memory
    /// Its octets that are left, from an offset on.
    pub(crate) fn part_from(&self, at: usize) -> &[u8]
        ensures { result.now ≡ drop at (drop self.now.given self.now.octets) }
    {
        let rest = &self.octets[self.given..];
        &rest[at.min(rest.len())..]
    }

    // rule: 5.4.1 (own) The GOAWAY of a failed connection goes out last, once, without memory
    /// Appends `count` of its octets to `out`, which has the capacity, and removes them.
    pub(crate) fn put_out(&mut self, count: usize, out: &mut Vec<u8>)
        requires within { count ≤ length (drop self.old.given self.old.octets) }
        requires room { vec_len out.old + count ≤ vec_capacity out.old }
        ensures given { out.new.items
            ≡ out.old.items ++ take count (drop self.old.given self.old.octets) }
        ensures waiting { drop self.new.given self.new.octets
            ≡ drop count (drop self.old.given self.old.octets) }
    {
        let end = self.given + count;
        let part = &self.octets[self.given..end];
        out.extend_from_slice(part).unwrap();
        self.take_away(count);
    }

    // rule: 5.4.1 (own) The GOAWAY of a failed connection goes out last, once, without memory
    /// Removes `count` of its octets.
    pub(crate) fn take_away(&mut self, count: usize)
        requires within { count ≤ length (drop self.old.given self.old.octets) }
        ensures waiting { drop self.new.given self.new.octets
            ≡ drop count (drop self.old.given self.old.octets) }
    {
        self.given += count;
    }
}
