//! The static table (RFC 7541, appendix A).

ghost use Rattle.std.specs.Prelude.{◌≡◌, ◌-◌, ◌≤◌, ◌<◌, ◌⊎◌, slice_get, Some, MatchOption};
ghost use Rattle.std.specs.Prelude.{length, take, drop};
ghost use Rattle.hpack.specs.Static.{static_entries};

/// The name and the value of an entry of the static table, by its index, which begins with 1.
#[inline(always)]
pub(crate) fn static_entry(index: u64) -> Option<(&'static [u8], &'static [u8])>
    ensures { MatchOption result ((index ≡ 0) ⊎ (61 < index))
        (λ found. slice_get static_entries (index - 1)
        ≡ Some (record { name = found.0.now; value = found.1.now })) }
{
    let (joined, name_len) = static_joined(index)?;
    Some(joined.split_at(name_len))
}

// contract: HPACK A The static table has 61 entries
// rule: HPACK A The static table has 61 entries
/// The name followed by the value of an entry of the static table, by its index, which begins
/// with 1, and the length of the name.
#[inline(always)]
#[tactic(auto, unfolding(crate::specs::Static::static_entries))]
pub(crate) fn static_joined(index: u64) -> Option<(&'static [u8], usize)>
    ensures { MatchOption result ((index ≡ 0) ⊎ (61 < index))
        (λ found. (found.1 ≤ length found.0.now) × (slice_get static_entries (index - 1)
        ≡ Some (record { name = take found.1 found.0.now; value = drop found.1 found.0.now }))) }
{
    let found: (&'static [u8], usize) = match index {
        1 => (b":authority", 10),
        2 => (b":methodGET", 7),
        3 => (b":methodPOST", 7),
        4 => (b":path/", 5),
        5 => (b":path/index.html", 5),
        6 => (b":schemehttp", 7),
        7 => (b":schemehttps", 7),
        8 => (b":status200", 7),
        9 => (b":status204", 7),
        10 => (b":status206", 7),
        11 => (b":status304", 7),
        12 => (b":status400", 7),
        13 => (b":status404", 7),
        14 => (b":status500", 7),
        15 => (b"accept-charset", 14),
        16 => (b"accept-encodinggzip, deflate", 15),
        17 => (b"accept-language", 15),
        18 => (b"accept-ranges", 13),
        19 => (b"accept", 6),
        20 => (b"access-control-allow-origin", 27),
        21 => (b"age", 3),
        22 => (b"allow", 5),
        23 => (b"authorization", 13),
        24 => (b"cache-control", 13),
        25 => (b"content-disposition", 19),
        26 => (b"content-encoding", 16),
        27 => (b"content-language", 16),
        28 => (b"content-length", 14),
        29 => (b"content-location", 16),
        30 => (b"content-range", 13),
        31 => (b"content-type", 12),
        32 => (b"cookie", 6),
        33 => (b"date", 4),
        34 => (b"etag", 4),
        35 => (b"expect", 6),
        36 => (b"expires", 7),
        37 => (b"from", 4),
        38 => (b"host", 4),
        39 => (b"if-match", 8),
        40 => (b"if-modified-since", 17),
        41 => (b"if-none-match", 13),
        42 => (b"if-range", 8),
        43 => (b"if-unmodified-since", 19),
        44 => (b"last-modified", 13),
        45 => (b"link", 4),
        46 => (b"location", 8),
        47 => (b"max-forwards", 12),
        48 => (b"proxy-authenticate", 18),
        49 => (b"proxy-authorization", 19),
        50 => (b"range", 5),
        51 => (b"referer", 7),
        52 => (b"refresh", 7),
        53 => (b"retry-after", 11),
        54 => (b"server", 6),
        55 => (b"set-cookie", 10),
        56 => (b"strict-transport-security", 25),
        57 => (b"transfer-encoding", 17),
        58 => (b"user-agent", 10),
        59 => (b"vary", 4),
        60 => (b"via", 3),
        61 => (b"www-authenticate", 16),
        _ => return None,
    };
    Some(found)
}
