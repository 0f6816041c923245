//! Numbers and texts of the files that are measured.

/// The number of 32 bits at the start, and what follows it.
pub(crate) fn number(octets: &[u8]) -> Option<(u32, &[u8])> {
    let [a, b, c, d, following @ ..] = octets else {
        return None;
    };
    Some((u32::from_be_bytes([*a, *b, *c, *d]), following))
}

/// The text at the start, after its length, and what follows it.
pub(crate) fn text(octets: &[u8]) -> Option<(&[u8], &[u8])> {
    let (count, following) = number(octets)?;
    following.split_at_checked(count as usize)
}
