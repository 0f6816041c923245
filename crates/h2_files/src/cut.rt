//! A list of octets divided at one of them.

ghost use Rattle.std.specs.Prelude.{◌≡◌, position};
ghost use Rattle.h2_files.specs.Cuts.{DividesAt, is_octet};

/// What stands before the first of such octets, and what after it; none where there is none.
pub(crate) fn divide(octets: &[u8], at: u8) -> Option<(&[u8], &[u8])>
    ensures { DividesAt at octets.now result }
{
    let place = place_of(octets, at)?;
    Some((&octets[..place], &octets[place + 1..]))
}

/// The place of the first of such octets.
fn place_of(octets: &[u8], at: u8) -> Option<usize>
    ensures { result ≡ position (is_octet at) octets.now }
{
    octets.iter().position(|octet| *octet == at)
}
