//! Hashes of names and values.

ghost use Rattle.std.specs.Prelude.{◌≡◌, ◌^◌, ◌<◌, ◌≤◌, length};
ghost use Rattle.hpack.specs.Hashes.{bucket_of};
ghost use Rattle.hpack.specs.Hashes.{mixed as mixed_word, short_word as short_word_of};
ghost use Rattle.hpack.specs.Hashes.{hash_from as hash_of_octets};

/// An odd number whose bits are about evenly spread. With it the 52 names of the static table
/// fall into 52 different buckets of 128.
const MULTIPLIER: u64 = 0xE085_CD84_E9EA_6675;

/// Continues a hash with further octets, eight at a time.
pub(crate) fn hash_from(hash: u64, octets: &[u8]) -> u64
    ensures { result ≡ hash_of_octets hash octets.now }
{
    let Some(last) = octets.last_chunk::<8>() else {
        return mixed(hash, short_word(octets));
    };
    let last = u64::from_le_bytes(*last);
    if octets.len() == 8 {
        return mixed(hash, last);
    }
    let Some((first, after_first)) = octets.split_first_chunk::<8>() else {
        unreachable!();
    };
    let mut before_last = mixed(hash, u64::from_le_bytes(*first));
    let mut rest = after_first;
    while rest.len() > 8 {
        let Some((word, more)) = rest.split_first_chunk::<8>() else {
            unreachable!();
        };
        before_last = mixed(before_last, u64::from_le_bytes(*word));
        rest = more;
    }
    mixed(before_last, last)
}

/// Fewer than eight octets as a word.
#[inline(always)]
fn short_word(octets: &[u8]) -> u64
    requires { length octets.now < 8 }
    ensures { result ≡ short_word_of octets.now }
{
    if octets.len() < 4 {
        let mut word: u64 = 0;
        for octet in octets {
            word = word.rotate_left(8) ^ u64::from(*octet);
        }
        return word;
    }
    let (Some(first), Some(last)) = (octets.first_chunk::<4>(), octets.last_chunk::<4>()) else {
        unreachable!();
    };
    u64::from(u32::from_le_bytes(*first)) + (u64::from(u32::from_le_bytes(*last)) << 32)
}

/// Continues a hash with one word.
#[inline(always)]
fn mixed(hash: u64, word: u64) -> u64
    ensures { result ≡ mixed_word hash word }
{
    let product = (hash ^ word).wrapping_mul(MULTIPLIER);
    product ^ (product >> 32)
}

/// The bucket of a hash, among `count`.
#[inline(always)]
pub(crate) fn bucket_at(count: usize, hash: u64) -> usize
    requires some { 0 < count }
    requires few { count ≤ 2 ^ 32 }
    ensures value { result ≡ bucket_of count hash }
    ensures within { result < count }
{
    (((hash >> 32) * count as u64) >> 32) as usize
}
