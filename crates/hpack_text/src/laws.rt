//! Laws of integers and strings, each the contract of a function that does nothing.

ghost use Rattle.std.specs.Prelude.{◌≡◌, ℕ, ◌^◌, ◌<◌, ◌≤◌, ◌%◌, nat_le, Bool, List, ◌++◌, length};
ghost use Rattle.std.specs.List.{AllByRecursion};
ghost use Rattle.hpack_text.specs.Bits.{IsOctet};
ghost use Rattle.hpack_text.specs.Huffman.{code, Huff, HasEndSymbol, HasBadPadding, huffman_bits};
ghost use Rattle.hpack_text.specs.Huffman.{huffman_length};
ghost use Rattle.hpack_text.specs.Integers.{Int, integer};
ghost use Rattle.hpack_text.specs.Strings.{Str, has_bit_h, string};

// contract: HPACK 5.2 With H the octets are the codes of appendix B
/// No symbol's code is a prefix of another symbol's, EOS included.
pub fn no_code_begins_another()
    ensures { (symbol other : ℕ) (more following : List Bool) → symbol < 257 → other < 257
        → code symbol ++ more ≡ code other ++ following → symbol ≡ other }
{}

/// The code is complete: any thirty bits, or more, begin with the code of a symbol.
pub fn some_code_begins()
    ensures { (bit_list : List Bool) → 30 ≤ length bit_list
        → (symbol : ℕ) × (more : List Bool) × (symbol < 257) × (bit_list ≡ code symbol ++ more) }
{}

// contract: HPACK 5.2 With H the octets are the codes of appendix B
/// Octets are the Huffman encoding of at most one text.
pub fn one_text()
    ensures { (text other octets : List ℕ) → Huff text octets → Huff other octets → text ≡ other }
{}

// contract: HPACK 5.2 A Huffman-encoded string is written with the codes
// contract: HPACK 5.2 A Huffman-encoded string is padded with ones
/// A text has one Huffman encoding, which is the one that is written. Its length is the bits of
/// its codes, rounded up to octets.
pub fn one_coding()
    ensures encoded { (text : List ℕ) → AllByRecursion IsOctet text
        → Huff text (huffman_bits text) }
    ensures only { (text octets : List ℕ) → Huff text octets → octets ≡ huffman_bits text }
    ensures counted { (text : List ℕ) → length (huffman_bits text) ≡ huffman_length text }
{}

// contract: HPACK 5.2 Padding of more than seven bits is a fault
// contract: HPACK 5.2 Padding of others than ones is a fault
// contract: HPACK 5.2 The code of EOS inside a string is a fault
/// No octets have both faults of Huffman-encoded strings.
pub fn one_coding_fault()
    ensures { (octets : List ℕ) → HasEndSymbol octets → HasBadPadding octets → ⊥ }
{}

// contract: HPACK 5.1 A value below 2^N-1 stands in the prefix of N bits
/// No encoding of an integer is a prefix of another, so what was written is read again,
/// whatever follows it.
pub fn no_integer_begins_another()
    ensures { (prefix value other : ℕ) (octets others more following : List ℕ)
        → Int prefix value octets → Int prefix other others
        → octets ++ more ≡ others ++ following → (octets ≡ others) × (value ≡ other) }
{}

// contract: HPACK 5.1 (own) The shortest encoding of an integer is written
/// What is written for an integer encodes it, and no encoding of it is shorter.
pub fn shortest_integer()
    ensures encoded { (prefix first_bits value : ℕ) → 1 ≤ prefix → prefix ≤ 8
        → first_bits % 2 ^ prefix ≡ 0 → value < 2 ^ 35
        → Int prefix value (integer prefix first_bits value) }
    ensures shortest { (prefix first_bits value : ℕ) (octets : List ℕ) → 1 ≤ prefix
        → Int prefix value octets → length (integer prefix first_bits value) ≤ length octets }
{}

// contract: HPACK 5.2 A string is the bit H, its length and its octets
/// No encoding of a string is a prefix of another's, so what was written is read again,
/// whatever follows it.
pub fn no_string_begins_another()
    ensures { (text other octets others more following : List ℕ) → Str text octets
        → Str other others
        → octets ++ more ≡ others ++ following → (octets ≡ others) × (text ≡ other) }
{}

// contract: HPACK 5.2 (own) A string is Huffman-encoded where that is not longer
/// What is written for a string encodes it, and it is Huffman-encoded exactly where that isn't
/// longer than raw.
pub fn written_string()
    ensures encoded { (text : List ℕ) → AllByRecursion IsOctet text → length text < 2 ^ 35
        → Str text (string text) }
    ensures huffman_where_not_longer { (text : List ℕ) → length text < 2 ^ 35
        → has_bit_h (string text) ≡ nat_le (length (huffman_bits text)) (length text) }
{}
