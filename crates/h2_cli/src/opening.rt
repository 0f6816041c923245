//! Recognizes the first octets of an input or a connection.

ghost use Rattle.std.specs.Prelude.{◌≡◌};
ghost use Rattle.h2_cli.specs.Hints.{answers_http1, asks_http1, is_capture, is_pcap};

/// Whether octets begin like a packet capture in the format pcap or pcapng.
pub fn is_capture(octets: &[u8]) -> bool
    ensures { result ≡ is_capture octets.now }
{
    is_pcap(octets) || octets.starts_with(b"\x0a\x0d\x0d\x0a")
}

// Whether octets begin with a magic number of pcap.
fn is_pcap(octets: &[u8]) -> bool
    ensures { result ≡ is_pcap octets.now }
{
    octets.starts_with(b"\xd4\xc3\xb2\xa1")
        || octets.starts_with(b"\xa1\xb2\xc3\xd4")
        || octets.starts_with(b"\x4d\x3c\xb2\xa1")
        || octets.starts_with(b"\xa1\xb2\x3c\x4d")
}

/// Whether octets begin like an HTTP/1.1 response (RFC 9112, section 4).
pub fn answers_http1(octets: &[u8]) -> bool
    ensures { result ≡ answers_http1 octets.now }
{
    octets.starts_with(b"HTTP/1")
}

/// Whether octets begin like an HTTP/1.1 request (RFC 9112, section 3): with a method and a space.
pub fn asks_http1(octets: &[u8]) -> bool
    ensures { result ≡ asks_http1 octets.now }
{
    octets.starts_with(b"GET ")
        || octets.starts_with(b"HEAD ")
        || octets.starts_with(b"POST ")
        || octets.starts_with(b"PUT ")
        || octets.starts_with(b"DELETE ")
        || octets.starts_with(b"OPTIONS ")
        || octets.starts_with(b"PATCH ")
}
