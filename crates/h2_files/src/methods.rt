//! The methods that a folder has.

ghost use Rattle.std.specs.Prelude.{◌≡◌};
ghost use Rattle.h2_files.specs.Methods.{file_method};

/// The value of the field `allow` of an answer to any other method, with the status 405 (RFC 9110,
/// section 15.5.6).
pub const ALLOW: &str = "GET, HEAD";

/// A method that a folder has.
#[derive(Clone, Copy, Debug, PartialEq, Eq, Hash)]
pub enum Method {
    /// GET (RFC 9110, section 9.3.1).
    Get,
    /// HEAD: as GET, without the content (RFC 9110, section 9.3.2).
    Head,
}

impl Method {
    // rule: HTTP 15.5.6 GET and HEAD are served, and another method has 405
    // contract: HTTP 15.5.6 GET and HEAD are served, and another method has 405
    /// The method of a `:method`, whose case matters (RFC 9110, section 9.1).
    ///
    /// None is answered with 405 and the field `allow` of [`ALLOW`].
    pub fn of(name: &[u8]) -> Option<Method>
        ensures { result ≡ file_method name.now }
    {
        match name {
            b"GET" => Some(Method::Get),
            b"HEAD" => Some(Method::Head),
            _ => None,
        }
    }
}
