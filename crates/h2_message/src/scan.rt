//! Scans of lists of fields, field by field.

ghost use Rattle.std.specs.Prelude.{◌≡◌, Bool, true, false, List, [], ◌∷◌, ◌++◌};
ghost use Rattle.std.specs.Prelude.{codes};
ghost use Rattle.std.specs.List.{list_any};
ghost use Rattle.std.specs.Str.{bytes_eq};
ghost use Rattle.hpack.specs.declared.types.field.Field.{Field};
ghost use Rattle.h2_message.specs.declared.kind.Kind.TheVariants.{Request, Response};
ghost use Rattle.h2_message.specs.Fields.{connection_names, is_colon_first};
ghost use Rattle.h2_message.specs.Octets.{is_bad_name};
ghost use Rattle.h2_message.specs.Scans.{IsScan};
ghost use Rattle.h2_message.specs.ScanSteps.{with_field, HasSeenPseudo, HasSeenRegular};
ghost use Rattle.h2_message.specs.ScanSteps.{HasSeenLength, IsSameOfAll, IsSameOfPseudo};
ghost use Rattle.h2_message.specs.ScanSteps.{IsSameOfRegular};

use crate::classes::{Method, Path, Status, length_number, method_class, path_class, status_class};
use crate::kind::Kind;
use crate::octets::{is_bad_regular_name, is_bad_unless_known, is_bad_value, is_text};
use hpack::{Field, FieldList};

/// The rules that a list of fields breaks, and what its pseudo-header fields and its
/// `content-length` say (RFC 9113, sections 8.2 and 8.3).
#[derive(Clone, Copy, Debug)]
pub(crate) struct Scan {
    /// A name is not valid.
    pub(crate) bad_name: bool,
    /// A value is not valid.
    pub(crate) bad_value: bool,
    /// A field is a regular field.
    pub(crate) regular: bool,
    /// A field is a pseudo-header field.
    pub(crate) pseudo: bool,
    /// A pseudo-header field follows a regular field.
    pub(crate) late_pseudo: bool,
    /// A pseudo-header field is one that this kind of message may not have.
    pub(crate) unknown_pseudo: bool,
    /// A pseudo-header field occurs twice.
    pub(crate) pseudo_twice: bool,
    /// The first `:method` of a request.
    pub(crate) method: Option<Method>,
    /// Whether a request has `:scheme`.
    pub(crate) scheme: bool,
    /// The first `:path` of a request.
    pub(crate) path: Option<Path>,
    /// Whether a request has `:authority`.
    pub(crate) authority: bool,
    /// The first `:status` of a response.
    pub(crate) status: Option<Status>,
    /// A field is connection-specific.
    pub(crate) connection_field: bool,
    /// A `content-length` is not valid, or several differ.
    pub(crate) bad_length: bool,
    /// The first `content-length`, if it is a number.
    pub(crate) length: Option<u64>,
}

/// The scan of no fields.
pub(crate) fn empty() -> Scan
    ensures { (kind : Kind) → IsScan kind [] result }
{
    Scan {
        bad_name: false,
        bad_value: false,
        regular: false,
        pseudo: false,
        late_pseudo: false,
        unknown_pseudo: false,
        pseudo_twice: false,
        method: None,
        scheme: false,
        path: None,
        authority: false,
        status: None,
        connection_field: false,
        bad_length: false,
        length: None,
    }
}

// rule: 8.1.1 (own) A message to be sent is refused for the least of M1 to M11 it breaks
/// The scan of fields to be sent.
#[inline(never)]
pub(crate) fn scan_fields(kind: Kind, fields: &[Field]) -> Scan
    ensures { IsScan kind fields.now result }
{
    let mut scan = empty();
    for field in fields {
        scan.add(kind, field.name.as_slice(), field.value.as_slice());
    }
    scan
}

// contract: 8.3 A final head is read only where it breaks no rule of its fields
// rule: 8.3 A final head is read only where it breaks no rule of its fields
/// The scan of fields that were read.
#[inline(never)]
pub(crate) fn scan_list(kind: Kind, list: &FieldList) -> Scan
    ensures { IsScan kind list.now result }
{
    let mut scan = empty();
    for place in 0..list.len() {
        if let Some(field) = list.get(place) {
            scan.add(kind, field.name, field.value);
        }
    }
    scan
}

impl Scan {
    // rule: 8.3 A pseudo-field after a regular one, or in trailers, breaks M3
    /// Adds the next field to the scan.
    #[inline(always)]
    fn add(&mut self, kind: Kind, name: &[u8], value: &[u8])
        ensures { (fields : List Field) (sensitive : Bool) → IsScan kind fields self.old
            → IsScan kind (fields ++ record {
              name = name.now;
              value = value.now;
              sensitive = sensitive;
            } ∷ []) self.new }
    {
        self.bad_value |= is_bad_value(value);
        if name.first() == Some(&b':') {
            self.pseudo = true;
            self.late_pseudo |= self.regular;
            let known = self.add_pseudo(kind, name, value);
            self.bad_name |= is_bad_unless_known(known, name);
        } else {
            self.regular = true;
            self.bad_name |= is_bad_regular_name(name);
            self.add_regular(name, value);
        }
    }

    /// Adds a pseudo-header field, and returns whether this kind of message may have it.
    #[inline(always)]
    fn add_pseudo(&mut self, kind: Kind, name: &[u8], value: &[u8]) -> bool
        ensures seen { (fields : List Field) (sensitive : Bool) → is_colon_first name.now ≡ true
            → HasSeenPseudo kind fields self.old
            → HasSeenPseudo kind (with_field fields name.now value.now sensitive) self.new }
        ensures of_all { IsSameOfAll self.old self.new }
        ensures of_regular { IsSameOfRegular self.old self.new }
        ensures known { result ≡ true → is_bad_name name.now ≡ false }
    {
        match kind {
            Kind::Request => self.add_of_request(name, value),
            Kind::Response => self.add_of_response(name, value),
        }
    }

    // rule: 8.3 A pseudo-field that its kind of message does not have breaks M4
    // rule: 8.3 A pseudo-field that stands twice breaks M5
    /// Adds a pseudo-header field of a request, and returns whether a request may have it.
    #[inline(always)]
    fn add_of_request(&mut self, name: &[u8], value: &[u8]) -> bool
        ensures seen { (fields : List Field) (sensitive : Bool) → is_colon_first name.now ≡ true
            → HasSeenPseudo Request fields self.old
            → HasSeenPseudo Request (with_field fields name.now value.now sensitive) self.new }
        ensures of_all { IsSameOfAll self.old self.new }
        ensures of_regular { IsSameOfRegular self.old self.new }
        ensures known { result ≡ true → is_bad_name name.now ≡ false }
    {
        if is_text(name, b":method") {
            self.pseudo_twice |= self.method.is_some();
            self.method = self.method.or(Some(method_class(value)));
            true
        } else if is_text(name, b":scheme") {
            self.pseudo_twice |= self.scheme;
            self.scheme = true;
            true
        } else if is_text(name, b":path") {
            self.pseudo_twice |= self.path.is_some();
            self.path = self.path.or(Some(path_class(value)));
            true
        } else if is_text(name, b":authority") {
            self.pseudo_twice |= self.authority;
            self.authority = true;
            true
        } else {
            self.unknown_pseudo = true;
            false
        }
    }

    // rule: 8.3 A pseudo-field that its kind of message does not have breaks M4
    // rule: 8.3 A pseudo-field that stands twice breaks M5
    /// Adds a pseudo-header field of a response, and returns whether a response may have it.
    #[inline(always)]
    fn add_of_response(&mut self, name: &[u8], value: &[u8]) -> bool
        ensures seen { (fields : List Field) (sensitive : Bool) → is_colon_first name.now ≡ true
            → HasSeenPseudo Response fields self.old
            → HasSeenPseudo Response (with_field fields name.now value.now sensitive) self.new }
        ensures of_all { IsSameOfAll self.old self.new }
        ensures of_regular { IsSameOfRegular self.old self.new }
        ensures known { result ≡ true → is_bad_name name.now ≡ false }
    {
        if is_text(name, b":status") {
            self.pseudo_twice |= self.status.is_some();
            self.status = self.status.or(Some(status_class(value)));
            true
        } else {
            self.unknown_pseudo = true;
            false
        }
    }

    // rule: 8.2.2 te with another value than trailers breaks M10
    /// Adds a regular field.
    #[inline(always)]
    fn add_regular(&mut self, name: &[u8], value: &[u8])
        ensures seen { (fields : List Field) (sensitive : Bool) → HasSeenRegular fields self.old
            → HasSeenRegular (with_field fields name.now value.now sensitive) self.new }
        ensures of_all { IsSameOfAll self.old self.new }
        ensures of_pseudo { IsSameOfPseudo self.old self.new }
    {
        if name == b"content-length".as_slice() {
            self.add_length(value);
        } else if is_connection_name(name) {
            self.connection_field = true;
        } else if name == b"te".as_slice() {
            self.connection_field |= !value.eq_ignore_ascii_case(b"trailers");
        }
    }

    // rule: 8.1.1 A content-length that is no number, or several, breaks M11
    /// Adds a `content-length`.
    #[inline(never)]
    fn add_length(&mut self, value: &[u8])
        ensures seen { (fields : List Field) (sensitive : Bool) → HasSeenLength fields self.old
            → HasSeenLength (with_field fields (codes "content-length") value.now sensitive)
            self.new }
        ensures of_all { IsSameOfAll self.old self.new }
        ensures of_pseudo { IsSameOfPseudo self.old self.new }
        ensures connection_field { self.new.connection_field ≡ self.old.connection_field }
    {
        match (length_number(value), self.length) {
            (None, _) => self.bad_length = true,
            (Some(number), None) => self.length = Some(number),
            (Some(number), Some(first)) => self.bad_length |= number != first,
        }
    }
}

// rule: 8.2.2 A connection-specific field breaks M10
/// Whether a field with this name is connection-specific (section 8.2.2).
#[inline(always)]
fn is_connection_name(name: &[u8]) -> bool
    ensures { result ≡ list_any (λ other. bytes_eq name.now other) connection_names }
{
    name == b"connection".as_slice()
        || name == b"proxy-connection".as_slice()
        || name == b"keep-alive".as_slice()
        || name == b"transfer-encoding".as_slice()
        || name == b"upgrade".as_slice()
}
