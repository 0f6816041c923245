//! Messages to be sent.

ghost use Rattle.std.specs.Prelude.{◌≡◌, ◌∷◌, ◌++◌, [], None, IfOk, codes, decimal};
ghost use Rattle.h2_message.specs.Messages.{asks_head, request_head, response_head, plain_field};

use hpack::{Field, FieldList, Octets};
use std::alloc::{AllocError, Global};

/// A request or a response (RFC 9113, section 8.1).
#[derive(Debug, Drop)]
pub struct Message {
    /// The pseudo-header fields, and then the regular fields, in the order in which they are
    /// sent.
    pub head: Vec<Field>,
    /// The octets of the body.
    pub body: Vec<u8>,
    /// The trailers, if there are any.
    pub trailers: Option<Vec<Field>>,
}

impl Message {
    /// Makes a GET request for a path with the scheme `http`, as [`Message::request`] does.
    ///
    /// # Errors
    ///
    /// [`AllocError`] where an allocation was refused.
    pub fn get(alloc: Global, authority: &[u8], path: &[u8]) -> Result<Message, AllocError>
        ensures { IfOk result (λ message.
            (message.head.items ≡ request_head (codes "GET") authority.now path.now)
            × (message.body.items ≡ []) × (message.trailers ≡ None)) }
    {
        Message::request(alloc, b"GET", authority, path)
    }

    /// Makes a request with its four pseudo-header fields (RFC 9113, section 8.3.1), of which
    /// `:scheme` is `http`, and no body or trailers. It checks no rule:
    /// [`check_request`](crate::check_request), which a client's `request` calls, refuses for
    /// instance a GET whose path does not begin with a slash.
    ///
    /// # Errors
    ///
    /// [`AllocError`] where an allocation was refused.
    pub fn request(
        alloc: Global,
        method: &[u8],
        authority: &[u8],
        path: &[u8],
    ) -> Result<Message, AllocError>
        ensures { IfOk result (λ message.
            (message.head.items ≡ request_head method.now authority.now path.now)
            × (message.body.items ≡ []) × (message.trailers ≡ None)) }
    {
        let mut head = Vec::with_capacity(alloc, 4)?;
        head.push(named(b":method", Octets::copy_of(alloc, method)?))?;
        head.push(named(b":scheme", Octets::from_static(b"http")))?;
        head.push(named(b":authority", Octets::copy_of(alloc, authority)?))?;
        head.push(named(b":path", Octets::copy_of(alloc, path)?))?;
        Ok(Message {
            head,
            body: Vec::new(alloc),
            trailers: None,
        })
    }

    /// Makes a response with this status in decimal digits (section 8.3.2), and no body or
    /// trailers. It checks no rule: [`check_response`](crate::check_response), which a server's
    /// `respond` calls, refuses for instance a status of two digits.
    ///
    /// # Errors
    ///
    /// [`AllocError`] where an allocation was refused.
    pub fn response(alloc: Global, status: u16) -> Result<Message, AllocError>
        ensures { IfOk result (λ message. (message.head.items ≡ response_head (decimal status))
            × (message.body.items ≡ []) × (message.trailers ≡ None)) }
    {
        let mut head = Vec::with_capacity(alloc, 4)?;
        let digits = status.to_string(alloc)?.into_bytes();
        head.push(named(b":status", Octets::new(digits)))?;
        Ok(Message {
            head,
            body: Vec::new(alloc),
            trailers: None,
        })
    }

    /// Returns the message with a further field at the end of its head.
    ///
    /// # Errors
    ///
    /// [`AllocError`] where an allocation was refused; the message is dropped.
    pub fn field(mut self, alloc: Global, name: &[u8], value: &[u8]) -> Result<Message, AllocError>
        ensures { IfOk result (λ message.
            (message.head.items ≡ self.head.items ++ plain_field name.now value.now ∷ [])
            × (message.body.items ≡ self.body.items) × (message.trailers ≡ self.trailers)) }
    {
        self.head.push(Field::copy_of(alloc, name, value, false)?)?;
        Ok(self)
    }

    /// Returns the message with these octets at the end of its body.
    ///
    /// # Errors
    ///
    /// [`AllocError`] where an allocation was refused; the message is dropped.
    pub fn body(mut self, octets: &[u8]) -> Result<Message, AllocError>
        ensures { IfOk result (λ message. (message.head ≡ self.head)
            × (message.body.items ≡ self.body.items ++ octets.now)
            × (message.trailers ≡ self.trailers)) }
    {
        self.body.extend_from_slice(octets)?;
        Ok(self)
    }
}

/// A field whose name is static.
fn named(name: &'static [u8], value: Octets) -> Field
    ensures { result ≡ plain_field name.now value }
{
    Field {
        name: Octets::from_static(name),
        value,
        sensitive: false,
    }
}

// contract: HTTP 9.3.2 A request asks with HEAD where the method of its head is HEAD
// rule: HTTP 9.3.2 A request asks with HEAD where the method of its head is HEAD
/// Returns whether the method in the head of a request is HEAD: then its response has no
/// content (RFC 9110, section 9.3.2). It takes no memory.
pub fn asks_head(head: &[Field]) -> bool
    ensures { result ≡ asks_head head.now }
{
    for field in head {
        if field.name.as_slice() == b":method".as_slice() {
            return field.value.as_slice() == b"HEAD".as_slice();
        }
    }
    false
}

// rule: HTTP 9.3.2 A request asks with HEAD where the method of its head is HEAD
/// Does what [`asks_head`] does, for the head of a request that was read. It takes no memory.
pub fn list_asks_head(head: &FieldList) -> bool
    ensures { result ≡ asks_head head.now }
{
    match head.value(b":method") {
        Some(method) => method == b"HEAD".as_slice(),
        None => false,
    }
}
