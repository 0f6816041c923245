//! The rules that make a message malformed, by number.

use thiserror::Error;

/// Why a message is malformed (RFC 9113, section 8): the first of these rules that it breaks.
#[derive(Clone, Copy, Debug, PartialEq, Eq, Hash, Error)]
pub enum Malformed {
    /// M1: a field name is empty, or has a forbidden octet (section 8.2.1).
    #[error("M1 BadName: a field name is empty or has a forbidden octet")]
    BadName,
    /// M2: a field value has a NUL, a line feed or a carriage return, or begins or ends with a
    /// space or a tab (section 8.2.1).
    #[error("M2 BadValue: a field value has a forbidden octet, or a blank at either end")]
    BadValue,
    /// M3: a pseudo-header field follows a regular field, or is in trailers (section 8.3).
    #[error("M3 PseudoPlace: a pseudo-header field after a regular field, or in trailers")]
    PseudoPlace,
    /// M4: a pseudo-header field that this kind of message may not have (section 8.3).
    #[error("M4 PseudoUnknown: a pseudo-header field that this message may not have")]
    PseudoUnknown,
    /// M5: a pseudo-header field occurs twice (section 8.3).
    #[error("M5 PseudoTwice: a pseudo-header field occurs twice")]
    PseudoTwice,
    /// M6: a request lacks `:method`, `:scheme` or `:path`, or a response lacks `:status`
    /// (sections 8.3.1 and 8.3.2).
    #[error("M6 PseudoMissing: a required pseudo-header field is missing")]
    PseudoMissing,
    /// M7: the method is not a token (RFC 9110, section 9.1), or is CONNECT, which is not
    /// supported.
    #[error("M7 BadMethod: the method is not a token, or is CONNECT")]
    BadMethod,
    /// M8: the path neither begins with a slash, nor is `*` with OPTIONS (section 8.3.1).
    #[error("M8 BadPath: the path neither begins with '/' nor is '*' with OPTIONS")]
    BadPath,
    /// M9: the status is not a number of three digits from 100 to 999 (section 8.3.2), or is 101
    /// (section 8.6), or, in a message to be sent, is that of an interim response.
    #[error("M9 BadStatus: the status is not valid here")]
    BadStatus,
    /// M10: a connection-specific field, or `te` with another value than `trailers` in any letter
    /// case (section 8.2.2).
    #[error("M10 ConnectionField: a connection-specific field")]
    ConnectionField,
    /// M11: a `content-length` is not a number of 1 to 19 digits, or two differ, or the body has
    /// another length (section 8.1.1); or a response to be sent has a body, but answers HEAD or
    /// has the status 204 or 304 (RFC 9110, section 6.4.1).
    #[error("M11 BadLength: content-length is invalid, or not the length of the body")]
    BadLength,
    /// M12: a part of a message comes out of order (section 8.1). [`Reading`](crate::Reading)
    /// names this rule where the part breaks no other, or comes after END_STREAM. The checks of
    /// messages to be sent never name it.
    #[error("M12 BadOrder: the parts of the message are out of order")]
    BadOrder,
}
