//! Octets as text, for debug forms.

use std::fmt;

/// Octets that `{:?}` shows as a byte string, as `b"a\xff"`.
#[derive(Clone, Copy)]
pub(crate) struct Shown<'a>(pub(crate) &'a [u8]);

impl fmt::Debug for Shown<'_> {
    fn fmt<W: fmt::Write>(&self, f: &mut fmt::Formatter<W>) -> fmt::Result {
        write!(f, "b\"{}\"", self.0.escape_ascii())
    }
}
