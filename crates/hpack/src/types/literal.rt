//! How a field is written as a literal.

/// The three literals of RFC 7541, section 6.2.
#[derive(Clone, Copy, Debug, PartialEq, Eq)]
pub enum Literal {
    /// 6.2.1: the field is added to the table.
    WithIndexing,
    /// 6.2.2: it isn't.
    WithoutIndexing,
    /// 6.2.3: it isn't, and never may be.
    NeverIndexed,
}
