//! How an input is shown.

ghost use Rattle.std.specs.Prelude.{◌≡◌};
ghost use Rattle.h2_show.specs.Report.{begins_with_preface};

/// How an input is shown.
#[derive(Clone, Copy, Debug, PartialEq, Eq)]
pub struct ShowOptions {
    /// Whether the input is hexadecimal text.
    pub hex: bool,
    /// The endpoint that sent the octets.
    pub from: Side,
    /// The maximum length of a frame's payload (RFC 9113, section 4.2); a longer one is a fault.
    pub max_frame: u32,
    /// How the lines are printed.
    pub style: Style,
}

/// How lines are printed.
#[derive(Clone, Copy, Debug, PartialEq, Eq)]
pub enum Style {
    /// As text, without names, positions and colors.
    Plain,
    /// As text, with some of these.
    Text(TextStyle),
    /// As JSON: one object for each line, with names and positions.
    Json,
}

/// What is added to the plain lines.
#[derive(Clone, Copy, Debug, PartialEq, Eq)]
pub struct TextStyle {
    /// Settings and error codes by name (RFC 9113, sections 6.5.2 and 7).
    pub names: bool,
    /// The position of the first octet before each frame and the preface, counted from 1.
    pub places: bool,
    /// Colors, for a terminal.
    pub colors: bool,
}

/// An endpoint of a connection.
#[derive(Clone, Copy, Debug, PartialEq, Eq, Hash)]
pub enum Side {
    /// The client, which begins with the preface (RFC 9113, section 3.4).
    Client,
    /// The server.
    Server,
}

impl Side {
    /// Whether the octets that this endpoint sends begin with the preface.
    pub(crate) fn begins_with_preface(self) -> bool
        ensures { result ≡ begins_with_preface self }
    {
        matches!(self, Side::Client)
    }
}
