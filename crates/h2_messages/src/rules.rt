//! The line of a part of a message that breaks a rule.

ghost use Rattle.std.specs.Prelude.{◌≡◌, OnOk};
ghost use Rattle.std.specs.Io.KnownBytes.{Appends};
ghost use Rattle.h2_messages.specs.Rules.{refusal_lines, refused_in, rule_words};

use h2_ends::Malformed;
use std::io::{self, Write};

/// A part that was refused: its stream, and the rule that it breaks.
pub(crate) type RefusedPart = (u32, Malformed);

// rule: messages (own) A part that is refused has a line with its stream and its rule
/// The part that a call refused, by the last one that the endpoint had refused before and after it.
pub(crate) fn refused_in(
    before: Option<RefusedPart>,
    after: Option<RefusedPart>,
) -> Option<RefusedPart>
    ensures { result ≡ refused_in before after }
{
    let (id, rule) = after?;
    let Some((earlier, _)) = before else {
        return Some((id, rule));
    };
    if earlier == id {
        return None;
    }
    Some((id, rule))
}

// rule: messages (own) A part that is refused has a line with its stream and its rule
/// Writes the line of a part that was refused, if one was.
///
/// # Errors
///
/// Those of the writer.
pub(crate) fn write_refusal<W: Write>(part: Option<RefusedPart>, out: &mut W) -> io::Result<()>
    ensures { OnOk result (Appends (W.contents out.old) (W.contents out.new)
        (refusal_lines part)) }
{
    match part {
        Some((id, rule)) => {
            let words = rule_words(rule);
            writeln!(out, "malformed {id} {words}")
        }
        None => Ok(()),
    }
}

// rule: messages (own) A part that is refused has a line with its stream and its rule
/// The number of a rule, and its name.
fn rule_words(rule: Malformed) -> &'static str
    ensures { result.now ≡ rule_words rule }
{
    match rule {
        Malformed::BadName => "M1 BadName",
        Malformed::BadValue => "M2 BadValue",
        Malformed::PseudoPlace => "M3 PseudoPlace",
        Malformed::PseudoUnknown => "M4 PseudoUnknown",
        Malformed::PseudoTwice => "M5 PseudoTwice",
        Malformed::PseudoMissing => "M6 PseudoMissing",
        Malformed::BadMethod => "M7 BadMethod",
        Malformed::BadPath => "M8 BadPath",
        Malformed::BadStatus => "M9 BadStatus",
        Malformed::ConnectionField => "M10 ConnectionField",
        Malformed::BadLength => "M11 BadLength",
        Malformed::BadOrder => "M12 BadOrder",
    }
}
