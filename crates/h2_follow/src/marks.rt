//! Lines of a side, each after its mark.

ghost use Rattle.std.specs.Prelude.{◌≡◌, ◌++◌, true, OnOk};
ghost use Rattle.h2_follow.specs.Follows.{marked, mark_of};

use h2_show::Side;
use std::alloc::AllocError;

// contract: follow (own) Each side has the lines that show prints of it, after its mark
// rule: follow (own) Each side has the lines that show prints of it, after its mark
/// Adds the lines of a text, each after the mark.
///
/// # Errors
///
/// [`AllocError`] if out of memory.
pub fn mark_lines(text: &[u8], mark: &[u8], lines: &mut Vec<u8>) -> Result<(), AllocError>
    ensures { OnOk result (lines.new.items ≡ lines.old.items ++ marked mark.now true text.now) }
{
    let mut starts = true;
    for octet in text {
        if starts {
            lines.extend_from_slice(mark)?;
        }
        lines.push(*octet)?;
        starts = *octet == b'\n';
    }
    Ok(())
}

// rule: follow (own) Each side has the lines that show prints of it, after its mark
/// Returns the mark of a side's lines.
pub fn mark_of<'a>(side: Side) -> &'a [u8]
    ensures { result.now ≡ mark_of side }
{
    match side {
        Side::Client => b"> ",
        Side::Server => b"< ",
    }
}
