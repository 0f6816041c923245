//! Makes a page of the lines of both sides.

ghost use Rattle.std.specs.Prelude.{◌≡◌, [], ◌∷◌, ◌++◌, ℕ, List, true, not, IfOk, OnOk};
ghost use Rattle.std.specs.List.{list_all};
ghost use Rattle.hex.specs.Hex.{encode_lower};
ghost use Rattle.h2_page.specs.Page.{escaped, has_meaning, page_of, IsPageHead, IsPageEnd};

use crate::template::{END, HEAD};
use std::alloc::{AllocError, Global};

// contract: page (own) A page is its head, the lines, escaped, and its end
// rule: page (own) A page is its head, the lines, escaped, and its end
/// Returns the page of the lines that `h2 show --follow` prints.
///
/// # Errors
///
/// [`AllocError`] if out of memory.
pub fn page_of(alloc: Global, lines: &[u8]) -> Result<Vec<u8>, AllocError>
    ensures { IfOk result (λ page. page.items ≡ page_of lines.now) }
{
    page_with(alloc, HEAD.as_bytes(), END.as_bytes(), lines)
}

// rule: page (own) A page is its head, the lines, escaped, and its end
// A page with this head and this end.
fn page_with(alloc: Global, head: &[u8], end: &[u8], lines: &[u8]) -> Result<Vec<u8>, AllocError>
    ensures { IfOk result (λ page. page.items ≡ head.now ++ (escaped lines.now ++ end.now)) }
{
    let mut page = Vec::new(alloc);
    page.extend_from_slice(head)?;
    add_escaped(lines, &mut page)?;
    page.extend_from_slice(end)?;
    Ok(page)
}

// contract: page (own) No octet of a peer has a meaning in HTML
// rule: page (own) No octet of a peer has a meaning in HTML
// Adds lines, escaped.
fn add_escaped(lines: &[u8], page: &mut Vec<u8>) -> Result<(), AllocError>
    ensures { OnOk result (page.new.items ≡ page.old.items ++ escaped lines.now) }
{
    for octet in lines {
        if has_meaning(*octet) {
            page.extend_from_slice(escape_of(*octet))?;
        } else {
            page.push(*octet)?;
        }
    }
    Ok(())
}

// rule: page (own) No octet of a peer has a meaning in HTML
// Whether an octet has a meaning in HTML.
fn has_meaning(octet: u8) -> bool
    ensures { result ≡ has_meaning octet }
{
    octet == b'<' || octet == b'>' || octet == b'&' || octet == 34 || octet == 39
}

// The escape of an octet that has a meaning.
#[tactic(auto, unfolding(hex::specs::Hex::encode_with))]
fn escape_of<'a>(octet: u8) -> &'a [u8]
    ensures { has_meaning octet ≡ true → result.now ≡ 92 ∷ 120 ∷ encode_lower (octet ∷ []) }
{
    match octet {
        b'<' => b"\\x3c",
        b'>' => b"\\x3e",
        b'&' => b"\\x26",
        34 => b"\\x22",
        _ => b"\\x27",
    }
}

// contract: page (own) No octet of a peer has a meaning in HTML
/// No octet of escaped lines has a meaning in HTML.
pub fn escaped_lines_are_text()
    ensures { (lines : List ℕ)
        → list_all (λ octet. not (has_meaning octet)) (escaped lines) ≡ true }
{}

// contract: page (own) A page is its head, the lines, escaped, and its end
/// A page is an HTML document whose lines are in a script of plain text, which a browser neither
/// runs nor shows.
pub fn lines_stand_in_a_text()
    ensures head { IsPageHead HEAD.now }
    ensures end { IsPageEnd END.now }
{}
