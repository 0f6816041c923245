//! The type of a file by its name.

ghost use Rattle.std.specs.Prelude.{◌≡◌};
ghost use Rattle.h2_files.specs.MediaTypes.{media_type, type_of_extension};

use std::path::Path;

/// The type of octets of which nothing is known.
const ANY_OCTETS: &str = "application/octet-stream";

// contract: files (own) The type of a file goes by the extension of its name
// rule: files (own) The type of a file goes by the extension of its name
/// The value of a field `content-type` by what stands after the name's last dot, in lower case
/// (RFC 9110, section 8.3); `application/octet-stream` where that says nothing. Texts have the
/// charset UTF-8.
pub fn media_type(name: &str) -> &'static str
    ensures { result.now ≡ media_type name.now }
{
    match Path::new(name).extension() {
        Some(extension) => type_of_extension(extension),
        None => ANY_OCTETS,
    }
}

/// The type by the extension of a name.
#[tactic(auto, unfolding(crate::specs::MediaTypes::type_of_extension))]
fn type_of_extension(extension: &str) -> &'static str
    ensures { result.now ≡ type_of_extension extension.now }
{
    match extension {
        "html" | "htm" => "text/html; charset=utf-8",
        "css" => "text/css; charset=utf-8",
        "js" | "mjs" => "text/javascript; charset=utf-8",
        "txt" => "text/plain; charset=utf-8",
        "md" => "text/markdown; charset=utf-8",
        "csv" => "text/csv; charset=utf-8",
        "json" => "application/json",
        "xml" => "application/xml",
        "pdf" => "application/pdf",
        "wasm" => "application/wasm",
        "svg" => "image/svg+xml",
        "png" => "image/png",
        "jpg" | "jpeg" => "image/jpeg",
        "gif" => "image/gif",
        "webp" => "image/webp",
        "ico" => "image/x-icon",
        "woff2" => "font/woff2",
        "mp4" => "video/mp4",
        _ => ANY_OCTETS,
    }
}
