//! Names of settings and of error codes, by their numbers.

ghost use Rattle.std.specs.Prelude.{◌≡◌, option_map};
ghost use Rattle.h2_show.specs.Named.{code_name, setting_name};

use h2_frame::Code;

// rule: show (own) Settings and error codes have their names where words ask for them
/// Returns the name of a setting, without `SETTINGS_`, if RFC 9113, section 6.5.2, has one.
pub fn setting_name(id: u16) -> Option<&'static str>
    ensures { option_map (λ name. name.now) result ≡ setting_name id }
{
    match id {
        1 => Some("HEADER_TABLE_SIZE"),
        2 => Some("ENABLE_PUSH"),
        3 => Some("MAX_CONCURRENT_STREAMS"),
        4 => Some("INITIAL_WINDOW_SIZE"),
        5 => Some("MAX_FRAME_SIZE"),
        6 => Some("MAX_HEADER_LIST_SIZE"),
        _ => None,
    }
}

// rule: show (own) Settings and error codes have their names where words ask for them
/// Returns the name of an error code, if RFC 9113, section 7, has one.
pub fn code_name(number: u32) -> Option<&'static str>
    ensures { option_map (λ name. name.now) result ≡ code_name number }
{
    match Code::from_number(number) {
        Some(code) => Some(code.name()),
        None => None,
    }
}
