//! What a caller returns, as text.

use std::alloc::Global;
use std::fmt::Debug;

/// Whether a value is printed so.
pub(crate) fn is_shown<T: Debug>(alloc: Global, value: &T, wanted: &str) -> bool {
    match format!(in alloc; "{value:?}") {
        Ok(text) => text.as_str() == wanted,
        Err(_) => false,
    }
}
