//! Values of variables from JSON.

use juniper_schema_text::Scalar;
use juniper_syntax::Variables;
use std::alloc::Global;

/// The variables of a text that is an object of JSON; none for an empty text. `None` where the text gives none, or memory is
/// refused.
pub fn variables_of(alloc: Global, text: &str) -> Option<Variables<Scalar>> {
    if text.is_empty() {
        return Some(Variables::new(alloc));
    }
    match juniper_json::read_variables(alloc, text) {
        Ok(Ok(variables)) => Some(variables),
        Ok(Err(_)) | Err(_) => None,
    }
}
