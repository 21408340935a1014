//! Descriptions, directives and default values (sections 2.9, 3.6.1 and 3.13 of the Specification).

ghost use Rattle.std.specs.Prelude.{◌≡◌, IfOk, option_map, string_bytes};
ghost use Rattle.graphql_spec.specs.Display.{quoted};
ghost use Rattle.juniper_meta.specs.MetaView.{view_deprecation};
ghost use Rattle.juniper_syntax.specs.InputView.{view_input};
ghost use Rattle.juniper_sdl.specs.Definitions.{default_text, deprecation_text, description_text, specified_text};

use juniper_meta::DeprecationStatus;
use juniper_syntax::{DefaultScalarValue, InputValue, ScalarValue};
use std::alloc::{AllocError, Global};

/// A text between quotes, with its escapes (2.9.4).
#[tactic(auto, unfolding(graphql_spec::specs::Display::display, graphql_spec::specs::Display::shown_text_of))]
fn quoted(alloc: Global, text: &str) -> Result<String, AllocError>
    ensures { IfOk result (λ made. string_bytes made ≡ quoted text.now) }
{
    let scalar = DefaultScalarValue::String(String::from_str(alloc, text)?);
    let value = InputValue::Scalar(scalar);
    value.to_string(alloc)
}

/// A description, if there is one, and what stands behind it.
pub fn description_text(
    alloc: Global,
    description: Option<&str>,
    behind: &str,
) -> Result<String, AllocError>
    ensures { IfOk result (λ made. string_bytes made ≡ description_text behind.now (option_map (λ d. d.now) description.entry)) }
{
    match description {
        Some(text) => {
            let mut made = quoted(alloc, text)?;
            made.push_str(behind)?;
            Ok(made)
        }
        None => Ok(String::new(alloc)),
    }
}

/// The directive of what is deprecated, behind a blank (3.13.3).
pub fn deprecation_text(alloc: Global, status: &DeprecationStatus) -> Result<String, AllocError>
    ensures { IfOk result (λ made. string_bytes made ≡ deprecation_text (view_deprecation status.now)) }
{
    match status {
        DeprecationStatus::Current => Ok(String::new(alloc)),
        DeprecationStatus::Deprecated(None) => String::from_str(alloc, " @deprecated"),
        DeprecationStatus::Deprecated(Some(reason)) => {
            let reason = quoted(alloc, reason.as_str())?;
            format!(in alloc; " @deprecated(reason: {reason})")
        }
    }
}

/// The directive of a scalar that is specified at an address, behind a blank (3.13.4).
pub fn specified_text(alloc: Global, url: &Option<String>) -> Result<String, AllocError>
    ensures { IfOk result (λ made. string_bytes made ≡ specified_text (option_map (λ u. string_bytes u) url.now)) }
{
    match url {
        None => Ok(String::new(alloc)),
        Some(address) => {
            let address = quoted(alloc, address.as_str())?;
            format!(in alloc; " @specifiedBy(url: {address})")
        }
    }
}

/// A default value (3.6.1).
pub fn default_text<S: ScalarValue>(
    alloc: Global,
    default: &Option<InputValue<S>>,
) -> Result<String, AllocError>
    ensures { IfOk result (λ made. string_bytes made ≡ default_text (option_map (view_input S.shown) default.now)) }
{
    match default {
        None => Ok(String::new(alloc)),
        Some(value) => format!(in alloc; " = {value}"),
    }
}
