//! What `content-type` and `content-encoding` say of a body (RFC 9110, sections 8.3 and 8.4).

ghost use Rattle.std.specs.Prelude.{◌≡◌, ◌==◌, ◌<◌, IfOk};
ghost use Rattle.std.specs.List.{after_first, before_first, list_all, slice_split};
ghost use Rattle.juniper_http.specs.ContentTypes.{content_type_of, is_fine, is_identity, is_utf8, lower_type, type_named};

use crate::decision::Body;
use std::alloc::{AllocError, Global};

/// What a `content-type` says of a body: JSON, or the text of a document, in UTF-8.
pub fn body_type(alloc: Global, text: &str) -> Result<Body, AllocError>
    ensures { IfOk result (λ made. made ≡ content_type_of text.now) }
{
    let lower = text.to_ascii_lowercase(alloc)?;
    Ok(lower_type(lower.as_str()))
}

/// The same of a `content-type` in lower case.
fn lower_type(text: &str) -> Body
    ensures { result ≡ lower_type text.now }
{
    let (name, parameters) = cut(text, ';');
    if are_fine(parameters) {
        type_named(name.trim())
    } else {
        Body::Other
    }
}

/// The body that a media type names.
fn type_named(name: &str) -> Body
    ensures { result ≡ type_named name.now }
{
    match name {
        "application/json" => Body::Json,
        "application/graphql" => Body::Document,
        _ => Body::Other,
    }
}

/// Whether no parameter names another coding of characters than UTF-8.
fn are_fine(parameters: &str) -> bool
    ensures { result ≡ list_all is_fine (slice_split (λ b. b == 59) parameters.now) }
{
    match parameters.split_once(';') {
        Some((first, rest)) => is_fine(first) && are_fine(rest),
        None => is_fine(parameters),
    }
}

/// Whether a parameter names no other coding of characters than UTF-8.
#[tactic(auto, unfolding(crate::specs::ContentTypes::is_fine))]
fn is_fine(parameter: &str) -> bool
    ensures { result ≡ is_fine parameter.now }
{
    let (name, value) = cut(parameter, '=');
    name.trim() != "charset" || is_utf8(value.trim())
}

/// Whether this names UTF-8, in quotes or not.
fn is_utf8(value: &str) -> bool
    ensures { result ≡ is_utf8 value.now }
{
    value == "utf-8" || value == "\"utf-8\""
}

/// Whether each coding of a list leaves a body as it is.
pub fn are_identity(codings: &str) -> bool
    ensures { result ≡ list_all is_identity (slice_split (λ b. b == 44) codings.now) }
{
    match codings.split_once(',') {
        Some((first, rest)) => is_identity(first) && are_identity(rest),
        None => is_identity(codings),
    }
}

/// Whether a coding leaves a body as it is: `identity` does, and nothing does.
fn is_identity(coding: &str) -> bool
    ensures { result ≡ is_identity coding.now }
{
    let name = coding.trim();
    name.is_empty() || name.eq_ignore_ascii_case("identity")
}

/// The texts before and behind the first such character; all and nothing where there is none.
pub fn cut(text: &str, separator: char) -> (&str, &str)
    requires { separator < 128 }
    ensures before { result.0.now ≡ before_first (λ b. b == separator) text.now }
    ensures after { result.1.now ≡ after_first (λ b. b == separator) text.now }
{
    match text.split_once(separator) {
        Some(parts) => parts,
        None => (text, ""),
    }
}
