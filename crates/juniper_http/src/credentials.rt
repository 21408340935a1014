//! The token that a request brings.

ghost use Rattle.std.specs.Prelude.{◌≡◌, option_map};
ghost use Rattle.juniper_http.specs.Credentials.{IsBearerToken, IsLineToken, bearer_in};

use crate::content_type::cut;
use bytes::Bytes;
use http::{HeaderValue, Request, header};

/// The token of a request, which stands behind `Bearer` in its field `authorization` (RFC 6750, section 2.1), without the blanks around
/// it, and may be empty; `None` where the field has another scheme, or bytes that are no visible ASCII, or where there is no such field, or
/// there are several. Whether the token holds is for its reader to say.
pub fn bearer_token(request: &Request<Bytes>) -> Option<&str>
    ensures { IsBearerToken request.now (option_map (λ token. token.now) result) }
{
    let mut lines = request.headers().get_all(header::AUTHORIZATION).iter();
    match lines.next() {
        Some(value) => match lines.next() {
            Some(_) => None,
            None => token_of(value),
        },
        None => None,
    }
}

/// The token in a line of the field.
fn token_of(value: &HeaderValue) -> Option<&str>
    ensures { IsLineToken value.now (option_map (λ token. token.now) result) }
{
    match value.to_str() {
        Ok(text) => bearer_in(text),
        Err(_) => None,
    }
}

/// What stands behind the scheme `Bearer`.
fn bearer_in(text: &str) -> Option<&str>
    ensures { option_map (λ token. token.now) result ≡ bearer_in text.now }
{
    let (scheme, token) = cut(text, ' ');
    if scheme.eq_ignore_ascii_case("bearer") {
        Some(token.trim())
    } else {
        None
    }
}
