//! Why a request is denied by an endpoint that looks at who asks.

ghost use Rattle.std.specs.Prelude.{◌≡◌};
ghost use Rattle.juniper_http.specs.Denials.{denial_status, denial_text};
ghost use Rattle.juniper_http.specs.declared.denial.Denial.TheVariants as gives;

use http::HeaderValue;
use std::alloc::AllocError;

/// Why nothing of a request is executed: what is known of whoever asks does not suffice.
#[derive(Debug, Drop)]
pub enum Denial {
    /// Nobody asks who is known: no credentials, or none that hold. The answer is a 401. Its `www-authenticate` is this challenge, as
    /// `Bearer` or `Basic realm="staff"`, which says how to authenticate (RFC 9110, sections 11.6.1 and 15.5.2).
    Unauthorized(HeaderValue),
    /// Whoever asks may not: 403, and other credentials may do (RFC 9110, section 15.5.4).
    Forbidden,
    /// Memory is refused: 500.
    OutOfMemory,
}

impl Denial {
    /// The status.
    pub fn status(&self) -> u16
        ensures { result ≡ denial_status self.now }
    {
        match self {
            Denial::Unauthorized(_) => 401,
            Denial::Forbidden => 403,
            Denial::OutOfMemory => 500,
        }
    }

    /// The body that tells it: well-formed errors, and no data.
    pub fn text(&self) -> &'static str
        ensures { result.now ≡ denial_text self.now }
    {
        match self {
            Denial::Unauthorized(_) =>
                "{\"errors\":[{\"message\":\"authentication is required\"}]}",
            Denial::Forbidden => "{\"errors\":[{\"message\":\"the request is forbidden\"}]}",
            Denial::OutOfMemory => "{\"errors\":[{\"message\":\"Out of memory\"}]}",
        }
    }
}

impl From<AllocError> for Denial {
    ghost from_gives = { λ _ made. made ≡ gives.OutOfMemory };

    fn from(_error: AllocError) -> Denial {
        Denial::OutOfMemory
    }
}
