//! Which pages of other origins may read an answer, by the CORS protocol of the Fetch standard.

ghost use Rattle.std.specs.Prelude.{◌≡◌, ◌++◌, IfOk, OnOk, codes, is_some, option_map};
ghost use Rattle.std.specs.List.{list_any};
ghost use Rattle.std.specs.Str.{bytes_eq};
ghost use Rattle.http_server.specs.Response.{fields_of};
ghost use Rattle.juniper_http.specs.Origins.{allow_fields, allowed, is_preflight, origin_fields, origin_of, preflight_fields, vary_fields};

use crate::respond::ALL_METHODS;
use bytes::Bytes;
use http::{HeaderValue, Request, header};
use http_server::Response;
use std::alloc::AllocError;

/// The fields with which pages of other origins may send a request.
const ALLOWED_FIELDS: &str = "content-type, accept, authorization";

/// For how many seconds a browser may keep what it was told.
const KEPT_SECONDS: &str = "600";

/// The origins whose pages may read the answers of a service. None may send a user's credentials.
#[derive(Clone, Copy, Debug)]
pub enum AllowedOrigins<'o> {
    /// The service's own: nothing is said of origins.
    Own,
    /// Any.
    Any,
    /// These and its own, each byte for byte as browsers write it: `https://example.org`, `http://localhost:3000`.
    Listed(&'o [&'o str]),
}

impl AllowedOrigins<'_> {
    /// Adds what the answer to a request says of origins.
    pub fn say(&self, request: &Request<Bytes>, response: &mut Response) -> Result<(), AllocError>
        ensures fields { OnOk result (fields_of response.new ≡ fields_of response.old ++ origin_fields self.now request.now) }
        ensures status { response.new.status ≡ response.old.status }
        ensures body { response.new.body ≡ response.old.body }
    {
        self.say_allowed(request, response)?;
        self.say_vary(response)
    }

    /// Says which origin is allowed, where one is, and to a preflight what may be sent.
    fn say_allowed(
        &self,
        request: &Request<Bytes>,
        response: &mut Response,
    ) -> Result<(), AllocError>
        ensures fields { OnOk result
            (fields_of response.new ≡ fields_of response.old ++ allow_fields (allowed self.now (origin_of request.now)) (is_preflight request.now)) }
        ensures status { response.new.status ≡ response.old.status }
        ensures body { response.new.body ≡ response.old.body }
    {
        match self.allowed(origin_of(request))? {
            Some(value) => {
                response.add_header(header::ACCESS_CONTROL_ALLOW_ORIGIN, value)?;
                say_preflight(is_preflight(request), response)
            }
            None => Ok(()),
        }
    }

    /// Says that answers go by the origin, where they do.
    fn say_vary(&self, response: &mut Response) -> Result<(), AllocError>
        ensures fields { OnOk result (fields_of response.new ≡ fields_of response.old ++ vary_fields self.now) }
        ensures status { response.new.status ≡ response.old.status }
        ensures body { response.new.body ≡ response.old.body }
    {
        match self {
            AllowedOrigins::Own | AllowedOrigins::Any => Ok(()),
            AllowedOrigins::Listed(_) => {
                response.add_header(header::VARY, HeaderValue::from_static("origin"))
            }
        }
    }

    /// The origin that is allowed where this is the origin of a request.
    fn allowed(&self, origin: Option<&HeaderValue>) -> Result<Option<HeaderValue>, AllocError>
        ensures { IfOk result (λ made. option_map (λ v. v.bytes) made ≡ allowed self.now (option_map (λ v. v.now.bytes) origin.entry)) }
    {
        match (self, origin) {
            (AllowedOrigins::Any, _) => Ok(Some(HeaderValue::from_static("*"))),
            (AllowedOrigins::Listed(them), Some(value)) => match is_one_of(them, value.as_bytes()) {
                true => Ok(Some(value.clone()?)),
                false => Ok(None),
            },
            (AllowedOrigins::Own, _) | (AllowedOrigins::Listed(_), None) => Ok(None),
        }
    }
}

/// Whether an origin is one of these.
fn is_one_of(them: &[&str], origin: &[u8]) -> bool
    ensures { result ≡ list_any (λ one. bytes_eq one.now origin.now) them.now }
{
    for one in them {
        if one.as_bytes() == origin {
            return true;
        }
    }
    false
}

/// The origin from which a request comes; `None` where no line of its fields names one, or several do.
fn origin_of(request: &Request<Bytes>) -> Option<&HeaderValue>
    ensures { option_map (λ v. v.now.bytes) result ≡ origin_of request.now }
{
    let mut lines = request.headers().get_all(header::ORIGIN).iter();
    match lines.next() {
        Some(value) => match lines.next() {
            Some(_) => None,
            None => Some(value),
        },
        None => None,
    }
}

/// Whether a request asks what may be sent from another origin.
fn is_preflight(request: &Request<Bytes>) -> bool
    ensures { result ≡ is_preflight request.now }
{
    let fields = request.headers();
    request.method().as_str() == "OPTIONS"
        && fields.get(header::ORIGIN).is_some()
        && fields.get(header::ACCESS_CONTROL_REQUEST_METHOD).is_some()
}

/// Says to a preflight with which methods and fields a request may come.
fn say_preflight(is_preflight: bool, response: &mut Response) -> Result<(), AllocError>
    ensures fields { OnOk result (fields_of response.new ≡ fields_of response.old ++ preflight_fields is_preflight) }
    ensures status { response.new.status ≡ response.old.status }
    ensures body { response.new.body ≡ response.old.body }
{
    if is_preflight {
        response.add_header(
            header::ACCESS_CONTROL_ALLOW_METHODS,
            HeaderValue::from_static(ALL_METHODS),
        )?;
        response.add_header(
            header::ACCESS_CONTROL_ALLOW_HEADERS,
            HeaderValue::from_static(ALLOWED_FIELDS),
        )?;
        response.add_header(
            header::ACCESS_CONTROL_MAX_AGE,
            HeaderValue::from_static(KEPT_SECONDS),
        )
    } else {
        Ok(())
    }
}
