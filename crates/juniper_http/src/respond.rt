//! Responses as they are filled.

ghost use Rattle.std.specs.Prelude.{◌≡◌, [], ◌++◌, OnOk, string_bytes};
ghost use Rattle.http.specs.StatusCode.{IsStatusCode};
ghost use Rattle.http_server.specs.Response.{IsResponse, fields_of};
ghost use Rattle.juniper_http.specs.Denials.{Denies, IsDenial, denial_fields};
ghost use Rattle.juniper_http.specs.Responses.{IsPage, IsRefusal, Says, TellsMethods, page_fields, refusal_fields, reply_fields};
ghost use Rattle.juniper_http.specs.Outcomes.{reply_text, status_of as status_spec};

use crate::denial::Denial;
use crate::endpoint::Reply;
use crate::media::MediaType;
use crate::outcome::{Outcome, status_of};
use crate::page::PAGE;
use crate::refusal::Refusal;
use bytes::{BufMut, Bytes};
use http::{HeaderValue, StatusCode, header};
use http_server::Response;
use std::alloc::{AllocError, Global};

/// The methods that are answered.
pub(crate) const ALL_METHODS: &str = "GET, HEAD, POST, OPTIONS";

/// What the page may do: run its own script, and ask its own server.
const PAGE_POLICY: &str =
    "default-src 'none'; script-src 'unsafe-inline'; style-src 'unsafe-inline'; connect-src 'self'; frame-ancestors 'none'";

/// Fills a response with a reply. Where memory is refused it is a bare 500: the request was answered, and is not put again.
pub fn answer_or_fail(response: &mut Response, media: MediaType, reply: Reply)
    requires { response.old.body.items ≡ [] }
    ensures { Says (fields_of response.old) media reply.outcome (string_bytes reply.line) response.new }
{
    if answer(response, media, reply).is_err() {
        response.clear();
        response.status = StatusCode::INTERNAL_SERVER_ERROR;
    }
}

/// Fills a response with a reply.
fn answer(response: &mut Response, media: MediaType, reply: Reply) -> Result<(), AllocError>
    requires { response.old.body.items ≡ [] }
    ensures { OnOk result (IsResponse (status_spec reply.outcome media) (fields_of response.old ++ reply_fields reply.outcome media)
        (reply_text reply.outcome (string_bytes reply.line)) response.new) }
{
    response.status = status(status_of(reply.outcome, media));
    response.add_header(header::CONTENT_TYPE, media.content_type())?;
    if reply.outcome == Outcome::Writes {
        response.add_header(header::ALLOW, HeaderValue::from_static("POST"))?;
    }
    match reply.outcome {
        Outcome::OutOfMemory => response.body.put_slice(reply.text().as_bytes()),
        Outcome::Executed | Outcome::Refused | Outcome::Writes => response
            .body
            .push(Bytes::from_string(reply.line)?),
    }
}

/// Fills a response with a refusal.
pub fn refuse(alloc: Global, response: &mut Response, refusal: Refusal) -> Result<(), AllocError>
    requires { response.old.body.items ≡ [] }
    ensures { OnOk result (IsRefusal (fields_of response.old) refusal response.new) }
{
    response.status = status(refusal.status());
    label_refusal(response, refusal)?;
    let text = refusal.text(alloc)?;
    response.body.put_slice(text.as_str().as_bytes())
}

/// Adds the fields of a refusal.
fn label_refusal(response: &mut Response, refusal: Refusal) -> Result<(), AllocError>
    ensures fields { OnOk result (fields_of response.new ≡ fields_of response.old ++ refusal_fields refusal) }
    ensures status { response.new.status ≡ response.old.status }
    ensures body { response.new.body ≡ response.old.body }
{
    response.add_header(header::CONTENT_TYPE, MediaType::Json.content_type())?;
    match refusal {
        Refusal::Method => {
            response.add_header(header::ALLOW, HeaderValue::from_static(ALL_METHODS))
        }
        Refusal::Coding => response.add_header(
            header::ACCEPT_ENCODING,
            HeaderValue::from_static("identity"),
        ),
        _ => Ok(()),
    }
}

/// Fills a response with a denial. Where memory is refused it is a bare 500: the endpoint was asked, and is not asked again.
pub fn deny_or_fail(response: &mut Response, media: MediaType, denial: Denial)
    requires { response.old.body.items ≡ [] }
    ensures { Denies (fields_of response.old) media denial response.new }
{
    if deny(response, media, denial).is_err() {
        fail(response);
    }
}

/// Fills a response with a denial.
fn deny(response: &mut Response, media: MediaType, denial: Denial) -> Result<(), AllocError>
    requires { response.old.body.items ≡ [] }
    ensures { OnOk result (IsDenial (fields_of response.old) media denial response.new) }
{
    response.status = status(denial.status());
    let text = denial.text();
    label_denial(response, media, denial)?;
    response.body.push(Bytes::from_static(text.as_bytes()))
}

/// Adds the fields of a denial.
fn label_denial(response: &mut Response, media: MediaType, denial: Denial) -> Result<(), AllocError>
    ensures fields { OnOk result (fields_of response.new ≡ fields_of response.old ++ denial_fields denial media) }
    ensures status { response.new.status ≡ response.old.status }
    ensures body { response.new.body ≡ response.old.body }
{
    response.add_header(header::CONTENT_TYPE, media.content_type())?;
    match denial {
        Denial::Unauthorized(challenge) => response.add_header(header::WWW_AUTHENTICATE, challenge),
        Denial::Forbidden | Denial::OutOfMemory => Ok(()),
    }
}

/// Makes a response a bare 500.
pub fn fail(response: &mut Response)
    ensures { IsResponse 500 [] [] response.new }
{
    response.clear();
    response.status = StatusCode::INTERNAL_SERVER_ERROR;
}

/// Fills a response with the methods that are answered.
pub fn tell_methods(response: &mut Response) -> Result<(), AllocError>
    requires { response.old.body.items ≡ [] }
    ensures { OnOk result (TellsMethods (fields_of response.old) response.new) }
{
    response.status = StatusCode::NO_CONTENT;
    response.add_header(header::ALLOW, HeaderValue::from_static(ALL_METHODS))
}

/// Fills a response with the page.
pub fn show_page(response: &mut Response) -> Result<(), AllocError>
    requires status { response.old.status ≡ 200 }
    requires body { response.old.body.items ≡ [] }
    ensures { OnOk result (IsPage (fields_of response.old) response.new) }
{
    label_page(response)?;
    response.body.push(Bytes::from_static(PAGE.as_bytes()))
}

/// Adds the fields of the page.
fn label_page(response: &mut Response) -> Result<(), AllocError>
    ensures fields { OnOk result (fields_of response.new ≡ fields_of response.old ++ page_fields) }
    ensures status { response.new.status ≡ response.old.status }
    ensures body { response.new.body ≡ response.old.body }
{
    response.add_header(
        header::CONTENT_TYPE,
        HeaderValue::from_static("text/html; charset=utf-8"),
    )?;
    response.add_header(
        header::CONTENT_SECURITY_POLICY,
        HeaderValue::from_static(PAGE_POLICY),
    )?;
    response.add_header(
        header::X_CONTENT_TYPE_OPTIONS,
        HeaderValue::from_static("nosniff"),
    )
}

/// The status of this number; 500 for what is none.
fn status(code: u16) -> StatusCode
    ensures { IsStatusCode code → result ≡ code }
{
    match StatusCode::from_u16(code) {
        Ok(status) => status,
        Err(_) => StatusCode::INTERNAL_SERVER_ERROR,
    }
}
