//! What a request asks for.

ghost use Rattle.std.specs.Prelude.{◌≡◌, ◌++◌, IfOk, Some, codes, map};
ghost use Rattle.http.specs.Request.{body_of, head_of};
ghost use Rattle.juniper_request.specs.Requests.{view_body};
ghost use Rattle.http_header.specs.HeaderMap.{get_all};
ghost use Rattle.juniper_http.specs.Accept.{field_ranges, view_range};
ghost use Rattle.juniper_http.specs.ContentTypes.{IsBodyType, IsFieldType, IsLineType, are_plain, is_plain_line};
ghost use Rattle.juniper_http.specs.Decisions.{is_known, is_served, verb_of};
ghost use Rattle.juniper_http.specs.declared.decision.Verb.TheVariants as verbs;
ghost use Rattle.juniper_http.specs.Guards.{asked_media};
ghost use Rattle.juniper_http.specs.Plans.{AreFacts, IsBodyPlan, IsDocumentPlan, IsJsonPlan, IsPlan, IsPlanFor, IsQueryPlan, batch_len, taken_by};

use crate::accept::{Range, add_ranges, choose, has_range, wants_page};
use crate::content_type::{are_identity, body_type};
use crate::decision::{Body, Facts, Step, Verb, decide};
use crate::media::MediaType;
use crate::parameters::{parameters_in, parts_in};
use crate::parts::RequestParts;
use crate::refusal::Refusal;
use bytes::Bytes;
use http::{HeaderValue, Request, header};
use juniper_request::{GraphQLBatchRequest, RequestError, read_request};
use std::alloc::{AllocError, Global};

/// The limits of requests.
#[derive(Clone, Copy, Debug)]
pub struct Limits {
    /// A longer body is refused.
    pub max_body_len: usize,
    /// A batch of more requests is refused.
    pub max_batch_len: usize,
    /// Once the replies to a batch have more bytes together, its other members are refused.
    pub max_answer_len: usize,
}

impl Limits {
    /// For requests of strangers: 256 KiB, ten requests in a batch, and a batch that is answered 1 MiB and one more reply.
    pub const DEFAULT: Limits = Limits {
        max_body_len: 256 * 1024,
        max_batch_len: 10,
        max_answer_len: 1024 * 1024,
    };
}

const _: () = prove!(Limits::DEFAULT.max_body_len == 262_144);

const _: () = prove!(Limits::DEFAULT.max_batch_len == 10);

const _: () = prove!(Limits::DEFAULT.max_answer_len == 1_048_576);

/// What is to be done for a request.
#[derive(Drop)]
pub enum Plan {
    /// The page is shown.
    Page,
    /// The methods that are answered are told.
    Methods,
    /// The request is refused.
    Refuse(Refusal),
    /// One request, which may write where it came by `POST`.
    Ask(MediaType, RequestParts, bool),
    /// The requests of a `POST`.
    Post(MediaType, GraphQLBatchRequest),
}

impl Plan {
    /// The media type of what answers a plan that asks the endpoint something; `None` for one that asks nothing.
    pub fn asked_media(&self) -> Option<MediaType>
        ensures { result ≡ asked_media self.now }
    {
        match self {
            Plan::Page | Plan::Methods | Plan::Refuse(_) => None,
            Plan::Ask(media, _, _) | Plan::Post(media, _) => Some(*media),
        }
    }
}

/// What is to be done for a request; an error where memory is refused.
pub fn plan_of(alloc: Global, request: &Request<Bytes>, limits: &Limits) -> Result<Plan, AllocError>
    ensures { IfOk result (IsPlan limits.now request.now) }
{
    let facts = facts_of(alloc, request, limits)?;
    match decide(&facts) {
        Step::ShowPage => Ok(Plan::Page),
        Step::TellMethods => Ok(Plan::Methods),
        Step::Refuse(refusal) => Ok(Plan::Refuse(refusal)),
        Step::ReadQuery(media) => match request.uri().query() {
            Some(query) => read_query(alloc, query, media),
            None => Ok(Plan::Refuse(Refusal::NotARequest(RequestError::Query))),
        },
        Step::ReadJson(media) => read_json(alloc, request, limits, media),
        Step::ReadDocument(media) => read_document(alloc, request, media),
    }
}

/// What is known of a request's head.
fn facts_of(alloc: Global, request: &Request<Bytes>, limits: &Limits) -> Result<Facts, AllocError>
    ensures { IfOk result (AreFacts limits.now request.now) }
{
    let ranges = accepted(alloc, request)?;
    let verb = verb(request.method().as_str());
    Ok(Facts {
        verb,
        is_known_path: is_known(verb, request.uri().path()),
        has_query: request.uri().query().is_some(),
        has_accept: has_range(ranges.as_slice()),
        media: choose(ranges.as_slice()),
        wants_page: wants_page(ranges.as_slice()),
        body: body_in(alloc, request)?,
        fits: request.body().len() <= limits.max_body_len,
    })
}

/// The verb of a method.
fn verb(method: &str) -> Verb
    ensures table { result ≡ verb_of method.now }
    ensures posts { result ≡ verbs.Posts → method.now ≡ codes "POST" }
{
    match method {
        "GET" | "HEAD" => Verb::Reads,
        "POST" => Verb::Posts,
        "OPTIONS" => Verb::AsksMethods,
        _ => Verb::Other,
    }
}

/// Whether what a verb asks for is served at a path.
fn is_known(verb: Verb, path: &str) -> bool
    ensures { result ≡ is_known verb path.now }
{
    match verb {
        Verb::AsksMethods => is_served(path) || path == "*",
        Verb::Reads | Verb::Posts | Verb::Other => is_served(path),
    }
}

/// Whether requests are served at a path.
fn is_served(path: &str) -> bool
    ensures { result ≡ is_served path.now }
{
    path == "/" || path == "/graphql"
}

/// The ranges that a request takes.
fn accepted<'a>(alloc: Global, request: &'a Request<Bytes>) -> Result<Vec<Range<'a>>, AllocError>
    ensures { IfOk result (λ made. map view_range made.items ≡ taken_by request.now) }
{
    let mut made = Vec::new(alloc);
    for value in request.headers().get_all(header::ACCEPT) {
        made = add_value(made, value)?;
    }
    Ok(made)
}

/// The ranges with those of a line of the field behind them.
fn add_value<'a>(
    ranges: Vec<Range<'a>>,
    value: &'a HeaderValue,
) -> Result<Vec<Range<'a>>, AllocError>
    ensures { IfOk result (λ made. map view_range made.items ≡ map view_range ranges.entry.items ++ field_ranges value.now) }
{
    match value.to_str() {
        Ok(text) => add_ranges(ranges, text),
        Err(_) => Ok(ranges),
    }
}

/// What a request's fields say of its body.
fn body_in(alloc: Global, request: &Request<Bytes>) -> Result<Body, AllocError>
    ensures { IfOk result (IsBodyType (get_all (head_of request.now).headers (codes "content-encoding"))
        (get_all (head_of request.now).headers (codes "content-type"))) }
{
    if has_no_coding(request) {
        type_of(alloc, request)
    } else {
        Ok(Body::Coded)
    }
}

/// Whether each line of a request's `content-encoding` leaves its body as it is.
fn has_no_coding(request: &Request<Bytes>) -> bool
    ensures { result ≡ are_plain (get_all (head_of request.now).headers (codes "content-encoding")) }
{
    for value in request.headers().get_all(header::CONTENT_ENCODING) {
        if !is_plain_line(value) {
            return false;
        }
    }
    true
}

/// Whether a line of `content-encoding` leaves a body as it is.
fn is_plain_line(value: &HeaderValue) -> bool
    ensures { result ≡ is_plain_line value.now }
{
    match value.to_str() {
        Ok(text) => are_identity(text),
        Err(_) => false,
    }
}

/// What a request's `content-type` says of its body.
fn type_of(alloc: Global, request: &Request<Bytes>) -> Result<Body, AllocError>
    ensures { IfOk result (IsFieldType (get_all (head_of request.now).headers (codes "content-type"))) }
{
    let mut lines = request.headers().get_all(header::CONTENT_TYPE).iter();
    match lines.next() {
        Some(value) => match lines.next() {
            Some(_) => Ok(Body::Other),
            None => value_type(alloc, value),
        },
        None => Ok(Body::Other),
    }
}

/// The same of a line of the field.
fn value_type(alloc: Global, value: &HeaderValue) -> Result<Body, AllocError>
    ensures { IfOk result (IsLineType value.now) }
{
    match value.to_str() {
        Ok(text) => body_type(alloc, text),
        Err(_) => Ok(Body::Other),
    }
}

/// What is to be done for a body of JSON.
fn read_json(
    alloc: Global,
    request: &Request<Bytes>,
    limits: &Limits,
    media: MediaType,
) -> Result<Plan, AllocError>
    requires { (head_of request.now).method ≡ codes "POST" }
    ensures posted { IfOk result (IsPlanFor (head_of request.now).method (body_of request.now)) }
    ensures plan { IfOk result (IsJsonPlan limits.now media (body_of request.now)) }
{
    match read_request(alloc, request.body().as_slice())? {
        Ok(requests) => Ok(plan_body(requests, limits, media)),
        Err(fault) => Ok(Plan::Refuse(Refusal::NotJson(fault))),
    }
}

/// What is to be done for these requests.
fn plan_body(requests: GraphQLBatchRequest, limits: &Limits, media: MediaType) -> Plan
    ensures { IsBodyPlan limits.now media requests result }
{
    match batch_len(&requests) {
        Some(0) => Plan::Refuse(Refusal::EmptyBatch),
        Some(len) if len > limits.max_batch_len => Plan::Refuse(Refusal::LongBatch),
        _ => Plan::Post(media, requests),
    }
}

/// How many requests a batch has; `None` for one request.
fn batch_len(requests: &GraphQLBatchRequest) -> Option<usize>
    ensures { result ≡ batch_len (view_body requests.now) }
{
    match requests {
        GraphQLBatchRequest::Single(_) => None,
        GraphQLBatchRequest::Batch(members) => Some(members.len()),
    }
}

/// What is to be done for a body that is the text of a document.
fn read_document(
    alloc: Global,
    request: &Request<Bytes>,
    media: MediaType,
) -> Result<Plan, AllocError>
    requires { (head_of request.now).method ≡ codes "POST" }
    ensures posted { IfOk result (IsPlanFor (head_of request.now).method (body_of request.now)) }
    ensures plan { IfOk result (IsDocumentPlan media (body_of request.now)) }
{
    match std::str::from_utf8(request.body().as_slice()) {
        Ok(text) => {
            let query = String::from_str(alloc, text)?;
            Ok(Plan::Ask(media, RequestParts::of_document(query), true))
        }
        Err(_) => Ok(Plan::Refuse(Refusal::MediaType)),
    }
}

/// What is to be done for a `GET` with this query.
fn read_query(alloc: Global, query: &str, media: MediaType) -> Result<Plan, AllocError>
    ensures { IfOk result (IsQueryPlan media (Some query.now)) }
{
    match parts_in(alloc, parameters_in(alloc, query)?)? {
        Ok(parts) => Ok(Plan::Ask(media, parts, false)),
        Err(refusal) => Ok(Plan::Refuse(refusal)),
    }
}
