//! Bytes of HTTP/1.1, and what is answered to them: by the demo, and by an endpoint that shows what it is asked.

mod responses;
mod shows;

use crate::bytes::bytes_of;
use crate::kinds::unknown;
use crate::table::Row;
use http_server::Config;
use juniper::Bounds;
use juniper_demo_server::{DemoContext, DemoRoot, made_root};
use juniper_endpoint::RootEndpoint;
use juniper_http::{
    AllowedOrigins, Endpoint, GraphQLService, Limits, MediaType, add_ranges, choose,
    serve_connection,
};
use responses::{head_in, responses_in};
use shows::Shows;
use std::alloc::{AllocError, Global};
use std::hash::RandomState;

/// Which texts the demo takes.
const BOUNDS: Bounds = Bounds {
    bytes: 120,
    fields: 7,
    levels: 4,
};

/// Which requests the demo takes.
const WIDE: Limits = Limits {
    max_body_len: 200,
    max_batch_len: 2,
    max_answer_len: 1_000,
};

/// Which requests are taken where what is asked is shown.
const NARROW: Limits = Limits {
    max_body_len: 80,
    max_batch_len: 2,
    max_answer_len: 10,
};

/// What the demo sent, and how often its context was added to.
#[derive(Drop)]
struct DemoSent {
    text: String,
    count: i32,
}

/// What is told of a row's case.
pub fn told(alloc: Global, keys: RandomState, row: &Row) -> Result<String, AllocError> {
    if row.told == "accept" {
        return chosen(alloc, row.case);
    }
    let received = received_in(alloc, row.case)?;
    told_of(alloc, keys, row.told, received.as_slice())
}

/// What of the answers to bytes that are received is told, where this is what a row tells.
fn told_of(
    alloc: Global,
    keys: RandomState,
    what: &str,
    received: &[u8],
) -> Result<String, AllocError> {
    if let Some(origins) = what.strip_prefix("head for ") {
        return head_for(alloc, keys, origins, received);
    }
    match what {
        "demo" => answers_of_demo(alloc, keys, false, received),
        "demo without introspection" => answers_of_demo(alloc, keys, true, received),
        "sent by the demo" => Ok(demo_sent(alloc, keys, false, received)?.text),
        "service" => answers_of_service(alloc, keys, received),
        "service by default" => answers_by_default(alloc, keys, received),
        "sent by the service" => service_sent(alloc, keys, received),
        _ => unknown(alloc),
    }
}

/// The media type that is chosen by the text of a field `Accept`.
fn chosen(alloc: Global, accept: &str) -> Result<String, AllocError> {
    let ranges = add_ranges(Vec::new(alloc), accept)?;
    let media = match choose(ranges.as_slice()) {
        Some(MediaType::GraphqlResponse) => "GraphqlResponse",
        Some(MediaType::Json) => "Json",
        None => "None",
    };
    String::from_str(alloc, media)
}

/// The bytes of a case: of a request `METHOD TARGET | FIELDS | BODY`, or those that stand there.
fn received_in(alloc: Global, case: &str) -> Result<Vec<u8>, AllocError> {
    match case.split_once(" | ") {
        Some((start, rest)) => {
            let (fields, body) = rest.split_once(" | ").unwrap_or((rest, ""));
            request_bytes(alloc, start, given(fields), given(body))
        }
        None => bytes_of(alloc, case),
    }
}

/// What stands in a column; a dash is nothing.
fn given(column: &str) -> &str {
    if column == "-" { "" } else { column }
}

/// The bytes of a request with this method and target, these fields, with ` ;; ` between each two, and this body.
fn request_bytes(
    alloc: Global,
    start: &str,
    fields: &str,
    body: &str,
) -> Result<Vec<u8>, AllocError> {
    let end = if fields.is_empty() { "" } else { "\r\n" };
    let fields = fields.replace(alloc, " ;; ", "\r\n")?;
    let len = body.len();
    let text = format!(in alloc;
        "{start} HTTP/1.1\r\nHost: x\r\n{fields}{end}Content-Length: {len}\r\n\r\n{body}"
    )?;
    bytes_of(alloc, text.as_str())
}

/// What the demo answers, and behind a bar how often its context was added to.
fn answers_of_demo(
    alloc: Global,
    keys: RandomState,
    is_hidden: bool,
    received: &[u8],
) -> Result<String, AllocError> {
    let sent = demo_sent(alloc, keys, is_hidden, received)?;
    let count = sent.count;
    let mut shown = responses_in(alloc, sent.text.as_str())?;
    write!(shown, " | {count}")?;
    Ok(shown)
}

/// What the demo sends, which may be hidden from introspection.
fn demo_sent(
    alloc: Global,
    keys: RandomState,
    is_hidden: bool,
    received: &[u8],
) -> Result<DemoSent, AllocError> {
    let root = root_of_demo(alloc, is_hidden)?;
    sent_on(alloc, keys, &root, received)
}

/// The root of the demo, which may be hidden from introspection.
fn root_of_demo(alloc: Global, is_hidden: bool) -> Result<DemoRoot, AllocError> {
    let root = made_root(alloc)?;
    Ok(if is_hidden {
        root.disable_introspection()
    } else {
        root
    })
}

/// What the demo sends over this root, in a context of its own.
fn sent_on(
    alloc: Global,
    keys: RandomState,
    root: &DemoRoot,
    received: &[u8],
) -> Result<DemoSent, AllocError> {
    let endpoint = RootEndpoint {
        root,
        context: DemoContext::new(),
        bounds: BOUNDS,
        entered_fields: Some(8),
        explained_bytes: 100,
    };
    let mut service = service_over(alloc, endpoint, WIDE, AllowedOrigins::Own);
    let text = sent_by(alloc, keys, &mut service, received)?;
    let count = service.endpoint.context.count;
    Ok(DemoSent { text, count })
}

/// What the service answers over an endpoint that shows what it is asked.
fn answers_of_service(
    alloc: Global,
    keys: RandomState,
    received: &[u8],
) -> Result<String, AllocError> {
    let sent = service_sent(alloc, keys, received)?;
    responses_in(alloc, sent.as_str())
}

/// What the service sends over an endpoint that shows what it is asked.
fn service_sent(alloc: Global, keys: RandomState, received: &[u8]) -> Result<String, AllocError> {
    let mut service = service_over(alloc, Shows { count: 0 }, NARROW, AllowedOrigins::Own);
    sent_by(alloc, keys, &mut service, received)
}

/// What a service with the limits for strangers answers over such an endpoint.
fn answers_by_default(
    alloc: Global,
    keys: RandomState,
    received: &[u8],
) -> Result<String, AllocError> {
    let mut service = GraphQLService::new(alloc, Shows { count: 0 }, Limits::DEFAULT);
    let sent = sent_by(alloc, keys, &mut service, received)?;
    responses_in(alloc, sent.as_str())
}

/// The head of what the service answers whose answers the pages of these origins may read: `its own`, `any`, or a list between blanks.
fn head_for(
    alloc: Global,
    keys: RandomState,
    origins: &str,
    received: &[u8],
) -> Result<String, AllocError> {
    let listed = origins.split(' ').collect::<Vec<&str>>(alloc)?;
    let allowed = allowed_origins(origins, listed.as_slice());
    let mut service = service_over(alloc, Shows { count: 0 }, NARROW, allowed);
    let sent = sent_by(alloc, keys, &mut service, received)?;
    head_in(alloc, sent.as_str())
}

/// The origins of this name, or else the listed ones.
fn allowed_origins<'o>(name: &str, listed: &'o [&'o str]) -> AllowedOrigins<'o> {
    match name {
        "its own" => AllowedOrigins::Own,
        "any" => AllowedOrigins::Any,
        _ => AllowedOrigins::Listed(listed),
    }
}

/// A service with these limits.
fn service_over<E: Endpoint>(
    alloc: Global,
    endpoint: E,
    limits: Limits,
    origins: AllowedOrigins<'_>,
) -> GraphQLService<'_, E> {
    GraphQLService {
        alloc,
        endpoint,
        limits,
        closes: false,
        origins,
    }
}

/// The text that a service sends over a new connection which receives these bytes.
fn sent_by<E: Endpoint>(
    alloc: Global,
    keys: RandomState,
    service: &mut GraphQLService<'_, E>,
    received: &[u8],
) -> Result<String, AllocError> {
    let config = Config {
        max_body_len: 1000,
        ..Config::default()
    };
    let mut input = received;
    let mut output = Vec::new(alloc);
    match serve_connection(alloc, keys, config, service, &mut input, &mut output) {
        Ok(()) => text_of(alloc, output.as_slice()),
        Err(_) => Err(AllocError),
    }
}

/// The text that bytes are.
fn text_of(alloc: Global, bytes: &[u8]) -> Result<String, AllocError> {
    match std::str::from_utf8(bytes) {
        Ok(text) => String::from_str(alloc, text),
        Err(_) => String::from_str(alloc, "no text"),
    }
}
