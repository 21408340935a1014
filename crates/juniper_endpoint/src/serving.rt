//! A root served over standard input and output, as the words of the command line say.

use crate::endpoint::RootEndpoint;
use crate::logged::Logged;
use crate::mode::{Mode, mode_of};
use crate::request_lines::response_to;
use http_server::{Config, Service};
use juniper::{
    Bounds, DefaultScalarValue, GraphQLMutationValue, GraphQLType, GraphQLValue, RootNode,
    SchemaType,
};
use juniper_http::{Endpoint, GraphQLService, Limits, serve_connection};
use juniper_sdl::as_sdl;
use std::alloc::AllocGlobal;
use std::fmt::Display;
use std::hash::RandomState;
use std::io::BufRead;
use std::process::ExitCode;
use std::random::RandomSource;
use std::rt::Env;
use std::{env, io};

/// What is told of words that are not understood.
const USAGE: &str = "The words are none, for a connection of HTTP, or --lines, or --sdl";

/// What is told where standard output fails.
const UNWRITTEN: &str =
    "The answer to the last line was not written, or not wholly; its request was executed, unless it is to be refused";

/// What a program needs of the system to serve: its words, standard input, output and error, memory, and keys that nobody knows.
pub trait Host: AllocGlobal + Env + Eprint + Input + Print + RandomSource {}

impl<R: AllocGlobal + Env + Eprint + Input + Print + RandomSource> Host for R {}

/// What a server takes of requests.
#[derive(Clone, Copy)]
pub struct ServerLimits {
    /// The bounds of a text.
    pub bounds: Bounds,
    /// The most fields that a request enters, if there is such a budget ([`RootEndpoint::entered_fields`]).
    pub entered_fields: Option<usize>,
    /// The most bytes of a text that is explained ([`RootEndpoint::explained_bytes`]).
    pub explained_bytes: usize,
    /// The limits of requests over HTTP.
    pub http: Limits,
    /// The most bytes of a body; a connection refuses a longer one before it is read.
    pub read_bytes: usize,
}

impl ServerLimits {
    /// For requests of strangers: `Bounds::DEFAULT`, 100,000 fields, 4 KiB that are explained, `Limits::DEFAULT`, and 1 MiB that are read.
    pub const DEFAULT: ServerLimits = ServerLimits {
        bounds: Bounds::DEFAULT,
        entered_fields: Some(100_000),
        explained_bytes: 4 * 1024,
        http: Limits::DEFAULT,
        read_bytes: 1024 * 1024,
    };
}

const _: () = prove!(ServerLimits::DEFAULT.explained_bytes == 4_096);

const _: () = prove!(ServerLimits::DEFAULT.read_bytes == 1_048_576);

/// Serves a root over standard input and output, with a line on standard error for each request, and answers the status of the program:
/// - without words, the requests of one connection of HTTP/1.1;
/// - with `--lines`, the request of JSON in each line, by a line of JSON, all in one context;
/// - with `--sdl`, the schema as a text of the language for type systems.
///
/// The status is 1 where an answer was not written or the schema has no text, and 2 where the words are others.
pub fn serve<
    R: Host,
    Q: GraphQLValue<DefaultScalarValue>,
    M: GraphQLMutationValue<DefaultScalarValue, Context = Q::Context, Node = Q::Node>,
    Sub: GraphQLType<DefaultScalarValue>,
>(
    rt: &R,
    root: &RootNode<Q, M, Sub, DefaultScalarValue>,
    context: Q::Context,
    limits: &ServerLimits,
) -> ExitCode
where
    Q::Context: Drop,
{
    let endpoint = RootEndpoint {
        root,
        context,
        bounds: limits.bounds,
        entered_fields: limits.entered_fields,
        explained_bytes: limits.explained_bytes,
    };
    serve_endpoint(rt, endpoint, root.schema(), limits)
}

/// Serves an endpoint as [`serve`] does a root; this is the schema that `--sdl` prints.
pub fn serve_endpoint<R: Host, E: Endpoint + Drop>(
    rt: &R,
    endpoint: E,
    schema: &SchemaType<DefaultScalarValue>,
    limits: &ServerLimits,
) -> ExitCode {
    match run(rt, endpoint, schema, limits) {
        Ok(status) => status,
        Err(error) => report(rt, error),
    }
}

/// Tells an error on standard error; the status of a program that it ends.
pub fn report<R: Host, T: Display + Drop>(rt: &R, error: T) -> ExitCode {
    let _told = eprintln!(rt; "{error}");
    ExitCode::from(1)
}

/// Serves in the mode of the words; a status tells that there is none.
fn run<R: Host, E: Endpoint + Drop>(
    rt: &R,
    endpoint: E,
    schema: &SchemaType<DefaultScalarValue>,
    limits: &ServerLimits,
) -> io::Result<ExitCode> {
    let words = env::args(rt)?.skip(1).collect::<Vec<String>>(rt.alloc())?;
    match mode_of(words.as_slice()) {
        Some(Mode::Http) => {
            let service = GraphQLService::new(rt.alloc(), endpoint, limits.http);
            serve_http(rt, service, limits)?;
            Ok(ExitCode::from(0))
        }
        Some(Mode::Lines) => serve_lines(rt, endpoint),
        Some(Mode::Sdl) => print_schema(rt, schema),
        None => {
            eprintln!(rt; "{USAGE}")?;
            Ok(ExitCode::from(2))
        }
    }
}

/// Answers the requests of one connection of HTTP/1.1 by a service, over standard input and output, with a line on standard error for each. An
/// error where these fail, or memory is refused.
pub fn serve_http<R: Host, S: Service + Drop>(
    rt: &R,
    service: S,
    limits: &ServerLimits,
) -> io::Result<()> {
    let alloc = rt.alloc();
    let mut logged = Logged { rt, service };
    let config = Config {
        max_body_len: limits.read_bytes,
        max_pending: 0,
        ..Config::default()
    };
    let keys = RandomState::new(rt)?;
    let mut reader = rt.reader();
    let mut writer = io::writer(rt);
    serve_connection(alloc, keys, config, &mut logged, &mut reader, &mut writer)
}

/// Answers the request in each line, also where the log cannot be written; a status tells that an answer was not.
fn serve_lines<R: Host, E: Endpoint + Drop>(rt: &R, mut endpoint: E) -> io::Result<ExitCode> {
    let alloc = rt.alloc();
    for line in rt.reader().split(alloc, b'\n') {
        let request = line?;
        let response = response_to(alloc, &mut endpoint, request.as_slice())?;
        if let Err(error) = println!(rt; "{response}") {
            let _told = eprintln!(rt; "{UNWRITTEN}: {error}");
            return Ok(ExitCode::from(1));
        }
        let _logged = eprintln!(rt; "{} B, {} B", request.len(), response.len());
    }
    Ok(ExitCode::from(0))
}

/// Prints the schema; a status tells that it has no text.
fn print_schema<R: Host>(rt: &R, schema: &SchemaType<DefaultScalarValue>) -> io::Result<ExitCode> {
    match as_sdl(rt.alloc(), schema) {
        Ok(text) => {
            print!(rt; "{text}")?;
            Ok(ExitCode::from(0))
        }
        Err(error) => {
            eprintln!(rt; "{error}")?;
            Ok(ExitCode::from(1))
        }
    }
}
