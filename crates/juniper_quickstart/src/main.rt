//! A server in a page: a type with an argument, its resolver, a request, and its printed response.
#![tactic(auto)]

ghost use Rattle.std.specs.Prelude.{codes};
ghost use Rattle.juniper_quickstart.specs.Quickstart as server;

use juniper::words::DeclaredType::Object;
use juniper::words::Reference::NonNull;
use juniper::words::{
    Answer, DeclaredField, DeclaredInput, DeclaredType, QueryType, int, int_argument, null,
    served_query, text,
};
use juniper::{Arguments, DefaultScalarValue, Executor, ScalarValue, Variables, execute_sync};
use juniper_json::response_line;
use std::alloc::{AllocError, Global};
use std::io;

const HELLO: DeclaredField = DeclaredField("hello", &[], NonNull("String"));

const NUMBER: DeclaredInput = DeclaredInput("number", NonNull("Int"), None);

const ECHO: DeclaredField = DeclaredField("echo", &[NUMBER], NonNull("Int"));

/// `type Query { hello: String!, echo(number: Int!): Int! }`.
static TYPES: [DeclaredType; 1] = [Object("Query", &[], &[HELLO, ECHO])];

/// What answers queries.
#[derive(Debug, Drop)]
struct Query;

/// The resolver: what it answers is proved to be what its definition says.
impl<S: ScalarValue> QueryType<S> for Query {
    type Context = ();

    type Node = ();

    ghost concrete = { λ _. codes "Query" };

    ghost answer = { λ _ _. server.query_reply };

    ghost root = { λ _. tt };

    fn root_node(&self) -> &() {
        &()
    }

    fn concrete_type_name(_node: &()) -> &'static str {
        "Query"
    }

    fn resolve_field(
        alloc: Global,
        _node: &(),
        field_name: &str,
        arguments: &Arguments<'_, S>,
        _executor: &Executor<(), S>,
    ) -> Answer<(), S> {
        match field_name {
            "hello" => text(alloc, "world"),
            "echo" => match int_argument(alloc, arguments, "number")? {
                Some(number) => int(number),
                None => null(),
            },
            _ => null(),
        }
    }
}

/// The response to a request, as a line of JSON.
fn respond(alloc: Global, request: &str) -> Result<String, AllocError> {
    let root = match served_query(alloc, Query, &TYPES) {
        Ok(root) => root,
        Err(error) => return error.to_string(alloc),
    };
    let variables: Variables<DefaultScalarValue> = Variables::new(alloc);
    let outcome = execute_sync(alloc, request, None, &root, &variables, &mut ());
    response_line(alloc, &outcome)
}

fn main(rt: HostRuntime) -> io::Result<()> {
    let line = respond(rt.alloc(), "{ hello echo(number: 42) }")?;
    println!(rt; "{line}")
}
