//! Roots without mutations: what a registry may not await, what requests are answered, and what stands for no mutation and no
//! subscription; with two types of scalars (sections 3.3 and 6.2 of the Specification).

use crate::by_hand::ByHand;
use juniper::words::{DeclaredType, Named, ServedQuery, registry_of};
use juniper::{
    DefaultScalarValue, EmptyMutation, EmptySubscription, GraphQLType, GraphQLValue, Registry,
    RootError, RootNode, ScalarValue, Variables, execute_sync,
};
use juniper_demo_server::{
    CELL, CHARACTER, DROID, Demo, DemoContext, DemoNode, EPISODES, HUMAN, QUERY,
};
use juniper_json::answer_line;
use juniper_schema_text::OtherScalar;
use std::alloc::{AllocError, Global};

/// The demo's root without its mutations.
type Root<S> = ServedQuery<Demo, DemoContext, DemoNode, S>;

/// The types of the demo's queries.
static QUERY_TYPES: [DeclaredType; 6] = [QUERY, CHARACTER, DROID, HUMAN, CELL, EPISODES];

/// For a name that is referred to and maybe never declared whether a root is made: the built-in scalars stand by themselves.
const AWAITED: &str = "\
Query => made
Cell => made
Int => made
ID => made
String => made
Boolean => made
Ghost => The schema cannot be executed
Float => The schema cannot be executed
Mutation => The schema cannot be executed
_EmptyMutation => The schema cannot be executed
__Type => The schema cannot be executed
query => The schema cannot be executed";

/// Requests, and what they are answered.
const REQUESTS: &str = r#"mutation { x } => Mutations are not supported
mutation M($n: Int = 3) { add(n: $n) { total } } => Mutations are not supported
{ id } mutation M { x } => Anonymous operation is not alone
subscription { x } => Operation is a subscription
{ id number } => {"data":{"id":"q1","number":42}}
query Q($n: Int = 4) { number(plus: $n) } => {"data":{"number":45}}
{ number(plus: null) ids } => {"data":{"number":null,"ids":null},"errors":[{"message":"Null at a non-null place","locations":[{"line":1,"column":22}],"path":["ids",1]}]}
{ hero(episode: EMPIRE) { __typename id ... on Human { height } } } => {"data":{"hero":{"__typename":"Human","id":"1000","height":172}}}
{ grid { a b } } => {"data":{"grid":[[{"a":10,"b":20}],[{"a":11,"b":21}]]}}
{ fail } => {"data":{"fail":null},"errors":[{"message":"failed","locations":[{"line":1,"column":3}],"path":["fail"]}]}
{ number(plus: "x") } => Argument does not fit its type
{ id @skip(if: true) name @include(if: true) } => {"data":{"name":"demo"}}
{ __schema { mutationType { name } subscriptionType { name } } } => {"data":{"__schema":{"mutationType":null,"subscriptionType":null}}}
{ __type(name: "Query") { fields { args { defaultValue } } } } => {"data":{"__type":{"fields":[{"args":[]},{"args":[]},{"args":[{"defaultValue":"1"}]},{"args":[]},{"args":[]},{"args":[]},{"args":[{"defaultValue":null}]},{"args":[]},{"args":[]},{"args":[]},{"args":[]}]}}}
{ __type(name: "_EmptyMutation") { name } } => {"data":{"__type":null}}"#;

/// For a type its name, the reference to it, and its declaration.
const TYPES: &str = "\
EmptyMutation => _EmptyMutation, _EmptyMutation!, object _EmptyMutation { __typename: String! }
EmptySubscription => _EmptySubscription, _EmptySubscription!, object _EmptySubscription { __typename: String! }";

/// What a table tells of its cases.
#[derive(Clone, Copy)]
enum Told {
    /// Whether a root is made.
    Made,
    /// The answer to a request.
    Answer,
    /// The same by a resolver in a box.
    Boxed,
    /// The same by a resolver behind a reference.
    Lent,
    /// The same by a resolver that is asked by hand.
    ByHand,
    /// The name of a type, the reference to it, and its declaration.
    Type,
}

/// The registry of these types, when this name was referred to too.
fn registry_awaiting<S: ScalarValue>(alloc: Global, name: &str) -> Result<Registry<S>, RootError> {
    let Ok(mut registry) = registry_of::<S>(alloc, &QUERY_TYPES) else {
        return Err(RootError::Memory);
    };
    if registry.named_type(name).is_err() {
        return Err(RootError::Memory);
    }
    Ok(registry)
}

/// The root over these types, when this name was referred to too.
fn root_awaiting<S: ScalarValue>(alloc: Global, name: &str) -> Result<Root<S>, RootError> {
    let registry = match registry_awaiting::<S>(alloc, name) {
        Ok(registry) => registry,
        Err(error) => return Err(error),
    };
    let query = Named(Demo);
    let mutation = EmptyMutation::new();
    let subscription = EmptySubscription::new();
    RootNode::new(
        alloc,
        query,
        mutation,
        subscription,
        registry,
        "Query",
        (),
        (),
    )
}

/// Whether a root is made where this name was referred to, or why none is.
fn made_of<S: ScalarValue>(alloc: Global, name: &str) -> Result<String, AllocError> {
    match root_awaiting::<S>(alloc, name) {
        Ok(_) => String::from_str(alloc, "made"),
        Err(error) => error.to_string(alloc),
    }
}

/// What a request is answered, or why it is refused.
fn answer_of<S: ScalarValue>(alloc: Global, text: &str) -> Result<String, AllocError> {
    let Ok(root) = root_awaiting::<S>(alloc, "Query") else {
        return Err(AllocError);
    };
    answer_by(alloc, &root, text)
}

/// What a root answers to a request, or why it refuses it.
fn answer_by<Q: GraphQLValue<S, Context = DemoContext, Node = DemoNode>, S: ScalarValue>(
    alloc: Global,
    root: &RootNode<Q, EmptyMutation<DemoContext, DemoNode>, EmptySubscription<DemoContext>, S>,
    text: &str,
) -> Result<String, AllocError> {
    let variables = Variables::new(alloc);
    let mut context = DemoContext::new();
    match execute_sync(alloc, text, None, root, &variables, &mut context) {
        Ok((data, errors)) => answer_line(alloc, &data, errors.as_slice()),
        Err(refusal) => refusal.to_string(alloc),
    }
}

/// What a request is answered by a root of this resolver, and by defaults for no mutation and no subscription.
fn answer_from<Q, S: ScalarValue>(alloc: Global, query: Q, text: &str) -> Result<String, AllocError>
where
    Q: GraphQLValue<S, Context = DemoContext, Node = DemoNode, TypeInfo = &'static str> + Drop,
{
    let Ok(registry) = registry_awaiting::<S>(alloc, "Query") else {
        return Err(AllocError);
    };
    let mutation = EmptyMutation::default();
    let subscription = EmptySubscription::default();
    let made = RootNode::new(
        alloc,
        query,
        mutation,
        subscription,
        registry,
        "Query",
        (),
        (),
    );
    match made {
        Ok(root) => answer_by(alloc, &root, text),
        Err(_) => Err(AllocError),
    }
}

/// The name of the type of this name, the reference to it, and its declaration.
fn type_of<S: ScalarValue>(alloc: Global, name: &str) -> Result<String, AllocError> {
    match name {
        "EmptyMutation" => declared::<EmptyMutation<i32, i32>, S>(alloc),
        "EmptySubscription" => declared::<EmptySubscription<i32>, S>(alloc),
        _ => String::from_str(alloc, "no such case"),
    }
}

/// The name of a type, the reference to it, and its declaration, which is an object's.
fn declared<T: GraphQLType<S, TypeInfo = ()>, S: ScalarValue>(
    alloc: Global,
) -> Result<String, AllocError> {
    let reference = T::type_in(alloc, &(), &mut Registry::empty(alloc))?;
    let meta = T::meta(alloc, &(), &mut Registry::empty(alloc))?;
    let name = T::name(&()).unwrap_or("no name");
    let own = meta.name().unwrap_or("no name");
    match meta.fields() {
        [field] if meta.is_object() => {
            let (field, of_type) = (field.name.as_str(), &field.field_type);
            format!(in alloc; "{name}, {reference}, object {own} {{ {field}: {of_type} }}")
        }
        _ => String::from_str(alloc, "no object of one field"),
    }
}

/// What is told of a case with these scalars.
fn told_of<S: ScalarValue>(alloc: Global, told: Told, case: &str) -> Result<String, AllocError> {
    match told {
        Told::Made => made_of::<S>(alloc, case),
        Told::Answer => answer_of::<S>(alloc, case),
        Told::Boxed => answer_from::<_, S>(alloc, Box::new(alloc, Named(Demo))?, case),
        Told::Lent => answer_from::<_, S>(alloc, &Named(Demo), case),
        Told::ByHand => answer_from::<_, S>(alloc, Named(ByHand), case),
        Told::Type => type_of::<S>(alloc, case),
    }
}

/// The first row, `CASE => TEXT`, that says something else than what is told of its case with both types of scalars.
fn first_other(alloc: Global, told: Told, rows: &str) -> Result<Option<&str>, AllocError> {
    for row in rows.split('\n') {
        let Some((case, text)) = row.split_once(" => ") else {
            return Ok(Some(row));
        };
        if told_of::<DefaultScalarValue>(alloc, told, case)?.as_str() != text
            || told_of::<OtherScalar>(alloc, told, case)?.as_str() != text
        {
            return Ok(Some(row));
        }
    }
    Ok(None)
}

#[test]
fn nothing_may_be_awaited_but_built_in_scalars(rt: HostRuntime) {
    assert_eq!(rt; first_other(rt.alloc(), Told::Made, AWAITED), Ok(None));
}

#[test]
fn roots_without_mutations_answer(rt: HostRuntime) {
    assert_eq!(rt; first_other(rt.alloc(), Told::Answer, REQUESTS), Ok(None));
}

#[test]
fn a_resolver_in_a_box_answers(rt: HostRuntime) {
    assert_eq!(rt; first_other(rt.alloc(), Told::Boxed, REQUESTS), Ok(None));
}

#[test]
fn a_resolver_behind_a_reference_answers(rt: HostRuntime) {
    assert_eq!(rt; first_other(rt.alloc(), Told::Lent, REQUESTS), Ok(None));
}

#[test]
fn a_resolver_that_is_asked_by_hand_answers(rt: HostRuntime) {
    assert_eq!(rt; first_other(rt.alloc(), Told::ByHand, REQUESTS), Ok(None));
}

#[test]
fn no_mutation_and_no_subscription_are_objects(rt: HostRuntime) {
    assert_eq!(rt; first_other(rt.alloc(), Told::Type, TYPES), Ok(None));
}

#[test]
fn other_rows_are_found(rt: HostRuntime) {
    let rows = "Int => made\nGhost => made";
    assert_eq!(rt;
        first_other(rt.alloc(), Told::Made, rows),
        Ok(Some("Ghost => made"))
    );
    assert_eq!(rt; first_other(rt.alloc(), Told::Made, ""), Ok(Some("")));
}
