//! Introspection: asking a schema about itself (section 4 of the Specification).

ghost use Rattle.std.specs.Prelude.{◌≡◌, None};
ghost use Rattle.graphql_spec.specs.Shown.{Name};
ghost use Rattle.juniper_syntax.specs.InputView.{view_variables};
ghost use Rattle.juniper.specs.Answering.{AnswersAs};
ghost use Rattle.juniper.specs.Formats.{asking, text_of};
ghost use Rattle.juniper.specs.Promised.{IsFullOutcome};
ghost use Rattle.juniper.specs.RootView.{service_of};

use crate::error::GraphQLError;
use crate::request::execute_sync;
use juniper_intro::RootNode;
use juniper_language::{ScalarValue, Value, Variables};
use juniper_types::{GraphQLMutationValue, GraphQLType, GraphQLValue};
use juniper_values::ExecutionError;
use std::alloc::Global;

/// How much [`introspect`] asks.
#[derive(Clone, Copy, Debug)]
pub enum IntrospectionFormat {
    /// All that a schema says.
    All,
    /// All but descriptions.
    WithoutDescriptions,
}

/// Asks for all that a schema says.
const ALL: &str = "query IntrospectionQuery {
  __schema {
    description
    queryType { name }
    mutationType { name }
    subscriptionType { name }
    types { ...FullType }
    directives {
      name
      description
      isRepeatable
      locations
      args { ...InputValue }
    }
  }
}
fragment FullType on __Type {
  kind
  name
  description
  specifiedByURL
  fields(includeDeprecated: true) {
    name
    description
    args { ...InputValue }
    type { ...TypeRef }
    isDeprecated
    deprecationReason
  }
  inputFields { ...InputValue }
  interfaces { ...TypeRef }
  enumValues(includeDeprecated: true) {
    name
    description
    isDeprecated
    deprecationReason
  }
  possibleTypes { ...TypeRef }
}
fragment InputValue on __InputValue {
  name
  description
  type { ...TypeRef }
  defaultValue
}
fragment TypeRef on __Type {
  kind
  name
  ofType { kind name ofType { kind name ofType { kind name ofType { kind name } } } }
}
";

/// Asks for all that a schema says but descriptions.
const WITHOUT_DESCRIPTIONS: &str = "query IntrospectionQuery {
  __schema {
    queryType { name }
    mutationType { name }
    subscriptionType { name }
    types { ...FullType }
    directives {
      name
      isRepeatable
      locations
      args { ...InputValue }
    }
  }
}
fragment FullType on __Type {
  kind
  name
  specifiedByURL
  fields(includeDeprecated: true) {
    name
    args { ...InputValue }
    type { ...TypeRef }
    isDeprecated
    deprecationReason
  }
  inputFields { ...InputValue }
  interfaces { ...TypeRef }
  enumValues(includeDeprecated: true) {
    name
    isDeprecated
    deprecationReason
  }
  possibleTypes { ...TypeRef }
}
fragment InputValue on __InputValue {
  name
  type { ...TypeRef }
  defaultValue
}
fragment TypeRef on __Type {
  kind
  name
  ofType { kind name ofType { kind name ofType { kind name ofType { kind name } } } }
}
";

/// The text that asks for it.
fn query_text(format: IntrospectionFormat) -> &'static str
    ensures { result.now ≡ text_of format }
{
    match format {
        IntrospectionFormat::All => ALL,
        IntrospectionFormat::WithoutDescriptions => WITHOUT_DESCRIPTIONS,
    }
}

/// The values of no variables.
fn no_variables<S: ScalarValue>(alloc: Global) -> Variables<S>
    ensures { (n : Name) → view_variables S.shown result n ≡ None }
{
    Variables::new(alloc)
}

/// What the root answers of its schema: [`execute_sync`] of a text that asks for all, or for all but descriptions. Types have up to four
/// wrappers, lists and non-null ones, around their names.
///
/// Errors: as for [`execute_sync`]; where introspection is disabled that is [`GraphQLError::ValidationError`].
pub fn introspect<
    Q: GraphQLValue<S>,
    M: GraphQLMutationValue<S, Context = Q::Context, Node = Q::Node>,
    Sub: GraphQLType<S>,
    S: ScalarValue,
>(
    alloc: Global,
    root_node: &RootNode<Q, M, Sub, S>,
    context: &mut Q::Context,
    format: IntrospectionFormat,
) -> Result<(Value<S>, Vec<ExecutionError<S>>), GraphQLError>
    ensures { AnswersAs S.shown
        (λ r. IsFullOutcome (service_of Q.concrete Q.answer Q.root M.step M.torn S.shown root_node.now) (asking format) context.old r context.new)
        result }
{
    let variables = no_variables(alloc);
    execute_sync(
        alloc,
        query_text(format),
        None,
        root_node,
        &variables,
        context,
    )
}
