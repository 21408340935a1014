//! The executor's steps, one by one, with its walk or with that of its twin, which resolves each occurrence of a field alone and joins the
//! values; and in what two outcomes differ.

ghost use Rattle.std.specs.Prelude.{◌≡◌, IfOk, []};
ghost use Rattle.graphql_spec.specs.Rules.{rule_errors};
ghost use Rattle.juniper_schema.specs.SchemaView.{view_schema};
ghost use Rattle.juniper_syntax.specs.DocumentView.{view_document};

use crate::refusals::refusal_line;
use juniper::twin::execute_by_join;
use juniper::{
    Document, ExecutionError, GraphQLError, GraphQLMutationValue, GraphQLType, GraphQLValue,
    RootNode, ScalarValue, SchemaType, Value, Variables, check_variables, execute_validated_query,
    get_operation, parse_document_source, validate,
};
use std::alloc::{AllocError, Global};

/// What a request is answered.
pub type Outcome<S> = Result<(Value<S>, Vec<ExecutionError<S>>), GraphQLError>;

/// How a valid request is executed.
#[derive(Clone, Copy, Debug, PartialEq, Eq)]
pub enum Walk {
    /// By `execute_validated_query`.
    Planned,
    /// By the executor's twin.
    Joined,
}

/// What is answered to a request, by the same steps as those of `execute_sync`.
pub fn execute_by_steps<
    Q: GraphQLValue<S>,
    M: GraphQLMutationValue<S, Context = Q::Context, Node = Q::Node>,
    Sub: GraphQLType<S>,
    S: ScalarValue,
>(
    alloc: Global,
    walk: Walk,
    document_source: &str,
    operation_name: Option<&str>,
    root_node: &RootNode<Q, M, Sub, S>,
    variables: &Variables<S>,
    context: &mut Q::Context,
) -> Outcome<S> {
    match parse_document_source(alloc, document_source) {
        Ok(document) => execute_document(
            alloc,
            walk,
            &document,
            operation_name,
            root_node,
            variables,
            context,
        ),
        Err(error) => Err(GraphQLError::from(error)),
    }
}

/// What is answered to a document, by the steps behind its parsing.
fn execute_document<
    Q: GraphQLValue<S>,
    M: GraphQLMutationValue<S, Context = Q::Context, Node = Q::Node>,
    Sub: GraphQLType<S>,
    S: ScalarValue,
>(
    alloc: Global,
    walk: Walk,
    document: &Document<'_, S>,
    operation_name: Option<&str>,
    root_node: &RootNode<Q, M, Sub, S>,
    variables: &Variables<S>,
    context: &mut Q::Context,
) -> Outcome<S> {
    let schema = root_node.schema();
    check_document(
        alloc,
        document,
        schema,
        root_node.is_introspection_disabled(),
    )?;
    let operation = get_operation(document, operation_name)?;
    check_variables(alloc, operation, variables, schema)?;
    match walk {
        Walk::Planned => {
            execute_validated_query(alloc, document, operation, root_node, variables, context)
        }
        Walk::Joined => execute_by_join(alloc, document, operation, root_node, variables, context),
    }
}

/// Whether all rules of validation hold.
fn check_document<S: ScalarValue>(
    alloc: Global,
    document: &Document<'_, S>,
    schema: &SchemaType<S>,
    is_introspection_disabled: bool,
) -> Result<(), GraphQLError>
    ensures { IfOk result (λ _. rule_errors (view_schema S.shown schema.now) is_introspection_disabled (view_document S.shown document.now) ≡ []) }
{
    let errors = validate(alloc, document, schema, is_introspection_disabled)?;
    if errors.is_empty() {
        Ok(())
    } else {
        Err(GraphQLError::from(errors))
    }
}

/// In what two outcomes differ; `None` where they do not: of two refusals in what they print, otherwise in data or errors. Each error of one
/// has to have in the other an error of the same path and field error.
pub fn difference<S: ScalarValue>(
    alloc: Global,
    planned: &Outcome<S>,
    joined: &Outcome<S>,
) -> Result<Option<&'static str>, AllocError> {
    match (planned, joined) {
        (Err(one), Err(other)) => refusal_difference(alloc, one, other),
        (Ok(one), Ok(other)) => {
            if one.0 != other.0 {
                Ok(Some("data"))
            } else if are_among(&one.1, &other.1) && are_among(&other.1, &one.1) {
                Ok(None)
            } else {
                Ok(Some("errors"))
            }
        }
        (Ok(_), Err(_)) => Ok(Some("refusal")),
        (Err(_), Ok(_)) => Ok(Some("refusal")),
    }
}

/// `refusal` where two refusals are printed otherwise.
fn refusal_difference(
    alloc: Global,
    one: &GraphQLError,
    other: &GraphQLError,
) -> Result<Option<&'static str>, AllocError> {
    if refusal_line(alloc, one)? == refusal_line(alloc, other)? {
        Ok(None)
    } else {
        Ok(Some("refusal"))
    }
}

/// Whether each error has among the others one of the same path and field error.
fn are_among<S: ScalarValue>(errors: &[ExecutionError<S>], others: &[ExecutionError<S>]) -> bool {
    for error in errors {
        if !is_among(error, others) {
            return false;
        }
    }
    true
}

/// Whether an error has among the others one of the same path and field error.
fn is_among<S: ScalarValue>(error: &ExecutionError<S>, others: &[ExecutionError<S>]) -> bool {
    for other in others {
        if error.path() == other.path() && error.error() == other.error() {
            return true;
        }
    }
    false
}
