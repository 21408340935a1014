//! Requests of documents that are valid.

ghost use Rattle.std.specs.Prelude.{◌≡◌, []};
ghost use Rattle.graphql_spec.specs.Rules.{rule_errors};
ghost use Rattle.juniper.specs.RootView.{service_of};
ghost use Rattle.juniper_intro.specs.RootView.{is_disabled, schema_of};
ghost use Rattle.juniper_request.specs.Requests.{view_request};
ghost use Rattle.juniper_schema.specs.SchemaView.{view_schema};
ghost use Rattle.juniper_syntax.specs.DocumentView.{view_document};
ghost use Rattle.juniper_syntax.specs.Scalars.{default_shown};
ghost use Rattle.juniper_endpoint.specs.Looks.{IsGivenBy, RepliesValid};

use crate::explained::Explainer;
use crate::lines::{answered_reply, bare_reply, without_memory};
use crate::look::{Finding, look};
use crate::values::executed_reply;
use juniper::{
    DefaultScalarValue, Document, GraphQLError, GraphQLMutationValue, GraphQLType, GraphQLValue,
    RootNode, execute_document,
};
use juniper_http::{Outcome, Reply};
use juniper_json::GivenVariables;
use juniper_request::GraphQLRequest;
use std::alloc::Global;

/// Replies to a request of a document that is valid for the root, with the values of its variables; at most so many fields are entered, if a
/// budget is given.
pub fn reply_valid<
    Q: GraphQLValue<DefaultScalarValue>,
    M: GraphQLMutationValue<DefaultScalarValue, Context = Q::Context, Node = Q::Node>,
    Sub: GraphQLType<DefaultScalarValue>,
>(
    alloc: Global,
    explainer: &Explainer<'_>,
    root: &RootNode<Q, M, Sub, DefaultScalarValue>,
    document: &Document<'_, DefaultScalarValue>,
    request: &GraphQLRequest<'_>,
    given: &GivenVariables,
    may_write: bool,
    entered_fields: Option<usize>,
    context: &mut Q::Context,
) -> Reply
    requires valid { rule_errors (view_schema default_shown (schema_of root.now)) (is_disabled root.now) (view_document default_shown document.now) ≡ [] }
    requires given { IsGivenBy (view_request request.now).variables given.now }
    ensures { RepliesValid (service_of Q.concrete Q.answer Q.root M.step M.torn default_shown root.now) explainer.now
        (view_request request.now) (view_document default_shown document.now) may_write entered_fields context.old result context.new }
{
    match look(
        alloc,
        document,
        request.operation_name,
        &given.refused,
        may_write,
    ) {
        Err(_) => without_memory(alloc),
        Ok(Finding::Writes) => bare_reply(
            alloc,
            Outcome::Writes,
            "A mutation is asked for by POST",
        ),
        Ok(Finding::Unfitting(errors)) => {
            answered_reply(alloc, Err(GraphQLError::ValidationError(errors)))
        }
        Ok(Finding::Passes) => {
            let answered = execute_document(
                alloc,
                document,
                request.operation_name,
                root,
                &given.values,
                context,
                entered_fields,
            );
            executed_reply(alloc, explainer, request, document, &given.values, answered)
        }
    }
}
