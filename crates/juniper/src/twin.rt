//! Valid documents, executed by joining (section 6.1 of the Specification): each field is resolved alone, not once for its response
//! key, and the values of one response key are joined. What [`crate::execute_validated_query`] answers can be compared with it.

ghost use Rattle.std.specs.Prelude.{◌≡◌, []};
ghost use Rattle.graphql_spec.specs.Documents as documents;
ghost use Rattle.graphql_spec.specs.ExactAnswers.{whole};
ghost use Rattle.graphql_spec.specs.Laws.{In};
ghost use Rattle.graphql_spec.specs.Outcomes.{IsOutcomeOf};
ghost use Rattle.graphql_spec.specs.Rules.{rule_errors};
ghost use Rattle.juniper_intro.specs.RootView.{is_disabled, schema_of};
ghost use Rattle.juniper_schema.specs.SchemaView.{view_schema};
ghost use Rattle.juniper_syntax.specs.DocumentView.{view_document, view_operation};
ghost use Rattle.juniper_syntax.specs.InputView.{view_variables};
ghost use Rattle.juniper.specs.Answering.{AnswersAs, AreCoercible, outcome_in};
ghost use Rattle.juniper.specs.RootView.{service_of};

use crate::error::GraphQLError;
use crate::execute::execute_walked;
use juniper_execute::Walking;
use juniper_intro::RootNode;
use juniper_language::{Document, Operation, ScalarValue, Span, Spanning, Value, Variables};
use juniper_types::{GraphQLMutationValue, GraphQLType, GraphQLValue};
use juniper_values::ExecutionError;
use std::alloc::Global;

/// Executes an operation of a valid document with given values of its variables, which fit and hold no variables (6.1), as
/// [`crate::execute_validated_query`] does, but for the walk: each field of a query, and each below a root field of a mutation, is
/// resolved alone, and the values of one response key are joined. A mutation steps each of its root groups once all the same. So the
/// data is the same, and so is the context; an error may be listed for each of its field's occurrences.
pub fn execute_by_join<
    'd,
    'a,
    Q: GraphQLValue<S>,
    M: GraphQLMutationValue<S, Context = Q::Context, Node = Q::Node>,
    Sub: GraphQLType<S>,
    S: ScalarValue,
>(
    alloc: Global,
    document: &'d Document<'a, S>,
    operation: &'d Spanning<Operation<'a, S>, Span>,
    root_node: &RootNode<Q, M, Sub, S>,
    variables: &Variables<S>,
    context: &mut Q::Context,
) -> Result<(Value<S>, Vec<ExecutionError<S>>), GraphQLError>
    requires valid { rule_errors (view_schema S.shown (schema_of root_node.now)) (is_disabled root_node.now) (view_document S.shown document.now) ≡ [] }
    requires member { In (documents.operation (view_operation S.shown operation.now)) (view_document S.shown document.now) }
    requires coercible { AreCoercible (view_schema S.shown (schema_of root_node.now)) (view_operation S.shown operation.now)
        (view_variables S.shown variables.now) }
    ensures { AnswersAs S.shown (λ r. IsOutcomeOf (service_of Q.concrete Q.answer Q.root M.step M.torn S.shown root_node.now) whole
        (outcome_in S.shown (view_schema S.shown (schema_of root_node.now)) document.now operation.now variables.now) context.old r context.new) result }
{
    match execute_walked(
        alloc,
        Walking::Joined,
        document,
        operation,
        root_node,
        variables,
        context,
        None,
    ) {
        Err(within) => Err(within.into_error()),
        Ok(answered) => Ok(answered),
    }
}
