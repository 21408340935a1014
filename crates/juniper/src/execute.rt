//! Valid documents, executed (ExecuteRequest, section 6.1 of the Specification).

ghost use Rattle.std.specs.Prelude.{◌≡◌, IfOk, IsTrue, []};
ghost use Rattle.graphql_spec.specs.Documents as documents;
ghost use Rattle.graphql_spec.specs.Executable.{is_executable};
ghost use Rattle.graphql_spec.specs.Laws.{In};
ghost use Rattle.graphql_spec.specs.Rules.{rule_errors};
ghost use Rattle.juniper_syntax.specs.DocumentView.{view_document, view_operation};
ghost use Rattle.juniper_syntax.specs.InputView.{view_variables};
ghost use Rattle.juniper_syntax.specs.ValueView.{view_value};
ghost use Rattle.juniper_schema.specs.SchemaView.{view_schema};
ghost use Rattle.juniper_intro.specs.RootView.{is_disabled, schema_of};
ghost use Rattle.juniper_execute.specs.ServedView as serving;
ghost use Rattle.juniper_execute.specs.Validity.{IsValid};
ghost use Rattle.juniper_execute.specs.Walkings.{IsBounded};
ghost use Rattle.juniper_walk.specs.Budget.{fields_in, most_fields};
ghost use Rattle.juniper.specs.Answering.{AnswersAs, AreCoercible, outcome_in};
ghost use Rattle.juniper.specs.Budgets.{AnswersWithin, IsRunOver, SpendsOnly};
ghost use Rattle.juniper.specs.Promised.{IsFullOutcomeOf};
ghost use Rattle.juniper.specs.RootView.{service_of};
ghost use Rattle.juniper.specs.Services.{rooted_steps};
ghost use Rattle.juniper.specs.WalkedOutcomes.{IsWalkedOutcome, SpendsOperation, SpendsResolved, WalksOperation, WalksResolved};

use crate::budget::Within;
use crate::error::GraphQLError;
use crate::root_resolver::{MutationResolver, QueryResolver};
use crate::variables::coerce_variables;
use juniper_execute::{
    MutationSteps, NodeResolver, Served, Walking, execute_mutation, execute_query, undeclared_type,
};
use juniper_intro::laws::root_replies;
use juniper_intro::{RootNode, RootedNode};
use juniper_language::{
    Document, Operation, OperationType, ScalarValue, Span, Spanning, Value, Variables,
};
use juniper_schema::SchemaType;
use juniper_types::{GraphQLMutationValue, GraphQLType, GraphQLValue};
use juniper_values::ExecutionError;
use std::alloc::Global;

/// Executes an operation of a valid document with given values of its variables, which fit and hold no variables (6.1). A
/// query is answered with the data of the grouped execution on the query type and the root's node, and with the errors of
/// fields that fail, each at the first of its field's occurrences, sorted by place, path and message; there are none exactly where nothing
/// fails. The context stays as it was. A mutation steps each of its root groups once, in order, in the context, and is answered with the same of these
/// groups, each completed under the context that its step left; a null at a non-null place is the last (6.2.2).
///
/// A subscription gives [`GraphQLError::IsSubscription`], a mutation where the schema has no mutation type
/// [`GraphQLError::MutationNotSupported`]; [`GraphQLError::OutOfMemory`] may stand in place of each answer: then a mutation's
/// context is that after some of its groups, or torn from it by the step of the next.
pub fn execute_validated_query<
    'd,
    'a,
    Q: GraphQLValue<S>,
    M: GraphQLMutationValue<S, Context = Q::Context, Node = Q::Node>,
    Sub: GraphQLType<S>,
    S: ScalarValue,
>(
    alloc: Global,
    document: &'d Document<'a, S>,
    operation: &'d Spanning<Operation<'a, S>, Span>,
    root_node: &RootNode<Q, M, Sub, S>,
    variables: &Variables<S>,
    context: &mut Q::Context,
) -> Result<(Value<S>, Vec<ExecutionError<S>>), GraphQLError>
    requires valid { rule_errors (view_schema S.shown (schema_of root_node.now)) (is_disabled root_node.now) (view_document S.shown document.now) ≡ [] }
    requires member { In (documents.operation (view_operation S.shown operation.now)) (view_document S.shown document.now) }
    requires coercible { AreCoercible (view_schema S.shown (schema_of root_node.now)) (view_operation S.shown operation.now)
        (view_variables S.shown variables.now) }
    ensures { AnswersAs S.shown (λ r. IsFullOutcomeOf (service_of Q.concrete Q.answer Q.root M.step M.torn S.shown root_node.now)
        (outcome_in S.shown (view_schema S.shown (schema_of root_node.now)) document.now operation.now variables.now) context.old r context.new) result }
{
    match execute_walked(
        alloc,
        Walking::Grouped,
        document,
        operation,
        root_node,
        variables,
        context,
        None,
    ) {
        Err(within) => Err(within.into_error()),
        Ok(answered) => Ok(answered),
    }
}

/// Executes an operation of a valid document, walked in one of the ways, where at most so many fields are entered, if a budget is given (6.1).
pub(crate) fn execute_walked<
    'd,
    'a,
    Q: GraphQLValue<S>,
    M: GraphQLMutationValue<S, Context = Q::Context, Node = Q::Node>,
    Sub: GraphQLType<S>,
    S: ScalarValue,
>(
    alloc: Global,
    walking: Walking,
    document: &'d Document<'a, S>,
    operation: &'d Spanning<Operation<'a, S>, Span>,
    root_node: &RootNode<Q, M, Sub, S>,
    variables: &Variables<S>,
    context: &mut Q::Context,
    fields: Option<usize>,
) -> Result<(Value<S>, Vec<ExecutionError<S>>), Within>
    requires valid { rule_errors (view_schema S.shown (schema_of root_node.now)) (is_disabled root_node.now) (view_document S.shown document.now) ≡ [] }
    requires member { In (documents.operation (view_operation S.shown operation.now)) (view_document S.shown document.now) }
    requires coercible { AreCoercible (view_schema S.shown (schema_of root_node.now)) (view_operation S.shown operation.now)
        (view_variables S.shown variables.now) }
    ensures answers { AnswersWithin S.shown (λ r. IsWalkedOutcome (service_of Q.concrete Q.answer Q.root M.step M.torn S.shown root_node.now) walking
        (outcome_in S.shown (view_schema S.shown (schema_of root_node.now)) document.now operation.now variables.now) context.old r context.new) result }
    ensures counted { IfOk result (λ p. IsBounded walking (fields_in (view_value S.shown p.0)) (most_fields fields)) }
    ensures spent { SpendsOnly fields (IsRunOver (service_of Q.concrete Q.answer Q.root M.step M.torn S.shown root_node.now)
        (outcome_in S.shown (view_schema S.shown (schema_of root_node.now)) document.now operation.now variables.now) context.old) result }
{
    root_replies(root_node);
    let resolver = QueryResolver {
        query: root_node,
        info: root_node.query_info(),
    };
    let steps = MutationResolver {
        mutation: root_node.mutation(),
        info: root_node.mutation_info(),
    };
    let schema = root_node.schema();
    execute_root(
        alloc, walking, document, operation, &resolver, &steps, schema, variables, context, fields,
    )
}

/// The same with the resolvers of a root over its schema. This and the next stand apart, since the check of a call grows with the types
/// whose methods it brings in.
fn execute_root<
    'd,
    'a,
    Q: GraphQLValue<S, Node = RootedNode<N>>,
    M: GraphQLMutationValue<S, Context = Q::Context, Node = N>,
    N: Drop,
    S: ScalarValue,
>(
    alloc: Global,
    walking: Walking,
    document: &'d Document<'a, S>,
    operation: &'d Spanning<Operation<'a, S>, Span>,
    resolver: &QueryResolver<'_, Q, S>,
    steps: &MutationResolver<'_, M, S>,
    schema: &SchemaType<S>,
    variables: &Variables<S>,
    context: &mut Q::Context,
    fields: Option<usize>,
) -> Result<(Value<S>, Vec<ExecutionError<S>>), Within>
    requires executable { IsTrue (is_executable (view_schema S.shown schema.now)) }
    requires valid { IsValid (view_schema S.shown schema.now) (view_document S.shown document.now) }
    requires member { In (documents.operation (view_operation S.shown operation.now)) (view_document S.shown document.now) }
    requires coercible { AreCoercible (view_schema S.shown schema.now) (view_operation S.shown operation.now) (view_variables S.shown variables.now) }
    ensures answers { WalksResolved Q.concrete Q.answer Q.root S.shown resolver.now.query.now resolver.now.info.now
        (rooted_steps M.step M.torn steps.now.mutation.now steps.now.info.now) (view_schema S.shown schema.now) walking
        document.now operation.now variables.now context.old result context.new }
    ensures counted { IfOk result (λ p. IsBounded walking (fields_in (view_value S.shown p.0)) (most_fields fields)) }
    ensures spent { SpendsResolved Q.concrete Q.answer Q.root S.shown resolver.now.query.now resolver.now.info.now
        (rooted_steps M.step M.torn steps.now.mutation.now steps.now.info.now) (view_schema S.shown schema.now)
        document.now operation.now variables.now fields context.old result }
{
    execute_resolved(
        alloc, walking, document, operation, resolver, steps, schema, variables, context, fields,
    )
}

/// The same with any steps of mutations.
fn execute_resolved<
    'd,
    'a,
    Q: GraphQLValue<S>,
    M: MutationSteps<S, Context = Q::Context, Node = Q::Node>,
    S: ScalarValue,
>(
    alloc: Global,
    walking: Walking,
    document: &'d Document<'a, S>,
    operation: &'d Spanning<Operation<'a, S>, Span>,
    resolver: &QueryResolver<'_, Q, S>,
    steps: &M,
    schema: &SchemaType<S>,
    variables: &Variables<S>,
    context: &mut Q::Context,
    fields: Option<usize>,
) -> Result<(Value<S>, Vec<ExecutionError<S>>), Within>
    requires executable { IsTrue (is_executable (view_schema S.shown schema.now)) }
    requires valid { IsValid (view_schema S.shown schema.now) (view_document S.shown document.now) }
    requires member { In (documents.operation (view_operation S.shown operation.now)) (view_document S.shown document.now) }
    requires coercible { AreCoercible (view_schema S.shown schema.now) (view_operation S.shown operation.now) (view_variables S.shown variables.now) }
    ensures answers { WalksResolved Q.concrete Q.answer Q.root S.shown resolver.now.query.now resolver.now.info.now (M.steps steps.now)
        (view_schema S.shown schema.now) walking document.now operation.now variables.now context.old result context.new }
    ensures counted { IfOk result (λ p. IsBounded walking (fields_in (view_value S.shown p.0)) (most_fields fields)) }
    ensures spent { SpendsResolved Q.concrete Q.answer Q.root S.shown resolver.now.query.now resolver.now.info.now (M.steps steps.now)
        (view_schema S.shown schema.now) document.now operation.now variables.now fields context.old result }
{
    let undeclared = undeclared_type(alloc);
    let served = Served {
        resolver,
        schema,
        undeclared: &undeclared,
        walking,
    };
    let root = resolver.query.root_node();
    execute_operation(
        alloc, document, operation, &served, steps, root, variables, context, fields,
    )
}

/// Executes an operation of a valid document on a root's node, by its kind (ExecuteRequest, 6.1).
fn execute_operation<
    'd,
    'a,
    R: NodeResolver<S>,
    M: MutationSteps<S, Context = R::Context, Node = R::Node>,
    S: ScalarValue,
>(
    alloc: Global,
    document: &'d Document<'a, S>,
    operation: &'d Spanning<Operation<'a, S>, Span>,
    served: &Served<'_, R, S>,
    steps: &M,
    root: &R::Node,
    variables: &Variables<S>,
    context: &mut R::Context,
    fields: Option<usize>,
) -> Result<(Value<S>, Vec<ExecutionError<S>>), Within>
    requires valid { IsValid (serving.schema_of S.shown served.now) (view_document S.shown document.now) }
    requires member { In (documents.operation (view_operation S.shown operation.now)) (view_document S.shown document.now) }
    requires coercible { AreCoercible (serving.schema_of S.shown served.now) (view_operation S.shown operation.now) (view_variables S.shown variables.now) }
    ensures answers { WalksOperation S.shown (R.meaning served.now.resolver.now) (M.steps steps.now) root.now (serving.schema_of S.shown served.now)
        served.now.walking document.now operation.now variables.now context.old result context.new }
    ensures counted { IfOk result (λ p. IsBounded served.now.walking (fields_in (view_value S.shown p.0)) (most_fields fields)) }
    ensures spent { SpendsOperation S.shown (R.meaning served.now.resolver.now) (M.steps steps.now) root.now (serving.schema_of S.shown served.now)
        document.now operation.now variables.now fields context.old result }
{
    match operation.item.operation_type {
        OperationType::Subscription => Err(Within::Refused(GraphQLError::IsSubscription)),
        OperationType::Mutation => {
            let Some(concrete) = served.schema.mutation_name() else {
                return Err(Within::Refused(GraphQLError::MutationNotSupported));
            };
            let values = coerce_variables(alloc, operation, variables)?;
            match execute_mutation(
                alloc, document, operation, served, steps, concrete, &values, context, fields,
            ) {
                Err(stop) => Err(Within::from(stop)),
                Ok(answered) => Ok(answered),
            }
        }
        OperationType::Query => {
            let values = coerce_variables(alloc, operation, variables)?;
            let answered = execute_query(
                alloc, document, operation, served, root, &values, context, fields,
            )?;
            Ok(answered)
        }
    }
}
