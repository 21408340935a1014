//! Requests: from a query text to data and errors (section 6.1 of the Specification).

ghost use Rattle.std.specs.Prelude.{◌≡◌, ◌≤◌, IfOk, MatchResult, None, Some, []};
ghost use Rattle.graphql_spec.specs.Outcomes.{Reads};
ghost use Rattle.graphql_spec.specs.Requests as requests;
ghost use Rattle.graphql_spec.specs.Rules.{rule_errors};
ghost use Rattle.graphql_spec.specs.Shown.{Text};
ghost use Rattle.juniper_intro.specs.RootView.{is_disabled, schema_of};
ghost use Rattle.juniper_syntax.specs.DocumentView.{view_document, view_operation};
ghost use Rattle.juniper_syntax.specs.InputView.{view_variables};
ghost use Rattle.juniper_syntax.specs.ValueView.{view_value};
ghost use Rattle.juniper_walk.specs.Budget.{fields_in, most_fields};
ghost use Rattle.juniper_schema.specs.SchemaView.{view_schema};
ghost use Rattle.juniper.specs.Answering.{AnswersAs, IsInvalid, IsUnchosen, PassesCoercible, StandsFor, request_of};
ghost use Rattle.juniper.specs.Budgets.{AnswersWithin, RunsOver, SpendsOnly};
ghost use Rattle.juniper.specs.Promised.{IsFullOutcome};
ghost use Rattle.juniper.specs.RequestErrors.{view_request_error};
ghost use Rattle.juniper.specs.RootView.{service_of};
ghost use Rattle.juniper.specs.Choices.{choice_in};

use crate::budget::Within;
use crate::error::GraphQLError;
use crate::execute::execute_walked;
use crate::operation::{Chosen, choose};
use crate::variables::first_not_constant;
use juniper_execute::Walking;
use juniper_intro::RootNode;
use juniper_language::{
    Document, Operation, ScalarValue, Span, Spanning, Value, Variables, parse_document_source,
};
use juniper_rules::{Given, validate, validate_given};
use juniper_schema::SchemaType;
use juniper_types::{GraphQLMutationValue, GraphQLType, GraphQLValue};
use juniper_values::ExecutionError;
use std::alloc::Global;

/// The operation that a request executes (GetOperation, 6.1): that of the name, of several of one name the last; without a
/// name the only one. [`GraphQLError::MultipleOperationsProvided`] where there are several and no name is given;
/// [`GraphQLError::UnknownOperationName`] where there is none of the name, or none at all.
pub fn get_operation<'d, 'a, S: ScalarValue>(
    document: &'d Document<'a, S>,
    operation_name: Option<&str>,
) -> Result<&'d Spanning<Operation<'a, S>, Span>, GraphQLError>
    ensures { MatchResult result
        (λ o. choice_in S.shown document.now operation_name.entry ≡ requests.chosen (view_operation S.shown o.now))
        (λ e. IsUnchosen (choice_in S.shown document.now operation_name.entry) (view_request_error e)) }
{
    match choose(document.as_slice(), operation_name) {
        Chosen::One(operation) => Ok(operation),
        Chosen::Many => Err(GraphQLError::MultipleOperationsProvided),
        Chosen::Unknown => Err(GraphQLError::UnknownOperationName),
    }
}

/// Reads the text.
fn read<'a, S: ScalarValue>(alloc: Global, text: &'a str) -> Result<Document<'a, S>, GraphQLError>
    ensures { MatchResult result
        (λ d. Reads text.now (Some (view_document S.shown d)))
        (λ e. StandsFor (λ r. (r ≡ requests.not_parsed) × Reads text.now None) (view_request_error e)) }
{
    match parse_document_source(alloc, text) {
        Ok(document) => Ok(document),
        Err(error) => Err(GraphQLError::from(error)),
    }
}

/// Whether all rules of validation hold (5).
fn check_document<S: ScalarValue>(
    alloc: Global,
    document: &Document<'_, S>,
    schema: &SchemaType<S>,
    is_introspection_disabled: bool,
) -> Result<(), GraphQLError>
    ensures { MatchResult result
        (λ _. rule_errors (view_schema S.shown schema.now) is_introspection_disabled (view_document S.shown document.now) ≡ [])
        (λ e. StandsFor (IsInvalid (view_schema S.shown schema.now) is_introspection_disabled (view_document S.shown document.now)) (view_request_error e)) }
{
    let errors = validate(alloc, document, schema, is_introspection_disabled)?;
    if errors.is_empty() {
        Ok(())
    } else {
        Err(GraphQLError::from(errors))
    }
}

/// Whether an operation can be executed with these given values of its variables: they fit, and hold no variables (CoerceVariableValues,
/// 6.1.2). Otherwise [`GraphQLError::ValidationError`] tells each variable without a fitting value, or
/// [`GraphQLError::VariableNotConstant`] the first whose value holds a variable; [`GraphQLError::OutOfMemory`] may stand in place of each
/// answer. What it lets pass [`crate::execute_validated_query`] takes, as often as it is executed.
pub fn check_variables<S: ScalarValue>(
    alloc: Global,
    operation: &Spanning<Operation<'_, S>, Span>,
    variables: &Variables<S>,
    schema: &SchemaType<S>,
) -> Result<(), GraphQLError>
    ensures { PassesCoercible (view_schema S.shown schema.now) (view_operation S.shown operation.now) (view_variables S.shown variables.now) result }
{
    let given = Given::new(alloc, operation, variables)?;
    let errors = validate_given(alloc, &given, operation, schema)?;
    if !errors.is_empty() {
        return Err(GraphQLError::from(errors));
    }
    match first_not_constant(operation, &given) {
        Some(name) => {
            let held = String::from_str(alloc, name)?;
            Err(GraphQLError::VariableNotConstant(held))
        }
        None => Ok(()),
    }
}

/// Executes a request: reads the text, validates the document, chooses the operation, tests the values of its variables and
/// executes it (6.1). The first step that fails gives the error, and the context is as it was.
///
/// Otherwise the answer is the data of the grouped execution, and the errors of fields that fail, each at the first of its
/// field's occurrences, sorted by place, path and message; there are none exactly where nothing fails. A query is executed on
/// the query type and the root's node, and leaves the context as it was. A mutation steps each of its root groups once, in
/// order, in the context, and completes what it answers under the context that the step left; the first null at a non-null
/// place is the last group (6.2.2). The context is then that after the last group that ran.
///
/// [`GraphQLError::OutOfMemory`] may stand in place of any step: then a mutation's context is that after some of its groups,
/// or torn from it by the step of the next; otherwise it is as it was.
pub fn execute_sync<
    Q: GraphQLValue<S>,
    M: GraphQLMutationValue<S, Context = Q::Context, Node = Q::Node>,
    Sub: GraphQLType<S>,
    S: ScalarValue,
>(
    alloc: Global,
    document_source: &str,
    operation_name: Option<&str>,
    root_node: &RootNode<Q, M, Sub, S>,
    variables: &Variables<S>,
    context: &mut Q::Context,
) -> Result<(Value<S>, Vec<ExecutionError<S>>), GraphQLError>
    ensures { AnswersAs S.shown
        (λ r. IsFullOutcome (service_of Q.concrete Q.answer Q.root M.step M.torn S.shown root_node.now)
        (request_of S.shown document_source.now operation_name.entry variables.now) context.old r context.new) result }
{
    match execute_within(
        alloc,
        document_source,
        operation_name,
        root_node,
        variables,
        context,
        None,
    ) {
        Err(within) => Err(within.into_error()),
        Ok(answered) => Ok(answered),
    }
}

/// Executes a request as [`execute_sync`] does, where at most so many fields are entered, if a budget is given: each object that is made, and
/// each whose fields are begun, has as many as response keys are selected of it, whatever they answer. Introspection counts as all else, and
/// so do objects that a null takes away.
///
/// [`Within::Refused`] has the error that [`execute_sync`] answers; [`Within::Spent`] comes only where a budget is given and the operation enters
/// more fields. That may be found late: it leaves the context as want of memory does. Data has no more fields than the budget, at all depths
/// together.
pub fn execute_within<
    Q: GraphQLValue<S>,
    M: GraphQLMutationValue<S, Context = Q::Context, Node = Q::Node>,
    Sub: GraphQLType<S>,
    S: ScalarValue,
>(
    alloc: Global,
    document_source: &str,
    operation_name: Option<&str>,
    root_node: &RootNode<Q, M, Sub, S>,
    variables: &Variables<S>,
    context: &mut Q::Context,
    fields: Option<usize>,
) -> Result<(Value<S>, Vec<ExecutionError<S>>), Within>
    ensures answers { AnswersWithin S.shown
        (λ r. IsFullOutcome (service_of Q.concrete Q.answer Q.root M.step M.torn S.shown root_node.now)
        (request_of S.shown document_source.now operation_name.entry variables.now) context.old r context.new) result }
    ensures counted { IfOk result (λ p. fields_in (view_value S.shown p.0) ≤ most_fields fields) }
    ensures spent { SpendsOnly fields (RunsOver (service_of Q.concrete Q.answer Q.root M.step M.torn S.shown root_node.now)
        (request_of S.shown document_source.now operation_name.entry variables.now) context.old) result }
{
    let document = match read(alloc, document_source) {
        Err(error) => return Err(Within::Refused(error)),
        Ok(document) => document,
    };
    match check_document(
        alloc,
        &document,
        root_node.schema(),
        root_node.is_introspection_disabled(),
    ) {
        Err(error) => return Err(Within::Refused(error)),
        Ok(_) => {}
    }
    match execute_document(
        alloc,
        &document,
        operation_name,
        root_node,
        variables,
        context,
        fields,
    ) {
        Err(within) => Err(within),
        Ok(answered) => Ok(answered),
    }
}

/// Executes a document that is known to be valid for a root, as often as one likes: chooses the operation, tests the values of its variables
/// and executes it, where at most so many fields are entered, if a budget is given (6.1). To each text that is read as the document it answers
/// what [`execute_within`] answers to a request of that text, and leaves the context as that does.
pub fn execute_document<
    Q: GraphQLValue<S>,
    M: GraphQLMutationValue<S, Context = Q::Context, Node = Q::Node>,
    Sub: GraphQLType<S>,
    S: ScalarValue,
>(
    alloc: Global,
    document: &Document<'_, S>,
    operation_name: Option<&str>,
    root_node: &RootNode<Q, M, Sub, S>,
    variables: &Variables<S>,
    context: &mut Q::Context,
    fields: Option<usize>,
) -> Result<(Value<S>, Vec<ExecutionError<S>>), Within>
    requires { rule_errors (view_schema S.shown (schema_of root_node.now)) (is_disabled root_node.now) (view_document S.shown document.now) ≡ [] }
    ensures answers { (t : Text) → Reads t (Some (view_document S.shown document.now)) → AnswersWithin S.shown
        (λ r. IsFullOutcome (service_of Q.concrete Q.answer Q.root M.step M.torn S.shown root_node.now)
        (request_of S.shown t operation_name.entry variables.now) context.old r context.new) result }
    ensures counted { IfOk result (λ p. fields_in (view_value S.shown p.0) ≤ most_fields fields) }
    ensures spent { (t : Text) → Reads t (Some (view_document S.shown document.now)) → SpendsOnly fields
        (RunsOver (service_of Q.concrete Q.answer Q.root M.step M.torn S.shown root_node.now)
        (request_of S.shown t operation_name.entry variables.now) context.old) result }
{
    let operation = match get_operation(document, operation_name) {
        Err(error) => return Err(Within::Refused(error)),
        Ok(operation) => operation,
    };
    match check_variables(alloc, operation, variables, root_node.schema()) {
        Err(error) => return Err(Within::Refused(error)),
        Ok(_) => {}
    }
    match execute_walked(
        alloc,
        Walking::Grouped,
        document,
        operation,
        root_node,
        variables,
        context,
        fields,
    ) {
        Err(within) => Err(within),
        Ok(answered) => Ok(answered),
    }
}
