//! Documents are read and validated once, and executed often (section 6.1 of the Specification).

ghost use Rattle.std.specs.Prelude.{◌≡◌, ◌≤◌, IfOk, MatchResult, nat_lt};
ghost use Rattle.std.specs.List.{list_any};
ghost use Rattle.juniper_syntax.specs.DocumentView.{view_document};
ghost use Rattle.juniper_syntax.specs.ValueView.{view_value};
ghost use Rattle.juniper_schema.specs.SchemaView.{view_schema};
ghost use Rattle.juniper_walk.specs.Budget.{fields_in, most_fields};
ghost use Rattle.juniper_intro.specs.RootView.{is_disabled, schema_of};
ghost use Rattle.juniper.specs.Answering.{AnswersAs, request_of};
ghost use Rattle.juniper.specs.Budgets.{AnswersWithin, RunsOver, SpendsOnly};
ghost use Rattle.juniper.specs.Objections.{IsWithin, Objects, ObjectsToRead};
ghost use Rattle.juniper.specs.PreparedView.{IsOfText, IsPreparedFrom, document_of, root_of, source_of};
ghost use Rattle.juniper.specs.Promised.{IsFullOutcome};
ghost use Rattle.juniper.specs.RootView.{service_of};

use crate::budget::Within;
use crate::error::GraphQLError;
use crate::prepared::{Bounds, Objection, Prepared};
use crate::request::execute_document;
use juniper_intro::RootNode;
use juniper_language::{Document, ScalarValue, Value, Variables, parse_document_source};
use juniper_rules::validate;
use juniper_types::{GraphQLMutationValue, GraphQLType, GraphQLValue};
use juniper_values::ExecutionError;
use juniper_written::{Counts, expanded_counts};
use std::alloc::Global;

/// Reads a text within bounds (2). What is against it is told by an [`Objection`], of these the first:
///
/// - [`Objection::TooLong`] exactly where it has more bytes than the bounds;
/// - [`Objection::Refused`] where it is no document, with the error that [`crate::request::execute_sync`] answers;
/// - [`Objection::TooManyFields`] where an operation has more fields than the bounds, whichever a request may name;
/// - [`Objection::TooDeep`] where one has more levels.
///
/// [`GraphQLError::OutOfMemory`] may stand in place of each but the first.
pub fn read_within<'a, S: ScalarValue>(
    alloc: Global,
    text: &'a str,
    bounds: &Bounds,
) -> Result<Document<'a, S>, Objection>
    ensures { MatchResult result
        (λ d. IsWithin bounds.now text.now (view_document S.shown d))
        (λ e. ObjectsToRead bounds.now text.now e) }
{
    if text.len() > bounds.bytes {
        return Err(Objection::TooLong);
    }
    let document: Document<'a, S> = match parse_document_source(alloc, text) {
        Err(error) => return Err(Objection::Refused(GraphQLError::from(error))),
        Ok(document) => document,
    };
    let counts = match expanded_counts(alloc, document.as_slice()) {
        Err(_) => return Err(Objection::Refused(GraphQLError::OutOfMemory)),
        Ok(counts) => counts,
    };
    if has_more_fields(counts.as_slice(), bounds.fields) {
        return Err(Objection::TooManyFields);
    }
    if has_more_levels(counts.as_slice(), bounds.levels) {
        return Err(Objection::TooDeep);
    }
    Ok(document)
}

/// Whether an operation has more fields.
fn has_more_fields(counts: &[Counts], most: u64) -> bool
    ensures { result ≡ list_any (λ c. nat_lt most c.fields) counts.now }
{
    counts.iter().any(|count| count.fields > most)
}

/// Whether an operation has more levels.
fn has_more_levels(counts: &[Counts], most: u64) -> bool
    ensures { result ≡ list_any (λ c. nat_lt most c.levels) counts.now }
{
    counts.iter().any(|count| count.levels > most)
}

/// Prepares a text for the requests that execute its operations on a root: reads it within bounds, and validates it. What is against it is told
/// by an [`Objection`]: that of [`read_within`]; or [`Objection::Refused`] where the document breaks rules (5), with the errors that
/// [`crate::request::execute_sync`] answers. [`GraphQLError::OutOfMemory`] may stand in place of each but [`Objection::TooLong`].
pub fn prepare<'r, 'a, Q: GraphQLValue<S>, M: GraphQLType<S>, Sub: GraphQLType<S>, S: ScalarValue>(
    alloc: Global,
    root: &'r RootNode<Q, M, Sub, S>,
    text: &'a str,
    bounds: &Bounds,
) -> Result<Prepared<'r, 'a, Q, M, Sub, S>, Objection>
    ensures { MatchResult result (λ p. IsPreparedFrom S.shown bounds.now root.now text.now p)
        (λ e. Objects bounds.now text.now (view_schema S.shown (schema_of root.now)) (is_disabled root.now) e) }
{
    let document = match read_within(alloc, text, bounds) {
        Err(objection) => return Err(objection),
        Ok(document) => document,
    };
    match validate(
        alloc,
        &document,
        root.schema(),
        root.is_introspection_disabled(),
    ) {
        Err(_) => Err(Objection::Refused(GraphQLError::OutOfMemory)),
        Ok(errors) => {
            if errors.is_empty() {
                Ok(Prepared {
                    root,
                    text,
                    document,
                })
            } else {
                Err(Objection::Refused(GraphQLError::from(errors)))
            }
        }
    }
}

impl<'a, Q: GraphQLValue<S>, M: GraphQLType<S>, Sub: GraphQLType<S>, S: ScalarValue> Prepared<
    '_,
    'a,
    Q,
    M,
    Sub,
    S,
> {
    /// The document, as [`crate::request::get_operation`] takes it.
    pub fn document(&self) -> &Document<'a, S>
        ensures { view_document S.shown result.now ≡ document_of S.shown self.now }
    {
        &self.document
    }
}

/// Executes an operation of a prepared document, with these values of its variables: answers what [`crate::request::execute_sync`]
/// answers to its text on its root, without reading or validating anew, and leaves the context as that does.
pub fn execute_prepared<
    Q: GraphQLValue<S>,
    M: GraphQLMutationValue<S, Context = Q::Context, Node = Q::Node>,
    Sub: GraphQLType<S>,
    S: ScalarValue,
>(
    alloc: Global,
    prepared: &Prepared<'_, '_, Q, M, Sub, S>,
    operation_name: Option<&str>,
    variables: &Variables<S>,
    context: &mut Q::Context,
) -> Result<(Value<S>, Vec<ExecutionError<S>>), GraphQLError>
    ensures { IsOfText S.shown prepared.now → AnswersAs S.shown
        (λ r. IsFullOutcome (service_of Q.concrete Q.answer Q.root M.step M.torn S.shown (root_of prepared.now))
        (request_of S.shown (source_of prepared.now) operation_name.entry variables.now) context.old r context.new) result }
{
    match execute_prepared_within(alloc, prepared, operation_name, variables, context, None) {
        Err(within) => Err(within.into_error()),
        Ok(answered) => Ok(answered),
    }
}

/// Executes an operation of a prepared document as [`execute_prepared`] does, within this budget of fields, if one is given: answers what
/// [`crate::request::execute_within`] answers to its text on its root, and leaves the context as that does.
pub fn execute_prepared_within<
    Q: GraphQLValue<S>,
    M: GraphQLMutationValue<S, Context = Q::Context, Node = Q::Node>,
    Sub: GraphQLType<S>,
    S: ScalarValue,
>(
    alloc: Global,
    prepared: &Prepared<'_, '_, Q, M, Sub, S>,
    operation_name: Option<&str>,
    variables: &Variables<S>,
    context: &mut Q::Context,
    fields: Option<usize>,
) -> Result<(Value<S>, Vec<ExecutionError<S>>), Within>
    ensures answers { IsOfText S.shown prepared.now → AnswersWithin S.shown
        (λ r. IsFullOutcome (service_of Q.concrete Q.answer Q.root M.step M.torn S.shown (root_of prepared.now))
        (request_of S.shown (source_of prepared.now) operation_name.entry variables.now) context.old r context.new) result }
    ensures counted { IfOk result (λ p. fields_in (view_value S.shown p.0) ≤ most_fields fields) }
    ensures spent { IsOfText S.shown prepared.now → SpendsOnly fields
        (RunsOver (service_of Q.concrete Q.answer Q.root M.step M.torn S.shown (root_of prepared.now))
        (request_of S.shown (source_of prepared.now) operation_name.entry variables.now) context.old) result }
{
    match execute_document(
        alloc,
        &prepared.document,
        operation_name,
        prepared.root,
        variables,
        context,
        fields,
    ) {
        Err(within) => Err(within),
        Ok(answered) => Ok(answered),
    }
}
