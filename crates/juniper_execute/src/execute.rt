//! Queries and mutations of valid documents, executed (ExecuteQuery and ExecuteMutation, section 6.2 of the Specification).

ghost use Rattle.std.specs.Prelude.{◌≡◌, IfOk, Some};
ghost use Rattle.graphql_spec.specs.Documents as documents;
ghost use Rattle.graphql_spec.specs.Laws.{In};
ghost use Rattle.juniper_syntax.specs.DocumentView.{view_document, view_operation};
ghost use Rattle.juniper_syntax.specs.InputView.{view_variables};
ghost use Rattle.juniper_syntax.specs.ValueView.{view_value};
ghost use Rattle.juniper_walk.specs.Budget.{fields_in, most_fields};
ghost use Rattle.juniper_walk.specs.Entered.{EntersAtMost, SpendsGiven, entered};
ghost use Rattle.juniper_walk.specs.Plans.{IsBare};
ghost use Rattle.juniper_execute.specs.Entered.{entered_run};
ghost use Rattle.juniper_execute.specs.ServedView.{mutation_root, schema_of, served_world};
ghost use Rattle.juniper_execute.specs.Validity.{IsValid};
ghost use Rattle.juniper_execute.specs.Walkings.{IsBounded, MutationWalked, QueryWalked, selected_by};

use crate::allowance::Allowance;
use crate::mutation::run_groups;
use crate::node_resolver::{MutationSteps, NodeResolver};
use crate::question::Question;
use crate::root_walk::RootWalk;
use crate::served::Served;
use crate::service::Service;
use juniper_lookahead::fragments_of;
use juniper_syntax::{Document, Operation, ScalarValue, Span, Spanning, Value, Variables};
use juniper_values::ExecutionError;
use juniper_walk::{Plan, Stop, root_path, sort_errors};
use std::alloc::Global;

/// Executes a query of a valid document (ExecuteQuery, 6.2.1), where at most so many fields are entered, if a budget is given.
pub fn execute_query<'d, 'a, R: NodeResolver<S>, S: ScalarValue>(
    alloc: Global,
    document: &'d Document<'a, S>,
    operation: &'d Spanning<Operation<'a, S>, Span>,
    served: &Served<'_, R, S>,
    root: &R::Node,
    variables: &Variables<S>,
    context: &R::Context,
    fields: Option<usize>,
) -> Result<(Value<S>, Vec<ExecutionError<S>>), Stop>
    requires valid { IsValid (schema_of S.shown served.now) (view_document S.shown document.now) }
    requires member { In (documents.operation (view_operation S.shown operation.now)) (view_document S.shown document.now) }
    requires query { (view_operation S.shown operation.now).kind ≡ documents.query }
    ensures walked { QueryWalked S.shown served.now.walking
        (served_world R.meaning S.shown served.now (view_variables S.shown variables.now) context.now) (schema_of S.shown served.now).query root.now
        (selected_by S.shown document.now operation.now variables.now) result }
    ensures counted { IfOk result (λ p. IsBounded served.now.walking (fields_in (view_value S.shown p.0)) (most_fields fields)) }
    ensures spent { SpendsGiven fields (entered (served_world R.meaning S.shown served.now (view_variables S.shown variables.now) context.now)
        (schema_of S.shown served.now).query root.now (selected_by S.shown document.now operation.now variables.now)) result }
{
    let Ok(fragments) = fragments_of(alloc, document.as_slice()) else {
        return Err(Stop::Memory);
    };
    let allowance = Allowance::new(operation, variables);
    let service = Service {
        resolver: served.resolver,
        context,
        schema: served.schema,
        variables,
        allowance: &allowance,
        query_type: served.query_type(),
        undeclared: served.undeclared,
    };
    let walked = service.answer(
        alloc,
        served.walking,
        &fragments,
        served.schema.query_name(),
        root,
        operation.span.start,
        operation.item.selection_set.as_slice(),
        fields,
    )?;
    Ok((walked.value, walked.errors))
}

/// Executes a mutation of a valid document on the mutation type, by these steps (ExecuteMutation, 6.2.2), where at most so many
/// fields are entered, if a budget is given.
pub fn execute_mutation<
    'd,
    'a,
    R: NodeResolver<S>,
    M: MutationSteps<S, Context = R::Context, Node = R::Node>,
    S: ScalarValue,
>(
    alloc: Global,
    document: &'d Document<'a, S>,
    operation: &'d Spanning<Operation<'a, S>, Span>,
    served: &Served<'_, R, S>,
    steps: &M,
    concrete: &str,
    variables: &Variables<S>,
    context: &mut R::Context,
    fields: Option<usize>,
) -> Result<(Value<S>, Vec<ExecutionError<S>>), Stop>
    requires valid { IsValid (schema_of S.shown served.now) (view_document S.shown document.now) }
    requires member { In (documents.operation (view_operation S.shown operation.now)) (view_document S.shown document.now) }
    requires mutation { (view_operation S.shown operation.now).kind ≡ documents.mutation }
    requires root { (schema_of S.shown served.now).mutation ≡ Some concrete.now }
    ensures walked { MutationWalked S.shown served.now.walking
        (mutation_root R.meaning S.shown served.now (M.steps steps.now) (view_variables S.shown variables.now)) concrete.now
        (selected_by S.shown document.now operation.now variables.now) context.old result context.new }
    ensures counted { IfOk result (λ p. IsBounded served.now.walking (fields_in (view_value S.shown p.0)) (most_fields fields)) }
    ensures spent { SpendsGiven fields (entered_run (mutation_root R.meaning S.shown served.now (M.steps steps.now) (view_variables S.shown variables.now))
        concrete.now (selected_by S.shown document.now operation.now variables.now) context.old) result }
{
    let mut plan = Plan::new(alloc, fields);
    match mutate(
        alloc, &mut plan, document, operation, served, steps, concrete, variables, context,
    ) {
        Err(stop) => Err(stop.within(fields)),
        Ok(answered) => Ok(answered),
    }
}

/// The same over a plan without groups, by which so many fields may be entered.
fn mutate<
    's,
    'd,
    'a,
    R: NodeResolver<S>,
    M: MutationSteps<S, Context = R::Context, Node = R::Node>,
    S: ScalarValue,
>(
    alloc: Global,
    plan: &mut Plan<'d, 'a, S, Question<'s, S>>,
    document: &'d Document<'a, S>,
    operation: &'d Spanning<Operation<'a, S>, Span>,
    served: &Served<'s, R, S>,
    steps: &M,
    concrete: &str,
    variables: &Variables<S>,
    context: &mut R::Context,
) -> Result<(Value<S>, Vec<ExecutionError<S>>), Stop>
    requires valid { IsValid (schema_of S.shown served.now) (view_document S.shown document.now) }
    requires member { In (documents.operation (view_operation S.shown operation.now)) (view_document S.shown document.now) }
    requires mutation { (view_operation S.shown operation.now).kind ≡ documents.mutation }
    requires root { (schema_of S.shown served.now).mutation ≡ Some concrete.now }
    requires bare { IsBare plan.old.left plan.old }
    ensures walked { MutationWalked S.shown served.now.walking
        (mutation_root R.meaning S.shown served.now (M.steps steps.now) (view_variables S.shown variables.now)) concrete.now
        (selected_by S.shown document.now operation.now variables.now) context.old result context.new }
    ensures counted { IfOk result (λ p. IsBounded served.now.walking (fields_in (view_value S.shown p.0)) plan.old.left) }
    ensures entered { EntersAtMost plan.old.left plan.new.left (entered_run (mutation_root R.meaning S.shown served.now (M.steps steps.now)
        (view_variables S.shown variables.now)) concrete.now (selected_by S.shown document.now operation.now variables.now) context.old) result }
{
    let fragments = fragments_of(alloc, document.as_slice())?;
    let allowance = Allowance::new(operation, variables);
    let path = root_path(alloc, operation.span.start)?;
    let walk = RootWalk {
        alloc,
        steps,
        concrete,
        selections: operation.item.selection_set.as_slice(),
        fragments: &fragments,
        variables,
        allowance: &allowance,
        path: &path,
    };
    match run_groups(served, &walk, plan, context) {
        Err(stop) => Err(stop),
        Ok(walked) => {
            let mut errors = walked.errors;
            sort_errors(&mut errors)?;
            Ok((walked.value, errors))
        }
    }
}
