//! Laws of requests and of request errors. Each function does nothing; its contract is the law.

ghost use Rattle.std.specs.Prelude.{◌≡◌, true};
ghost use Rattle.graphql_spec.specs.Outcomes.{Request, Response, Service};
ghost use Rattle.graphql_spec.specs.Schema.{FieldDeclaration};
ghost use Rattle.juniper_meta.specs.MetaView.{Meta};
ghost use Rattle.juniper_types.specs.ExecutorView.{IsAskedFor};
ghost use Rattle.juniper.specs.AskedFields.{IsOfField, asked_arguments, asked_name};
ghost use Rattle.juniper.specs.Ends.{AllEnd, RequestsEnd, TextsAreRead};
ghost use Rattle.juniper.specs.Headline.{Headline};
ghost use Rattle.juniper.specs.Promised.{IsFullOutcome};
ghost use Rattle.juniper.specs.RequestErrors.{view_request_error};
ghost use Rattle.juniper.specs.RootView.{service_of};

use crate::error::GraphQLError;
use juniper_intro::RootNode;
use juniper_language::ScalarValue;
use juniper_types::{Executor, GraphQLMutationValue, GraphQLType, GraphQLValue};

/// What [`crate::execute_sync`] promises, part by part: a refusal is that of the first step that fails; the data is that of the
/// Specification's execution; the errors are sorted, each belongs to a failure, at its exact place and at the first of its field's
/// occurrences, no two are of one place, and there are none exactly where nothing fails; each null that stands for a failure is explained;
/// a query leaves the context, and a mutation that after its root groups that ran (sections 6.1, 6.2 and 7.1).
pub fn headline<C, N>()
    ensures { (S : Service C N) (q : Request) (c : C) (r : Response) (after : C) → IsFullOutcome S q c r after → Headline S q c r after }
{}

/// Each text spells one document, or none (section 2); so each request has an outcome, whatever its text, and one that is all that
/// [`crate::execute_sync`] promises, where mutations have steps (section 6.1).
pub fn requests_end<C, N>()
    ensures texts { TextsAreRead }
    ensures outcomes { (S : Service C N) → RequestsEnd S }
{}

/// Each request to a root has an outcome that is all that [`crate::execute_sync`] promises (section 6.1).
pub fn requests_to_a_root_end<
    Q: GraphQLValue<S>,
    M: GraphQLMutationValue<S, Context = Q::Context, Node = Q::Node>,
    Sub: GraphQLType<S>,
    S: ScalarValue,
>(root: &RootNode<Q, M, Sub, S>)
    ensures { AllEnd (service_of Q.concrete Q.answer Q.root M.step M.torn S.shown root.now) }
{}

/// `==` says that both are of one kind, and that what is inside is equal: an error of the parser with its place, errors of
/// rules in their order, a variable's name.
pub fn equal_request_errors_show_the_same(a: &GraphQLError, b: &GraphQLError)
    ensures equal { ⟦<GraphQLError as PartialEq>⟧.eq a.now b.now ≡ true → view_request_error a.now ≡ view_request_error b.now }
    ensures same { view_request_error a.now ≡ view_request_error b.now → ⟦<GraphQLError as PartialEq>⟧.eq a.now b.now ≡ true }
{}

/// An executor that [`Executor::at_field`] made may be shown to a resolver by hand, as [`crate::GraphQLValue::resolve_field`] requires, with the
/// name of its field and the coerced arguments: where the schema can be executed and declares the field for the object type, the executor
/// shows the field's type, its occurrences are all that the selections around it hold of one response key, and the path ends with that key
/// (sections 6.3.2 and 6.4.1).
pub fn fields_may_be_asked<C, S: ScalarValue>(executor: &Executor<C, S>)
    ensures { (f : FieldDeclaration) (m : Meta) → IsOfField S.shown executor.now f m →
        IsAskedFor S.shown executor.now (asked_name S.shown executor.now) (asked_arguments S.shown executor.now) }
{}
