//! Which selections are taken: `@skip` and `@include` (section 3.13 of the Specification).

ghost use Rattle.std.specs.Prelude.{◌≡◌, Bool, option_map, codes};
ghost use Rattle.graphql_spec.specs.Directives.{passes, argument_named, condition_of, looked_up, boolean_of, as_boolean};
ghost use Rattle.graphql_spec.specs.Directives as spec;
ghost use Rattle.graphql_spec.specs.Documents.{written};
ghost use Rattle.juniper_syntax.specs.InputView.{view_input, view_variables};
ghost use Rattle.juniper_syntax.specs.DocumentView.{view_arguments, view_directive, view_directives};
ghost use Rattle.juniper_lookahead.specs.DirectiveView.{view_lent};

use juniper_syntax::ast::Arguments;
use juniper_syntax::{Directive, InputValue, ScalarValue, Span, Spanning, Variables};

/// Whether a selection with these directives is taken: every `skip` is false and every `include` is true. A condition that
/// is null, missing, without a value or no boolean leaves the selection out; a variable is looked up once; other directives
/// leave nothing out.
#[tactic(auto, unfolding(graphql_spec::specs::Directives::admits))]
pub fn admits<S: ScalarValue>(
    directives: Option<&[Spanning<Directive<'_, S>, Span>]>,
    variables: &Variables<S>,
) -> bool
    ensures { result ≡ spec.admits (passes (view_variables S.shown variables.now)) (view_lent S.shown directives.entry) }
{
    let Some(written) = directives else {
        return true;
    };
    for directive in written {
        let passed = passes(directive, variables);
        if !passed {
            return false;
        }
    }
    true
}

/// The same of directives that may be written.
pub(crate) fn is_admitted<S: ScalarValue>(
    directives: &Option<Vec<Spanning<Directive<'_, S>, Span>>>,
    variables: &Variables<S>,
) -> bool
    ensures { result ≡ spec.admits (passes (view_variables S.shown variables.now)) (view_directives S.shown directives.now) }
{
    admits(lent(directives), variables)
}

/// The directives, lent.
fn lent<'b, 'a, S: ScalarValue>(
    directives: &'b Option<Vec<Spanning<Directive<'a, S>, Span>>>,
) -> Option<&'b [Spanning<Directive<'a, S>, Span>]>
    ensures { view_lent S.shown result ≡ view_directives S.shown directives.now }
{
    match directives {
        Some(directives) => Some(directives.as_slice()),
        None => None,
    }
}

#[tactic(auto, unfolding(graphql_spec::specs::Directives::passes, graphql_spec::specs::Directives::is_boolean))]
fn passes<S: ScalarValue>(
    directive: &Spanning<Directive<'_, S>, Span>,
    variables: &Variables<S>,
) -> bool
    ensures { result ≡ passes (view_variables S.shown variables.now) (view_directive S.shown directive.now) }
{
    let name = directive.item.name.item;
    if name == "skip" {
        condition_of(directive, variables) == Some(false)
    } else if name == "include" {
        condition_of(directive, variables) == Some(true)
    } else {
        true
    }
}

#[tactic(auto, unfolding(graphql_spec::specs::Directives::condition_of))]
fn condition_of<S: ScalarValue>(
    directive: &Spanning<Directive<'_, S>, Span>,
    variables: &Variables<S>,
) -> Option<bool>
    ensures { result ≡ condition_of (view_variables S.shown variables.now) (view_directive S.shown directive.now) }
{
    match argument_named(&directive.item.arguments, "if") {
        Some(value) => condition(value, variables),
        None => None,
    }
}

/// The first argument of the name.
#[tactic(auto, unfolding(graphql_spec::specs::Directives::argument_named, graphql_spec::specs::Documents::written))]
fn argument_named<'b, S: ScalarValue>(
    arguments: &'b Option<Spanning<Arguments<'_, S>, Span>>,
    wanted: &str,
) -> Option<&'b InputValue<S>>
    ensures { option_map (λ v. view_input S.shown v.now) result ≡ argument_named wanted.now (written (view_arguments S.shown arguments.now)) }
{
    let Some(arguments) = arguments else {
        return None;
    };
    for (name, value) in &arguments.item.items {
        if name.item == wanted {
            return Some(&value.item);
        }
    }
    None
}

/// The value of a variable.
fn variable<'b, S: ScalarValue>(
    variables: &'b Variables<S>,
    name: &str,
) -> Option<&'b InputValue<S>>
    ensures { option_map (λ v. view_input S.shown v.now) result ≡ view_variables S.shown variables.now name.now }
{
    variables.get(name)
}

#[tactic(auto, using(juniper_syntax::proofs::Inputs::input_views), unfolding(graphql_spec::specs::Directives::looked_up, graphql_spec::specs::Directives::boolean_of, graphql_spec::specs::Directives::as_boolean))]
fn condition<S: ScalarValue>(value: &InputValue<S>, variables: &Variables<S>) -> Option<bool>
    ensures { result ≡ boolean_of (looked_up (view_variables S.shown variables.now) (view_input S.shown value.now)) }
{
    match value {
        InputValue::Variable(name) => match variable(variables, name.as_str()) {
            Some(given) => written_boolean(given),
            None => None,
        },
        InputValue::Null => None,
        InputValue::Scalar(scalar) => scalar.try_to_bool(),
        InputValue::Enum(_) => None,
        InputValue::List(_) => None,
        InputValue::Object(_) => None,
    }
}

#[tactic(auto, using(juniper_syntax::proofs::Inputs::input_views), unfolding(graphql_spec::specs::Directives::as_boolean))]
fn written_boolean<S: ScalarValue>(value: &InputValue<S>) -> Option<bool>
    ensures { result ≡ as_boolean (view_input S.shown value.now) }
{
    match value {
        InputValue::Scalar(scalar) => scalar.try_to_bool(),
        InputValue::Null => None,
        InputValue::Enum(_) => None,
        InputValue::Variable(_) => None,
        InputValue::List(_) => None,
        InputValue::Object(_) => None,
    }
}
