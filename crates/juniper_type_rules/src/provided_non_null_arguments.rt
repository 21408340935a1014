//! ProvidedNonNullArguments: each non-null argument without a default is given (section 5.4.2.1 of the Specification).

ghost use Rattle.std.specs.Prelude.{◌≡◌, ◌&&◌, not};
ghost use Rattle.std.specs.List.{list_any};
ghost use Rattle.std.specs.Str.{bytes_eq};
ghost use Rattle.graphql_spec.specs.Documents.{written};
ghost use Rattle.graphql_spec.specs.Rules as rules;
ghost use Rattle.juniper_meta.specs.MetaView.{view_argument};
ghost use Rattle.juniper_type_rules.specs.CallView.{view_call, view_calls};
ghost use Rattle.juniper_syntax.specs.DocumentView.{view_arguments};

use crate::Call;
use juniper_meta::meta::Argument;
use juniper_syntax::ast::Arguments;
use juniper_syntax::{ScalarValue, Span, Spanning};

/// Whether one of the fields or directives lacks an argument that it asks for.
pub fn lacks_argument<S: ScalarValue>(calls: &[Call<'_, '_, '_, S>]) -> bool
    ensures { result ≡ list_any rules.gives_too_few (view_calls S.shown calls.now) }
{
    for call in calls {
        if gives_too_few(call) {
            return true;
        }
    }
    false
}

/// Whether an argument that must be written is not given.
fn gives_too_few<S: ScalarValue>(call: &Call<'_, '_, '_, S>) -> bool
    ensures { result ≡ rules.gives_too_few (view_call S.shown call.now) }
{
    let given = call.given;
    for argument in call.declared {
        if is_left_out(argument, given) {
            return true;
        }
    }
    false
}

/// Whether the argument must be written, and is not given.
pub fn is_left_out<S: ScalarValue>(
    argument: &Argument<S>,
    given: &Option<Spanning<Arguments<'_, S>, Span>>,
) -> bool
    ensures { result ≡ (rules.must_be_written (view_argument S.shown argument.now)
        && not (list_any (λ a. bytes_eq (view_argument S.shown argument.now).name a.name.item) (written (view_arguments S.shown given.now)))) }
{
    must_be_written(argument) && !names(given, argument.name.as_str())
}

/// Whether the argument is non-null and has no default.
#[tactic(auto, unfolding(graphql_spec::specs::Rules::must_be_written))]
fn must_be_written<S: ScalarValue>(argument: &Argument<S>) -> bool
    ensures { result ≡ rules.must_be_written (view_argument S.shown argument.now) }
{
    argument.arg_type.is_non_null() && argument.default_value.is_none()
}

/// Whether one of the arguments has this name.
fn names<S: ScalarValue>(given: &Option<Spanning<Arguments<'_, S>, Span>>, name: &str) -> bool
    ensures { result ≡ list_any (λ a. bytes_eq name.now a.name.item) (written (view_arguments S.shown given.now)) }
{
    match given {
        Some(arguments) => {
            for argument in &arguments.item.items {
                if name == argument.0.item {
                    return true;
                }
            }
            false
        }
        None => false,
    }
}
