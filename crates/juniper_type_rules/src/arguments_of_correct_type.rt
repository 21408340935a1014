//! ArgumentsOfCorrectType: each argument's value fits its type (section 5.6.1 of the Specification).

ghost use Rattle.std.specs.Prelude.{◌≡◌, option_map};
ghost use Rattle.std.specs.List.{list_any};
ghost use Rattle.graphql_spec.specs.Rules as rules;
ghost use Rattle.juniper_meta.specs.MetaView.{view_argument};
ghost use Rattle.juniper_type_rules.specs.CallView.{view_call, view_calls};
ghost use Rattle.juniper_schema.specs.SchemaView.{view_schema};
ghost use Rattle.juniper_syntax.specs.InputView.{view_input};
ghost use Rattle.juniper_type_rules.specs.SetTests.{misfits};

use crate::Call;
use juniper_meta::{Argument, find_argument};
use juniper_schema::SchemaType;
use juniper_syntax::{InputValue, ScalarValue};

/// Whether one of the fields or directives is given a value that does not fit its declared argument.
pub fn has_wrong_argument<S: ScalarValue>(
    schema: &SchemaType<S>,
    calls: &[Call<'_, '_, '_, S>],
) -> bool
    ensures { result ≡ list_any (rules.gives_wrong (view_schema S.shown schema.now)) (view_calls S.shown calls.now) }
{
    for call in calls {
        if gives_wrong(schema, call) {
            return true;
        }
    }
    false
}

/// Whether a value does not fit its declared argument.
fn gives_wrong<S: ScalarValue>(schema: &SchemaType<S>, call: &Call<'_, '_, '_, S>) -> bool
    ensures { result ≡ rules.gives_wrong (view_schema S.shown schema.now) (view_call S.shown call.now) }
{
    let declared = call.declared;
    match call.given {
        Some(arguments) => {
            for argument in &arguments.item.items {
                let found = find_argument(declared, argument.0.item);
                if misfits(schema, found, &argument.1.item) {
                    return true;
                }
            }
            false
        }
        None => false,
    }
}

/// Whether there is a declared argument that the value does not fit.
#[tactic(auto, unfolding(crate::specs::SetTests::misfits))]
fn misfits<S: ScalarValue>(
    schema: &SchemaType<S>,
    declared: Option<&Argument<S>>,
    value: &InputValue<S>,
) -> bool
    ensures { result ≡ misfits (view_schema S.shown schema.now) (option_map (λ a. view_argument S.shown a.now) declared.entry) (view_input S.shown value.now) }
{
    match declared {
        Some(argument) => !schema.fits(value, &argument.arg_type, false),
        None => false,
    }
}
