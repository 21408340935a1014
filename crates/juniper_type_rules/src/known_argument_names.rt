//! KnownArgumentNames: each argument is declared (section 5.4.1 of the Specification).

ghost use Rattle.std.specs.Prelude.{◌≡◌, map};
ghost use Rattle.std.specs.List.{list_any};
ghost use Rattle.std.specs.Option.{is_none};
ghost use Rattle.graphql_spec.specs.Fields.{declaration_in};
ghost use Rattle.graphql_spec.specs.Rules as rules;
ghost use Rattle.juniper_meta.specs.MetaView.{view_argument};
ghost use Rattle.juniper_type_rules.specs.CallView.{view_call, view_calls};

use crate::Call;
use juniper_meta::{Argument, find_argument};
use juniper_syntax::ScalarValue;

/// Whether one of the fields or directives is given an argument that it does not declare.
pub fn has_unknown_argument<S: ScalarValue>(calls: &[Call<'_, '_, '_, S>]) -> bool
    ensures { result ≡ list_any rules.gives_unknown (view_calls S.shown calls.now) }
{
    for call in calls {
        if gives_unknown(call) {
            return true;
        }
    }
    false
}

/// Whether an argument is not declared.
fn gives_unknown<S: ScalarValue>(call: &Call<'_, '_, '_, S>) -> bool
    ensures { result ≡ rules.gives_unknown (view_call S.shown call.now) }
{
    let declared = call.declared;
    match call.given {
        Some(arguments) => {
            for argument in &arguments.item.items {
                if is_undeclared(declared, argument.0.item) {
                    return true;
                }
            }
            false
        }
        None => false,
    }
}

/// Whether none of the declared arguments has this name.
fn is_undeclared<S: ScalarValue>(declared: &[Argument<S>], name: &str) -> bool
    ensures { result ≡ is_none (declaration_in (map (view_argument S.shown) declared.now) name.now) }
{
    match find_argument(declared, name) {
        Some(_) => false,
        None => true,
    }
}
