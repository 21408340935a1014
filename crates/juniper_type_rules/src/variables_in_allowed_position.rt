//! VariablesInAllowedPosition: each variable that an operation uses, in itself or in fragments that it reaches, may
//! stand where it stands (section 5.8.5 of the Specification).

ghost use Rattle.std.specs.Prelude.{◌≡◌, IfOk, Option, false, option_map, true, ℕ};
ghost use Rattle.std.specs.List.{list_any};
ghost use Rattle.graphql_spec.specs.Documents.{Document};
ghost use Rattle.graphql_spec.specs.Rules as rules;
ghost use Rattle.graphql_spec.specs.Types.{list_of, named, nullable};
ghost use Rattle.graphql_spec.specs.VariableUses as spec;
ghost use Rattle.graphql_spec.specs.VariableUses.{compatible};
ghost use Rattle.juniper_syntax.specs.Positions.{view_spanning};
ghost use Rattle.juniper_syntax.specs.DocumentView.{view_definition, view_variable};
ghost use Rattle.juniper_syntax.specs.InputView.{view_input};
ghost use Rattle.juniper_syntax.specs.TypeView as types;
ghost use Rattle.juniper_meta.specs.MetaView.{view_type};
ghost use Rattle.juniper_schema.specs.SchemaView.{view_schema};
ghost use Rattle.juniper_type_rules.specs.UsesView.{AreUsesOfParts, allowed_by, definition_at, is_misused, uses_misused};
ghost use Rattle.juniper_type_rules.specs.UsesView.{view_use, view_used_at, view_uses};

use crate::defined::{VariablesByName, variables_by_name};
use crate::roots::has_root;
use crate::uses::{Use, Used};
use juniper_schema::SchemaType;
use juniper_syntax::{DefinedVariable, Definition, InputValue, ScalarValue, Span, Spanning, Type};
use std::alloc::{AllocError, Global};

/// Whether a definition is an operation that can be executed and uses, in itself or in fragments that it reaches, a
/// variable where it may not stand. `parts` is what an operation and the fragments that it reaches use. An error where
/// memory is refused.
pub fn misuses_variable<S: ScalarValue>(
    alloc: Global,
    schema: &SchemaType<S>,
    definition: &Definition<'_, S>,
    parts: &Vec<&Used<'_>>,
) -> Result<bool, AllocError>
    ensures { IfOk result (λ b. (d : Document) →
        AreUsesOfParts (view_schema S.shown schema.now) parts.now.items d (view_definition S.shown definition.now) →
        b ≡ rules.misuses_variable (view_schema S.shown schema.now) d (view_definition S.shown definition.now)) }
{
    match definition {
        Definition::Operation(operation) => {
            if !has_root(schema, operation.item.operation_type) {
                return Ok(false);
            }
            let defined = variables_by_name(alloc, &operation.item.variable_definitions)?;
            Ok(misuses_in_parts(&defined, parts))
        }
        Definition::Fragment(_) => Ok(false),
    }
}

/// Whether one of the parts uses a variable where it may not stand.
fn misuses_in_parts<S: ScalarValue>(
    defined: &VariablesByName<'_, '_, S>,
    parts: &Vec<&Used<'_>>,
) -> bool
    ensures { result ≡ list_any (uses_misused (definition_at S.shown defined.now)) (view_used_at parts.now.items) }
{
    for index in 0..parts.len() {
        if misuses_one(defined, &parts[index].uses) {
            return true;
        }
    }
    false
}

/// Whether one of the variables may not stand where it stands.
fn misuses_one<S: ScalarValue>(defined: &VariablesByName<'_, '_, S>, uses: &[Use<'_>]) -> bool
    ensures { result ≡ list_any (is_misused (definition_at S.shown defined.now)) (view_uses uses.now) }
{
    for used in uses {
        if !is_allowed(defined, used) {
            return true;
        }
    }
    false
}

/// Whether a variable may stand where it stands; one that is not defined may.
fn is_allowed<S: ScalarValue>(defined: &VariablesByName<'_, '_, S>, used: &Use<'_>) -> bool
    ensures { result ≡ allowed_by (definition_at S.shown defined.now) (view_use used.now) }
{
    match defined.get(used.variable) {
        Some(variable) => may_stand(*variable, used),
        None => true,
    }
}

/// Whether a variable of this definition may stand there (IsVariableUsageAllowed). One that takes null may stand where
/// null is not taken, if it or the place has a default.
#[tactic(auto, unfolding(graphql_spec::specs::VariableUses::may_stand))]
pub fn may_stand<S: ScalarValue>(variable: &DefinedVariable<'_, S>, used: &Use<'_>) -> bool
    ensures { result ≡ spec.may_stand (view_variable S.shown variable.now) (view_use used.now) }
{
    let of_type = &variable.1.var_type.item;
    let place = used.place;
    if place.is_non_null() && !of_type.is_non_null() {
        (has_real_default(&variable.1.default_value) || used.has_default)
            && fits_nullable(of_type, place)
    } else {
        is_compatible(of_type, place)
    }
}

/// Whether there is a default other than null.
fn has_real_default<S: ScalarValue>(default: &Option<Spanning<InputValue<S>, Span>>) -> bool
    ensures { result ≡ spec.has_real_default (option_map (view_spanning (view_input S.shown)) default.now) }
{
    match default {
        Some(value) => !value.item.is_null(),
        None => false,
    }
}

/// Whether a variable of the first type fits a place of the second (AreTypesCompatible).
#[tactic(auto, unfolding(graphql_spec::specs::VariableUses::compatible))]
fn is_compatible(variable: &Type<&str>, place: &Type<String>) -> bool
    ensures { result ≡ compatible (types.view_type (λ n. n.now) variable.now) (view_type place.now) }
{
    match place {
        Type::Named(name) => is_name(variable, name.as_str()),
        Type::NonNullNamed(name) => is_non_null_name(variable, name.as_str()),
        Type::List(inner, _) => match variable {
            Type::List(own, _) => is_compatible(&**own, &**inner),
            Type::NonNullList(own, _) => is_compatible(&**own, &**inner),
            Type::Named(_) | Type::NonNullNamed(_) => false,
        },
        Type::NonNullList(inner, _) => match variable {
            Type::NonNullList(own, _) => is_compatible(&**own, &**inner),
            Type::List(_, _) | Type::Named(_) | Type::NonNullNamed(_) => false,
        },
    }
}

/// Whether it fits the place, if null is taken there too.
#[tactic(auto, unfolding(graphql_spec::specs::VariableUses::compatible, graphql_spec::specs::Types::nullable))]
fn fits_nullable(variable: &Type<&str>, place: &Type<String>) -> bool
    ensures { result ≡ compatible (types.view_type (λ n. n.now) variable.now) (nullable (view_type place.now)) }
{
    match place {
        Type::Named(name) => is_name(variable, name.as_str()),
        Type::NonNullNamed(name) => is_name(variable, name.as_str()),
        Type::List(inner, _) => is_list_for(variable, &**inner),
        Type::NonNullList(inner, _) => is_list_for(variable, &**inner),
    }
}

/// Whether the type is a list, non-null or not, whose items fit a place of this type.
#[tactic(auto, unfolding(graphql_spec::specs::VariableUses::compatible))]
fn is_list_for(variable: &Type<&str>, inner: &Type<String>) -> bool
    ensures { (size : Option ℕ) → result ≡ compatible (types.view_type (λ n. n.now) variable.now) (list_of false size (view_type inner.now)) }
{
    match variable {
        Type::List(own, _) => is_compatible(&**own, inner),
        Type::NonNullList(own, _) => is_compatible(&**own, inner),
        Type::Named(_) | Type::NonNullNamed(_) => false,
    }
}

/// Whether the type is this name, non-null or not.
#[tactic(auto, unfolding(graphql_spec::specs::VariableUses::compatible))]
fn is_name(variable: &Type<&str>, name: &str) -> bool
    ensures { result ≡ compatible (types.view_type (λ n. n.now) variable.now) (named false name.now) }
{
    match variable {
        Type::Named(own) => *own == name,
        Type::NonNullNamed(own) => *own == name,
        Type::List(_, _) | Type::NonNullList(_, _) => false,
    }
}

/// Whether the type is this name, non-null.
#[tactic(auto, unfolding(graphql_spec::specs::VariableUses::compatible))]
fn is_non_null_name(variable: &Type<&str>, name: &str) -> bool
    ensures { result ≡ compatible (types.view_type (λ n. n.now) variable.now) (named true name.now) }
{
    match variable {
        Type::NonNullNamed(own) => *own == name,
        Type::Named(_) | Type::List(_, _) | Type::NonNullList(_, _) => false,
    }
}
