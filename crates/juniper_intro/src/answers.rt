//! What fields, arguments, input fields, values of enums and directives answer (sections 4.2.3 to 4.2.6 of the Specification).

ghost use Rattle.std.specs.Prelude.{◌≡◌, ◌||◌, codes, option_map};
ghost use Rattle.graphql_spec.specs.Display.{display};
ghost use Rattle.graphql_spec.specs.Introspection.{answer_at, if_any, says, stands_on};
ghost use Rattle.graphql_spec.specs.Resolvers.{answered};
ghost use Rattle.graphql_spec.specs.SeenNodes.{map_tree};
ghost use Rattle.juniper_meta.specs.MetaView.{view_argument, view_directive, view_enum_value, view_field};
ghost use Rattle.juniper_values.specs.ResolvedView.{Answers};
ghost use Rattle.juniper_syntax.specs.InputView.{view_input};
ghost use Rattle.juniper_intro.specs.HandleView.{of_handle, view_input_place};
ghost use Rattle.juniper_intro.specs.Handles.{directive_held, field_held, input_held, value_held};

use crate::handle::{Handle, InputPlace, TypePlace};
use crate::nodes::{InputOwner, inputs, locations};
use crate::words::{Answer, flag, null, object, text, text_or_null};
use juniper_meta::meta::Field;
use juniper_meta::{Argument, DirectiveType, EnumValue};
use juniper_syntax::{InputValue, ScalarValue};
use std::alloc::Global;

/// What the field of this number of the type of that answers (4.2.3).
#[tactic(auto, unfolding(graphql_spec::specs::Introspection::answer_at, crate::specs::Handles::field_held, graphql_spec::specs::SeenNodes::map_tree))]
pub(crate) fn of_field<N: Drop, S: ScalarValue>(
    alloc: Global,
    of_type: usize,
    number: usize,
    field: &Field<S>,
    field_name: &str,
) -> Answer<N, S>
    ensures { Answers S.shown result (answered (map_tree of_handle (answer_at field_name.now (field_held of_type number (view_field S.shown field.now))))) }
{
    match field_name {
        "name" => text(alloc, field.name.as_str()),
        "description" => text_or_null(alloc, field.description.as_deref()),
        "args" => inputs(
            alloc,
            InputOwner::Field(of_type, number),
            field.declared_arguments(),
        ),
        "type" => object(Handle::Type(TypePlace::AtField(of_type, number), 0)),
        "isDeprecated" => flag(field.deprecation_status.is_deprecated()),
        "deprecationReason" => text_or_null(alloc, field.deprecation_status.reason()),
        _ => null(),
    }
}

/// What the argument or input field at a place answers (4.2.4).
#[tactic(auto, unfolding(graphql_spec::specs::Introspection::answer_at, crate::specs::Handles::input_held, graphql_spec::specs::SeenNodes::map_tree))]
pub(crate) fn of_input<N: Drop, S: ScalarValue>(
    alloc: Global,
    place: InputPlace,
    input: &Argument<S>,
    field_name: &str,
) -> Answer<N, S>
    ensures { Answers S.shown result (answered (map_tree of_handle (answer_at field_name.now
        (input_held (view_input_place place) (view_argument S.shown input.now))))) }
{
    match field_name {
        "name" => text(alloc, input.name.as_str()),
        "description" => text_or_null(alloc, input.description.as_deref()),
        "type" => object(Handle::Type(TypePlace::AtInput(place), 0)),
        "defaultValue" => default(alloc, &input.default_value),
        _ => null(),
    }
}

/// A default value as it is written, or null where there is none.
#[tactic(auto, unfolding(graphql_spec::specs::Introspection::if_any, graphql_spec::specs::SeenNodes::map_tree))]
fn default<N: Drop, S: ScalarValue>(alloc: Global, value: &Option<InputValue<S>>) -> Answer<N, S>
    ensures { Answers S.shown result (answered (map_tree of_handle (if_any (λ v. says (display v)) (option_map (view_input S.shown) value.now)))) }
{
    match value {
        Some(value) => {
            let written = value.to_string(alloc)?;
            text(alloc, written.as_str())
        }
        None => null(),
    }
}

/// What a value of an enum answers (4.2.5).
#[tactic(auto, unfolding(graphql_spec::specs::Introspection::answer_at, crate::specs::Handles::value_held, graphql_spec::specs::SeenNodes::map_tree))]
pub(crate) fn of_value<N: Drop, S: ScalarValue>(
    alloc: Global,
    value: &EnumValue,
    field_name: &str,
) -> Answer<N, S>
    ensures { Answers S.shown result (answered (map_tree of_handle (answer_at field_name.now (value_held (view_enum_value value.now))))) }
{
    match field_name {
        "name" => text(alloc, value.name.as_str()),
        "description" => text_or_null(alloc, value.description.as_deref()),
        "isDeprecated" => flag(value.deprecation_status.is_deprecated()),
        "deprecationReason" => text_or_null(alloc, value.deprecation_status.reason()),
        _ => null(),
    }
}

/// What the directive of this number answers, the older flags too (4.2.6).
#[tactic(auto, unfolding(graphql_spec::specs::Introspection::answer_at, crate::specs::Handles::directive_held, graphql_spec::specs::SeenNodes::map_tree))]
pub(crate) fn of_directive<N: Drop, S: ScalarValue>(
    alloc: Global,
    number: usize,
    directive: &DirectiveType<S>,
    field_name: &str,
) -> Answer<N, S>
    ensures { Answers S.shown result (answered (map_tree of_handle (answer_at field_name.now (directive_held number (view_directive S.shown directive.now))))) }
{
    match field_name {
        "name" => text(alloc, directive.name.as_str()),
        "locations" => locations(alloc, directive.locations.as_slice()),
        "args" => inputs(
            alloc,
            InputOwner::Directive(number),
            directive.arguments.as_slice(),
        ),
        "isRepeatable" => flag(false),
        "onOperation" => flag(stands_on(directive, "QUERY")),
        "onFragment" => flag(stands_on_fragment(directive)),
        "onField" => flag(stands_on(directive, "FIELD")),
        _ => null(),
    }
}

/// Whether a directive may stand on the definition or the spread of a fragment, or on an inline one.
fn stands_on_fragment<S: ScalarValue>(directive: &DirectiveType<S>) -> bool
    ensures { result ≡ (stands_on (view_directive S.shown directive.now) (codes "FRAGMENT_DEFINITION")
        || (stands_on (view_directive S.shown directive.now) (codes "INLINE_FRAGMENT")
        || stands_on (view_directive S.shown directive.now) (codes "FRAGMENT_SPREAD"))) }
{
    stands_on(directive, "FRAGMENT_DEFINITION")
        || stands_on(directive, "INLINE_FRAGMENT")
        || stands_on(directive, "FRAGMENT_SPREAD")
}

/// Whether a directive may stand at this place.
#[tactic(auto, unfolding(graphql_spec::specs::Introspection::stands_on))]
fn stands_on<S: ScalarValue>(directive: &DirectiveType<S>, place: &str) -> bool
    ensures { result ≡ stands_on (view_directive S.shown directive.now) place.now }
{
    for location in &directive.locations {
        if place == location.name() {
            return true;
        }
    }
    false
}
