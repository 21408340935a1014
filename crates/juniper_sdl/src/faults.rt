//! Which schemas have a text of the language for type systems, and why others have none (section 3 of the Specification).

ghost use Rattle.std.specs.Prelude.{◌≡◌, ◌&&◌, IfOk, map, option_map};
ghost use Rattle.std.specs.List.{list_all, list_any};
ghost use Rattle.graphql_spec.specs.Tokens as tokens;
ghost use Rattle.juniper_meta.specs.MetaView.{view_argument, view_enum_value, view_field, view_meta, view_names};
ghost use Rattle.juniper_syntax.specs.InputView.{view_input};
ghost use Rattle.juniper_schema.specs.MadeTypes.{view_made};
ghost use Rattle.juniper_schema.specs.SchemaView.{view_schema};
ghost use Rattle.juniper_sdl.specs.Faults as spec;
ghost use Rattle.juniper_sdl.specs.Faults.{view_fault};

use crate::fault::{Flaw, SdlFault};
use crate::names::{are_names, is_constant, is_enum_name, is_name};
use crate::sdl::is_left_out;
use juniper_meta::meta::Field;
use juniper_meta::{Argument, EnumValue, MetaType};
use juniper_schema::{SchemaType, TypeType, is_reserved};
use juniper_syntax::{InputValue, ScalarValue};
use std::alloc::{AllocError, Global};

/// Why the schema has no text of the language for type systems: the first fault, of the names of its root types, and then of the types
/// that it lists, in byte order of their names. `None` exactly where [`as_sdl`](crate::as_sdl) writes it. An error where memory is
/// refused.
pub fn sdl_fault<'s, S: ScalarValue>(
    alloc: Global,
    schema: &'s SchemaType<S>,
) -> Result<Option<SdlFault<'s>>, AllocError>
    ensures { IfOk result (λ found. option_map view_fault found ≡ spec.sdl_fault (view_schema S.shown schema.now)) }
{
    let types = schema.type_list(alloc)?;
    let found = name_fault(schema.query_name())
        .or(mutation_fault(schema.mutation_name()))
        .or(first_fault(types.as_slice()));
    Ok(found)
}

/// The fault of a root type's name.
#[tactic(auto, unfolding(crate::specs::Faults::name_fault))]
fn name_fault(name: &str) -> Option<SdlFault<'_>>
    ensures { option_map view_fault result ≡ spec.name_fault name.now }
{
    if is_name(name) {
        None
    } else {
        Some(SdlFault {
            flaw: Flaw::NoName,
            type_name: name,
        })
    }
}

/// The fault of the mutation type's name.
#[tactic(auto, unfolding(crate::specs::Faults::mutation_fault))]
fn mutation_fault(name: Option<&str>) -> Option<SdlFault<'_>>
    ensures { option_map view_fault result ≡ spec.mutation_fault (option_map (λ n. n.now) name.entry) }
{
    match name {
        Some(name) => name_fault(name),
        None => None,
    }
}

/// The first fault of these types.
fn first_fault<'s, S: ScalarValue>(types: &[TypeType<'s, S>]) -> Option<SdlFault<'s>>
    ensures { option_map view_fault result ≡ spec.first_fault (map (view_made S.shown) types.now) }
{
    for declared in types {
        match made_fault(declared) {
            Some(fault) => return Some(fault),
            None => {}
        }
    }
    None
}

/// The fault of a type.
fn made_fault<'s, S: ScalarValue>(declared: &TypeType<'s, S>) -> Option<SdlFault<'s>>
    ensures { option_map view_fault result ≡ spec.made_fault (view_made S.shown declared.now) }
{
    match declared {
        TypeType::Concrete(meta) => meta_fault(*meta),
        TypeType::List(_, _) | TypeType::NonNull(_) => None,
    }
}

/// The fault of a declaration, unless it is left out.
#[tactic(auto, unfolding(crate::specs::Faults::named_fault))]
fn meta_fault<S: ScalarValue>(meta: &MetaType<S>) -> Option<SdlFault<'_>>
    ensures { option_map view_fault result ≡ spec.meta_fault (view_meta S.shown meta.now) }
{
    let name = meta.name().unwrap_or("");
    if is_left_out(name) {
        None
    } else {
        type_fault(name, meta)
    }
}

/// The fault of a declaration of this name.
#[tactic(auto, unfolding(crate::specs::Faults::type_fault))]
fn type_fault<'s, S: ScalarValue>(name: &'s str, meta: &MetaType<S>) -> Option<SdlFault<'s>>
    ensures { option_map view_fault result ≡ spec.type_fault name.now (view_meta S.shown meta.now).shape }
{
    if !has_parts(meta) {
        Some(SdlFault {
            flaw: Flaw::NoParts,
            type_name: name,
        })
    } else if is_written(name, meta) {
        None
    } else {
        Some(SdlFault {
            flaw: Flaw::NoName,
            type_name: name,
        })
    }
}

/// Whether the name of a declaration and the names of what it lists are Names.
fn is_written<S: ScalarValue>(name: &str, meta: &MetaType<S>) -> bool
    ensures { result ≡ (tokens.is_name name.now && spec.names_are_written (view_meta S.shown meta.now).shape) }
{
    is_name(name) && names_are_written(meta)
}

/// Whether a declaration lists a part, where its kind asks for one (3.6 to 3.10).
#[tactic(auto, unfolding(juniper_meta::specs::MetaView::view_meta, crate::specs::Faults::has_parts))]
fn has_parts<S: ScalarValue>(meta: &MetaType<S>) -> bool
    ensures { result ≡ spec.has_parts (view_meta S.shown meta.now).shape }
{
    match meta {
        MetaType::Scalar(_) => true,
        MetaType::Enum(declared) => lists_value(declared.values.as_slice()),
        MetaType::Object(object) => lists_field(object.fields.as_slice()),
        MetaType::Interface(interface) => lists_field(interface.fields.as_slice()),
        MetaType::Union(union) => lists_member(union.of_type_names.as_slice()),
        MetaType::InputObject(input) => lists_input(input.input_fields.as_slice()),
        MetaType::List(_) | MetaType::Nullable(_) | MetaType::Placeholder(_) => false,
    }
}

/// Whether there is a value (3.9).
#[tactic(auto, unfolding(crate::specs::Faults::is_some_list))]
fn lists_value(values: &[EnumValue]) -> bool
    ensures { result ≡ spec.is_some_list (map view_enum_value values.now) }
{
    match values {
        [] => false,
        [_, ..] => true,
    }
}

/// Whether there is a member (3.8).
#[tactic(auto, unfolding(crate::specs::Faults::is_some_list))]
fn lists_member(names: &[String]) -> bool
    ensures { result ≡ spec.is_some_list (view_names names.now) }
{
    match names {
        [] => false,
        [_, ..] => true,
    }
}

/// Whether there is a field of an input object (3.10).
#[tactic(auto, unfolding(crate::specs::Faults::is_some_list))]
fn lists_input<S: ScalarValue>(declared: &[Argument<S>]) -> bool
    ensures { result ≡ spec.is_some_list (map (view_argument S.shown) declared.now) }
{
    match declared {
        [] => false,
        [_, ..] => true,
    }
}

/// Whether one of the fields is listed: its name is not reserved (4.1).
fn lists_field<S: ScalarValue>(fields: &[Field<S>]) -> bool
    ensures { result ≡ list_any spec.is_listed (map (view_field S.shown) fields.now) }
{
    for field in fields {
        if is_listed(field) {
            return true;
        }
    }
    false
}

/// Whether a field is listed.
#[tactic(auto, unfolding(crate::specs::Faults::is_listed))]
fn is_listed<S: ScalarValue>(field: &Field<S>) -> bool
    ensures { result ≡ spec.is_listed (view_field S.shown field.now) }
{
    !is_reserved(field.name.as_str())
}

/// Whether the names of what a declaration lists are Names.
#[tactic(auto, unfolding(juniper_meta::specs::MetaView::view_meta, crate::specs::Faults::names_are_written))]
fn names_are_written<S: ScalarValue>(meta: &MetaType<S>) -> bool
    ensures { result ≡ spec.names_are_written (view_meta S.shown meta.now).shape }
{
    match meta {
        MetaType::Enum(declared) => values_are_written(declared.values.as_slice()),
        MetaType::Object(object) => {
            fields_are_written(object.fields.as_slice())
                && are_names(object.interface_names.as_slice())
        }
        MetaType::Interface(interface) => {
            fields_are_written(interface.fields.as_slice())
                && are_names(interface.interface_names.as_slice())
        }
        MetaType::Union(union) => are_names(union.of_type_names.as_slice()),
        MetaType::InputObject(input) => inputs_are_written(input.input_fields.as_slice()),
        MetaType::Scalar(_)
        | MetaType::List(_)
        | MetaType::Nullable(_)
        | MetaType::Placeholder(_) => true,
    }
}

/// Whether the names of fields that are listed, and those of their arguments, are Names.
fn fields_are_written<S: ScalarValue>(fields: &[Field<S>]) -> bool
    ensures { result ≡ list_all spec.listed_is_written (map (view_field S.shown) fields.now) }
{
    for field in fields {
        if !listed_is_written(field) {
            return false;
        }
    }
    true
}

/// The same of one field.
#[tactic(auto, unfolding(crate::specs::Faults::listed_is_written))]
fn listed_is_written<S: ScalarValue>(field: &Field<S>) -> bool
    ensures { result ≡ spec.listed_is_written (view_field S.shown field.now) }
{
    !is_listed(field) || field_is_written(field)
}

/// Whether the names of a field and of its arguments are Names.
#[tactic(auto, unfolding(crate::specs::Faults::field_is_written))]
fn field_is_written<S: ScalarValue>(field: &Field<S>) -> bool
    ensures { result ≡ spec.field_is_written (view_field S.shown field.now) }
{
    is_name(field.name.as_str())
        && is_name(field.field_type.innermost_name())
        && inputs_are_written(field.declared_arguments())
}

/// Whether the names of arguments or input fields are Names, and their default values constants.
fn inputs_are_written<S: ScalarValue>(declared: &[Argument<S>]) -> bool
    ensures { result ≡ list_all spec.input_is_written (map (view_argument S.shown) declared.now) }
{
    for argument in declared {
        if !input_is_written(argument) {
            return false;
        }
    }
    true
}

/// Whether the names of an argument or input field are Names, and its default value a constant.
#[tactic(auto, unfolding(crate::specs::Faults::input_is_written))]
fn input_is_written<S: ScalarValue>(input: &Argument<S>) -> bool
    ensures { result ≡ spec.input_is_written (view_argument S.shown input.now) }
{
    is_name(input.name.as_str())
        && is_name(input.arg_type.innermost_name())
        && default_is_constant(&input.default_value)
}

/// Whether a default value, where there is one, is a constant (3.6.1).
#[tactic(auto, unfolding(crate::specs::Faults::default_is_constant))]
fn default_is_constant<S: ScalarValue>(default: &Option<InputValue<S>>) -> bool
    ensures { result ≡ spec.default_is_constant (option_map (view_input S.shown) default.now) }
{
    match default {
        Some(value) => is_constant(value),
        None => true,
    }
}

/// Whether the names of an enum's values are such (3.9).
fn values_are_written(values: &[EnumValue]) -> bool
    ensures { result ≡ list_all spec.value_is_written (map view_enum_value values.now) }
{
    for value in values {
        if !value_is_written(value) {
            return false;
        }
    }
    true
}

/// Whether the name of an enum's value is such (3.9).
#[tactic(auto, unfolding(crate::specs::Faults::value_is_written))]
fn value_is_written(value: &EnumValue) -> bool
    ensures { result ≡ spec.value_is_written (view_enum_value value.now) }
{
    is_enum_name(value.name.as_str())
}
