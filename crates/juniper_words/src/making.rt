//! Declarations of types, by their data (section 3 of the Specification).

ghost use Rattle.std.specs.Prelude.{◌≡◌, IfOk, Some, map, option_map};
ghost use Rattle.graphql_spec.specs.Schema.{enum_type, input_object_type, interface_type, object_type, scalar_type, union_type};
ghost use Rattle.juniper_words.specs.Data.{declared, input_field_of, name_of, names, noted_meta, shape_of, value_of, with_typename};
ghost use Rattle.juniper_meta.specs.MetaView.{view_field, view_kinds, view_meta};
ghost use Rattle.juniper_registry.specs.DeclaredTypes.{type_named};

use crate::data::{DeclaredField, DeclaredInput, DeclaredType};
use crate::notes::{Note, Subject, described};
use crate::parts::{fields_of, inputs_of, values_of};
use juniper_meta::meta::Field;
use juniper_meta::{
    EnumMeta, InputObjectMeta, InterfaceMeta, MetaType, ObjectMeta, ScalarKinds, ScalarMeta,
    UnionMeta,
};
use juniper_registry::{GraphQLReference, GraphQLType, Registry, names_of};
use juniper_syntax::{ScalarValue, Type};
use std::alloc::{AllocError, Global};

/// A type that is told by its data, which is the info: non-null, under its name.
impl<S: ScalarValue> GraphQLReference<S> for DeclaredType {
    type TypeInfo = DeclaredType;

    ghost named = { λ d. Some (name_of d) };

    ghost reference = { λ d. type_named (name_of d) };

    fn name<'i>(info: &'i DeclaredType) -> Option<&'i str> {
        Some(info.name())
    }

    fn type_in(
        _alloc: Global,
        info: &DeclaredType,
        registry: &mut Registry<S>,
    ) -> Result<Type<String>, AllocError> {
        registry.named_type(info.name())
    }
}

impl<S: ScalarValue> GraphQLType<S> for DeclaredType {
    ghost declaration = { λ d. (declared d).1 };

    fn meta(
        alloc: Global,
        info: &DeclaredType,
        registry: &mut Registry<S>,
    ) -> Result<MetaType<S>, AllocError> {
        let notes = info.notes(alloc)?;
        let made = declaration_of(alloc, registry, &notes, info)?;
        Ok(made)
    }

    ghost keeps_name = { λ _ _ e. e };
}

/// The declaration of a type, with these notes.
fn declaration_of<S: ScalarValue>(
    alloc: Global,
    registry: &mut Registry<S>,
    notes: &[Note],
    declared: &DeclaredType,
) -> Result<MetaType<S>, AllocError>
    ensures { IfOk result (λ m. view_meta S.shown m ≡ noted_meta notes.now (name_of declared.now) (shape_of notes.now declared.now)) }
{
    match declared {
        DeclaredType::Scalar(name, kinds, url) => scalar_of(alloc, notes, name, *kinds, url),
        DeclaredType::Object(name, interfaces, fields) => {
            let all = with_typename(alloc, registry, notes, fields)?;
            object_of(alloc, notes, name, interfaces, all)
        }
        DeclaredType::Interface(name, fields) => {
            let all = with_typename(alloc, registry, notes, fields)?;
            interface_of(alloc, notes, name, NO_NAMES, all)
        }
        DeclaredType::SubInterface(name, interfaces, fields) => {
            let all = with_typename(alloc, registry, notes, fields)?;
            interface_of(alloc, notes, name, interfaces, all)
        }
        DeclaredType::Union(name, members) => union_of(alloc, notes, name, members),
        DeclaredType::Enum(name, values) => enum_of(alloc, notes, name, values),
        DeclaredType::InputObject(name, inputs) => input_object_of(alloc, notes, name, inputs),
        DeclaredType::Noted(inner, _) => declaration_of(alloc, registry, notes, inner),
    }
}

/// No names.
const NO_NAMES: &[&str] = &[];

/// A scalar.
fn scalar_of<S: ScalarValue>(
    alloc: Global,
    notes: &[Note],
    name: &str,
    kinds: ScalarKinds,
    url: &Option<&str>,
) -> Result<MetaType<S>, AllocError>
    ensures { IfOk result (λ m. view_meta S.shown m
        ≡ noted_meta notes.now name.now (scalar_type (view_kinds kinds) (option_map (λ u. u.now) url.now))) }
{
    let specified_by_url = match url {
        None => None,
        Some(url) => Some(String::from_str(alloc, url)?),
    };
    let scalar = ScalarMeta {
        name: String::from_str(alloc, name)?,
        description: described(alloc, notes, &Subject::Type)?,
        specified_by_url,
        kinds,
    };
    Ok(scalar.into_meta())
}

/// An object.
fn object_of<S: ScalarValue>(
    alloc: Global,
    notes: &[Note],
    name: &str,
    interfaces: &[&str],
    fields: Vec<Field<S>>,
) -> Result<MetaType<S>, AllocError>
    ensures { IfOk result (λ m. view_meta S.shown m
        ≡ noted_meta notes.now name.now (object_type (map (view_field S.shown) fields.items) (names interfaces.now))) }
{
    let object = ObjectMeta {
        name: String::from_str(alloc, name)?,
        description: described(alloc, notes, &Subject::Type)?,
        fields,
        interface_names: names_of(alloc, interfaces)?,
    };
    Ok(object.into_meta())
}

/// An interface.
fn interface_of<S: ScalarValue>(
    alloc: Global,
    notes: &[Note],
    name: &str,
    interfaces: &[&str],
    fields: Vec<Field<S>>,
) -> Result<MetaType<S>, AllocError>
    ensures { IfOk result (λ m. view_meta S.shown m
        ≡ noted_meta notes.now name.now (interface_type (map (view_field S.shown) fields.items) (names interfaces.now))) }
{
    let interface = InterfaceMeta {
        name: String::from_str(alloc, name)?,
        description: described(alloc, notes, &Subject::Type)?,
        fields,
        interface_names: names_of(alloc, interfaces)?,
    };
    Ok(interface.into_meta())
}

/// A union.
fn union_of<S: ScalarValue>(
    alloc: Global,
    notes: &[Note],
    name: &str,
    members: &[&str],
) -> Result<MetaType<S>, AllocError>
    ensures { IfOk result (λ m. view_meta S.shown m ≡ noted_meta notes.now name.now (union_type (names members.now))) }
{
    let union = UnionMeta {
        name: String::from_str(alloc, name)?,
        description: described(alloc, notes, &Subject::Type)?,
        of_type_names: names_of(alloc, members)?,
    };
    Ok(union.into_meta())
}

/// An enum.
fn enum_of<S: ScalarValue>(
    alloc: Global,
    notes: &[Note],
    name: &str,
    values: &[&str],
) -> Result<MetaType<S>, AllocError>
    ensures { IfOk result (λ m. view_meta S.shown m
        ≡ noted_meta notes.now name.now (enum_type (map (value_of notes.now) (names values.now)))) }
{
    let declared = EnumMeta {
        name: String::from_str(alloc, name)?,
        description: described(alloc, notes, &Subject::Type)?,
        values: values_of(alloc, notes, values)?,
    };
    Ok(declared.into_meta())
}

/// An input object.
fn input_object_of<S: ScalarValue>(
    alloc: Global,
    notes: &[Note],
    name: &str,
    inputs: &[DeclaredInput],
) -> Result<MetaType<S>, AllocError>
    ensures { IfOk result (λ m. view_meta S.shown m
        ≡ noted_meta notes.now name.now (input_object_type (map (input_field_of notes.now) inputs.now))) }
{
    let input_object = InputObjectMeta {
        name: String::from_str(alloc, name)?,
        description: described(alloc, notes, &Subject::Type)?,
        input_fields: inputs_of(alloc, notes, inputs)?,
    };
    Ok(input_object.into_meta())
}

/// The fields, and behind them `__typename: String!` (4.1).
fn with_typename<S: ScalarValue>(
    alloc: Global,
    registry: &mut Registry<S>,
    notes: &[Note],
    fields: &[DeclaredField],
) -> Result<Vec<Field<S>>, AllocError>
    ensures { IfOk result (λ made. map (view_field S.shown) made.items ≡ with_typename notes.now fields.now) }
{
    let mut made = fields_of(alloc, notes, fields)?;
    made.push(registry.field::<String>("__typename", &())?)?;
    Ok(made)
}
