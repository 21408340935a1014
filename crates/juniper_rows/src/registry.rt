//! The registry of types: what stands at its names, how types are referred to, what is built, and texts.

use crate::kinds::unknown;
use crate::samples::{Character, Episode, Found, Human, Review};
use crate::table::Row;
use juniper_conversions::{ID, Nullable};
use juniper_meta::meta::Field;
use juniper_meta::{ListMeta, MetaType, ScalarKinds};
use juniper_registry::{GraphQLReference, GraphQLType, Registry, RegistryError, TypeKind};
use juniper_syntax::DefaultScalarValue;
use std::alloc::{AllocError, Global};

/// What is told of a case.
pub fn told(alloc: Global, row: &Row) -> Result<String, AllocError> {
    match row.told {
        "references" => reference_of(alloc, row.case),
        "types" => type_of(alloc, row.case),
        "fields" => field_of(alloc, row.case),
        "built" => String::from_str(alloc, built_of(alloc, row.case)),
        "steps" => steps(alloc),
        "registered" => kind_of(alloc, row.case),
        "defaults" => default_of(alloc, row.case),
        "texts" => shown_of(alloc, row.case),
        _ => unknown(alloc),
    }
}

/// An empty registry.
fn empty(alloc: Global) -> Registry<DefaultScalarValue> {
    Registry::empty(alloc)
}

/// The reference to the type of this name.
fn reference_of(alloc: Global, name: &str) -> Result<String, AllocError> {
    match name {
        "Vec<Episode>" => reference::<Vec<Episode>>(alloc),
        "Option<Vec<Option<Episode>>>" => reference::<Option<Vec<Option<Episode>>>>(alloc),
        "[i32; 3]" => reference::<[i32; 3]>(alloc),
        "Box<Option<bool>>" => reference::<Box<Option<bool>>>(alloc),
        "&String" => reference::<&String>(alloc),
        "Nullable<ID>" => reference::<Nullable<ID>>(alloc),
        "Vec<ID>" => reference::<Vec<ID>>(alloc),
        _ => unknown(alloc),
    }
}

/// The reference to a type.
fn reference<T: GraphQLReference<DefaultScalarValue, TypeInfo = ()>>(
    alloc: Global,
) -> Result<String, AllocError> {
    empty(alloc).get_type::<T>(&())?.to_string(alloc)
}

/// The name of the type of this name, the reference to it, and its declaration.
fn type_of(alloc: Global, name: &str) -> Result<String, AllocError> {
    match name {
        "i32" => declared_as::<i32>(alloc),
        "bool" => declared_as::<bool>(alloc),
        "String" => declared_as::<String>(alloc),
        "ID" => declared_as::<ID>(alloc),
        "Option<i32>" => declared_as::<Option<i32>>(alloc),
        "Nullable<i32>" => declared_as::<Nullable<i32>>(alloc),
        "Vec<i32>" => declared_as::<Vec<i32>>(alloc),
        "[i32; 3]" => declared_as::<[i32; 3]>(alloc),
        "Box<i32>" => declared_as::<Box<i32>>(alloc),
        "&i32" => declared_as::<&i32>(alloc),
        _ => type_of_more(alloc, name),
    }
}

/// The same of types that stand in one another.
fn type_of_more(alloc: Global, name: &str) -> Result<String, AllocError> {
    match name {
        "Option<Vec<Option<ID>>>" => declared_as::<Option<Vec<Option<ID>>>>(alloc),
        "Vec<Vec<bool>>" => declared_as::<Vec<Vec<bool>>>(alloc),
        "Vec<Nullable<String>>" => declared_as::<Vec<Nullable<String>>>(alloc),
        "[Option<i32>; 0]" => declared_as::<[Option<i32>; 0]>(alloc),
        "Box<Option<i32>>" => declared_as::<Box<Option<i32>>>(alloc),
        "&Vec<i32>" => declared_as::<&Vec<i32>>(alloc),
        _ => unknown(alloc),
    }
}

/// The name of a type, the reference to it, and its declaration.
fn declared_as<T: GraphQLType<DefaultScalarValue, TypeInfo = ()>>(
    alloc: Global,
) -> Result<String, AllocError> {
    let reference = own_reference::<T>(alloc)?;
    let declaration = declaration::<T>(alloc)?;
    let name = T::name(&()).unwrap_or("no name");
    format!(in alloc; "{name}, {reference}, {declaration}")
}

/// The reference to a type as the type itself says it.
fn own_reference<T: GraphQLReference<DefaultScalarValue, TypeInfo = ()>>(
    alloc: Global,
) -> Result<String, AllocError> {
    T::type_in(alloc, &(), &mut empty(alloc))?.to_string(alloc)
}

/// The declaration of a type.
fn declaration<T: GraphQLType<DefaultScalarValue, TypeInfo = ()>>(
    alloc: Global,
) -> Result<String, AllocError> {
    let meta = T::meta(alloc, &(), &mut empty(alloc))?;
    match &meta {
        MetaType::Scalar(scalar) => {
            let (name, kinds) = (scalar.name.as_str(), kinds_text(scalar.kinds));
            format!(in alloc; "scalar {name} of {kinds}")
        }
        MetaType::Nullable(nullable) => {
            let inside = &nullable.of_type;
            format!(in alloc; "{inside} or null")
        }
        MetaType::List(list) => list_text(alloc, list),
        _ => unknown(alloc),
    }
}

/// A list, with how many items it expects.
fn list_text(alloc: Global, list: &ListMeta) -> Result<String, AllocError> {
    let item = &list.of_type;
    match list.expected_size {
        Some(size) => format!(in alloc; "list of {size} {item}"),
        None => format!(in alloc; "list of {item}"),
    }
}

/// The kinds that a scalar accepts.
fn kinds_text(kinds: ScalarKinds) -> &'static str {
    match (kinds.int, kinds.text, kinds.boolean) {
        (true, false, false) => "ints",
        (false, true, false) => "texts",
        (false, false, true) => "booleans",
        (true, true, false) => "ints and texts",
        _ => "other kinds",
    }
}

/// A field of what is built, as it is written.
fn field_of(alloc: Global, kind: &str) -> Result<String, AllocError> {
    match kind {
        "object" => last_of_object(alloc),
        "interface" => last_of_interface(alloc),
        "converted" => converted(alloc),
        _ => unknown(alloc),
    }
}

/// The last field of an object that is built.
fn last_of_object(alloc: Global) -> Result<String, AllocError> {
    let object = empty(alloc).build_object_type::<Human>(&(), Vec::new(alloc))?;
    written(alloc, object.fields.last())
}

/// The last field of an interface that is built.
fn last_of_interface(alloc: Global) -> Result<String, AllocError> {
    let interface = empty(alloc).build_interface_type::<Human>(&(), Vec::new(alloc))?;
    written(alloc, interface.fields.last())
}

/// The field of a type that differs from what its resolver answers.
fn converted(alloc: Global) -> Result<String, AllocError> {
    let field = empty(alloc).field_convert::<Option<String>, ID, u8>("id", &())?;
    written(alloc, Some(&field))
}

/// A field as it is written.
fn written(alloc: Global, field: Option<&Field<DefaultScalarValue>>) -> Result<String, AllocError> {
    match field {
        Some(field) => {
            let name = field.name.as_str();
            let field_type = &field.field_type;
            format!(in alloc; "{name}: {field_type}")
        }
        None => unknown(alloc),
    }
}

/// Whether a declaration of this kind is built.
fn built_of(alloc: Global, kind: &str) -> &'static str {
    if is_built(empty(alloc), alloc, kind) {
        "built"
    } else {
        "not built"
    }
}

/// Whether a registry builds a declaration of this kind.
fn is_built(registry: Registry<DefaultScalarValue>, alloc: Global, kind: &str) -> bool {
    let mut registry = registry;
    let ints = ScalarKinds {
        int: true,
        text: false,
        boolean: false,
    };
    match kind {
        "scalar" => registry.build_scalar_type::<i32>(&(), ints).is_ok(),
        "list" => registry.build_list_type::<Human>(&(), Some(2)).is_ok(),
        "nullable" => registry.build_nullable_type::<Human>(&()).is_ok(),
        "enum" => registry
            .build_enum_type::<Episode>(&(), Vec::new(alloc))
            .is_ok(),
        "union" => registry.build_union_type::<Human>(&(), &[]).is_ok(),
        "input object" => registry
            .build_input_object_type::<Human>(&(), Vec::new(alloc))
            .is_ok(),
        "argument" => registry.arg::<Option<i32>>("first", &()).is_ok(),
        _ => false,
    }
}

/// What stands at a name.
fn kind_at(registry: &Registry<DefaultScalarValue>, name: &str) -> &'static str {
    match registry.types().get(name) {
        Some(MetaType::Object(_)) => "object",
        Some(MetaType::Enum(_)) => "enum",
        Some(MetaType::Interface(_)) => "interface",
        Some(MetaType::Union(_)) => "union",
        Some(MetaType::InputObject(_)) => "input object",
        Some(MetaType::Placeholder(_)) => "placeholder",
        Some(_) => "another",
        None => "nothing",
    }
}

/// What stands at names while an object is referred to, registered, and registered again.
fn steps(alloc: Global) -> Result<String, AllocError> {
    let mut registry = empty(alloc);
    let before = kind_at(&registry, "Human");
    let referred = referred(&mut registry);
    let registered = registered(&mut registry);
    let awaited = kind_at(&registry, "Episode");
    let again = again(&mut registry);
    let kept = kind_at(&registry, "Human");
    let count = registry.into_types().len();
    format!(in alloc; "{before}, {referred}, {registered}, {awaited}, {again}, {kept}, {count}")
}

/// What stands at the name of an object that is referred to.
fn referred(registry: &mut Registry<DefaultScalarValue>) -> &'static str {
    match registry.get_type::<Human>(&()) {
        Ok(_) => kind_at(registry, "Human"),
        Err(_) => "refused",
    }
}

/// What stands at the name of an object that is registered.
fn registered(registry: &mut Registry<DefaultScalarValue>) -> &'static str {
    match registry.register::<Human>(&()) {
        Ok(_) => kind_at(registry, "Human"),
        Err(_) => "refused",
    }
}

/// What a second registration is.
fn again(registry: &mut Registry<DefaultScalarValue>) -> &'static str {
    match registry.register::<Human>(&()) {
        Err(RegistryError::AlreadyRegistered) => "refused",
        Err(RegistryError::Memory) => "out of memory",
        Ok(_) => "registered",
    }
}

/// What stands at the name of a type once it alone is registered, and how many names there are.
fn kind_of(alloc: Global, name: &str) -> Result<String, AllocError> {
    let mut registry = empty(alloc);
    let registered = match name {
        "Episode" => registry.register::<Episode>(&()),
        "Character" => registry.register::<Character>(&()),
        "Human" => registry.register::<Human>(&()),
        "Found" => registry.register::<Found>(&()),
        _ => registry.register::<Review>(&()),
    };
    if registered.is_err() {
        return String::from_str(alloc, "refused");
    }
    let kind = kind_at(&registry, name);
    let count = registry.into_types().len();
    format!(in alloc; "{kind}, {count}")
}

/// The default value of a field of an input object, as it is written.
fn default_of(alloc: Global, name: &str) -> Result<String, AllocError> {
    let review = Review::meta(alloc, &(), &mut empty(alloc))?;
    match review.input_field_by_name(name) {
        Some(field) => match &field.default_value {
            Some(value) => value.to_string(alloc),
            None => String::from_str(alloc, "none"),
        },
        None => unknown(alloc),
    }
}

/// The text of an error or of a kind, and a default value as it is written.
fn shown_of(alloc: Global, name: &str) -> Result<String, AllocError> {
    match name {
        "AlreadyRegistered" => RegistryError::AlreadyRegistered.to_string(alloc),
        "Memory" => RegistryError::Memory.to_string(alloc),
        "InputObject" => TypeKind::InputObject.to_string(alloc),
        "default value" => default_value(alloc),
        _ => unknown(alloc),
    }
}

/// The default value of an argument as it is written.
fn default_value(alloc: Global) -> Result<String, AllocError> {
    let argument = empty(alloc).arg_with_default::<i32>("first", &7, &())?;
    match &argument.default_value {
        Some(value) => value.to_string(alloc),
        None => unknown(alloc),
    }
}
