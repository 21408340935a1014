//! The types of introspection (section 4.2 of the Specification).

ghost use Rattle.std.specs.Prelude.{◌≡◌, IfOk, map};
ghost use Rattle.graphql_spec.specs.BuiltIns.{object_entry, enum_entry, value_named, introspection_types};
ghost use Rattle.juniper_meta.specs.Rows.{row_field, row_type};
ghost use Rattle.juniper_meta.specs.MetaView.{view_enum_value, own_entry};

use crate::fields::FieldRow::{Maybe, MaybeAll, MaybeDeprecated, Must, MustAll, OldFlag};
use crate::fields::{FieldRow, fields_of};
use crate::{EnumMeta, EnumValue, MetaType, ObjectMeta};
use juniper_syntax::ScalarValue;
use std::alloc::{AllocError, Global};

/// A type of introspection as a row of a table, without description.
#[derive(Clone, Copy)]
enum TypeRow<'a> {
    /// An object of this name and these fields, without interfaces.
    Object(&'a str, &'a [FieldRow<'a>]),
    /// An enum of this name and the values of these names.
    Enum(&'a str, &'a [&'a str]),
}

/// `__Schema` (4.2.1).
const SCHEMA: TypeRow<'static> = TypeRow::Object(
    "__Schema",
    &[
        Maybe("description", "String"),
        MustAll("types", "__Type"),
        Must("queryType", "__Type"),
        Maybe("mutationType", "__Type"),
        Maybe("subscriptionType", "__Type"),
        MustAll("directives", "__Directive"),
    ],
);

/// `__Type` (4.2.2); `specifiedByUrl` is an older name of `specifiedByURL`.
const TYPE: TypeRow<'static> = TypeRow::Object(
    "__Type",
    &[
        Must("kind", "__TypeKind"),
        Maybe("name", "String"),
        Maybe("description", "String"),
        Maybe("specifiedByURL", "String"),
        Maybe("specifiedByUrl", "String"),
        MaybeDeprecated("fields", "__Field"),
        MaybeAll("interfaces", "__Type"),
        MaybeAll("possibleTypes", "__Type"),
        MaybeDeprecated("enumValues", "__EnumValue"),
        MaybeAll("inputFields", "__InputValue"),
        Maybe("ofType", "__Type"),
    ],
);

/// `__Field` (4.2.3).
const FIELD: TypeRow<'static> = TypeRow::Object(
    "__Field",
    &[
        Must("name", "String"),
        Maybe("description", "String"),
        MustAll("args", "__InputValue"),
        Must("type", "__Type"),
        Must("isDeprecated", "Boolean"),
        Maybe("deprecationReason", "String"),
    ],
);

/// `__InputValue` (4.2.4).
const INPUT_VALUE: TypeRow<'static> = TypeRow::Object(
    "__InputValue",
    &[
        Must("name", "String"),
        Maybe("description", "String"),
        Must("type", "__Type"),
        Maybe("defaultValue", "String"),
    ],
);

/// `__EnumValue` (4.2.5).
const ENUM_VALUE: TypeRow<'static> = TypeRow::Object(
    "__EnumValue",
    &[
        Must("name", "String"),
        Maybe("description", "String"),
        Must("isDeprecated", "Boolean"),
        Maybe("deprecationReason", "String"),
    ],
);

/// `__Directive` (4.2.6).
const DIRECTIVE: TypeRow<'static> = TypeRow::Object(
    "__Directive",
    &[
        Must("name", "String"),
        Maybe("description", "String"),
        MustAll("locations", "__DirectiveLocation"),
        MustAll("args", "__InputValue"),
        Must("isRepeatable", "Boolean"),
        OldFlag("onOperation"),
        OldFlag("onFragment"),
        OldFlag("onField"),
    ],
);

/// `__TypeKind` (4.2.2).
const TYPE_KIND: TypeRow<'static> = TypeRow::Enum(
    "__TypeKind",
    &[
        "SCALAR",
        "OBJECT",
        "INTERFACE",
        "UNION",
        "ENUM",
        "INPUT_OBJECT",
        "LIST",
        "NON_NULL",
    ],
);

/// `__DirectiveLocation` (4.2.6).
const DIRECTIVE_LOCATION: TypeRow<'static> = TypeRow::Enum(
    "__DirectiveLocation",
    &[
        "QUERY",
        "MUTATION",
        "SUBSCRIPTION",
        "FIELD",
        "FRAGMENT_DEFINITION",
        "FRAGMENT_SPREAD",
        "INLINE_FRAGMENT",
        "VARIABLE_DEFINITION",
        "SCHEMA",
        "SCALAR",
        "OBJECT",
        "FIELD_DEFINITION",
        "ARGUMENT_DEFINITION",
        "INTERFACE",
        "UNION",
        "ENUM",
        "ENUM_VALUE",
        "INPUT_OBJECT",
        "INPUT_FIELD_DEFINITION",
    ],
);

/// The eight types of introspection (4.2); an error where memory is refused.
#[tactic(auto, unfolding(graphql_spec::specs::BuiltIns::introspection_types, graphql_spec::specs::BuiltIns::schema_type, graphql_spec::specs::BuiltIns::type_type, graphql_spec::specs::BuiltIns::field_type, graphql_spec::specs::BuiltIns::input_value_type, graphql_spec::specs::BuiltIns::enum_value_type, graphql_spec::specs::BuiltIns::directive_type, graphql_spec::specs::BuiltIns::type_kind_type, graphql_spec::specs::BuiltIns::location_type))]
pub fn introspection_types<S: ScalarValue>(alloc: Global) -> Result<Vec<MetaType<S>>, AllocError>
    ensures { IfOk result (λ made. map (own_entry S.shown) made.items ≡ introspection_types) }
{
    let rows = [
        SCHEMA,
        TYPE,
        FIELD,
        INPUT_VALUE,
        ENUM_VALUE,
        DIRECTIVE,
        TYPE_KIND,
        DIRECTIVE_LOCATION,
    ];
    types_of(alloc, &rows)
}

/// The types that the rows say, in order.
fn types_of<S: ScalarValue>(alloc: Global, rows: &[TypeRow]) -> Result<Vec<MetaType<S>>, AllocError>
    ensures { IfOk result (λ made. map (own_entry S.shown) made.items ≡ map row_type rows.now) }
{
    let mut types = Vec::new(alloc);
    for row in rows {
        types.push(type_of(alloc, row)?)?;
    }
    Ok(types)
}

/// The type that the row says.
fn type_of<S: ScalarValue>(alloc: Global, row: &TypeRow) -> Result<MetaType<S>, AllocError>
    ensures { IfOk result (λ m. own_entry S.shown m ≡ row_type row.now) }
{
    match *row {
        TypeRow::Object(name, fields) => object_of(alloc, name, fields),
        TypeRow::Enum(name, values) => enum_of(alloc, name, values),
    }
}

/// An object of the fields that the rows say, without interfaces and description.
#[tactic(auto, unfolding(graphql_spec::specs::BuiltIns::object_entry))]
fn object_of<S: ScalarValue>(
    alloc: Global,
    name: &str,
    rows: &[FieldRow],
) -> Result<MetaType<S>, AllocError>
    ensures { IfOk result (λ m. own_entry S.shown m ≡ object_entry name.now (map row_field rows.now)) }
{
    let name = String::from_str(alloc, name)?;
    Ok(ObjectMeta::new(alloc, name, fields_of(alloc, rows)?).into_meta())
}

/// An enum of values of these names, without descriptions.
#[tactic(auto, unfolding(graphql_spec::specs::BuiltIns::enum_entry))]
fn enum_of<S: ScalarValue>(
    alloc: Global,
    name: &str,
    names: &[&str],
) -> Result<MetaType<S>, AllocError>
    ensures { IfOk result (λ m. own_entry S.shown m ≡ enum_entry name.now (map (λ n. n.now) names.now)) }
{
    let name = String::from_str(alloc, name)?;
    Ok(EnumMeta::new(name, values_named(alloc, names)?).into_meta())
}

/// Values of these names, without descriptions.
fn values_named(alloc: Global, names: &[&str]) -> Result<Vec<EnumValue>, AllocError>
    ensures { IfOk result (λ made. map view_enum_value made.items ≡ map value_named (map (λ n. n.now) names.now)) }
{
    let mut values = Vec::new(alloc);
    for name in names {
        values.push(EnumValue::new(String::from_str(alloc, name)?))?;
    }
    Ok(values)
}
