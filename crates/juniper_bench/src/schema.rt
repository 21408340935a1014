//! Schemas to be measured.

ghost use Rattle.std.specs.Prelude.{◌≡◌, IfOk, None, codes};
ghost use Rattle.juniper_schema.specs.SchemaView.{view_schema};
ghost use Rattle.juniper_syntax.specs.Scalars.{default_shown};

use juniper_language::{DefaultScalarValue, InputValue, Type};
use juniper_meta::meta::Field;
use juniper_meta::{Argument, InterfaceMeta, MetaType, ObjectMeta, id_scalar, int_scalar};
use juniper_schema::SchemaType;
use std::alloc::{AllocError, Global};
use std::collections::HashMap;

/// Types by their names.
type Types = HashMap<String, MetaType<DefaultScalarValue>>;

/// A schema of so many object types beside its query type and an interface, which all of them implement. Each has a field of
/// another one's type, and one of a list of another's with an argument and its default. No clause says that requests can be
/// executed on it: the program's run asks what is made.
pub fn made_schema(
    alloc: Global,
    count: usize,
) -> Result<SchemaType<DefaultScalarValue>, AllocError>
    ensures query { IfOk result (λ s. (view_schema default_shown s).query ≡ codes "Query") }
    ensures mutation { IfOk result (λ s. (view_schema default_shown s).mutation ≡ None) }
{
    let query = String::from_str(alloc, "Query")?;
    let types = made_types(alloc, count)?;
    SchemaType::new(alloc, types, query, None)
}

/// The types of such a schema.
fn made_types(alloc: Global, count: usize) -> Result<Types, AllocError> {
    let mut types = HashMap::new(alloc);
    put(alloc, &mut types, "Int", int_scalar(alloc)?)?;
    put(alloc, &mut types, "ID", id_scalar(alloc)?)?;
    put(alloc, &mut types, "Node", node_type(alloc)?)?;
    put(alloc, &mut types, "Query", query_type(alloc)?)?;
    for number in 0..count {
        let name = type_name(alloc, number)?;
        put(
            alloc,
            &mut types,
            name.as_str(),
            object_type(alloc, number)?,
        )?;
    }
    Ok(types)
}

/// Puts a type in at its name.
fn put(
    alloc: Global,
    types: &mut Types,
    name: &str,
    meta: MetaType<DefaultScalarValue>,
) -> Result<(), AllocError> {
    let key = String::from_str(alloc, name)?;
    drop(types.insert(key, meta)?);
    Ok(())
}

/// The name of the object type of this number.
fn type_name(alloc: Global, number: usize) -> Result<String, AllocError> {
    format!(in alloc; "T{number}")
}

/// `interface Node { id: ID! }`.
fn node_type(alloc: Global) -> Result<MetaType<DefaultScalarValue>, AllocError> {
    let name = String::from_str(alloc, "Node")?;
    let fields = vec![in alloc; id_field(alloc)?]?;
    Ok(InterfaceMeta::new(alloc, name, fields).into_meta())
}

/// The query type, with a field of the first object type.
fn query_type(alloc: Global) -> Result<MetaType<DefaultScalarValue>, AllocError> {
    let name = String::from_str(alloc, "Query")?;
    let of_type = Type::Named(type_name(alloc, 0)?);
    let fields = vec![in alloc; Field::new(String::from_str(alloc, "first")?, of_type)]?;
    Ok(ObjectMeta::new(alloc, name, fields).into_meta())
}

/// The object type of this number, which implements `Node`: its `id`, a `parent` of the type of half the number, and `others`
/// of a list of the type of a third of it.
fn object_type(alloc: Global, number: usize) -> Result<MetaType<DefaultScalarValue>, AllocError> {
    let name = type_name(alloc, number)?;
    let fields = vec![in alloc;
        id_field(alloc)?,
        parent_field(alloc, number / 2)?,
        others_field(alloc, number / 3)?,
    ]?;
    let interfaces = vec![in alloc; Type::Named(String::from_str(alloc, "Node")?)]?;
    let object = ObjectMeta::new(alloc, name, fields).interfaces(alloc, interfaces.as_slice())?;
    Ok(object.into_meta())
}

/// `id: ID!`.
fn id_field(alloc: Global) -> Result<Field<DefaultScalarValue>, AllocError> {
    let of_type = Type::NonNullNamed(String::from_str(alloc, "ID")?);
    Ok(Field::new(String::from_str(alloc, "id")?, of_type))
}

/// `parent`, of the type of this number.
fn parent_field(alloc: Global, number: usize) -> Result<Field<DefaultScalarValue>, AllocError> {
    let of_type = Type::Named(type_name(alloc, number)?);
    Ok(Field::new(String::from_str(alloc, "parent")?, of_type))
}

/// `others(first: Int = 10)`, of a list of the type of this number.
fn others_field(alloc: Global, number: usize) -> Result<Field<DefaultScalarValue>, AllocError> {
    let item = Type::NonNullNamed(type_name(alloc, number)?);
    let field = Field::new(
        String::from_str(alloc, "others")?,
        item.wrap_list(alloc, None)?.wrap_non_null(),
    );
    let first = Argument::new(
        String::from_str(alloc, "first")?,
        Type::Named(String::from_str(alloc, "Int")?),
    );
    field.argument(
        alloc,
        first.default_value(InputValue::Scalar(DefaultScalarValue::Int(10))),
    )
}
