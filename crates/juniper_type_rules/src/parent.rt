//! The types that selections stand on (section 5.3.1 of the Specification).

ghost use Rattle.std.specs.Prelude.{◌≡◌, option_map};
ghost use Rattle.graphql_spec.specs.Fields as fields;
ghost use Rattle.juniper_meta.specs.MetaView.{view_field};
ghost use Rattle.juniper_schema.specs.SchemaView.{view_schema};
ghost use Rattle.juniper_type_rules.specs.Parents.{IsParent};

use juniper_schema::{SchemaType, meta};
use juniper_syntax::ScalarValue;

/// A type that selections stand on, looked up once for all of them.
#[derive(Drop)]
pub(crate) struct Parent<'d, S: ScalarValue> {
    /// Its name.
    pub name: &'d str,
    /// What is declared at this name, if anything is.
    pub meta: Option<&'d meta::MetaType<S>>,
}

/// The type of a name.
pub(crate) fn parent_of<'d, S: ScalarValue>(
    schema: &'d SchemaType<S>,
    name: &'d str,
) -> Parent<'d, S>
    ensures named { result.name.now ≡ name.now }
    ensures found { IsParent S.shown (view_schema S.shown schema.now) result }
{
    Parent {
        name,
        meta: schema.concrete_type_by_name(name),
    }
}

/// The field of the type.
pub(crate) fn field_on<'d, S: ScalarValue>(
    schema: &'d SchemaType<S>,
    parent: &Parent<'d, S>,
    name: &str,
) -> Option<&'d meta::Field<S>>
    ensures { IsParent S.shown (view_schema S.shown schema.now) parent.now →
        option_map (λ f. view_field S.shown f.now) result ≡ fields.field_of (view_schema S.shown schema.now) parent.now.name.now name.now }
{
    match parent.meta {
        Some(meta) => schema.field_of_type(parent.name, meta, name),
        None => None,
    }
}
