//! The entries of a schema, as far as its names tell them.

ghost use Rattle.std.specs.Prelude.{◌≡◌, ◌++◌, IfOk, OnOk, codes, map};
ghost use Rattle.juniper_schema.specs.Searching.{IsApart, entries_at, entries_of, view_named};
ghost use Rattle.juniper_schema.specs.SchemaView.{view_schema};

use crate::executable::is_reserved;
use crate::schema::SchemaType;
use juniper_meta::MetaType;
use juniper_syntax::ScalarValue;
use std::alloc::{AllocError, Global};

/// A declaration, and the name that it stands at.
#[derive(Drop)]
pub struct NamedType<'s, S> {
    pub name: &'s str,
    pub meta: &'s MetaType<S>,
}

/// The entries of these names, and of the two that a schema does not list.
pub fn entries<'s, S: ScalarValue>(
    alloc: Global,
    schema: &'s SchemaType<S>,
    names: &Vec<&'s str>,
) -> Result<Vec<NamedType<'s, S>>, AllocError>
    requires { IsApart (view_schema S.shown schema.now) }
    ensures { IfOk result (λ made. map (view_named S.shown) made.items ≡ (entries_of (view_schema S.shown schema.now) (map (λ n. n.now) names.now.items)
        ++ entries_at (view_schema S.shown schema.now) (codes "_EmptyMutation")) ++ entries_at (view_schema S.shown schema.now) (codes "_EmptySubscription")) }
{
    let mut entries = Vec::with_capacity(alloc, names.len())?;
    for name in names {
        push_entry(&mut entries, schema, *name)?;
    }
    push_entry(&mut entries, schema, "_EmptyMutation")?;
    push_entry(&mut entries, schema, "_EmptySubscription")?;
    Ok(entries)
}

/// Puts the entry of this name last, where there is one.
fn push_entry<'s, S: ScalarValue>(
    entries: &mut Vec<NamedType<'s, S>>,
    schema: &'s SchemaType<S>,
    name: &'s str,
) -> Result<(), AllocError>
    requires { IsApart (view_schema S.shown schema.now) }
    ensures { OnOk result (map (view_named S.shown) entries.new.items
        ≡ map (view_named S.shown) entries.old.items ++ entries_at (view_schema S.shown schema.now) name.now) }
{
    if is_reserved(name) {
        return Ok(());
    }
    match schema.concrete_type_by_name(name) {
        Some(meta) => entries.push(NamedType { name, meta })?,
        None => {}
    }
    Ok(())
}
