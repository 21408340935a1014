//! The built-in scalars of a schema that is made (section 3.5 of the Specification).

ghost use Rattle.std.specs.Prelude.{◌≡◌, ◌&&◌, IfOk, OnOk, Some, cond};
ghost use Rattle.graphql_spec.specs.Shown.{Name};
ghost use Rattle.std.specs.Str.{bytes_eq};
ghost use Rattle.graphql_spec.specs.Fields.{entry_in};
ghost use Rattle.juniper_meta.specs.MetaView.{entry_at, view_meta};
ghost use Rattle.juniper_schema.specs.SchemaView.{AreCompleted, awaits, lacks, view_entries};

use crate::names::{Types, entry};
use juniper_meta::{MetaType, boolean_scalar, id_scalar, int_scalar, string_scalar};
use juniper_syntax::ScalarValue;
use std::alloc::{AllocError, Global};

/// The types, with `String` and `Boolean` where they are absent or placeholders, and with `Int` and `ID` where they are
/// placeholders.
pub fn with_built_ins<S: ScalarValue>(
    alloc: Global,
    types: Types<S>,
) -> Result<Types<S>, AllocError>
    ensures { IfOk result (λ made. AreCompleted (view_entries S.shown types) (view_entries S.shown made)) }
{
    let mut types = types;
    let is_wanted = lacks(&types, "String");
    put_if(
        alloc,
        &mut types,
        "String",
        string_scalar(alloc)?,
        is_wanted,
    )?;
    let is_wanted = lacks(&types, "Boolean");
    put_if(
        alloc,
        &mut types,
        "Boolean",
        boolean_scalar(alloc)?,
        is_wanted,
    )?;
    let is_wanted = awaits(&types, "Int");
    put_if(alloc, &mut types, "Int", int_scalar(alloc)?, is_wanted)?;
    let is_wanted = awaits(&types, "ID");
    put_if(alloc, &mut types, "ID", id_scalar(alloc)?, is_wanted)?;
    // No two types have one name.
    let _count = types.len();
    Ok(types)
}

/// Whether nothing is declared at this name: nothing stands there, or a placeholder.
fn lacks<S: ScalarValue>(types: &Types<S>, name: &str) -> bool
    ensures { result ≡ lacks (entry_in (view_entries S.shown types.now) name.now) }
{
    match entry(types, name) {
        Some(meta) => meta.is_placeholder(),
        None => true,
    }
}

/// Whether a placeholder stands at this name.
fn awaits<S: ScalarValue>(types: &Types<S>, name: &str) -> bool
    ensures { result ≡ awaits (entry_in (view_entries S.shown types.now) name.now) }
{
    match entry(types, name) {
        Some(meta) => meta.is_placeholder(),
        None => false,
    }
}

/// Puts the declaration at this name, where it is wanted.
fn put_if<S: ScalarValue>(
    alloc: Global,
    types: &mut Types<S>,
    name: &str,
    meta: MetaType<S>,
    is_wanted: bool,
) -> Result<(), AllocError>
    ensures { OnOk result ((n : Name) → entry_in (view_entries S.shown types.new) n
        ≡ cond (bytes_eq n name.now && is_wanted) (Some (entry_at name.now (view_meta S.shown meta))) (entry_in (view_entries S.shown types.old) n)) }
{
    if is_wanted {
        put(alloc, types, name, meta)?;
    }
    Ok(())
}

/// Puts the declaration at this name.
fn put<S: ScalarValue>(
    alloc: Global,
    types: &mut Types<S>,
    name: &str,
    meta: MetaType<S>,
) -> Result<(), AllocError>
    ensures { OnOk result ((n : Name) → entry_in (view_entries S.shown types.new) n
        ≡ cond (bytes_eq n name.now) (Some (entry_at name.now (view_meta S.shown meta))) (entry_in (view_entries S.shown types.old) n)) }
{
    let key = String::from_str(alloc, name)?;
    discard(types.insert(key, meta)?);
    Ok(())
}

/// Lets a declaration go.
fn discard<S: ScalarValue>(_old: Option<MetaType<S>>) {}
