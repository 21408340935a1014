//! Types by name.

ghost use Rattle.std.specs.Prelude.{◌≡◌, OnErr, OnOk, is_some, string_bytes};
ghost use Rattle.graphql_spec.specs.Shown.{Name};
ghost use Rattle.juniper_meta.specs.MetaView.{view_meta};
ghost use Rattle.juniper_registry.specs.Entries.{declaring, is_declared, table};

use juniper_meta::MetaType;
use juniper_syntax::ScalarValue;
use std::alloc::AllocError;
use std::collections::HashMap;

/// Types by name.
pub type Types<S> = HashMap<String, MetaType<S>>;

/// Whether a declaration or a placeholder stands at this name.
pub fn stands<S: ScalarValue>(types: &Types<S>, name: &str) -> bool
    ensures { result ≡ is_some (table S.shown types.now name.now) }
{
    types.contains_key(name)
}

/// Whether a declaration stands at this name.
pub fn declares<S: ScalarValue>(types: &Types<S>, name: &str) -> bool
    ensures { result ≡ is_declared (table S.shown types.now name.now) }
{
    match types.get(name) {
        Some(meta) => !meta.is_placeholder(),
        None => false,
    }
}

/// Puts this at the name, in place of what stood there. Where memory is refused nothing changes.
pub fn put<S: ScalarValue>(
    types: &mut Types<S>,
    name: String,
    meta: MetaType<S>,
) -> Result<(), AllocError>
    ensures put { OnOk result ((n : Name) → table S.shown types.new n ≡ declaring (string_bytes name) (view_meta S.shown meta) (table S.shown types.old) n) }
    ensures kept { OnErr result ((n : Name) → table S.shown types.new n ≡ table S.shown types.old n) }
{
    discard(types.insert(name, meta)?);
    Ok(())
}

/// Lets a declaration go.
fn discard<S: ScalarValue>(_old: Option<MetaType<S>>) {}
