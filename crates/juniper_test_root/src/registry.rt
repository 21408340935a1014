//! The registry of what a text declares.

ghost use Rattle.std.specs.Prelude.{◌≡◌, IfSome};
ghost use Rattle.std.specs.List.{list_all};
ghost use Rattle.juniper_meta.specs.MetaView.{entry_at, view_meta};
ghost use Rattle.juniper_registry.specs.Entries.{table, type_entries};
ghost use Rattle.juniper_registry.specs.RegistryView.{view_registry};
ghost use Rattle.juniper_test_root.specs.OwnNames.{entry_is_own};

use juniper_meta::MetaType;
use juniper_syntax::ScalarValue;
use juniper_types::Registry;
use std::alloc::Global;
use std::collections::HashMap;

/// The registry of these types; `None` where a declaration stands at another name than its own.
pub(crate) fn registry_of<S: ScalarValue>(
    alloc: Global,
    types: HashMap<String, MetaType<S>>,
) -> Option<Registry<S>>
    ensures { IfSome result (λ registry. view_registry S.shown registry ≡ table S.shown types) }
{
    if are_own(&types) {
        Some(Registry::new(alloc, types))
    } else {
        None
    }
}

/// Whether each declaration stands at its own name.
fn are_own<S: ScalarValue>(types: &HashMap<String, MetaType<S>>) -> bool
    ensures { result ≡ list_all entry_is_own (type_entries S.shown types.now) }
{
    for (key, meta) in types {
        if !is_own(key.as_str(), meta) {
            return false;
        }
    }
    true
}

/// Whether it is a placeholder, or has this name.
#[tactic(auto, unfolding(crate::specs::OwnNames::entry_is_own))]
fn is_own<S: ScalarValue>(key: &str, meta: &MetaType<S>) -> bool
    ensures { result ≡ entry_is_own (entry_at key.now (view_meta S.shown meta.now)) }
{
    if meta.is_placeholder() {
        return true;
    }
    match meta.name() {
        Some(name) => name == key,
        None => false,
    }
}
