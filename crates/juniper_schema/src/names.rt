//! Looking names up in lists.

ghost use Rattle.std.specs.List.{list_any};
ghost use Rattle.std.specs.Prelude.{◌≡◌, MatchOption, None, map, option_map, string_bytes};
ghost use Rattle.std.specs.Str.{bytes_eq};
ghost use Rattle.graphql_spec.specs.Fields as fields;
ghost use Rattle.graphql_spec.specs.Fields.{entry_in};
ghost use Rattle.juniper_meta.specs.MetaView.{own_entry};
ghost use Rattle.juniper_meta.specs.MetaView.{shape_of, view_meta};
ghost use Rattle.juniper_schema.specs.SchemaView.{meta_of, view_entries};

use juniper_meta::MetaType;
use juniper_syntax::ScalarValue;
use std::collections::HashMap;

/// Types by name.
pub type Types<S> = HashMap<String, MetaType<S>>;

/// What is declared at this name.
pub fn entry<'t, S: ScalarValue>(types: &'t Types<S>, name: &str) -> Option<&'t MetaType<S>>
    ensures meta { option_map (λ m. view_meta S.shown m.now) result ≡ option_map meta_of (entry_in (view_entries S.shown types.now) name.now) }
    ensures shape { MatchOption result (fields.shape_of (entry_in (view_entries S.shown types.now) name.now) ≡ None)
        (λ m. fields.shape_of (entry_in (view_entries S.shown types.now) name.now) ≡ shape_of S.shown m.now) }
{
    types.get(name)
}

/// Whether the name is one of these.
pub fn contains(names: &[String], name: &str) -> bool
    ensures { result ≡ list_any (bytes_eq name.now) (map (λ n. string_bytes n) names.now) }
{
    for own in names {
        if name == own.as_str() {
            return true;
        }
    }
    false
}

/// The first declaration of this name.
#[tactic(auto, unfolding(graphql_spec::specs::Fields::entry_in))]
pub fn find_meta<'a, S: ScalarValue>(
    metas: &'a [MetaType<S>],
    name: &str,
) -> Option<&'a MetaType<S>>
    ensures { option_map (λ m. view_meta S.shown m.now) result ≡ option_map meta_of (entry_in (map (own_entry S.shown) metas.now) name.now) }
{
    for meta in metas {
        if is_named(meta, name) {
            return Some(meta);
        }
    }
    None
}

/// Whether the declaration stands at this name.
fn is_named<S: ScalarValue>(meta: &MetaType<S>, name: &str) -> bool
    ensures { result ≡ bytes_eq name.now (own_entry S.shown meta.now).key }
{
    match meta.name() {
        Some(own) => name == own,
        None => name.is_empty(),
    }
}
