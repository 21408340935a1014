//! Reserved names that a schema lists.

ghost use Rattle.std.specs.List.{list_any};
ghost use Rattle.std.specs.Prelude.{◌≡◌, map, option_map};
ghost use Rattle.std.specs.Str.{bytes_eq};
ghost use Rattle.graphql_spec.specs.BuiltIns.{introspection_types};
ghost use Rattle.juniper_schema.specs.Searching.{first_taken, introspection_names, is_taken, times, times_listed};

use crate::executable::is_reserved;

/// The first reserved name that is listed more often than introspection has it.
pub fn first_taken<'s>(names: &Vec<&'s str>) -> Option<&'s str>
    ensures { option_map (λ n. n.now) result ≡ first_taken (map (λ n. n.now) names.now.items) (map (λ n. n.now) names.now.items) }
{
    for name in names {
        if is_taken(names, *name) {
            return Some(*name);
        }
    }
    None
}

/// Whether the name is reserved, and listed more often than introspection has it.
fn is_taken(names: &Vec<&str>, name: &str) -> bool
    ensures { result ≡ is_taken (map (λ n. n.now) names.now.items) name.now }
{
    is_reserved(name) && count(names, name) != introspection_count(name)
}

/// How often the name is listed.
fn count(names: &Vec<&str>, name: &str) -> usize
    ensures { result ≡ times_listed name.now (map (λ n. n.now) names.now.items) }
{
    let mut found = 0;
    for own in names {
        if name == *own {
            found += 1;
        }
    }
    found
}

/// How often introspection has the name (4.2): once or not at all.
#[tactic(auto, using(crate::proofs::BuiltNames::times_once))]
fn introspection_count(name: &str) -> usize
    ensures { result ≡ times name.now introspection_types }
{
    if is_introspection_name(name) { 1 } else { 0 }
}

/// Whether it is the name of a type of introspection (4.2).
#[tactic(auto, unfolding(crate::specs::Searching::introspection_names))]
fn is_introspection_name(name: &str) -> bool
    ensures { result ≡ list_any (bytes_eq name.now) introspection_names }
{
    name == "__Schema"
        || name == "__Type"
        || name == "__Field"
        || name == "__InputValue"
        || name == "__EnumValue"
        || name == "__Directive"
        || name == "__TypeKind"
        || name == "__DirectiveLocation"
}
