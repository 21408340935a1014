//! KnownDirectives: each directive is one that every schema has (section 5.7.1 of the Specification).

ghost use Rattle.std.specs.Prelude.{◌≡◌, not};
ghost use Rattle.std.specs.List.{list_any};
ghost use Rattle.std.specs.Option.{is_none, is_some};
ghost use Rattle.graphql_spec.specs.Placed.{directive_named};
ghost use Rattle.juniper_written.specs.WrittenView.{view_written};

use crate::Written;
use juniper_syntax::ScalarValue;

/// Whether one of the directives that are written is unknown.
pub fn has_unknown_directive<S: ScalarValue>(written: &Written<'_, '_, S>) -> bool
    ensures { result ≡ list_any (λ d. is_none (directive_named d.name.item)) (view_written S.shown written.now).directives }
{
    for index in 0..written.directives.len() {
        let directive = written.directives[index];
        let name = directive.item.name.item;
        if !is_known(name) {
            return true;
        }
    }
    false
}

/// Whether there is a directive of the name.
fn is_known(name: &str) -> bool
    ensures { result ≡ is_some (directive_named name.now) }
{
    if name == "deprecated" {
        return true;
    }
    if name == "include" {
        return true;
    }
    if name == "skip" {
        return true;
    }
    name == "specifiedBy"
}
