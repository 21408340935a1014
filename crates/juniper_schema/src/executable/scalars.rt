//! The built-in scalars (section 3.5 of the Specification).

ghost use Rattle.std.specs.Prelude.{◌≡◌};
ghost use Rattle.graphql_spec.specs.Executable as spec;
ghost use Rattle.graphql_spec.specs.Fields.{entry_named};
ghost use Rattle.graphql_spec.specs.Shown.{same_bool};
ghost use Rattle.juniper_meta.specs.MetaView.{shape_of};
ghost use Rattle.juniper_schema.specs.SchemaView.{view_schema};

use crate::schema::SchemaType;
use juniper_meta::{MetaType, ScalarKinds};
use juniper_syntax::ScalarValue;

/// Ints alone (3.5.1).
pub const INTS: ScalarKinds = ScalarKinds {
    int: true,
    text: false,
    boolean: false,
};

/// Texts alone (3.5.3).
pub const TEXTS: ScalarKinds = ScalarKinds {
    int: false,
    text: true,
    boolean: false,
};

/// Booleans alone (3.5.4).
pub const BOOLEANS: ScalarKinds = ScalarKinds {
    int: false,
    text: false,
    boolean: true,
};

/// Ints and texts (3.5.5).
pub const KEYS: ScalarKinds = ScalarKinds {
    int: true,
    text: true,
    boolean: false,
};

/// Whether `String` and `Boolean` are there, and each built-in scalar that is there accepts just its own kinds (3.5).
#[tactic(auto, unfolding(graphql_spec::specs::Executable::built_ins_are_right))]
pub fn built_ins_are_right<S: ScalarValue>(schema: &SchemaType<S>) -> bool
    ensures { result ≡ spec.built_ins_are_right (view_schema S.shown schema.now) }
{
    accepts_just(schema, "String", TEXTS)
        && accepts_just(schema, "Boolean", BOOLEANS)
        && scalar_if_there(schema, "Int", INTS)
        && scalar_if_there(schema, "ID", KEYS)
}

/// Whether the entry of this name is a scalar that accepts just these kinds.
#[tactic(auto, unfolding(graphql_spec::specs::Executable::accepts_just))]
pub fn accepts_just<S: ScalarValue>(schema: &SchemaType<S>, name: &str, kinds: ScalarKinds) -> bool
    ensures { result ≡ spec.accepts_just kinds.int kinds.text kinds.boolean (entry_named (view_schema S.shown schema.now) name.now) }
{
    match schema.entry(name) {
        Some(meta) => accepts(meta, kinds),
        None => false,
    }
}

/// Whether the entry of this name, where there is one, is a scalar that accepts just these kinds.
#[tactic(auto, unfolding(graphql_spec::specs::Executable::scalar_if_there))]
pub fn scalar_if_there<S: ScalarValue>(
    schema: &SchemaType<S>,
    name: &str,
    kinds: ScalarKinds,
) -> bool
    ensures { result ≡ spec.scalar_if_there kinds.int kinds.text kinds.boolean (entry_named (view_schema S.shown schema.now) name.now) }
{
    match schema.entry(name) {
        Some(meta) => accepts(meta, kinds),
        None => true,
    }
}

/// Whether it is a scalar that accepts just these kinds.
#[tactic(auto, unfolding(graphql_spec::specs::Executable::accepts_just, juniper_meta::specs::MetaView::view_meta))]
fn accepts<S: ScalarValue>(meta: &MetaType<S>, kinds: ScalarKinds) -> bool
    ensures { result ≡ spec.accepts_just kinds.int kinds.text kinds.boolean (shape_of S.shown meta.now) }
{
    match meta {
        MetaType::Scalar(scalar) => is_same(kinds.int, scalar.kinds.int)
            && is_same(kinds.text, scalar.kinds.text)
            && is_same(kinds.boolean, scalar.kinds.boolean),
        MetaType::List(_)
        | MetaType::Nullable(_)
        | MetaType::Object(_)
        | MetaType::Enum(_)
        | MetaType::Interface(_)
        | MetaType::Union(_)
        | MetaType::InputObject(_)
        | MetaType::Placeholder(_) => false,
    }
}

/// Whether the two tests are equal.
#[tactic(auto, unfolding(graphql_spec::specs::Shown::same_bool))]
fn is_same(wanted: bool, found: bool) -> bool
    ensures { result ≡ same_bool wanted found }
{
    if wanted { found } else { !found }
}
