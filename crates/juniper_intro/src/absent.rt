//! What stands for declarations that are not there.

ghost use Rattle.std.specs.Prelude.{◌≡◌, []};
ghost use Rattle.graphql_spec.proofs.Sets.{argument-set, directive-set, field-set, value-set};
ghost use Rattle.graphql_spec.specs.BuiltIns.{value_named};
ghost use Rattle.juniper_intro.specs.Handles as spec;
ghost use Rattle.juniper_meta.specs.MetaView.{view_argument, view_directive, view_enum_value, view_field};

use juniper_meta::meta::Field;
use juniper_meta::{Argument, DirectiveType, EnumValue};
use juniper_syntax::{ScalarValue, Type};
use std::alloc::Global;

/// Declarations without a name, one of each kind: what a number out of range means. No node that a root answers has one.
#[derive(Drop)]
pub struct Absent<S: ScalarValue> {
    pub(crate) field: Field<S>,
    pub(crate) input: Argument<S>,
    pub(crate) value: EnumValue,
    pub(crate) directive: DirectiveType<S>,
    ghost no_field: { view_field S.shown field ≡ spec.no_field } by { field-set _ _ },
    ghost no_input: { view_argument S.shown input ≡ spec.no_input } by { argument-set _ _ },
    ghost no_value: { view_enum_value value ≡ value_named [] } by { value-set _ _ },
    ghost no_directive: { view_directive S.shown directive ≡ spec.no_directive } by { directive-set _ _ },
}

impl<S: ScalarValue> Absent<S> {
    /// One of each kind.
    #[tactic(auto, unfolding(graphql_spec::specs::Schema::plain_field, graphql_spec::specs::Schema::plain_input, graphql_spec::specs::BuiltIns::value_named))]
    pub fn new(alloc: Global) -> Self {
        Absent {
            field: Field::new(String::new(alloc), Type::Named(String::new(alloc))),
            input: Argument::new(String::new(alloc), Type::Named(String::new(alloc))),
            value: EnumValue::new(String::new(alloc)),
            directive: DirectiveType::new(String::new(alloc), Vec::new(alloc), Vec::new(alloc)),
        }
    }
}
