//! What is declared at names (section 3.4 of the Specification).

ghost use Rattle.std.specs.Prelude.{◌≡◌};
ghost use Rattle.std.specs.Option.{is_none};
ghost use Rattle.graphql_spec.specs.Fields as fields;
ghost use Rattle.graphql_spec.specs.Fields.{type_named};
ghost use Rattle.juniper_schema.specs.SchemaView.{view_schema};

use crate::schema::SchemaType;
use juniper_syntax::ScalarValue;

impl<S: ScalarValue> SchemaType<S> {
    /// Whether nothing is declared at this name.
    pub fn is_unknown(&self, name: &str) -> bool
        ensures { result ≡ is_none (type_named (view_schema S.shown self.now) name.now) }
    {
        self.concrete_type_by_name(name).is_none()
    }

    /// Whether an object is declared at this name (3.6).
    #[tactic(auto, unfolding(graphql_spec::specs::Fields::is_object))]
    pub fn is_object(&self, name: &str) -> bool
        ensures { result ≡ fields.is_object (type_named (view_schema S.shown self.now) name.now) }
    {
        match self.concrete_type_by_name(name) {
            Some(meta) => meta.is_object(),
            None => false,
        }
    }

    /// Whether a scalar or an enum is declared at this name (3.5, 3.9).
    #[tactic(auto, unfolding(graphql_spec::specs::Fields::is_leaf))]
    pub fn is_leaf(&self, name: &str) -> bool
        ensures { result ≡ fields.is_leaf (type_named (view_schema S.shown self.now) name.now) }
    {
        match self.concrete_type_by_name(name) {
            Some(meta) => meta.is_leaf(),
            None => false,
        }
    }

    /// Whether an object, an interface or a union is declared at this name (3.6, 3.7, 3.8).
    #[tactic(auto, unfolding(graphql_spec::specs::Fields::is_composite))]
    pub fn is_composite(&self, name: &str) -> bool
        ensures { result ≡ fields.is_composite (type_named (view_schema S.shown self.now) name.now) }
    {
        match self.concrete_type_by_name(name) {
            Some(meta) => meta.is_composite(),
            None => false,
        }
    }

    /// Whether a scalar, an enum or an input object is declared at this name (3.4.2).
    #[tactic(auto, unfolding(graphql_spec::specs::Fields::is_input))]
    pub fn is_input(&self, name: &str) -> bool
        ensures { result ≡ fields.is_input (type_named (view_schema S.shown self.now) name.now) }
    {
        match self.concrete_type_by_name(name) {
            Some(meta) => meta.is_input(),
            None => false,
        }
    }
}
