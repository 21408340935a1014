//! What requests are executed with (section 6.1 of the Specification).

ghost use Rattle.std.specs.Prelude.{IsTrue, Some, string_bytes, ◌≡◌};
ghost use Rattle.graphql_spec.specs.Executable.{is_executable};
ghost use Rattle.juniper_meta.specs.MetaView.{view_meta};
ghost use Rattle.juniper_schema.specs.SchemaView.{meta_named, view_schema};
ghost use Rattle.juniper_syntax.specs.TypeView.{view_type};
ghost use Rattle.juniper_execute.specs.Meanings.{is_undeclared};

use crate::node_resolver::NodeTypes;
use crate::walking::Walking;
use juniper_meta::MetaType;
use juniper_schema::SchemaType;
use juniper_syntax::{ScalarValue, Type};

/// A schema that can be executed, and its resolvers; and how requests are walked.
#[derive(Drop)]
pub struct Served<'r, R: NodeTypes<S>, S: ScalarValue> {
    pub resolver: &'r R,
    pub schema: &'r SchemaType<S>,
    /// The type of a field that is not declared.
    pub undeclared: &'r Type<String>,
    pub walking: Walking,
    ghost executable: { IsTrue (is_executable (view_schema S.shown schema.now)) },
    ghost unnamed: { IsTrue (is_undeclared (view_type (λ n. string_bytes n) undeclared.now)) },
}

impl<'r, R: NodeTypes<S>, S: ScalarValue> Served<'r, R, S> {
    /// What is declared as the query type, which each executable schema has (3.3.1).
    pub fn query_type(&self) -> &'r MetaType<S>
        ensures { meta_named (view_schema S.shown self.now.schema.now) (view_schema S.shown self.now.schema.now).query ≡ Some (view_meta S.shown result.now) }
    {
        let schema = self.schema;
        match schema.concrete_type_by_name(schema.query_name()) {
            Some(meta) => meta,
            None => unreachable!(),
        }
    }
}
