//! The fields that types have beside the declared ones (sections 4.1 and 4.2 of the Specification).

ghost use Rattle.std.specs.Prelude.{◌≡◌, ◌∷◌, IfOk, codes, map, []};
ghost use Rattle.graphql_spec.specs.Fields.{root_fields, typename_field};
ghost use Rattle.graphql_spec.specs.BuiltIns.{maybe, must};
ghost use Rattle.graphql_spec.specs.Schema.{plain_field, plain_input};
ghost use Rattle.juniper_meta.specs.MetaView.{view_field};

use crate::fields::{FieldRow, field_with, fields_of, maybe, must_argument};
use crate::meta::Field;
use juniper_syntax::ScalarValue;
use std::alloc::{AllocError, Global};

/// `__typename`, which each object, interface and union has (4.1), then `__schema` and `__type`, which the query type has
/// (4.2); an error where memory is refused.
#[tactic(auto, unfolding(graphql_spec::specs::BuiltIns::must, graphql_spec::specs::BuiltIns::maybe, graphql_spec::specs::BuiltIns::field_without, graphql_spec::specs::Fields::typename_field, graphql_spec::specs::Fields::root_fields))]
pub fn meta_fields<S: ScalarValue>(alloc: Global) -> Result<Vec<Field<S>>, AllocError>
    ensures { IfOk result (λ made. map (view_field S.shown) made.items ≡ typename_field ∷ root_fields) }
{
    let rows = [
        FieldRow::Must("__typename", "String"),
        FieldRow::Must("__schema", "__Schema"),
    ];
    let mut fields = fields_of(alloc, &rows)?;
    fields.push(type_field(alloc)?)?;
    Ok(fields)
}

/// `__type(name: String!): __Type` (4.2).
fn type_field<S: ScalarValue>(alloc: Global) -> Result<Field<S>, AllocError>
    ensures { IfOk result (λ f. view_field S.shown f ≡ plain_field (codes "__type") (plain_input (codes "name") (must (codes "String")) ∷ [])
        (maybe (codes "__Type"))) }
{
    let argument = must_argument(alloc, "name", "String")?;
    field_with(alloc, "__type", argument, maybe(alloc, "__Type")?)
}
