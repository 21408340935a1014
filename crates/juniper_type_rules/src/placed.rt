//! The fields and directives of a definition, on the types that they stand on (sections 5.3 and 5.4 of the Specification).

ghost use Rattle.std.specs.Prelude.{◌≡◌, ◌++◌, IfOk, OnOk, option_map, []};
ghost use Rattle.std.specs.List.{flat_map};
ghost use Rattle.graphql_spec.specs.Documents.{Selections, word_name};
ghost use Rattle.graphql_spec.specs.Documents as documents;
ghost use Rattle.graphql_spec.specs.Fields.{field_of, type_named, is_composite};
ghost use Rattle.graphql_spec.specs.Placed.{root_type};
ghost use Rattle.juniper_meta.specs.MetaView as metas;
ghost use Rattle.juniper_schema.specs.SchemaView.{view_schema};
ghost use Rattle.juniper_syntax.specs.DocumentView.{put_selection, view_definition, view_field, view_fragment, view_kind, view_operation, view_selections};
ghost use Rattle.juniper_written.specs.WrittenView.{view_inline};
ghost use Rattle.juniper_type_rules.specs.Parents.{IsParent};
ghost use Rattle.juniper_type_rules.specs.Placing.{AddsBefore, directive_parts, field_parts, joined, parts_in, parts_of, parts_on, type_below, type_inside};
ghost use Rattle.juniper_type_rules.specs.PlacedView.{view_parts, view_placed};

use crate::parent::{Parent, field_on, parent_of};
use juniper_schema::{SchemaType, meta};
use juniper_syntax::{
    Definition, Directive, Field, Fragment, InlineFragment, Operation, OperationType, ScalarValue,
    Selection, Span, Spanning,
};
use juniper_written::{write_directives, write_variables};
use std::alloc::{AllocError, Global};

/// For how many fields a list has room from the start, which is enough for most definitions.
const FIELDS: usize = 16;

/// A field on its parent type (5.3.1).
#[derive(Drop)]
pub struct Placed<'d, 'a, S: ScalarValue> {
    /// The name of the type.
    pub parent: &'d str,
    /// The field as it is written.
    pub field: &'d Spanning<Field<'a, S>, Span>,
    /// Its declaration, where the type has one.
    pub declared: Option<&'d meta::Field<S>>,
}

/// What is written in a definition on types that are known, each in document order.
#[derive(Drop)]
pub struct PlacedParts<'d, 'a, S: ScalarValue> {
    /// The fields, but for those below an unknown field, or in a condition that is no object, interface or union.
    pub fields: Vec<Placed<'d, 'a, S>>,
    /// The directives (2.12), but for those of unknown fields, and of what is left out above.
    pub directives: Vec<&'d Spanning<Directive<'a, S>, Span>>,
}

/// The fields and directives of a definition on their types: none of an operation whose root type is absent. An error where
/// memory is refused.
pub fn placed_in<'d, 'a, S: ScalarValue>(
    alloc: Global,
    schema: &'d SchemaType<S>,
    definition: &'d Definition<'a, S>,
) -> Result<PlacedParts<'d, 'a, S>, AllocError>
    ensures { IfOk result (λ p. view_parts S.shown p ≡ parts_of (view_schema S.shown schema.now) (view_definition S.shown definition.now)) }
{
    match definition {
        Definition::Operation(operation) => placed_in_operation(alloc, schema, operation),
        Definition::Fragment(fragment) => placed_in_fragment(alloc, schema, fragment),
    }
}

/// The fields and directives of an operation.
fn placed_in_operation<'d, 'a, S: ScalarValue>(
    alloc: Global,
    schema: &'d SchemaType<S>,
    operation: &'d Spanning<Operation<'a, S>, Span>,
) -> Result<PlacedParts<'d, 'a, S>, AllocError>
    ensures { IfOk result (λ p. view_parts S.shown p ≡ parts_of (view_schema S.shown schema.now) (documents.operation (view_operation S.shown operation.now))) }
{
    let mut placed = nothing_placed(alloc)?;
    match root_name(schema, operation.item.operation_type) {
        Some(root) => {
            write_directives(&operation.item.directives, &mut placed.directives)?;
            write_variables(&operation.item.variable_definitions, &mut placed.directives)?;
            place_selections(
                schema,
                root,
                operation.item.selection_set.as_slice(),
                &mut placed,
            )?;
            Ok(placed)
        }
        None => Ok(placed),
    }
}

/// The fields and directives of a fragment.
fn placed_in_fragment<'d, 'a, S: ScalarValue>(
    alloc: Global,
    schema: &'d SchemaType<S>,
    fragment: &'d Spanning<Fragment<'a, S>, Span>,
) -> Result<PlacedParts<'d, 'a, S>, AllocError>
    ensures { IfOk result (λ p. view_parts S.shown p ≡ parts_of (view_schema S.shown schema.now) (documents.fragment (view_fragment S.shown fragment.now))) }
{
    let mut placed = nothing_placed(alloc)?;
    write_directives(&fragment.item.directives, &mut placed.directives)?;
    let condition = fragment.item.type_condition.item;
    if schema.is_composite(condition) {
        place_selections(
            schema,
            condition,
            fragment.item.selection_set.as_slice(),
            &mut placed,
        )?;
        Ok(placed)
    } else {
        Ok(placed)
    }
}

/// Nothing yet. An error where memory is refused.
fn nothing_placed<'d, 'a, S: ScalarValue>(
    alloc: Global,
) -> Result<PlacedParts<'d, 'a, S>, AllocError>
    ensures { IfOk result (λ p. view_parts S.shown p ≡ record { fields = []; directives = [] }) }
{
    let fields = Vec::with_capacity(alloc, FIELDS)?;
    Ok(PlacedParts {
        fields,
        directives: Vec::new(alloc),
    })
}

/// The name of the type that an operation's selections stand on (3.3.1).
#[tactic(auto, unfolding(graphql_spec::specs::Placed::root_type))]
pub fn root_name<'d, S: ScalarValue>(
    schema: &'d SchemaType<S>,
    operation_type: OperationType,
) -> Option<&'d str>
    ensures { option_map (λ n. n.now) result ≡ root_type (view_schema S.shown schema.now) (view_kind operation_type) }
{
    match operation_type {
        OperationType::Query => Some(schema.query_name()),
        OperationType::Mutation => schema.mutation_name(),
        OperationType::Subscription => None,
    }
}

/// Adds what stands in selections on the type of a name.
#[cycle(placing)]
fn place_selections<'d, 'a, S: ScalarValue>(
    schema: &'d SchemaType<S>,
    name: &'d str,
    selections: &'d [Selection<'a, S>],
    placed: &mut PlacedParts<'d, 'a, S>,
) -> Result<(), AllocError>
    ensures { OnOk result (view_parts S.shown placed.new ≡ joined (view_parts S.shown placed.old)
        (parts_in (view_schema S.shown schema.now) name.now (view_selections S.shown selections.now))) }
{
    let parent = parent_of(schema, name);
    for selection in selections {
        place_selection(schema, &parent, selection, placed)?;
    }
    Ok(())
}

/// Adds what stands in a selection on a type, before those that follow it.
#[cycle(placing)]
fn place_selection<'d, 'a, S: ScalarValue>(
    schema: &'d SchemaType<S>,
    parent: &Parent<'d, S>,
    selection: &'d Selection<'a, S>,
    placed: &mut PlacedParts<'d, 'a, S>,
) -> Result<(), AllocError>
    ensures { OnOk result (IsParent S.shown (view_schema S.shown schema.now) parent.now → (rest : Selections) →
        AddsBefore (view_schema S.shown schema.now) parent.now.name.now (view_parts S.shown placed.old) (view_parts S.shown placed.new)
        rest (put_selection S.shown selection.now rest)) }
{
    match selection {
        Selection::Field(field) => {
            let below = place_field(schema, parent, field, placed)?;
            match below {
                Some(inner) => match &field.item.selection_set {
                    Some(selections) => {
                        place_selections(schema, inner, selections, placed)?;
                        Ok(())
                    }
                    None => Ok(()),
                },
                None => Ok(()),
            }
        }
        Selection::FragmentSpread(spread) => {
            write_directives(&spread.item.directives, &mut placed.directives)?;
            Ok(())
        }
        Selection::InlineFragment(inline) => {
            write_directives(&inline.item.directives, &mut placed.directives)?;
            match type_inside(schema, parent.name, inline) {
                Some(inner) => {
                    place_selections(schema, inner, &inline.item.selection_set, placed)?;
                    Ok(())
                }
                None => Ok(()),
            }
        }
    }
}

/// Adds a field, without what stands below it, and gives the name of the type that this stands on, where the field is known.
fn place_field<'d, 'a, S: ScalarValue>(
    schema: &'d SchemaType<S>,
    parent: &Parent<'d, S>,
    field: &'d Spanning<Field<'a, S>, Span>,
    placed: &mut PlacedParts<'d, 'a, S>,
) -> Result<Option<&'d str>, AllocError>
    ensures below { IfOk result (λ q. IsParent S.shown (view_schema S.shown schema.now) parent.now → option_map (λ n. n.now) q ≡ type_below
        (field_of (view_schema S.shown schema.now) parent.now.name.now (view_field S.shown field.now).name.item)) }
    ensures added { OnOk result (IsParent S.shown (view_schema S.shown schema.now) parent.now → view_parts S.shown placed.new
        ≡ joined (view_parts S.shown placed.old) (field_parts (view_schema S.shown schema.now) parent.now.name.now (view_field S.shown field.now))) }
{
    let found = field_on(schema, parent, field.item.name.item);
    placed.fields.push(Placed {
        parent: parent.name,
        field,
        declared: found,
    })?;
    match found {
        Some(declared) => {
            write_directives(&field.item.directives, &mut placed.directives)?;
            Ok(Some(declared.field_type.innermost_name()))
        }
        None => Ok(None),
    }
}

/// The name of the type inside an inline fragment: that of its condition, if this is an object, interface or union; of one
/// without condition it is the type around it.
fn type_inside<'d, 'a, S: ScalarValue>(
    schema: &'d SchemaType<S>,
    parent: &'d str,
    inline: &'d Spanning<InlineFragment<'a, S>, Span>,
) -> Option<&'d str>
    ensures { option_map (λ n. n.now) result ≡ type_inside (view_schema S.shown schema.now) parent.now (word_name (view_inline S.shown inline.now).condition) }
{
    match &inline.item.type_condition {
        Some(condition) => {
            if schema.is_composite(condition.item) {
                Some(condition.item)
            } else {
                None
            }
        }
        None => Some(parent),
    }
}
