//! Documents in which fields of one response key are alike, in whichever selection sets they stand: then all of them merge.

ghost use Rattle.std.specs.Prelude.{◌≡◌, ◌∷◌, [], IfOk, IfSome, map, true};
ghost use Rattle.std.specs.List.{flat_map};
ghost use Rattle.graphql_spec.specs.Documents.{Selections, response_key};
ghost use Rattle.graphql_spec.specs.Fields.{declared_type, field_of};
ghost use Rattle.graphql_spec.specs.Merging as merging;
ghost use Rattle.graphql_spec.specs.Types.{innermost};
ghost use Rattle.juniper_schema.specs.SchemaView.{view_schema};
ghost use Rattle.juniper_syntax.specs.DocumentView.{put_selection, view_definition, view_field, view_selections};
ghost use Rattle.juniper_field_graph.specs.KindsView.{IsOnce};
ghost use Rattle.juniper_field_graph.specs.MetView.{AreLike, Meets, MeetsWhole, Table, met_at};
ghost use Rattle.juniper_field_graph.specs.PlainKeys as plain_keys;
ghost use Rattle.juniper_field_graph.specs.PlainKeys.{AreOnce, placed_on, written_in, written_on};

use crate::gathering::type_inside;
use crate::{same_call, types_agree};
use juniper_schema::SchemaType;
use juniper_syntax::{Definition, Field, ScalarValue, Selection, Span, Spanning, name_number};
use juniper_type_rules::root_name;
use std::alloc::{AllocError, Global};
use std::collections::BTreeMap;

/// A field on its parent type.
#[derive(Drop)]
struct FieldOn<'d, 'a, S> {
    /// The name of the type.
    parent: &'d str,
    /// The field as it is written.
    field: &'d Spanning<Field<'a, S>, Span>,
}

/// A field of each response key that was met, by the number that is made of the key.
type Met<'d, 'a, S> = BTreeMap<u64, FieldOn<'d, 'a, S>>;

/// Whether it is seen at once that each two fields of a document which have one response key have one name, the same arguments and
/// declared types that agree. They merge then, in whichever sets they meet (5.3.2). Each field is looked at once. `false` says nothing,
/// and the graph of fields decides: fields that never meet may differ, and two keys may have one number. An error where memory is
/// refused.
pub(crate) fn has_plain_keys<'d, 'a, S: ScalarValue>(
    alloc: Global,
    schema: &'d SchemaType<S>,
    document: &'d [Definition<'a, S>],
) -> Result<bool, AllocError>
    ensures { IfOk result (λ b. b ≡ true →
        AreOnce (flat_map (written_in (view_schema S.shown schema.now)) (map (view_definition S.shown) document.now))
        → plain_keys.has_plain_keys (view_schema S.shown schema.now) (map (view_definition S.shown) document.now) ≡ true) }
{
    let mut met = BTreeMap::new(alloc);
    for definition in document {
        if !meet_definition(schema, definition, &mut met)? {
            return Ok(false);
        }
    }
    Ok(true)
}

/// Meets the fields of a definition: whether each is like those of its response key that were met before.
fn meet_definition<'d, 'a, S: ScalarValue>(
    schema: &'d SchemaType<S>,
    definition: &'d Definition<'a, S>,
    met: &mut Met<'d, 'a, S>,
) -> Result<bool, AllocError>
    ensures { IfOk result (λ b. b ≡ true → Meets (view_schema S.shown schema.now) (met_at S.shown (view_schema S.shown schema.now) met.old)
        (met_at S.shown (view_schema S.shown schema.now) met.new)
        (written_in (view_schema S.shown schema.now) (view_definition S.shown definition.now))) }
{
    match definition {
        Definition::Operation(operation) => {
            match root_name(schema, operation.item.operation_type) {
                Some(root) => {
                    let selections = operation.item.selection_set.as_slice();
                    meet_selections(schema, root, selections, met)
                }
                None => Ok(true),
            }
        }
        Definition::Fragment(fragment) => {
            let condition = fragment.item.type_condition.item;
            let selections = fragment.item.selection_set.as_slice();
            meet_selections(schema, condition, selections, met)
        }
    }
}

/// Meets the fields in selections on a type, at any depth.
#[cycle(meeting)]
fn meet_selections<'d, 'a, S: ScalarValue>(
    schema: &'d SchemaType<S>,
    parent: &'d str,
    selections: &'d [Selection<'a, S>],
    met: &mut Met<'d, 'a, S>,
) -> Result<bool, AllocError>
    ensures { IfOk result (λ b. b ≡ true → Meets (view_schema S.shown schema.now) (met_at S.shown (view_schema S.shown schema.now) met.old)
        (met_at S.shown (view_schema S.shown schema.now) met.new)
        (written_on (view_schema S.shown schema.now) parent.now (view_selections S.shown selections.now))) }
{
    for selection in selections {
        if !meet_selection(schema, parent, selection, met)? {
            return Ok(false);
        }
    }
    Ok(true)
}

/// Meets the fields in a selection on a type, before those that follow it.
#[cycle(meeting)]
fn meet_selection<'d, 'a, S: ScalarValue>(
    schema: &'d SchemaType<S>,
    parent: &'d str,
    selection: &'d Selection<'a, S>,
    met: &mut Met<'d, 'a, S>,
) -> Result<bool, AllocError>
    ensures { IfOk result (λ b. b ≡ true → (then : Table) (rest : Selections) → MeetsWhole S.shown (view_schema S.shown schema.now) met.old met.new then
        parent.now rest (put_selection S.shown selection.now rest)) }
{
    match selection {
        Selection::Field(field) => {
            if !meet_field(schema, parent, field, met)? {
                return Ok(false);
            }
            match &field.item.selection_set {
                Some(selections) => match type_below(schema, parent, field.item.name.item) {
                    Some(inner) => {
                        let is_plain = meet_selections(schema, inner, selections, met)?;
                        Ok(is_plain)
                    }
                    None => Ok(false),
                },
                None => Ok(true),
            }
        }
        Selection::FragmentSpread(_) => Ok(true),
        Selection::InlineFragment(inline) => {
            let inner = type_inside(parent, inline);
            let is_plain = meet_selections(schema, inner, &inline.item.selection_set, met)?;
            Ok(is_plain)
        }
    }
}

/// Meets a field on a type, without what it selects.
fn meet_field<'d, 'a, S: ScalarValue>(
    schema: &SchemaType<S>,
    parent: &'d str,
    field: &'d Spanning<Field<'a, S>, Span>,
    met: &mut Met<'d, 'a, S>,
) -> Result<bool, AllocError>
    ensures { IfOk result (λ b. b ≡ true → Meets (view_schema S.shown schema.now) (met_at S.shown (view_schema S.shown schema.now) met.old)
        (met_at S.shown (view_schema S.shown schema.now) met.new)
        (placed_on (view_schema S.shown schema.now) parent.now (view_field S.shown field.now) ∷ [])) }
{
    let number = name_number(Field::response_key(field));
    match met.insert(number, FieldOn { parent, field })? {
        Some(earlier) => Ok(is_like(schema, &earlier, &FieldOn { parent, field })),
        None => Ok(true),
    }
}

/// Whether two fields have one response key, one name, the same arguments and declared types that agree.
fn is_like<S: ScalarValue>(
    schema: &SchemaType<S>,
    first: &FieldOn<'_, '_, S>,
    second: &FieldOn<'_, '_, S>,
) -> bool
    ensures { result ≡ true → IsOnce (view_field S.shown first.now.field.now) → IsOnce (view_field S.shown second.now.field.now) →
        AreLike S.shown (view_schema S.shown schema.now) first.now second.now }
{
    let field = first.field;
    let other = second.field;
    Field::response_key(field) == Field::response_key(other)
        && same_call(field, other)
        && has_types_that_agree(schema, first.parent, second.parent, other.item.name.item)
}

/// Whether the fields of a name on two types have declared types that agree.
fn has_types_that_agree<S: ScalarValue>(
    schema: &SchemaType<S>,
    first: &str,
    second: &str,
    name: &str,
) -> bool
    ensures { result ≡ true → merging.types_agree (view_schema S.shown schema.now)
        (declared_type (field_of (view_schema S.shown schema.now) first.now name.now))
        (declared_type (field_of (view_schema S.shown schema.now) second.now name.now)) ≡ true }
{
    if first == second {
        return true;
    }
    match schema.field_of(first, name) {
        Some(field) => match schema.field_of(second, name) {
            Some(other) => types_agree(schema, &field.field_type, &other.field_type),
            None => false,
        },
        None => false,
    }
}

/// The name of the type below a field, where its parent type has it.
fn type_below<'d, S: ScalarValue>(
    schema: &'d SchemaType<S>,
    parent: &str,
    name: &str,
) -> Option<&'d str>
    ensures { IfSome result (λ q. q.now ≡ innermost (declared_type (field_of (view_schema S.shown schema.now) parent.now name.now))) }
{
    match schema.field_of(parent, name) {
        Some(field) => Some(field.field_type.innermost_name()),
        None => None,
    }
}
