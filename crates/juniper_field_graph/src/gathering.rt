//! The fields of selection sets, gathered into a graph.

ghost use Rattle.std.specs.Prelude.{◌≡◌, ℕ, IfOk, List, None, OnOk, Some};
ghost use Rattle.graphql_spec.specs.Documents.{Fragment as SpecFragment, Selections, end, name_or};
ghost use Rattle.graphql_spec.specs.Fields as fields;
ghost use Rattle.graphql_spec.specs.Fields.{field_of};
ghost use Rattle.juniper_meta.specs.MetaView.{view_type};
ghost use Rattle.graphql_spec.specs.Schema.{Schema};
ghost use Rattle.juniper_merging.specs.Sets.{IsSetOf};
ghost use Rattle.juniper_schema.specs.SchemaView.{view_schema};
ghost use Rattle.juniper_syntax.specs.DocumentView.{put_selection, view_field, view_selections};
ghost use Rattle.juniper_written.specs.WrittenView.{view_inline};
ghost use Rattle.juniper_field_graph.specs.Gathering.{GathersBefore, GathersSet, PushesTo, IsSetMade, WhereKnown, schema_in};
ghost use Rattle.juniper_field_graph.specs.GraphView.{IsGraphOf, table_in};

use crate::graph::FieldGraph;
use juniper_merging::Gathering;
use juniper_schema::SchemaType;
use juniper_syntax::{Field, InlineFragment, ScalarValue, Selection, Span, Spanning, Type};
use std::alloc::{AllocError, Global};
use std::collections::BTreeMap;

/// What is known before selections are gathered.
#[derive(Drop)]
pub(crate) struct Known<'d, 'k, S: ScalarValue> {
    /// The schema.
    pub(crate) schema: &'d SchemaType<S>,
    /// The type of a field that is not declared.
    pub(crate) undeclared: &'d Type<String>,
    /// The set of the fields that each fragment holds, by its name.
    pub(crate) fragments: &'k BTreeMap<&'d str, usize>,
}

/// What is gathered.
#[derive(Drop)]
pub(crate) struct Gathered<'d, 'a, S: ScalarValue> {
    /// The fields and sets.
    pub(crate) graph: FieldGraph<'d, 'a, S>,
    /// The numbers of the sets that were gathered.
    pub(crate) sets: Vec<usize>,
}

/// Gathers a selection set on a type, and all sets in it; gives the number of the set of the fields that it holds. What stands in an
/// inline fragment is part of the set around it.
#[cycle(gathering)]
pub(crate) fn gather_set<'d, 'a, S: ScalarValue>(
    alloc: Global,
    known: &Known<'d, '_, S>,
    parent: &'d str,
    selections: &'d [Selection<'a, S>],
    gathered: &mut Gathered<'d, 'a, S>,
) -> Result<usize, AllocError>
    ensures { IfOk result (λ v. (fs : List SpecFragment) → WhereKnown S.shown known.now fs gathered.old
        (GathersSet S.shown known.now fs gathered.old gathered.new parent.now (view_selections S.shown selections.now) v)) }
{
    let mut numbers = Gathering::new(alloc);
    gather_selections(alloc, known, parent, selections, &mut numbers, gathered)?;
    let set = put_set(numbers, gathered)?;
    Ok(set)
}

/// Gathers the selections of a set on a type, and all sets in it.
#[cycle(gathering)]
fn gather_selections<'d, 'a, S: ScalarValue>(
    alloc: Global,
    known: &Known<'d, '_, S>,
    parent: &'d str,
    selections: &'d [Selection<'a, S>],
    numbers: &mut Gathering,
    gathered: &mut Gathered<'d, 'a, S>,
) -> Result<(), AllocError>
    ensures { OnOk result ((fs : List SpecFragment) → WhereKnown S.shown known.now fs gathered.old
        (GathersBefore S.shown known.now fs gathered.old gathered.new numbers.old numbers.new parent.now end (view_selections S.shown selections.now))) }
{
    for selection in selections {
        gather_selection(alloc, known, parent, selection, numbers, gathered)?;
    }
    Ok(())
}

/// Gathers a selection on a type, before those that follow it.
#[cycle(gathering)]
fn gather_selection<'d, 'a, S: ScalarValue>(
    alloc: Global,
    known: &Known<'d, '_, S>,
    parent: &'d str,
    selection: &'d Selection<'a, S>,
    numbers: &mut Gathering,
    gathered: &mut Gathered<'d, 'a, S>,
) -> Result<(), AllocError>
    ensures { OnOk result ((fs : List SpecFragment) → WhereKnown S.shown known.now fs gathered.old ((rest : Selections) →
        GathersBefore S.shown known.now fs gathered.old gathered.new numbers.old numbers.new parent.now rest (put_selection S.shown selection.now rest))) }
{
    match selection {
        Selection::Field(field) => {
            gather_field(alloc, known, parent, field, numbers, gathered)?;
            Ok(())
        }
        Selection::FragmentSpread(spread) => {
            let fragments = known.fragments;
            match fragments.get(spread.item.name.item) {
                Some(held) => {
                    numbers.put(*held)?;
                    Ok(())
                }
                None => Ok(()),
            }
        }
        Selection::InlineFragment(inline) => {
            let inner = type_inside(parent, inline);
            let selections = &inline.item.selection_set;
            gather_selections(alloc, known, inner, selections, numbers, gathered)?;
            Ok(())
        }
    }
}

/// Gathers a field on a type, behind what it selects and before what follows it.
#[cycle(gathering)]
fn gather_field<'d, 'a, S: ScalarValue>(
    alloc: Global,
    known: &Known<'d, '_, S>,
    parent: &'d str,
    field: &'d Spanning<Field<'a, S>, Span>,
    numbers: &mut Gathering,
    gathered: &mut Gathered<'d, 'a, S>,
) -> Result<(), AllocError>
    ensures { OnOk result ((fs : List SpecFragment) → WhereKnown S.shown known.now fs gathered.old ((rest : Selections) →
        GathersBefore S.shown known.now fs gathered.old gathered.new numbers.old numbers.new parent.now rest
        (put_selection S.shown (Selection.Field field.now) rest))) }
{
    let declared_type = declared_type(known, parent, field.item.name.item);
    let below = match &field.item.selection_set {
        Some(selections) => {
            let inner = declared_type.innermost_name();
            let set = gather_set(alloc, known, inner, selections, gathered)?;
            Some(set)
        }
        None => None,
    };
    let graph = &mut gathered.graph;
    put_field(
        alloc,
        known,
        parent,
        field,
        declared_type,
        below,
        graph,
        numbers,
    )?;
    Ok(())
}

/// Puts a field, which selects these fields, to the graph, and to the numbers.
fn put_field<'d, 'a, S: ScalarValue>(
    alloc: Global,
    known: &Known<'d, '_, S>,
    parent: &'d str,
    field: &'d Spanning<Field<'a, S>, Span>,
    declared_type: &'d Type<String>,
    below: Option<usize>,
    graph: &mut FieldGraph<'d, 'a, S>,
    numbers: &mut Gathering,
) -> Result<(), AllocError>
    ensures { OnOk result (PushesTo S.shown (schema_in S.shown known.now) graph.old graph.new
        (view_type declared_type.now) parent.now (view_field S.shown field.now) below numbers.old numbers.new) }
{
    let number = graph.push(alloc, known.schema, parent, field, declared_type, below)?;
    numbers.push(number)?;
    Ok(())
}

/// The declared type of a field on its parent type.
#[tactic(auto, unfolding(graphql_spec::specs::Fields::declared_type))]
fn declared_type<'d, S: ScalarValue>(
    known: &Known<'d, '_, S>,
    parent: &str,
    name: &str,
) -> &'d Type<String>
    ensures { view_type known.now.undeclared.now ≡ fields.declared_type None →
        view_type result.now ≡ fields.declared_type (field_of (view_schema S.shown known.now.schema.now) parent.now name.now) }
{
    let schema = known.schema;
    match schema.field_of(parent, name) {
        Some(field) => &field.field_type,
        None => known.undeclared,
    }
}

/// The name of the type inside an inline fragment: that of its condition, else that around it.
#[tactic(auto, unfolding(graphql_spec::specs::Documents::name_or))]
pub(crate) fn type_inside<'d, 'a, S: ScalarValue>(
    parent: &'d str,
    inline: &'d Spanning<InlineFragment<'a, S>, Span>,
) -> &'d str
    ensures { result.now ≡ name_or (view_inline S.shown inline.now).condition parent.now }
{
    match &inline.item.type_condition {
        Some(condition) => condition.item,
        None => parent,
    }
}

/// Makes the set of what was gathered, puts its number to the others, and gives it.
fn put_set<'d, 'a, S: ScalarValue>(
    numbers: Gathering,
    gathered: &mut Gathered<'d, 'a, S>,
) -> Result<usize, AllocError>
    ensures { IfOk result (λ b. (s : Schema) → IsGraphOf S.shown s gathered.old.graph → (all : List ℕ) →
        IsSetOf (table_in S.shown gathered.old.graph) numbers all
        → IsSetMade S.shown s gathered.old.graph gathered.new.graph gathered.old.sets.items gathered.new.sets.items all b) }
{
    let set = numbers.put_into(&mut gathered.graph.sets)?;
    gathered.sets.push(set)?;
    Ok(set)
}
