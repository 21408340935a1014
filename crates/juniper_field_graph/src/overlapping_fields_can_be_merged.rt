//! Whether the fields of each selection set can be merged (FieldsInSetCanMerge, section 5.3.2).

ghost use Rattle.std.specs.Prelude.{◌≡◌, Bool, IfOk, IfSome, List, None, OnOk, Some, ℕ, cond, false, map};
ghost use Rattle.std.specs.Str.{bytes_eq};
ghost use Rattle.graphql_spec.specs.Shown.{Name};
ghost use Rattle.graphql_spec.specs.Documents as documents;
ghost use Rattle.graphql_spec.specs.Fields as fields;
ghost use Rattle.graphql_spec.specs.Schema.{Schema};
ghost use Rattle.juniper_meta.specs.MetaView.{view_type};
ghost use Rattle.juniper_merging.specs.Questions.{fields_of};
ghost use Rattle.juniper_merging.specs.Sets.{IsTable};
ghost use Rattle.juniper_merging.specs.Tables.{table_of};
ghost use Rattle.juniper_schema.specs.SchemaView.{view_schema};
ghost use Rattle.juniper_written.specs.SpreadsView.{AreFragmentsOf};
ghost use Rattle.juniper_syntax.specs.DocumentView.{view_definition, view_fragment};
ghost use Rattle.juniper_field_graph.specs.Gathering.{GathersDefinition, HoldsAll, HoldsToo, IsAnswer, JudgesEach, Pairwise, WhereEnding, WhereKnown};
ghost use Rattle.juniper_field_graph.specs.Gathering.{GathersEach, IsListedAs, ListsDefinition, list_named, set_named};
ghost use Rattle.juniper_field_graph.specs.GraphView.{IsGraphOf};

use crate::gathering::{Gathered, Known, gather_set};
use crate::graph::FieldGraph;
use crate::plain_keys::has_plain_keys;
use juniper_merging::{Graph, Known as Answers, sets_merge};
use juniper_schema::SchemaType;
use juniper_syntax::{Definition, Fragment, ScalarValue, Selection, Span, Spanning, Type};
use juniper_type_rules::root_name;
use juniper_written::FragmentsByName;
use std::alloc::{AllocError, Global};
use std::collections::BTreeMap;

/// For the name of each fragment the numbers of its sets.
type SetLists<'d> = BTreeMap<&'d str, Vec<usize>>;

/// For each definition of a document with these fragments, whether two fields in one of its selection sets cannot be merged
/// (5.3.2), where the rules on names find nothing. Each field of the document is looked at once, and no more where those of one
/// response key are alike all over the document; else once more, however often its fragment is spread, and with others where what
/// they stand in is put together. An error where memory is refused.
pub fn cannot_merge<'d, 'a, S: ScalarValue>(
    alloc: Global,
    schema: &'d SchemaType<S>,
    document: &'d [Definition<'a, S>],
    fragments: &FragmentsByName<'d, 'a, S>,
) -> Result<Vec<bool>, AllocError>
    ensures { IfOk result (λ each. (disabled : Bool) → AreFragmentsOf S.shown fragments.now (map (view_definition S.shown) document.now) →
        JudgesEach (view_schema S.shown schema.now) disabled (map (view_definition S.shown) document.now) each.items) }
{
    if has_plain_keys(alloc, schema, document)? {
        return none_found(alloc, document);
    }
    let undeclared = undeclared(alloc);
    let found = judge_all(alloc, schema, &undeclared, document, fragments)?;
    Ok(found)
}

/// `false` for each definition.
fn none_found<S: ScalarValue>(
    alloc: Global,
    document: &[Definition<'_, S>],
) -> Result<Vec<bool>, AllocError>
    ensures { IfOk result (λ found. found.items ≡ map (λ _. false) (map (view_definition S.shown) document.now)) }
{
    vec![in alloc; false; document.len()]
}

/// The same, with a type for the fields that are not declared.
fn judge_all<'u, 'd: 'u, 'a: 'u, S: ScalarValue>(
    alloc: Global,
    schema: &'u SchemaType<S>,
    undeclared: &'u Type<String>,
    document: &'u [Definition<'a, S>],
    fragments: &FragmentsByName<'d, 'a, S>,
) -> Result<Vec<bool>, AllocError>
    ensures { IfOk result (λ r. (disabled : Bool) → AreFragmentsOf S.shown fragments.now (map (view_definition S.shown) document.now) →
        view_type undeclared.now ≡ fields.declared_type None →
        JudgesEach (view_schema S.shown schema.now) disabled (map (view_definition S.shown) document.now) r.items) }
{
    let order = fragments.in_order(alloc)?;
    let mut held: BTreeMap<&'u str, usize> = BTreeMap::new(alloc);
    let mut listed: SetLists<'u> = BTreeMap::new(alloc);
    let mut gathered = nothing_gathered(alloc);
    hold_fragments(
        alloc,
        schema,
        undeclared,
        &order,
        &mut held,
        &mut listed,
        &mut gathered,
    )?;
    let known = Known {
        schema,
        undeclared,
        fragments: &held,
    };
    let lists = list_each(alloc, &known, document, &listed, &mut gathered)?;
    let graph = gathered.graph.as_graph();
    let found = judge_each(alloc, &graph, &lists)?;
    Ok(found)
}

/// The type of a field that is not declared.
#[tactic(auto, unfolding(graphql_spec::specs::Fields::declared_type))]
fn undeclared(alloc: Global) -> Type<String>
    ensures { view_type result ≡ fields.declared_type None }
{
    Type::Named(String::new(alloc))
}

/// Nothing yet.
fn nothing_gathered<'d, 'a, S: ScalarValue>(alloc: Global) -> Gathered<'d, 'a, S>
    ensures { (s : Schema) → IsGraphOf S.shown s result.graph }
{
    Gathered {
        graph: FieldGraph::new(alloc),
        sets: Vec::new(alloc),
    }
}

/// Gathers what fragments hold, in an order in which each stands behind those that it spreads, and lists their sets.
fn hold_fragments<'d, 'f: 'd, 'a, S: ScalarValue>(
    alloc: Global,
    schema: &'d SchemaType<S>,
    undeclared: &'d Type<String>,
    order: &Vec<&'f Spanning<Fragment<'a, S>, Span>>,
    held: &mut BTreeMap<&'d str, usize>,
    listed: &mut SetLists<'d>,
    gathered: &mut Gathered<'d, 'a, S>,
) -> Result<(), AllocError>
    ensures { OnOk result ((fs : List documents.Fragment) → WhereEnding fs (view_type undeclared.now)
        (HoldsAll S.shown (view_schema S.shown schema.now) fs gathered.old.graph gathered.new.graph (set_named held.old) (set_named held.new)
        (list_named listed.old) (list_named listed.new) (map (λ f. view_fragment S.shown f.now) order.now.items))) }
{
    for index in 0..order.len() {
        let fragment = order[index];
        hold_fragment(alloc, schema, undeclared, fragment, held, listed, gathered)?;
    }
    Ok(())
}

/// Gathers what a fragment holds, where those that it spreads are held, and lists its sets.
fn hold_fragment<'d, 'a, S: ScalarValue>(
    alloc: Global,
    schema: &'d SchemaType<S>,
    undeclared: &'d Type<String>,
    fragment: &'d Spanning<Fragment<'a, S>, Span>,
    held: &mut BTreeMap<&'d str, usize>,
    listed: &mut SetLists<'d>,
    gathered: &mut Gathered<'d, 'a, S>,
) -> Result<(), AllocError>
    ensures { OnOk result ((fs : List documents.Fragment) → WhereEnding fs (view_type undeclared.now)
        (HoldsToo S.shown (view_schema S.shown schema.now) fs gathered.old.graph gathered.new.graph (set_named held.old) (set_named held.new)
        (list_named listed.old) (list_named listed.new) (view_fragment S.shown fragment.now))) }
{
    gathered.sets.clear();
    let known = Known {
        schema,
        undeclared,
        fragments: &*held,
    };
    let condition = fragment.item.type_condition.item;
    let set = gather_set(
        alloc,
        &known,
        condition,
        &fragment.item.selection_set,
        gathered,
    )?;
    put_set_at(held, fragment.item.name.item, set)?;
    let sets = copied(alloc, &gathered.sets)?;
    put_list_at(listed, fragment.item.name.item, sets)?;
    Ok(())
}

/// Puts the set at a name.
fn put_set_at<'d>(
    held: &mut BTreeMap<&'d str, usize>,
    name: &'d str,
    set: usize,
) -> Result<(), AllocError>
    ensures { OnOk result ((k : Name) → set_named held.new k ≡ cond (bytes_eq name.now k) (Some set) (set_named held.old k)) }
{
    held.insert(name, set)?;
    Ok(())
}

/// Puts the list at a name.
fn put_list_at<'d>(
    listed: &mut SetLists<'d>,
    name: &'d str,
    sets: Vec<usize>,
) -> Result<(), AllocError>
    ensures { OnOk result ((k : Name) → list_named listed.new k ≡ cond (bytes_eq name.now k) (Some sets.items) (list_named listed.old k)) }
{
    drop(listed.insert(name, sets)?);
    Ok(())
}

/// The same numbers in memory of their own.
fn copied(alloc: Global, sets: &[usize]) -> Result<Vec<usize>, AllocError>
    ensures { IfOk result (λ made. made.items ≡ sets.now) }
{
    let mut made = Vec::new(alloc);
    made.extend_from_slice(sets)?;
    Ok(made)
}

/// For each definition the sets in it.
fn list_each<'d, 'a, S: ScalarValue>(
    alloc: Global,
    known: &Known<'d, '_, S>,
    document: &'d [Definition<'a, S>],
    listed: &SetLists<'d>,
    gathered: &mut Gathered<'d, 'a, S>,
) -> Result<Vec<Vec<usize>>, AllocError>
    ensures { IfOk result (λ lists. (fs : List documents.Fragment) → WhereKnown S.shown known.now fs gathered.old
        (GathersEach S.shown known.now fs gathered.old gathered.new (list_named listed.now) (map (view_definition S.shown) document.now)
        (map (λ l. l.items) lists.items))) }
{
    let mut lists = Vec::new(alloc);
    for definition in document {
        let sets = list_definition(alloc, known, definition, listed, gathered)?;
        lists.push(sets)?;
    }
    Ok(lists)
}

/// The sets in a definition: of a fragment those that were listed; else they are gathered.
fn list_definition<'d, 'a, S: ScalarValue>(
    alloc: Global,
    known: &Known<'d, '_, S>,
    definition: &'d Definition<'a, S>,
    listed: &SetLists<'d>,
    gathered: &mut Gathered<'d, 'a, S>,
) -> Result<Vec<usize>, AllocError>
    ensures { IfOk result (λ sets. (fs : List documents.Fragment) → WhereKnown S.shown known.now fs gathered.old
        (ListsDefinition S.shown known.now fs gathered.old gathered.new (list_named listed.now) (view_definition S.shown definition.now) sets.items)) }
{
    match sets_listed(listed, definition) {
        Some(sets) => {
            let made = copied(alloc, sets)?;
            Ok(made)
        }
        None => {
            gathered.sets.clear();
            gather_definition(alloc, known, definition, gathered)?;
            let made = copied(alloc, &gathered.sets)?;
            Ok(made)
        }
    }
}

/// The sets that were listed for a fragment, where there are some.
fn sets_listed<'k, S: ScalarValue>(
    listed: &'k SetLists<'_>,
    definition: &Definition<'_, S>,
) -> Option<&'k [usize]>
    ensures { IfSome result (λ sets. IsListedAs (list_named listed.now) (view_definition S.shown definition.now) sets.now) }
{
    match definition {
        Definition::Operation(_) => None,
        Definition::Fragment(fragment) => match listed.get(fragment.item.name.item) {
            Some(sets) => Some(sets.as_slice()),
            None => None,
        },
    }
}

/// Gathers the sets of a definition.
fn gather_definition<'d, 'a, S: ScalarValue>(
    alloc: Global,
    known: &Known<'d, '_, S>,
    definition: &'d Definition<'a, S>,
    gathered: &mut Gathered<'d, 'a, S>,
) -> Result<(), AllocError>
    ensures { OnOk result ((fs : List documents.Fragment) → WhereKnown S.shown known.now fs gathered.old
        (GathersDefinition S.shown known.now fs gathered.old gathered.new (view_definition S.shown definition.now))) }
{
    match definition {
        Definition::Operation(operation) => {
            match root_name(known.schema, operation.item.operation_type) {
                Some(root) => {
                    let selections = operation.item.selection_set.as_slice();
                    gather_set(alloc, known, root, selections, gathered)?;
                    Ok(())
                }
                None => Ok(()),
            }
        }
        Definition::Fragment(fragment) => {
            let condition = fragment.item.type_condition.item;
            let selections = fragment.item.selection_set.as_slice();
            gather_set(alloc, known, condition, selections, gathered)?;
            Ok(())
        }
    }
}

/// For each list of sets, whether one of them cannot be merged.
fn judge_each(
    alloc: Global,
    graph: &Graph<'_, '_>,
    lists: &[Vec<usize>],
) -> Result<Vec<bool>, AllocError>
    ensures { IfOk result (λ found. IsTable graph.now.sets.now
        → Pairwise (IsAnswer (fields_of graph.now) (table_of graph.now.sets.now)) (map (λ l. l.items) lists.now) found.items) }
{
    let answers = Answers::new(alloc, graph)?;
    let mut found = Vec::new(alloc);
    for sets in lists {
        let merge = sets_merge(graph, sets, &answers)?;
        found.push(!merge)?;
    }
    Ok(found)
}
