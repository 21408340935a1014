//! The objects of nodes of one object type, walked side by side: a group is asked of all of them, then what is below it is walked for all of
//! them at once (sections 6.3 and 6.4 of the Specification).

ghost use Rattle.std.specs.Prelude.{◌≡◌, ◌<◌, ◌≤◌, ◌+◌, ◌++◌, [], suc, IfOk, OnOk, Some, is_some, length, map, option_map, string_bytes};
ghost use Rattle.std.specs.Vec.Iter.{into_iter_items};
ghost use Rattle.graphql_spec.specs.ExactAnswers.{whole};
ghost use Rattle.graphql_spec.specs.Execution.{reply_of, type_of};
ghost use Rattle.graphql_spec.specs.Selections.{occurrences};
ghost use Rattle.juniper_assemble.specs.SpotView.{view_nodes, view_spot};
ghost use Rattle.juniper_values.specs.ResolvedView.{AllAnswer};
ghost use Rattle.juniper_walk.specs.Plans.{IsAskedAt, IsStanding, all_expanded, group_at, group_count, key_at};
ghost use Rattle.juniper_walk.specs.PlanWalks.{IsGroupOf};
ghost use Rattle.juniper_walk.specs.Lists.{first_in};
ghost use Rattle.juniper_walk.specs.Rows.{AreFresh, AreIn, AsksColumn, FillsRows, IsFilledIn, IsLeafPut, IsPutIn, listed_of, nodes_standing, row_fields};
ghost use Rattle.juniper_walk.specs.Rows.{so_far, spots_standing, values_of};
ghost use Rattle.juniper_walk.specs.Budget.{fields_in, fields_in_all};
ghost use Rattle.juniper_conversions.specs.ErrorView.{view_listed};
ghost use Rattle.juniper_syntax.specs.TypeView.{view_type};
ghost use Rattle.juniper_syntax.specs.ValueView.{view_value};
ghost use Rattle.juniper_walk.specs.Walking.{IsReadyWalk};

use crate::adding::{add_value, put_leaf};
use crate::plan::{GroupNo, GroupRange, Plan};
use crate::preparing::{Prepared, Taken, step_below, take};
use crate::{Asked, AskedAll, Resolver, Site, Walk, Walked};
use juniper_assemble::Spot;
use juniper_conversions::ExecutionError;
use juniper_lookahead::Enclosing;
use juniper_syntax::{Object, ScalarValue, Value};
use std::alloc::{AllocError, Global};
use std::vec;

/// A node's object so far, or none where its null has risen, and what failed in it.
#[derive(Drop)]
pub(crate) struct Row<S> {
    pub(crate) object: Option<Object<S>>,
    pub(crate) errors: Vec<ExecutionError<S>>,
}

/// An answer that waits for the objects of its nodes.
#[derive(Drop)]
pub(crate) struct Opened<'a, N, S> {
    /// The number of the row whose node gave it.
    pub(crate) row: usize,
    /// What is left of it without them.
    pub(crate) prepared: Prepared<'a, N, S>,
}

/// What the nodes of rows answer to a group, as far as it is not in their objects.
#[derive(Drop)]
pub(crate) struct Column<'a, N, S> {
    /// The answers, in the order of the rows.
    pub(crate) opened: Vec<Opened<'a, N, S>>,
    /// Their nodes, in order, each at its place.
    pub(crate) nodes: Vec<Spot<'a, N>>,
}

/// So many objects without keys, which are to have those of these groups.
pub(crate) fn begin_rows<'d, 'a, S: ScalarValue, Q: Drop>(
    alloc: Global,
    plan: &Plan<'d, 'a, S, Q>,
    groups: GroupRange,
    count: usize,
) -> Result<Vec<Row<S>>, AllocError>
    ensures { IfOk result (λ rows. AreFresh S.shown count rows.items) }
{
    let mut rows = Vec::with_capacity(alloc, count)?;
    for _row in 0..count {
        let object = plan.new_object(alloc, groups)?;
        rows.push(Row {
            object: Some(object),
            errors: Vec::new(alloc),
        })?;
    }
    Ok(rows)
}

/// Puts a scalar into the object of a row, or another answer behind those that wait.
fn put_taken<'a, N: Drop, S: ScalarValue>(
    alloc: Global,
    number: usize,
    taken: Taken<'a, N, S>,
    row: &mut Row<S>,
    column: &mut Column<'a, N, S>,
) -> Result<(), AllocError>
    ensures { (o : Object S) → row.old.object ≡ Some o → OnOk result (IsPutIn S.shown number taken.entry o row.old row.new column.old column.new) }
{
    match taken {
        Taken::Leaf(key, scalar) => {
            put_in_row(alloc, row, key, scalar)?;
            Ok(())
        }
        Taken::Apart(prepared) => {
            let mut left = prepared;
            column.nodes.append(&mut left.nodes)?;
            column.opened.push(Opened {
                row: number,
                prepared: left,
            })?;
            Ok(())
        }
    }
}

/// Puts a scalar at a key of the object of a row.
fn put_in_row<S: ScalarValue>(
    alloc: Global,
    row: &mut Row<S>,
    key: &str,
    scalar: S,
) -> Result<(), AllocError>
    ensures { (o : Object S) → row.old.object ≡ Some o → OnOk result (IsLeafPut S.shown key.now scalar o row.old row.new) }
{
    match &mut row.object {
        Some(object) => put_leaf(alloc, object, key, scalar),
        None => Ok(()),
    }
}

/// The first of the nodes whose objects stand, at its place, if there is one.
fn first_standing<'n, 'a, N, S>(
    spots: &'n [Spot<'a, N>],
    rows: &[Row<S>],
) -> Option<&'n Spot<'a, N>>
    requires { length rows.now ≡ length spots.now }
    ensures { option_map (λ x. view_spot (λ n. n) x.now) result ≡ first_in (spots_standing rows.now (view_nodes spots.now)) }
{
    for number in 0..spots.len() {
        if rows[number].object.is_some() {
            let spot = &spots[number];
            return Some(spot);
        }
    }
    None
}

/// The nodes whose objects stand.
fn standing_nodes<'n, 'a, N, S>(
    alloc: Global,
    spots: &'n [Spot<'a, N>],
    rows: &[Row<S>],
) -> Result<Vec<&'n N>, AllocError>
    requires { length rows.now ≡ length spots.now }
    ensures { IfOk result (λ nodes. map (λ n. n.now) nodes.items ≡ nodes_standing rows.now (view_nodes spots.now)) }
{
    let mut nodes = Vec::with_capacity(alloc, spots.len())?;
    for number in 0..spots.len() {
        if rows[number].object.is_some() {
            let spot = &spots[number];
            nodes.push(&spot.what)?;
        }
    }
    Ok(nodes)
}

/// What a group answers of each node whose object stands, in their order. The path is that of the first of them.
fn ask_rows<'p, 'd, 'a, S: ScalarValue, R: Resolver<S>>(
    walk: &'p Walk<'_, 'd, 'a, S, R>,
    plan: &'p Plan<'d, 'a, S, R::Question>,
    concrete: &str,
    spots: &[Spot<'a, R::Node>],
    enclosing: &[Enclosing<'d, 'a, S>],
    group: GroupNo,
    first: &Spot<'a, R::Node>,
    rows: &[Row<S>],
) -> Result<AskedAll<'p, R::Node, S>, AllocError>
    requires ready { IsReadyWalk S.shown R.possible R.values (R.world walk.now.collector.possible) walk.now }
    requires standing { IsStanding S.shown walk.now.collector (R.asks walk.now.collector.possible) (R.possible walk.now.collector.possible) plan.now }
    requires bound { group.0 < group_count plan.now }
    requires whole { IsGroupOf (key_at plan.now group.0) (occurrences (R.possible walk.now.collector.possible) concrete.now
        (all_expanded S.shown walk.now.collector enclosing.now)) (group_at S.shown walk.now plan.now group.0) }
    requires asked { IsAskedAt (R.asks walk.now.collector.possible) concrete.now plan.now group.0
        (group_at S.shown walk.now plan.now group.0) }
    requires counted { length rows.now ≡ length spots.now }
    requires first { first_in (spots_standing rows.now (view_nodes spots.now)) ≡ Some (view_spot (λ n. n) first.now) }
    ensures declared { IfOk result (λ told. view_type (λ n. string_bytes n) told.declared.now ≡ type_of (R.world walk.now.collector.possible) concrete.now
        (group_at S.shown walk.now plan.now group.0)) }
    ensures answers { IfOk result (λ told. AllAnswer S.shown
        (λ m. reply_of (R.world walk.now.collector.possible) concrete.now m (group_at S.shown walk.now plan.now group.0))
        (nodes_standing rows.now (view_nodes spots.now)) told.answers.items) }
{
    let alloc = walk.alloc;
    let nodes = standing_nodes(alloc, spots, rows)?;
    let fields = plan.fields(group);
    let written = fields[0].field;
    let here = step_below(&first.path, written)?;
    let site = Site {
        fragments: walk.collector.fragments.by_name(),
        path: &here,
        enclosing,
        occurrences: fields,
    };
    let question = plan.question(group);
    let resolver = &walk.collector.possible;
    let told = resolver.ask_all(alloc, question, concrete, &nodes, &site)?;
    Ok(told)
}

/// Asks a group of each node whose object stands: a scalar that fits goes into the object, any other answer waits for its nodes. Where none
/// stands, nothing is asked.
pub(crate) fn ask_column<'d, 'a, S: ScalarValue, R: Resolver<S>>(
    walk: &Walk<'_, 'd, 'a, S, R>,
    plan: &Plan<'d, 'a, S, R::Question>,
    concrete: &str,
    spots: &[Spot<'a, R::Node>],
    enclosing: &[Enclosing<'d, 'a, S>],
    group: GroupNo,
    rows: &mut Vec<Row<S>>,
) -> Result<Column<'a, R::Node, S>, AllocError>
    requires ready { IsReadyWalk S.shown R.possible R.values (R.world walk.now.collector.possible) walk.now }
    requires standing { IsStanding S.shown walk.now.collector (R.asks walk.now.collector.possible) (R.possible walk.now.collector.possible) plan.now }
    requires bound { group.0 < group_count plan.now }
    requires whole { IsGroupOf (key_at plan.now group.0) (occurrences (R.possible walk.now.collector.possible) concrete.now
        (all_expanded S.shown walk.now.collector enclosing.now)) (group_at S.shown walk.now plan.now group.0) }
    requires asked { IsAskedAt (R.asks walk.now.collector.possible) concrete.now plan.now group.0
        (group_at S.shown walk.now plan.now group.0) }
    requires counted { length rows.old.items ≡ length spots.now }
    ensures counted { IfOk result (λ c. length rows.new.items ≡ length spots.now) }
    ensures within { IfOk result (λ c. AreIn (length spots.now) c.opened.items) }
    ensures pending { AsksColumn (R.world walk.now.collector.possible) (all_expanded S.shown walk.now.collector enclosing.now) concrete.now S.shown
        (key_at plan.now group.0) (group_at S.shown walk.now plan.now group.0) (view_nodes spots.now) rows.old.items rows.new.items result }
    ensures fields { IfOk result (λ c. row_fields S.shown rows.new.items + length c.opened.items ≤ row_fields S.shown rows.old.items + length spots.now) }
{
    match first_standing(spots, rows) {
        None => Ok(no_answers(walk.alloc)),
        Some(first) => {
            let column = ask_standing(walk, plan, concrete, spots, enclosing, group, first, rows)?;
            Ok(column)
        }
    }
}

/// No answers.
fn no_answers<'a, N, S>(alloc: Global) -> Column<'a, N, S>
    ensures opened { result.opened.items ≡ [] }
    ensures nodes { result.nodes.items ≡ [] }
{
    Column {
        opened: Vec::new(alloc),
        nodes: Vec::new(alloc),
    }
}

/// The same where an object stands; this is the first of their nodes.
fn ask_standing<'d, 'a, S: ScalarValue, R: Resolver<S>>(
    walk: &Walk<'_, 'd, 'a, S, R>,
    plan: &Plan<'d, 'a, S, R::Question>,
    concrete: &str,
    spots: &[Spot<'a, R::Node>],
    enclosing: &[Enclosing<'d, 'a, S>],
    group: GroupNo,
    first: &Spot<'a, R::Node>,
    rows: &mut Vec<Row<S>>,
) -> Result<Column<'a, R::Node, S>, AllocError>
    requires ready { IsReadyWalk S.shown R.possible R.values (R.world walk.now.collector.possible) walk.now }
    requires standing { IsStanding S.shown walk.now.collector (R.asks walk.now.collector.possible) (R.possible walk.now.collector.possible) plan.now }
    requires bound { group.0 < group_count plan.now }
    requires whole { IsGroupOf (key_at plan.now group.0) (occurrences (R.possible walk.now.collector.possible) concrete.now
        (all_expanded S.shown walk.now.collector enclosing.now)) (group_at S.shown walk.now plan.now group.0) }
    requires asked { IsAskedAt (R.asks walk.now.collector.possible) concrete.now plan.now group.0
        (group_at S.shown walk.now plan.now group.0) }
    requires counted { length rows.old.items ≡ length spots.now }
    requires first { first_in (spots_standing rows.old.items (view_nodes spots.now)) ≡ Some (view_spot (λ n. n) first.now) }
    ensures counted { IfOk result (λ c. length rows.new.items ≡ length spots.now) }
    ensures within { IfOk result (λ c. AreIn (length spots.now) c.opened.items) }
    ensures pending { AsksColumn (R.world walk.now.collector.possible) (all_expanded S.shown walk.now.collector enclosing.now) concrete.now S.shown
        (key_at plan.now group.0) (group_at S.shown walk.now plan.now group.0) (view_nodes spots.now) rows.old.items rows.new.items result }
    ensures fields { IfOk result (λ c. row_fields S.shown rows.new.items + length c.opened.items ≤ row_fields S.shown rows.old.items + length spots.now) }
{
    let mut column = no_answers(walk.alloc);
    let all = ask_rows(walk, plan, concrete, spots, enclosing, group, first, rows)?;
    let declared = all.declared;
    let mut told = all.answers.into_iter();
    for number in 0..spots.len() {
        if rows[number].object.is_some() {
            let Some(answer) = told.next() else {
                return Ok(column);
            };
            let asked = Asked { declared, answer };
            let spot = &spots[number];
            let taken = take(walk, plan, &spot.path, group, asked)?;
            put_taken(walk.alloc, number, taken, &mut rows[number], &mut column)?;
        }
    }
    Ok(column)
}

/// Fills the answers that wait with the objects of their nodes, and puts each into the object of its row, unless its null rises.
pub(crate) fn fill_rows<'a, N: Drop, S: ScalarValue>(
    alloc: Global,
    opened: Vec<Opened<'a, N, S>>,
    below: Vec<Walked<S>>,
    rows: &mut Vec<Row<S>>,
) -> Result<(), AllocError>
    requires within { AreIn (length rows.old.items) opened.items }
    ensures counted { OnOk result (length rows.new.items ≡ length rows.old.items) }
    ensures rows { FillsRows S.shown rows.old.items rows.new.items opened.entry.items below.items result }
    ensures fields { OnOk result (row_fields S.shown rows.new.items
        ≤ row_fields S.shown rows.old.items + length opened.entry.items + fields_in_all (values_of S.shown below.items)) }
{
    let mut objects = below.into_iter();
    for open in opened {
        fill_row(alloc, open.prepared, &mut objects, &mut rows[open.row])?;
    }
    Ok(())
}

/// Puts an answer, filled with the first of these objects, into the object of a row, unless its null rises.
fn fill_row<'a, N: Drop, S: ScalarValue>(
    alloc: Global,
    prepared: Prepared<'a, N, S>,
    objects: &mut vec::IntoIter<Walked<S>>,
    row: &mut Row<S>,
) -> Result<(), AllocError>
    ensures filled { (o : Object S) → row.old.object ≡ Some o → OnOk result (IsFilledIn S.shown prepared.entry (into_iter_items objects.old)
        (into_iter_items objects.new) o row.old row.new) }
    ensures fields { OnOk result (fields_in (so_far S.shown row.new.object) + fields_in_all (values_of S.shown (into_iter_items objects.new))
        ≤ suc (fields_in (so_far S.shown row.old.object) + fields_in_all (values_of S.shown (into_iter_items objects.old)))) }
{
    let Some(mut entries) = row.object.take() else {
        return Ok(());
    };
    let rises = add_value(alloc, &mut entries, &mut row.errors, prepared, objects)?;
    if !rises {
        row.object = Some(entries);
    }
    Ok(())
}

/// Puts the objects of rows behind those that are there.
pub(crate) fn end_rows<S: ScalarValue>(
    rows: Vec<Row<S>>,
    done: &mut Vec<Walked<S>>,
) -> Result<(), AllocError>
    ensures values { OnOk result (values_of S.shown done.new.items ≡ values_of S.shown done.old.items ++ map (λ r. so_far S.shown r.object) rows.items) }
    ensures listed { OnOk result (listed_of S.shown done.new.items
        ≡ listed_of S.shown done.old.items ++ map (λ r. map (view_listed S.shown) r.errors.items) rows.items) }
{
    for row in rows {
        let value = value_of(row.object);
        done.push(Walked {
            value,
            errors: row.errors,
        })?;
    }
    Ok(())
}

/// The object, or null where there is none.
fn value_of<S: ScalarValue>(object: Option<Object<S>>) -> Value<S>
    ensures { view_value S.shown result ≡ so_far S.shown object }
{
    match object {
        Some(entries) => Value::Object(entries),
        None => Value::Null,
    }
}
