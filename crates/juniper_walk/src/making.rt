//! Groups are made: those of a request's root, and those below a group for the nodes of one object type (CollectFields and
//! MergeSelectionSets, sections 6.3.2 and 6.4.3 of the Specification).

ghost use Rattle.std.specs.Prelude.{◌≡◌, ◌+◌, ◌-◌, ◌*◌, ◌<◌, ◌≤◌, [], ◌++◌, cond, IfOk, OnOk, length, map, take, true};
ghost use Rattle.std.specs.List.{IsDistinct, filter, list_any};
ghost use Rattle.std.specs.Str.{bytes_eq};
ghost use Rattle.graphql_spec.specs.Documents.{response_key};
ghost use Rattle.graphql_spec.specs.Shown.{Name};
ghost use Rattle.graphql_spec.specs.Selections.{all_below, occurrences};
ghost use Rattle.juniper_lookahead.specs.Collected.{IsReady, expansion, view_all};
ghost use Rattle.juniper_syntax.specs.DocumentView.{view_selections};
ghost use Rattle.juniper_walk.specs.Entered.{EntersAtMost, own_fields};
ghost use Rattle.juniper_walk.specs.FieldWords.{fields_at as fields_in, head_of};
ghost use Rattle.juniper_walk.specs.PlanLists.{rises};
ghost use Rattle.juniper_walk.specs.Plans.{AreAdded, IsGroupAdded, IsMade, IsMadeOf, IsStanding, all_expanded, fields_at, group_count};

use crate::plan::{GroupNo, GroupRange, Plan};
use crate::{Groups, Resolver, Stop, Walk, group_fields, selections_of};
use juniper_lookahead::{Collected, Collector, Conditions, Enclosing, Occurrence, collect_fields};
use juniper_syntax::{Field, ScalarValue, name_number};
use std::alloc::{AllocError, Global};

/// The fields that selections hold for an object type, one slice after the other.
pub(crate) fn collect_all<'d, 'a, S: ScalarValue, R: Conditions>(
    alloc: Global,
    collector: &Collector<'_, 'd, 'a, S, R>,
    concrete: &str,
    enclosing: &[Enclosing<'d, 'a, S>],
) -> Result<Collected<'d, 'a, S>, AllocError>
    requires { IsReady S.shown collector.now }
    ensures { IfOk result (λ r. view_all S.shown collector.now r.items
        ≡ occurrences (R.possible collector.now.possible) concrete.now (all_expanded S.shown collector.now enclosing.now)) }
{
    if let [only] = enclosing {
        let found = collect_fields(alloc, collector, concrete, only.selections)?;
        return Ok(found);
    }
    let mut fields = Vec::new(alloc);
    for around in enclosing {
        let mut more = collect_fields(alloc, collector, concrete, around.selections)?;
        fields.append(&mut more)?;
    }
    Ok(fields)
}

/// Takes the fields of a response key out: the key then has none, and the others keep theirs.
fn take_fields<'d, 'a, S>(
    alloc: Global,
    groups: &mut Groups<'d, 'a, S>,
    key: &str,
) -> Collected<'d, 'a, S>
    ensures fields { result.items ≡ fields_in groups.old key.now }
    ensures taken { (k : Name) → fields_in groups.new k ≡ cond (bytes_eq key.now k) [] (fields_in groups.old k) }
{
    match groups.remove(key) {
        Some(fields) => fields,
        None => Vec::new(alloc),
    }
}

/// Adds a group of a response key, with what its first field asks of the nodes of an object type; none where it has no fields.
fn add_members<'d, 'a, S: ScalarValue, R: Resolver<S>>(
    alloc: Global,
    collector: &Collector<'_, 'd, 'a, S, R>,
    plan: &mut Plan<'d, 'a, S, R::Question>,
    concrete: &str,
    key: &'a str,
    fields: Collected<'d, 'a, S>,
) -> Result<(), AllocError>
    ensures { OnOk result (IsGroupAdded S.shown (R.asks collector.now.possible concrete.now) key.now fields.entry.items plan.old plan.new) }
{
    if fields.is_empty() {
        return Ok(());
    }
    let first = fields[0].field;
    let question = collector
        .possible
        .question(alloc, concrete, first, plan.room())?;
    plan.add_group(alloc, key, fields, question)?;
    Ok(())
}

/// Adds the groups of these fields of an object type, in the order in which their response keys come first; the time grows with the number of
/// fields and its logarithm, whatever the keys are.
pub(crate) fn add_groups<'d, 'a, S: ScalarValue, R: Resolver<S>>(
    alloc: Global,
    collector: &Collector<'_, 'd, 'a, S, R>,
    plan: &mut Plan<'d, 'a, S, R::Question>,
    concrete: &str,
    fields: &[Occurrence<'d, 'a, S>],
) -> Result<GroupRange, AllocError>
    requires { IsStanding S.shown collector.now (R.asks collector.now.possible) (R.possible collector.now.possible) plan.old }
    ensures { IfOk result (λ r. IsMade S.shown collector.now (R.asks collector.now.possible) (R.possible collector.now.possible) concrete.now
        (view_all S.shown collector.now fields.now) plan.old plan.new r × (plan.new.left ≡ plan.old.left)) }
{
    let first = GroupNo(plan.groups.len());
    if keys_differ(alloc, fields)? {
        add_each(alloc, collector, plan, concrete, fields)?;
    } else if fields.len() <= FEW {
        add_few(alloc, collector, plan, concrete, fields)?;
    } else {
        add_grouped(alloc, collector, plan, concrete, fields)?;
    }
    let end = GroupNo(plan.groups.len());
    Ok(GroupRange { first, end })
}

/// So many fields are compared one by one.
const FEW: usize = 8;

/// Whether no two of the fields have one response key. Of many it is asked by numbers of the keys: `false` also where two keys have one
/// number.
fn keys_differ<'d, 'a, S: ScalarValue>(
    alloc: Global,
    fields: &[Occurrence<'d, 'a, S>],
) -> Result<bool, AllocError>
    ensures { IfOk result (λ b. b ≡ true → IsDistinct bytes_eq (map (λ o. response_key (head_of S.shown o.field.now)) fields.now)) }
{
    if fields.len() <= FEW {
        return Ok(few_differ(fields));
    }
    let mut numbers = Vec::with_capacity(alloc, fields.len())?;
    for occurrence in fields {
        numbers.push(name_number(Field::response_key(occurrence.field)))?;
    }
    numbers.sort_unstable();
    Ok(do_rise(&numbers))
}

/// Whether no two of the fields have one response key, each compared with those behind it.
fn few_differ<'d, 'a, S: ScalarValue>(fields: &[Occurrence<'d, 'a, S>]) -> bool
    ensures { result ≡ true → IsDistinct bytes_eq (map (λ o. response_key (head_of S.shown o.field.now)) fields.now) }
{
    match fields {
        [] => true,
        [first, rest @ ..] => !has_key(rest, Field::response_key(first.field)) && few_differ(rest),
    }
}

/// Whether one of the fields has this response key.
fn has_key<'d, 'a, S: ScalarValue>(fields: &[Occurrence<'d, 'a, S>], key: &str) -> bool
    ensures { result ≡ list_any (bytes_eq key.now) (map (λ o. response_key (head_of S.shown o.field.now)) fields.now) }
{
    for occurrence in fields {
        if key == Field::response_key(occurrence.field) {
            return true;
        }
    }
    false
}

/// Whether each of the numbers is less than the next.
fn do_rise(numbers: &[u64]) -> bool
    ensures { result ≡ rises numbers.now }
{
    for index in 1..numbers.len() {
        if numbers[index - 1] >= numbers[index] {
            return false;
        }
    }
    true
}

/// Adds the groups of fields of which no two have one response key: each is one field.
fn add_each<'d, 'a, S: ScalarValue, R: Resolver<S>>(
    alloc: Global,
    collector: &Collector<'_, 'd, 'a, S, R>,
    plan: &mut Plan<'d, 'a, S, R::Question>,
    concrete: &str,
    fields: &[Occurrence<'d, 'a, S>],
) -> Result<(), AllocError>
    requires standing { IsStanding S.shown collector.now (R.asks collector.now.possible) (R.possible collector.now.possible) plan.old }
    requires differ { IsDistinct bytes_eq (map (λ o. response_key (head_of S.shown o.field.now)) fields.now) }
    ensures { OnOk result (AreAdded S.shown collector.now (R.asks collector.now.possible) (R.possible collector.now.possible) concrete.now
        (view_all S.shown collector.now fields.now) plan.old plan.new) }
{
    for occurrence in fields {
        let field = occurrence.field;
        let question = collector
            .possible
            .question(alloc, concrete, field, plan.room())?;
        plan.add_field(alloc, Field::response_key(field), field, question)?;
    }
    Ok(())
}

/// Adds the groups of a few fields, each compared with the others.
fn add_few<'d, 'a, S: ScalarValue, R: Resolver<S>>(
    alloc: Global,
    collector: &Collector<'_, 'd, 'a, S, R>,
    plan: &mut Plan<'d, 'a, S, R::Question>,
    concrete: &str,
    fields: &[Occurrence<'d, 'a, S>],
) -> Result<(), AllocError>
    requires { IsStanding S.shown collector.now (R.asks collector.now.possible) (R.possible collector.now.possible) plan.old }
    ensures { OnOk result (AreAdded S.shown collector.now (R.asks collector.now.possible) (R.possible collector.now.possible) concrete.now
        (view_all S.shown collector.now fields.now) plan.old plan.new) }
{
    for place in 0..fields.len() {
        let key = Field::response_key(fields[place].field);
        let members = new_members(alloc, fields, place, key)?;
        add_members(alloc, collector, plan, concrete, key, members)?;
    }
    Ok(())
}

/// The fields of a response key, where none of the first so many has it; else none.
fn new_members<'d, 'a, S: ScalarValue>(
    alloc: Global,
    fields: &[Occurrence<'d, 'a, S>],
    place: usize,
    key: &str,
) -> Result<Collected<'d, 'a, S>, AllocError>
    requires { place ≤ length fields.now }
    ensures { IfOk result (λ r. r.items
        ≡ cond (list_any (bytes_eq key.now) (map (λ o. response_key (head_of S.shown o.field.now)) (take place fields.now))) []
        (filter (λ o. bytes_eq key.now (response_key (head_of S.shown o.field.now))) fields.now)) }
{
    if has_key(&fields[..place], key) {
        Ok(Vec::new(alloc))
    } else {
        fields_of(alloc, fields, key)
    }
}

/// The fields of a response key.
fn fields_of<'d, 'a, S: ScalarValue>(
    alloc: Global,
    fields: &[Occurrence<'d, 'a, S>],
    key: &str,
) -> Result<Collected<'d, 'a, S>, AllocError>
    ensures { IfOk result (λ r. r.items ≡ filter (λ o. bytes_eq key.now (response_key (head_of S.shown o.field.now))) fields.now) }
{
    let mut members = Vec::new(alloc);
    for occurrence in fields {
        let field = occurrence.field;
        if key == Field::response_key(field) {
            members.push(Occurrence { field })?;
        }
    }
    Ok(members)
}

/// Adds the groups of any fields, put together by their response keys.
fn add_grouped<'d, 'a, S: ScalarValue, R: Resolver<S>>(
    alloc: Global,
    collector: &Collector<'_, 'd, 'a, S, R>,
    plan: &mut Plan<'d, 'a, S, R::Question>,
    concrete: &str,
    fields: &[Occurrence<'d, 'a, S>],
) -> Result<(), AllocError>
    requires { IsStanding S.shown collector.now (R.asks collector.now.possible) (R.possible collector.now.possible) plan.old }
    ensures { OnOk result (AreAdded S.shown collector.now (R.asks collector.now.possible) (R.possible collector.now.possible) concrete.now
        (view_all S.shown collector.now fields.now) plan.old plan.new) }
{
    let mut by_key = group_fields(alloc, fields)?;
    for occurrence in fields {
        let key = Field::response_key(occurrence.field);
        let members = take_fields(alloc, &mut by_key, key);
        add_members(alloc, collector, plan, concrete, key, members)?;
    }
    Ok(())
}

/// The groups that selections hold for an object type, made anew.
fn root_groups<'d, 'a, S: ScalarValue, R: Resolver<S>>(
    alloc: Global,
    collector: &Collector<'_, 'd, 'a, S, R>,
    plan: &mut Plan<'d, 'a, S, R::Question>,
    concrete: &str,
    enclosing: &[Enclosing<'d, 'a, S>],
) -> Result<GroupRange, AllocError>
    requires ready { IsReady S.shown collector.now }
    requires standing { IsStanding S.shown collector.now (R.asks collector.now.possible) (R.possible collector.now.possible) plan.old }
    ensures { IfOk result (λ r. IsMadeOf S.shown collector.now (R.asks collector.now.possible) (R.possible collector.now.possible)
        concrete.now enclosing.now plan.old plan.new r × (plan.new.left ≡ plan.old.left)) }
{
    let fields = collect_all(alloc, collector, concrete, enclosing)?;
    let groups = add_groups(alloc, collector, plan, concrete, &fields)?;
    Ok(groups)
}

/// The groups below a group for the nodes of an object type, of what all of its fields select, one after the other. They are made where
/// such a node is met first.
fn groups_below<'d, 'a, S: ScalarValue, R: Resolver<S>>(
    walk: &Walk<'_, 'd, 'a, S, R>,
    plan: &mut Plan<'d, 'a, S, R::Question>,
    group: GroupNo,
    concrete: &str,
    enclosing: &[Enclosing<'d, 'a, S>],
) -> Result<GroupRange, AllocError>
    requires ready { IsReady S.shown walk.now.collector }
    requires standing { IsStanding S.shown walk.now.collector (R.asks walk.now.collector.possible) (R.possible walk.now.collector.possible) plan.old }
    requires bound { group.0 < group_count plan.old }
    requires selected { all_expanded S.shown walk.now.collector enclosing.now ≡ all_below (view_all S.shown walk.now.collector (fields_at plan.old group.0)) }
    ensures { IfOk result (λ r. IsMadeOf S.shown walk.now.collector (R.asks walk.now.collector.possible) (R.possible walk.now.collector.possible)
        concrete.now enclosing.now plan.old plan.new r × (plan.new.left ≡ plan.old.left)) }
{
    match plan.made_below(group, concrete) {
        Some(groups) => Ok(groups),
        None => {
            let groups = root_groups(walk.alloc, &walk.collector, plan, concrete, enclosing)?;
            plan.keep_below(walk.alloc, group, concrete, groups)?;
            Ok(groups)
        }
    }
}

/// The groups that selections hold for an object type, made anew for an object that is entered: its fields are taken off those that may be.
pub fn enter_root<'d, 'a, S: ScalarValue, R: Resolver<S>>(
    alloc: Global,
    collector: &Collector<'_, 'd, 'a, S, R>,
    plan: &mut Plan<'d, 'a, S, R::Question>,
    concrete: &str,
    enclosing: &[Enclosing<'d, 'a, S>],
) -> Result<GroupRange, Stop>
    requires ready { IsReady S.shown collector.now }
    requires standing { IsStanding S.shown collector.now (R.asks collector.now.possible) (R.possible collector.now.possible) plan.old }
    ensures made { IfOk result (λ r. IsMadeOf S.shown collector.now (R.asks collector.now.possible) (R.possible collector.now.possible)
        concrete.now enclosing.now plan.old plan.new r) }
    ensures counted { IfOk result (λ r. plan.new.left + (r.end.0 - r.first.0) ≤ plan.old.left) }
    ensures entered { EntersAtMost plan.old.left plan.new.left (own_fields (R.possible collector.now.possible) concrete.now
        (all_expanded S.shown collector.now enclosing.now)) result }
{
    let groups = root_groups(alloc, collector, plan, concrete, enclosing)?;
    plan.charge(1, groups)?;
    Ok(groups)
}

/// The groups below a group for so many nodes of an object type, whose objects are entered: their fields are taken off those that may be.
pub(crate) fn enter_below<'d, 'a, S: ScalarValue, R: Resolver<S>>(
    walk: &Walk<'_, 'd, 'a, S, R>,
    plan: &mut Plan<'d, 'a, S, R::Question>,
    group: GroupNo,
    concrete: &str,
    enclosing: &[Enclosing<'d, 'a, S>],
    objects: usize,
) -> Result<GroupRange, Stop>
    requires ready { IsReady S.shown walk.now.collector }
    requires standing { IsStanding S.shown walk.now.collector (R.asks walk.now.collector.possible) (R.possible walk.now.collector.possible) plan.old }
    requires bound { group.0 < group_count plan.old }
    requires selected { all_expanded S.shown walk.now.collector enclosing.now ≡ all_below (view_all S.shown walk.now.collector (fields_at plan.old group.0)) }
    ensures made { IfOk result (λ r. IsMadeOf S.shown walk.now.collector (R.asks walk.now.collector.possible) (R.possible walk.now.collector.possible)
        concrete.now enclosing.now plan.old plan.new r) }
    ensures counted { IfOk result (λ r. plan.new.left + objects * (r.end.0 - r.first.0) ≤ plan.old.left) }
    ensures entered { EntersAtMost plan.old.left plan.new.left (objects * own_fields (R.possible walk.now.collector.possible) concrete.now
        (all_expanded S.shown walk.now.collector enclosing.now)) result }
{
    let groups = groups_below(walk, plan, group, concrete, enclosing)?;
    plan.charge(objects, groups)?;
    Ok(groups)
}

/// What the fields select, one after the other.
pub(crate) fn merge_selection_sets<'d, 'a, S: ScalarValue, R>(
    alloc: Global,
    collector: &Collector<'_, 'd, 'a, S, R>,
    fields: &[Occurrence<'d, 'a, S>],
) -> Result<Vec<Enclosing<'d, 'a, S>>, AllocError>
    ensures { IfOk result (λ made. all_expanded S.shown collector.now made.items ≡ all_below (view_all S.shown collector.now fields.now)) }
{
    let mut made = Vec::with_capacity(alloc, fields.len())?;
    for occurrence in fields {
        let selections = selections_of(occurrence.field);
        made.push(Enclosing { selections })?;
    }
    Ok(made)
}
