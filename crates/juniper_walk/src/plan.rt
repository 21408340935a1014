//! The plan of a request: the response keys of its objects, and the fields of each (CollectFields, section 6.3.2 of the
//! Specification).

ghost use Rattle.std.specs.Prelude.{◌≡◌, ◌<◌, ◌≤◌, ◌+◌, ◌-◌, ◌*◌, ◌∷◌, IfNone, IfOk, IfSome, MatchResult, OnOk, [], drop, length, slice_range};
ghost use Rattle.graphql_spec.specs.Values.{no_entries};
ghost use Rattle.juniper_syntax.specs.ValueView.{view_object};
ghost use Rattle.juniper_walk.specs.Budget.{most_fields};
ghost use Rattle.juniper_walk.specs.Plans.{IsBare, IsCharged, IsEnded, IsKept, IsOneAdded, IsWithin, fields_at, group_count, key_at, made_at};
ghost use Rattle.juniper_walk.specs.PlanLists.{named_in};

use crate::Stop;
use juniper_lookahead::{Collected, Occurrence};
use juniper_syntax::{Field, Object, ScalarValue, SharedKeys, Span, Spanning};
use std::alloc::{AllocError, Global};

/// So many bytes of written arguments a plan keeps for the first of its groups.
const ROOM: usize = 65_536;

/// The number of a group in a plan, counted from 0.
#[derive(Clone, Copy)]
pub struct GroupNo(pub usize);

/// The number of an occurrence in a plan, counted from 0.
#[derive(Clone, Copy)]
pub struct OccNo(pub usize);

/// Groups that stand one behind the other: those of an object.
#[derive(Clone, Copy)]
pub struct GroupRange {
    /// The first of them.
    pub first: GroupNo,
    /// The one behind the last.
    pub end: GroupNo,
}

impl GroupRange {
    // How many there are.
    fn count(self) -> usize
        ensures { result ≡ self.end.0 - self.first.0 }
    {
        self.end.0.saturating_sub(self.first.0)
    }
}

/// The fields of one response key.
#[derive(Clone, Copy)]
pub struct Group<'a> {
    /// The response key.
    pub(crate) key: &'a str,
    /// The first of its fields.
    pub(crate) first: OccNo,
    /// The one behind the last.
    pub(crate) end: OccNo,
}

/// The groups below a group, for the nodes of one object type.
#[derive(Drop)]
pub struct Below {
    /// The object type.
    pub(crate) concrete: String,
    /// The groups.
    pub(crate) groups: GroupRange,
}

/// All groups and all occurrences that were met in a request so far.
#[derive(Drop)]
pub struct Plan<'d, 'a, S, Q> {
    /// The groups; those of an object stand one behind the other.
    pub(crate) groups: Vec<Group<'a>>,
    /// The fields; those of a group stand one behind the other.
    pub(crate) occurrences: Vec<Occurrence<'d, 'a, S>>,
    /// For each group, by its number: what is asked of every node.
    pub(crate) questions: Vec<Q>,
    /// For each group, by its number: what was made below it.
    pub(crate) below: Vec<Vec<Below>>,
    /// By the number of the first group of an object below a group: the keys of the object. They are but a hint to its objects.
    pub(crate) keys: Vec<Option<SharedKeys>>,
    /// How many fields may still be entered.
    pub(crate) left: usize,
}

impl<'d, 'a, S: ScalarValue, Q: Drop> Plan<'d, 'a, S, Q> {
    /// A plan without groups, by which so many fields may be entered, or without a budget any number.
    pub fn new(alloc: Global, fields: Option<usize>) -> Plan<'d, 'a, S, Q>
        ensures { IsBare (most_fields fields) result }
    {
        Plan {
            groups: Vec::new(alloc),
            occurrences: Vec::new(alloc),
            questions: Vec::new(alloc),
            below: Vec::new(alloc),
            keys: Vec::new(alloc),
            left: fields.unwrap_or(usize::MAX),
        }
    }

    /// The same with room for so many groups of one field each. An error where memory is refused.
    pub fn with_capacity(
        alloc: Global,
        capacity: usize,
        fields: Option<usize>,
    ) -> Result<Plan<'d, 'a, S, Q>, AllocError>
        ensures { IfOk result (λ plan. IsBare (most_fields fields) plan) }
    {
        Ok(Plan {
            groups: Vec::with_capacity(alloc, capacity)?,
            occurrences: Vec::with_capacity(alloc, capacity)?,
            questions: Vec::with_capacity(alloc, capacity)?,
            below: Vec::with_capacity(alloc, capacity)?,
            keys: Vec::new(alloc),
            left: fields.unwrap_or(usize::MAX),
        })
    }

    /// How many bytes of written arguments one more group may keep for all of its nodes: the more groups there are, the fewer, so that all
    /// together keep few. Nothing rests on it.
    pub(crate) fn room(&self) -> usize {
        ROOM.checked_div(self.groups.len()).unwrap_or(ROOM)
    }

    // What is left behind the fields of so many objects, which have these groups; none where fewer are left.
    fn left_after(&self, objects: usize, groups: GroupRange) -> Option<usize>
        ensures some { IfSome result (λ left. left + objects * (groups.end.0 - groups.first.0) ≡ self.now.left) }
        ensures none { IfNone result (self.now.left < objects * (groups.end.0 - groups.first.0)) }
    {
        let left = self.left;
        match objects.checked_mul(groups.count()) {
            Some(fields) => {
                if fields <= left {
                    Some(left - fields)
                } else {
                    None
                }
            }
            None => None,
        }
    }

    /// Takes the fields of so many objects, which have these groups, off those that may still be entered; an error where fewer are left.
    pub(crate) fn charge(&mut self, objects: usize, groups: GroupRange) -> Result<(), Stop>
        ensures { MatchResult result
            (λ _. IsCharged (objects * (groups.end.0 - groups.first.0)) self.old self.new)
            (λ _. self.old.left < objects * (groups.end.0 - groups.first.0)) }
    {
        match self.left_after(objects, groups) {
            Some(left) => {
                self.left = left;
                Ok(())
            }
            None => Err(Stop::Spent),
        }
    }

    /// The fields of a group, in order.
    pub fn fields(&self, group: GroupNo) -> &[Occurrence<'d, 'a, S>]
        requires bound { group.0 < group_count self.now }
        requires within { IsWithin self.now }
        ensures { result.now ≡ fields_at self.now group.0 }
    {
        let found = self.groups[group.0];
        part_of(self.occurrences.as_slice(), found.first.0, found.end.0)
    }

    /// The response key of a group.
    pub fn key(&self, group: GroupNo) -> &'a str
        requires { group.0 < group_count self.now }
        ensures { result.now ≡ key_at self.now group.0 }
    {
        let found = self.groups[group.0];
        found.key
    }

    /// What is asked of every node for a group.
    pub fn question(&self, group: GroupNo) -> &Q
        requires { group.0 < length self.now.questions.items }
        ensures { drop group.0 self.now.questions.items ≡ result.now ∷ drop (group.0 + 1) self.now.questions.items }
    {
        &self.questions[group.0]
    }

    /// What was made below a group for the nodes of an object type, if it was.
    pub(crate) fn made_below(&self, group: GroupNo, concrete: &str) -> Option<GroupRange>
        requires { group.0 < length self.now.below.items }
        ensures { result ≡ named_in concrete.now (made_at self.now group.0) }
    {
        let made = &self.below[group.0];
        find_made(made, concrete)
    }

    /// An object without entries, which is to have the keys of these groups.
    pub(crate) fn new_object(
        &self,
        alloc: Global,
        groups: GroupRange,
    ) -> Result<Object<S>, AllocError>
        ensures { IfOk result (λ object. view_object S.shown object ≡ no_entries) }
    {
        match self.keys.get(groups.first.0) {
            Some(kept) => match kept {
                Some(keys) => Object::hinted(alloc, keys),
                None => Object::with_capacity(alloc, groups.count()),
            },
            None => Object::with_capacity(alloc, groups.count()),
        }
    }

    // The keys of groups, for their objects to share.
    fn shared_keys(&self, alloc: Global, groups: GroupRange) -> Result<SharedKeys, AllocError> {
        let mut names = Vec::with_capacity(alloc, groups.count())?;
        for number in groups.first.0..groups.end.0 {
            match self.groups.get(number) {
                Some(group) => names.push(group.key)?,
                None => {}
            }
        }
        SharedKeys::new(alloc, names.as_slice())
    }

    /// Keeps what was made below a group for the nodes of an object type.
    pub(crate) fn keep_below(
        &mut self,
        alloc: Global,
        group: GroupNo,
        concrete: &str,
        groups: GroupRange,
    ) -> Result<(), AllocError>
        requires { group.0 < length self.old.below.items }
        ensures { OnOk result (IsKept group.0 concrete.now groups self.old self.new) }
    {
        let keys = self.shared_keys(alloc, groups)?;
        keep_keys(&mut self.keys, groups, keys)?;
        let concrete = String::from_str(alloc, concrete)?;
        let made = &mut self.below[group.0];
        made.push(Below { concrete, groups })?;
        Ok(())
    }

    /// Adds a group of a response key, with what is asked for it.
    pub(crate) fn add_group(
        &mut self,
        alloc: Global,
        key: &'a str,
        fields: Collected<'d, 'a, S>,
        question: Q,
    ) -> Result<(), AllocError>
        ensures { OnOk result (IsOneAdded key.now fields.entry.items question self.old self.new) }
    {
        let mut added = fields;
        let first = OccNo(self.occurrences.len());
        self.occurrences.append(&mut added)?;
        self.end_group(alloc, key, first, question)?;
        Ok(())
    }

    /// Adds a group of one field, with what is asked for it.
    pub(crate) fn add_field(
        &mut self,
        alloc: Global,
        key: &'a str,
        field: &'d Spanning<Field<'a, S>, Span>,
        question: Q,
    ) -> Result<(), AllocError>
        ensures { OnOk result (IsOneAdded key.now (record { field = field.entry } ∷ []) question self.old self.new) }
    {
        let first = OccNo(self.occurrences.len());
        self.occurrences.push(Occurrence { field })?;
        self.end_group(alloc, key, first, question)?;
        Ok(())
    }

    /// Makes a group of the fields from this one on.
    fn end_group(
        &mut self,
        alloc: Global,
        key: &'a str,
        first: OccNo,
        question: Q,
    ) -> Result<(), AllocError>
        ensures { OnOk result (IsEnded key.now first question self.old self.new) }
    {
        let end = OccNo(self.occurrences.len());
        self.groups.push(Group { key, first, end })?;
        self.questions.push(question)?;
        self.below.push(Vec::new(alloc))?;
        Ok(())
    }
}

// Keeps the keys of an object at the number of its first group.
fn keep_keys(
    kept: &mut Vec<Option<SharedKeys>>,
    groups: GroupRange,
    keys: SharedKeys,
) -> Result<(), AllocError> {
    for _number in kept.len()..groups.first.0 {
        kept.push(None)?;
    }
    if kept.len() == groups.first.0 && groups.first.0 < groups.end.0 {
        kept.push(Some(keys))?;
    }
    Ok(())
}

/// A part of a list.
fn part_of<'p, 'd, 'a, S>(
    fields: &'p [Occurrence<'d, 'a, S>],
    first: usize,
    end: usize,
) -> &'p [Occurrence<'d, 'a, S>]
    requires ordered { first ≤ end }
    requires inside { end ≤ length fields.now }
    ensures { result.now ≡ slice_range fields.now first end }
{
    &fields[first..end]
}

/// What was made for the nodes of an object type, if it was.
fn find_made(made: &[Below], concrete: &str) -> Option<GroupRange>
    ensures { result ≡ named_in concrete.now made.now }
{
    for below in made {
        if below.concrete.as_str() == concrete {
            return Some(below.groups);
        }
    }
    None
}
