//! What look-ahead shows of a field while memory is wanting.

ghost use Rattle.juniper_lookahead.specs.Expansion.{IsAcyclic};
ghost use Rattle.juniper_syntax.specs.Scalars.{default_shown};

use crate::inputs::{Scalar, read_field};
use crate::turns::{Ended, Room, Task, Turn, tried};
use juniper_language::{Field, Fragments, Variables};
use juniper_lookahead::{LookAheadChildren, LookAheadSelection};
use std::alloc::{AllocError, Global};
use std::collections::HashMap;

/// What is asked of a selection.
#[derive(Clone, Copy)]
enum Asked {
    /// Its children.
    Children,
    /// Those for the type `Human`.
    OfHumans,
    /// A copy of its children.
    Copy,
}

/// A selection, what is asked of it, and the names of what is answered.
#[derive(Drop)]
struct Looking<'r, 'd, 'a> {
    selection: LookAheadSelection<'r, 'd, 'a, Scalar>,
    asked: Asked,
    expected: &'static str,
}

/// The children of a field, some of them inside fragments.
const FIELD: &str = r#"{ hero(first: 2) {
  id name own: age ... { height } ... on Human { home { id } ... on Droid { model } last: name }
  left @skip(if: true) ... on Droid @include(if: false) { far } friends { name } ... on Human { end }
} }"#;

/// The names of all children.
const ALL: &str = "id name own height home model last friends end ";

/// The names of those for humans.
const HUMANS: &str = "id name own height home last friends end ";

impl<'r, 'd, 'a> Task for Looking<'r, 'd, 'a> {
    fn turn(&mut self, alloc: Global, room: Room) -> Turn {
        match self.asked {
            Asked::Children => {
                let held_back = room.hold_back(alloc);
                let outcome = self.selection.children(alloc);
                drop(held_back);
                self.ending(alloc, outcome)
            }
            Asked::OfHumans => {
                let held_back = room.hold_back(alloc);
                let outcome = self.selection.children_for_explicit_type(alloc, "Human");
                drop(held_back);
                self.ending(alloc, outcome)
            }
            Asked::Copy => match self.selection.children(alloc) {
                Ok(children) => self.copying(alloc, room, &children),
                Err(_) => Turn::Wrong,
            },
        }
    }
}

impl<'r, 'd, 'a> Looking<'r, 'd, 'a> {
    /// How a turn ended that answered these children. The selection is as it was where the room is ample.
    fn ending(
        &self,
        alloc: Global,
        outcome: Result<LookAheadChildren<'r, 'd, 'a, Scalar>, AllocError>,
    ) -> Turn {
        if self.selection.field_name() != "hero" || !self.selection.has_arguments() {
            return Turn::Wrong;
        }
        match outcome {
            Ok(children) if are_named(alloc, &children, self.expected) => Turn::Answered,
            Ok(_) => Turn::Wrong,
            Err(_) => Turn::Refused,
        }
    }

    /// How a turn ended in which these children are copied.
    fn copying(
        &self,
        alloc: Global,
        room: Room,
        children: &LookAheadChildren<'r, 'd, 'a, Scalar>,
    ) -> Turn {
        let held_back = room.hold_back(alloc);
        let outcome = children.try_clone(alloc);
        drop(held_back);
        if are_named(alloc, children, ALL) {
            self.ending(alloc, outcome)
        } else {
            Turn::Wrong
        }
    }
}

/// Whether these are the names of the children, in order.
fn are_named(
    alloc: Global,
    children: &LookAheadChildren<'_, '_, '_, Scalar>,
    expected: &str,
) -> bool {
    match names_of(alloc, children) {
        Ok(names) => names.as_str() == expected,
        Err(_) => false,
    }
}

/// The names of the children, a space behind each.
fn names_of(
    alloc: Global,
    children: &LookAheadChildren<'_, '_, '_, Scalar>,
) -> Result<String, AllocError> {
    let mut names = String::new(alloc);
    for name in children.names() {
        names.push_str(name)?;
        names.push_str(" ")?;
    }
    Ok(names)
}

/// No fragments.
fn no_fragments<'d, 'a>(alloc: Global) -> Fragments<'d, 'a, Scalar>
    ensures { IsAcyclic default_shown result }
{
    HashMap::new(alloc)
}

/// How the turns ended in which this is asked of the field.
fn looked(alloc: Global, asked: Asked, expected: &'static str) -> Result<Ended, AllocError> {
    let field: &Field<'_, Scalar> = read_field(alloc, FIELD)?;
    let variables: Variables<Scalar> = Variables::new(alloc);
    let fragments = no_fragments(alloc);
    let mut looking = Looking {
        selection: LookAheadSelection::new(field, &variables, &fragments),
        asked,
        expected,
    };
    tried(alloc, &mut looking)
}

#[test]
fn children_are_shown(rt: HostRuntime) {
    assert_eq!(rt;
        looked(rt.alloc(), Asked::Children, ALL),
        Ok(Ended::Answered)
    );
}

#[test]
fn children_for_a_type_are_shown(rt: HostRuntime) {
    assert_eq!(rt;
        looked(rt.alloc(), Asked::OfHumans, HUMANS),
        Ok(Ended::Answered)
    );
}

#[test]
fn children_are_copied(rt: HostRuntime) {
    assert_eq!(rt; looked(rt.alloc(), Asked::Copy, ALL), Ok(Ended::Answered));
}
