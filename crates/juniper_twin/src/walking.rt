//! The walk: the object of a node, and the objects of the nodes of a field's answer (ExecuteSelectionSet, section 6.3 of the
//! Specification).

ghost use Rattle.std.specs.Prelude.{◌≡◌, IfOk, map};
ghost use Rattle.juniper_syntax.specs.ValueView.{view_value};
ghost use Rattle.juniper_conversions.specs.ErrorView.{view_listed};
ghost use Rattle.juniper_conversions.specs.PathView.{path_place};
ghost use Rattle.juniper_assemble.specs.SpotView.{view_nodes};
ghost use Rattle.juniper_lookahead.specs.Collected.{view_collected};
ghost use Rattle.juniper_lookahead.specs.Singles.{AreAlone, view_singles};
ghost use Rattle.juniper_walk.specs.Walking.{AllAgree, IsReadyWalk};
ghost use Rattle.juniper_twin.specs.Walking.{AreAllWalked, AreReached, IsWalkedThrough};

use crate::adding::{add_field, add_object};
use crate::preparing::execute_field;
use juniper_assemble::Spot;
use juniper_conversions::{ExecutionError, FieldPath};
use juniper_lookahead::{Single, collect_singles};
use juniper_syntax::{Field, Object, ScalarValue, Span, Spanning, Value};
use juniper_walk::{Resolver, Walk, Walked, selections_of};
use std::alloc::AllocError;
use std::rc::Rc;

/// The objects of nodes, in order, and what fails in them.
#[derive(Drop)]
pub(crate) struct AllWalked<S> {
    pub(crate) values: Vec<Value<S>>,
    pub(crate) errors: Vec<ExecutionError<S>>,
}

/// The object of a node of an object type, at this path, for these fields, one after the other, and the errors of those that
/// fail. A null at a non-null field ends the walk, and the object is null (6.4.4).
#[cycle(walking)]
pub fn execute_selection_set<'d, 'a, S: ScalarValue, R: Resolver<S>>(
    walk: &Walk<'_, 'd, 'a, S, R>,
    path: &Rc<FieldPath<'a>>,
    concrete: &str,
    node: &R::Node,
    fields: &[Single<'d, 'a, S>],
) -> Result<Walked<S>, AllocError>
    requires ready { IsReadyWalk S.shown R.possible R.values (R.world walk.now.collector.possible) walk.now }
    requires agree { AllAgree (R.world walk.now.collector.possible) concrete.now (view_singles S.shown walk.now.collector fields.now) }
    requires alone { AreAlone S.shown walk.now.collector (R.possible walk.now.collector.possible) concrete.now fields.now }
    ensures { IfOk result (λ r. IsWalkedThrough (R.world walk.now.collector.possible) (path_place path.now.value) concrete.now node.now
        (view_singles S.shown walk.now.collector fields.now)
        (view_value S.shown r.value) (map (view_listed S.shown) r.errors.items)) }
{
    let mut entries = Object::with_capacity(walk.alloc, fields.len())?;
    let mut errors = Vec::new(walk.alloc);
    for single in fields {
        let field = single.field;
        let prepared = execute_field(walk, path, concrete, node, single)?;
        let walked = objects_of(walk, &prepared.nodes, field)?;
        let rises = add_field(
            walk.alloc,
            &mut entries,
            &mut errors,
            field,
            prepared,
            walked,
        )?;
        if rises {
            return Ok(Walked {
                value: Value::Null,
                errors,
            });
        }
    }
    Ok(Walked {
        value: Value::Object(entries),
        errors,
    })
}

/// The objects of nodes, each at its place, for what a field selects, one after the other.
#[cycle(walking)]
pub(crate) fn objects_of<'d, 'a, S: ScalarValue, R: Resolver<S>>(
    walk: &Walk<'_, 'd, 'a, S, R>,
    nodes: &[Spot<'a, R::Node>],
    field: &'d Spanning<Field<'a, S>, Span>,
) -> Result<AllWalked<S>, AllocError>
    requires ready { IsReadyWalk S.shown R.possible R.values (R.world walk.now.collector.possible) walk.now }
    requires agree { AreReached (R.world walk.now.collector.possible) (view_nodes nodes.now) (view_collected S.shown walk.now.collector field.now).below }
    ensures { IfOk result (λ r. AreAllWalked (R.world walk.now.collector.possible)
        (view_collected S.shown walk.now.collector field.now).below (view_nodes nodes.now)
        (map (view_value S.shown) r.values.items) (map (view_listed S.shown) r.errors.items)) }
{
    let selections = selections_of(field);
    let mut values = Vec::new(walk.alloc);
    let mut errors = Vec::new(walk.alloc);
    for spot in nodes {
        let node = &spot.what;
        let concrete = walk.collector.possible.concrete_type_name(node);
        let fields = collect_singles(walk.alloc, &walk.collector, concrete, selections)?;
        let walked = execute_selection_set(walk, &spot.path, concrete, node, &fields)?;
        add_object(&mut values, &mut errors, walked)?;
    }
    Ok(AllWalked { values, errors })
}
