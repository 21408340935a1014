//! An answer is completed against a declared type, apart from its nodes (CompleteValue, section 6.4.3 of the Specification).

ghost use Rattle.std.specs.Prelude.{◌≡◌, ℕ, List, [], ◌∷◌, ◌++◌, IfOk, OnOk, map, string_bytes};
ghost use Rattle.graphql_spec.specs.Errors.{index};
ghost use Rattle.graphql_spec.specs.Shown.{Name, Shown};
ghost use Rattle.graphql_spec.specs.Resolvers.{World, leaf, node as node_of};
ghost use Rattle.juniper_syntax.specs.TypeView.{view_type};
ghost use Rattle.juniper_conversions.specs.PathView.{path_place};
ghost use Rattle.juniper_values.specs.ResolvedView.{view_resolved};
ghost use Rattle.juniper_assemble.specs.SkeletonView.{view_fault, view_skeleton};
ghost use Rattle.juniper_assemble.specs.SpotView.{IsTakenApart, view_faults};
ghost use Rattle.juniper_assemble.specs.Apart.{IsApart, IsNullApart, IsWrong};

use crate::skeleton::Skeleton;
use crate::spot::{Spot, path_within};
use juniper_conversions::FieldPath;
use juniper_syntax::{ScalarValue, Type};
use juniper_values::Resolved;
use std::alloc::{AllocError, Global};
use std::rc::Rc;

/// What tells which answers fit a type; it stands for the schema and the resolver of a request.
pub trait Completer<S: ScalarValue> {
    /// What stands for an object.
    type Node: Drop;

    /// All that the execution asks.
    ghost world: { Self → World Self.Node };

    /// Whether a scalar or an enum type takes a scalar.
    fn accepts(&self, type_name: &str, scalar: &S) -> bool
        ensures { result ≡ (world self.now).accepts type_name.now (S.shown scalar.now) };

    /// Whether a node's object type is the named type, implements it or is a member of it.
    fn takes_node(&self, type_name: &str, node: &Self::Node) -> bool
        ensures { result ≡ (world self.now).possible ((world self.now).concrete node.now) type_name.now };
}

/// Why an answer or an item of it is null that the resolver did not answer as null, or may not be (6.4.3, 6.4.4).
#[derive(Clone, Copy)]
pub enum Fault {
    /// Its type does not take it.
    WrongShape,
    /// It is null at a non-null type.
    NullAtNonNull,
}

/// What is left of an answer at a path without its nodes. The nodes go behind those that are there, and so do the faults, each with its
/// path; items without either have none made. An error where memory is refused.
pub fn take_apart<'a, S: ScalarValue, C: Completer<S>>(
    alloc: Global,
    completer: &C,
    declared: &Type<String>,
    resolved: Resolved<C::Node, S>,
    path: &Rc<FieldPath<'a>>,
    nodes: &mut Vec<Spot<'a, C::Node>>,
    faults: &mut Vec<Spot<'a, Fault>>,
) -> Result<Skeleton<S>, AllocError>
    ensures { IfOk result (λ s. IsTakenApart S.shown (C.world completer.now) (path_place path.now.value) (view_type (λ n. string_bytes n) declared.now)
        (view_resolved S.shown resolved) s nodes.old.items nodes.new.items faults.old.items faults.new.items) }
{
    let mut positions = Vec::new(alloc);
    let skeleton = item_apart(
        alloc,
        completer,
        declared,
        resolved,
        path,
        &mut positions,
        nodes,
        faults,
    )?;
    Ok(skeleton)
}

/// The same of the item at these positions of lists within lists, which stay as they are.
fn item_apart<'a, S: ScalarValue, C: Completer<S>>(
    alloc: Global,
    completer: &C,
    declared: &Type<String>,
    resolved: Resolved<C::Node, S>,
    path: &Rc<FieldPath<'a>>,
    positions: &mut Vec<usize>,
    nodes: &mut Vec<Spot<'a, C::Node>>,
    faults: &mut Vec<Spot<'a, Fault>>,
) -> Result<Skeleton<S>, AllocError>
    ensures apart { IfOk result (λ s. IsTakenApart S.shown (C.world completer.now) (path_place path.now.value ++ map index positions.old.items)
        (view_type (λ n. string_bytes n) declared.now) (view_resolved S.shown resolved) s
        nodes.old.items nodes.new.items faults.old.items faults.new.items) }
    ensures positions { OnOk result (positions.new.items ≡ positions.old.items) }
{
    match resolved {
        Resolved::Null => {
            let null = null_apart(alloc, declared, path, positions, faults)?;
            Ok(null)
        }
        Resolved::Scalar(scalar) => {
            let part = scalar_apart(alloc, completer, declared, scalar, path, positions, faults)?;
            Ok(part)
        }
        Resolved::Node(node) => {
            let part = node_apart(
                alloc, completer, declared, node, path, positions, nodes, faults,
            )?;
            Ok(part)
        }
        Resolved::List(items) => match declared.list_contents() {
            None => {
                let unlisted = wrong(alloc, path, positions, faults)?;
                Ok(unlisted)
            }
            Some(inner) => {
                let mut made = Vec::with_capacity(alloc, items.len())?;
                for item in items {
                    positions.push(made.len())?;
                    let skeleton = item_apart(
                        alloc, completer, inner, item, path, positions, nodes, faults,
                    )?;
                    drop_last(positions);
                    made.push(skeleton)?;
                }
                Ok(Skeleton::Several(inner.is_non_null(), made))
            }
        },
    }
}

/// Takes off the last position.
fn drop_last(positions: &mut Vec<usize>)
    ensures { (before : List ℕ) (last : ℕ) → positions.old.items ≡ before ++ last ∷ [] → positions.new.items ≡ before }
{
    let _last = positions.pop();
}

/// A fault at these positions.
fn add_fault<'a>(
    alloc: Global,
    fault: Fault,
    path: &Rc<FieldPath<'a>>,
    positions: &[usize],
    faults: &mut Vec<Spot<'a, Fault>>,
) -> Result<(), AllocError>
    ensures { OnOk result (view_faults faults.new.items ≡ view_faults faults.old.items
        ++ record { place = path_place path.now.value ++ map index positions.now; what = view_fault fault } ∷ []) }
{
    let path = path_within(alloc, path, positions)?;
    faults.push(Spot { path, what: fault })?;
    Ok(())
}

/// A null, which fails at a non-null type.
fn null_apart<'a, S: ScalarValue>(
    alloc: Global,
    declared: &Type<String>,
    path: &Rc<FieldPath<'a>>,
    positions: &[usize],
    faults: &mut Vec<Spot<'a, Fault>>,
) -> Result<Skeleton<S>, AllocError>
    ensures { IfOk result (λ s. IsNullApart (path_place path.now.value ++ map index positions.now) (view_type (λ n. string_bytes n) declared.now)
        (view_skeleton S.shown s) (view_faults faults.old.items) (view_faults faults.new.items)) }
{
    if declared.is_non_null() {
        add_fault(alloc, Fault::NullAtNonNull, path, positions, faults)?;
    }
    Ok(Skeleton::Absent)
}

/// A null with a fault, in place of what the type does not take.
fn wrong<'a, S: ScalarValue>(
    alloc: Global,
    path: &Rc<FieldPath<'a>>,
    positions: &[usize],
    faults: &mut Vec<Spot<'a, Fault>>,
) -> Result<Skeleton<S>, AllocError>
    ensures { IfOk result (λ s. IsWrong (path_place path.now.value ++ map index positions.now) (view_skeleton S.shown s)
        (view_faults faults.old.items) (view_faults faults.new.items)) }
{
    add_fault(alloc, Fault::WrongShape, path, positions, faults)?;
    Ok(Skeleton::Absent)
}

/// A scalar at a type: what takes it is a named type.
fn scalar_apart<'a, S: ScalarValue, C: Completer<S>>(
    alloc: Global,
    completer: &C,
    declared: &Type<String>,
    scalar: S,
    path: &Rc<FieldPath<'a>>,
    positions: &[usize],
    faults: &mut Vec<Spot<'a, Fault>>,
) -> Result<Skeleton<S>, AllocError>
    ensures { (ns : _) → IfOk result (λ s. IsApart (C.world completer.now) (path_place path.now.value ++ map index positions.now)
        (view_type (λ n. string_bytes n) declared.now) (leaf (S.shown scalar))
        (view_skeleton S.shown s) ns ns (view_faults faults.old.items) (view_faults faults.new.items)) }
{
    match declared.list_contents() {
        Some(_) => {
            let listed = wrong(alloc, path, positions, faults)?;
            Ok(listed)
        }
        None => {
            if completer.accepts(declared.innermost_name(), &scalar) {
                Ok(Skeleton::Filled(scalar))
            } else {
                let refused = wrong(alloc, path, positions, faults)?;
                Ok(refused)
            }
        }
    }
}

/// A node at a type: what takes it is a named type at which its object type is possible.
fn node_apart<'a, S: ScalarValue, C: Completer<S>>(
    alloc: Global,
    completer: &C,
    declared: &Type<String>,
    node: C::Node,
    path: &Rc<FieldPath<'a>>,
    positions: &[usize],
    nodes: &mut Vec<Spot<'a, C::Node>>,
    faults: &mut Vec<Spot<'a, Fault>>,
) -> Result<Skeleton<S>, AllocError>
    ensures { IfOk result (λ s. IsTakenApart S.shown (C.world completer.now) (path_place path.now.value ++ map index positions.now)
        (view_type (λ n. string_bytes n) declared.now) (node_of node) s nodes.old.items nodes.new.items faults.old.items faults.new.items) }
{
    match declared.list_contents() {
        Some(_) => {
            let listed = wrong(alloc, path, positions, faults)?;
            Ok(listed)
        }
        None => {
            if completer.takes_node(declared.innermost_name(), &node) {
                let here = path_within(alloc, path, positions)?;
                nodes.push(Spot {
                    path: here,
                    what: node,
                })?;
                Ok(Skeleton::Hole)
            } else {
                let refused = wrong(alloc, path, positions, faults)?;
                Ok(refused)
            }
        }
    }
}
