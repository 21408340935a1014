//! A field is resolved, and its answer taken apart from its nodes (sections 6.4.2 and 6.4.3 of the Specification).

ghost use Rattle.std.specs.Prelude.{IfOk};
ghost use Rattle.juniper_conversions.specs.PathView.{path_place};
ghost use Rattle.juniper_lookahead.specs.Collected.{view_collected};
ghost use Rattle.juniper_lookahead.specs.Singles.{IsAlone};
ghost use Rattle.juniper_walk.specs.Walking.{IsReadyWalk};
ghost use Rattle.juniper_twin.specs.Walking.{IsPreparedAs};

use juniper_assemble::{Skeleton, Spot};
use juniper_conversions::{ExecutionError, FieldPath};
use juniper_lookahead::{Enclosing, Occurrence, Single};
use juniper_syntax::ScalarValue;
use juniper_walk::{Asked, Parted, Resolver, Site, Walk, list_errors, part_reply, path_below};
use std::alloc::AllocError;
use std::rc::Rc;

/// A field's answer without the objects of its nodes.
#[derive(Drop)]
pub(crate) struct Prepared<'a, N, S> {
    /// Whether its type is non-null.
    pub(crate) is_non_null: bool,
    /// The answer, with a hole for each node.
    pub(crate) skeleton: Skeleton<S>,
    /// The nodes, each at its place.
    pub(crate) nodes: Vec<Spot<'a, N>>,
    /// What fails apart from them.
    pub(crate) errors: Vec<ExecutionError<S>>,
}

/// A field of a node, asked for as the one occurrence that its selection alone holds: its answer, taken apart.
pub(crate) fn execute_field<'d, 'a, S: ScalarValue, R: Resolver<S>>(
    walk: &Walk<'_, 'd, 'a, S, R>,
    path: &Rc<FieldPath<'a>>,
    concrete: &str,
    node: &R::Node,
    single: &Single<'d, 'a, S>,
) -> Result<Prepared<'a, R::Node, S>, AllocError>
    requires ready { IsReadyWalk S.shown R.possible R.values (R.world walk.now.collector.possible) walk.now }
    requires alone { IsAlone S.shown walk.now.collector (R.possible walk.now.collector.possible) concrete.now single.now }
    ensures { IfOk result (λ p. IsPreparedAs S.shown (R.world walk.now.collector.possible) (path_place path.now.value) concrete.now node.now
        (view_collected S.shown walk.now.collector single.now.field.now) p) }
{
    let alloc = walk.alloc;
    let field = single.field;
    let here = path_below(alloc, path, field)?;
    let enclosing = [Enclosing {
        selections: single.alone,
    }];
    let occurrences = [Occurrence { field }];
    let site = Site {
        fragments: walk.collector.fragments.by_name(),
        path: here.as_ref(),
        enclosing: &enclosing,
        occurrences: &occurrences,
    };
    let resolver = &walk.collector.possible;
    let question = resolver.question(alloc, concrete, field, 0)?;
    let Asked { declared, answer } = resolver.resolve_field_value(
        alloc, &question, concrete, node, &site,
    );
    let Parted {
        skeleton,
        nodes,
        errors,
    } = part_reply(alloc, resolver, declared, answer, &here)?;
    let listed = list_errors(alloc, field.span.start, &errors)?;
    Ok(Prepared {
        is_non_null: declared.is_non_null(),
        skeleton,
        nodes,
        errors: listed,
    })
}
