//! The whole answer to selections on a root (section 6.2 of the Specification).

ghost use Rattle.std.specs.Prelude.{◌≡◌, IfOk, map};
ghost use Rattle.graphql_spec.specs.ExactAnswers.{whole};
ghost use Rattle.graphql_spec.specs.Selections.{occurrences};
ghost use Rattle.graphql_spec.specs.Walk.{IsAnswerFor};
ghost use Rattle.juniper_syntax.specs.DocumentView.{view_selections};
ghost use Rattle.juniper_syntax.specs.ValueView.{view_value};
ghost use Rattle.juniper_conversions.specs.ErrorView.{view_listed};
ghost use Rattle.juniper_lookahead.specs.Collected.{expansion};
ghost use Rattle.juniper_walk.specs.Walking.{IsReadyWalk, SelectionsAgree};

use crate::walking::execute_selection_set;
use juniper_lookahead::collect_singles;
use juniper_syntax::{ScalarValue, Selection, SourcePosition};
use juniper_walk::{Resolver, Walk, Walked, root_path, sort_errors};
use std::alloc::AllocError;

/// The data of selections on a root node as an object of this type, and the errors in their order; the operation starts at
/// this place.
pub fn answer<'d, 'a, S: ScalarValue, R: Resolver<S>>(
    walk: &Walk<'_, 'd, 'a, S, R>,
    concrete: &str,
    root: &R::Node,
    start: SourcePosition,
    selections: &'d [Selection<'a, S>],
) -> Result<Walked<S>, AllocError>
    requires ready { IsReadyWalk S.shown R.possible R.values (R.world walk.now.collector.possible) walk.now }
    requires agree { SelectionsAgree (R.world walk.now.collector.possible) concrete.now
        (expansion S.shown walk.now.collector (view_selections S.shown selections.now)) }
    ensures { IfOk result (λ r. IsAnswerFor whole (R.world walk.now.collector.possible) concrete.now root.now
        (expansion S.shown walk.now.collector (view_selections S.shown selections.now))
        (view_value S.shown r.value) (map (view_listed S.shown) r.errors.items)) }
{
    let fields = collect_singles(walk.alloc, &walk.collector, concrete, selections)?;
    let path = root_path(walk.alloc, start)?;
    let walked = execute_selection_set(walk, &path, concrete, root, &fields)?;
    let mut errors = walked.errors;
    sort_errors(&mut errors)?;
    Ok(Walked {
        value: walked.value,
        errors,
    })
}
