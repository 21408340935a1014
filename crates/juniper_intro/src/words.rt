//! Words for the answers of nodes of introspection.

ghost use Rattle.std.specs.Prelude.{option_map};
ghost use Rattle.graphql_spec.specs.Introspection.{if_any, says, tells};
ghost use Rattle.graphql_spec.specs.Resolvers.{answered, node, nothing};
ghost use Rattle.graphql_spec.specs.SeenNodes.{map_tree};
ghost use Rattle.juniper_values.specs.ResolvedView.{Answers};
ghost use Rattle.juniper_intro.specs.HandleView.{of_handle, view_handle};

use crate::handle::Handle;
use crate::node::RootedNode;
use juniper_syntax::ScalarValue;
use juniper_values::{ResolveError, Resolved};
use std::alloc::Global;

/// What a node of introspection answers to a field.
pub(crate) type Answer<N, S> = Result<Resolved<RootedNode<N>, S>, ResolveError<S>>;

/// A text.
#[tactic(auto, unfolding(graphql_spec::specs::Introspection::says, graphql_spec::specs::SeenNodes::map_tree))]
pub(crate) fn text<N: Drop, S: ScalarValue>(alloc: Global, words: &str) -> Answer<N, S>
    ensures { Answers S.shown result (answered (map_tree of_handle (says words.now))) }
{
    Ok(Resolved::Scalar(S::from_text(String::from_str(alloc, words)?)?))
}

/// A text, or null where there is none.
#[tactic(auto, unfolding(graphql_spec::specs::Introspection::if_any, graphql_spec::specs::SeenNodes::map_tree))]
pub(crate) fn text_or_null<N: Drop, S: ScalarValue>(
    alloc: Global,
    words: Option<&str>,
) -> Answer<N, S>
    ensures { Answers S.shown result (answered (map_tree of_handle (if_any says (option_map (λ t. t.now) words.entry)))) }
{
    match words {
        Some(words) => text(alloc, words),
        None => Ok(Resolved::Null),
    }
}

/// Yes or no.
#[tactic(auto, unfolding(graphql_spec::specs::Introspection::tells, graphql_spec::specs::SeenNodes::map_tree))]
pub(crate) fn flag<N: Drop, S: ScalarValue>(is_so: bool) -> Answer<N, S>
    ensures { Answers S.shown result (answered (map_tree of_handle (tells is_so))) }
{
    Ok(Resolved::Scalar(S::from_bool(is_so)))
}

/// A node.
#[tactic(auto, using(crate::proofs::Viewing::code_viewed), unfolding(graphql_spec::specs::SeenNodes::map_tree))]
pub(crate) fn object<N: Drop, S: ScalarValue>(handle: Handle) -> Answer<N, S>
    ensures { Answers S.shown result (answered (map_tree of_handle (node (view_handle handle)))) }
{
    Ok(Resolved::Node(RootedNode::Introspected(handle)))
}

/// Null.
#[tactic(auto, unfolding(graphql_spec::specs::SeenNodes::map_tree))]
pub(crate) fn null<N: Drop, S: ScalarValue>() -> Answer<N, S>
    ensures { Answers S.shown result (answered (map_tree of_handle nothing)) }
{
    Ok(Resolved::Null)
}
