//! Answers of the query's resolver among the root's nodes.

ghost use Rattle.std.specs.Prelude.{◌≡◌, IfOk, List};
ghost use Rattle.graphql_spec.specs.Resolvers.{Reply};
ghost use Rattle.graphql_spec.specs.SeenNodes.{map_reply, map_tree};
ghost use Rattle.juniper_values.specs.ResolvedView.{AllAnswer, Answers, view_resolved};
ghost use Rattle.juniper_intro.specs.HandleView.{of_user};
ghost use Rattle.juniper_intro.specs.Wants.{KeepsWant};

use crate::node::RootedNode;
use crate::words::Answer;
use juniper_syntax::ScalarValue;
use juniper_values::{ResolveError, Resolved};
use std::alloc::{AllocError, Global};

/// The same answer with the root's nodes in place of the user's; an error where memory is refused.
fn rooted<N: Drop, S: ScalarValue>(
    alloc: Global,
    answer: Resolved<N, S>,
) -> Result<Resolved<RootedNode<N>, S>, AllocError>
    ensures { IfOk result (λ r. view_resolved S.shown r ≡ map_tree of_user (view_resolved S.shown answer)) }
{
    match answer {
        Resolved::Null => Ok(Resolved::Null),
        Resolved::Scalar(scalar) => Ok(Resolved::Scalar(scalar)),
        Resolved::Node(node) => Ok(Resolved::Node(RootedNode::User(node))),
        Resolved::List(items) => {
            let mut made = Vec::with_capacity(alloc, items.len())?;
            for item in items {
                let seen = rooted(alloc, item)?;
                made.push(seen)?;
            }
            Ok(Resolved::List(made))
        }
    }
}

/// What the query's resolver answered, with the root's nodes in place of the user's.
#[tactic(auto, unfolding(graphql_spec::specs::SeenNodes::map_reply))]
#[inline(always)]
pub fn rooted_answer<N: Drop, S: ScalarValue>(
    alloc: Global,
    answered: Result<Resolved<N, S>, ResolveError<S>>,
) -> Answer<N, S>
    ensures answer { (reply : Reply N) → Answers S.shown answered reply → Answers S.shown result (map_reply of_user reply) }
    ensures memory { KeepsWant answered result }
{
    match answered {
        Ok(Resolved::Scalar(scalar)) => Ok(Resolved::Scalar(scalar)),
        Ok(answer) => {
            let seen = rooted(alloc, answer)?;
            Ok(seen)
        }
        Err(error) => Err(error),
    }
}

/// The same of each of them; an error where memory is refused.
pub(crate) fn rooted_answers<N: Drop, S: ScalarValue>(
    alloc: Global,
    answered: Vec<Result<Resolved<N, S>, ResolveError<S>>>,
) -> Result<Vec<Answer<N, S>>, AllocError>
    ensures { IfOk result (λ made. (reply : N → Reply N) (nodes : List N) → AllAnswer S.shown reply nodes answered.items →
        AllAnswer S.shown (λ n. map_reply of_user (reply n)) nodes made.items) }
{
    let mut made = Vec::with_capacity(alloc, answered.len())?;
    for answer in answered {
        let seen = rooted_answer(alloc, answer);
        made.push(seen)?;
    }
    Ok(made)
}
