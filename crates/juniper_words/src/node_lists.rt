//! Lists of objects as answers (section 3.11 of the Specification).

ghost use Rattle.std.specs.Prelude.{◌≡◌, ◌<◌, ℕ, Bool, IfOk, length};
ghost use Rattle.juniper_values.specs.ResolvedView.{Answers};
ghost use Rattle.juniper_words.specs.Nodes.{Makes, MakesEach, Tests, nodes_at, nodes_reply, nodes_where};

use juniper_conversions::ResolveError;
use juniper_syntax::ScalarValue;
use juniper_values::Resolved;
use std::alloc::{AllocError, Global};

/// The list of the objects that these nodes stand for, in order (3.11).
pub fn nodes<N: Copy + Drop, S: ScalarValue>(
    alloc: Global,
    nodes: &[N],
) -> Result<Resolved<N, S>, ResolveError<S>>
    ensures { Answers S.shown result (nodes_reply nodes.now) }
{
    let mut items = Vec::with_capacity(alloc, nodes.len())?;
    for node in nodes {
        items.push(Resolved::Node(*node))?;
    }
    Ok(Resolved::List(items))
}

/// The nodes of the entries of a list that pass a test, in order: each is made of the entry's place, which counts from 0. An error
/// where memory is refused.
pub fn nodes_where<E, N: Drop, P: Fn(usize) -> N, F: Fn(&E) -> bool>(
    alloc: Global,
    entries: &[E],
    node: P,
    passes: F,
) -> Result<Vec<N>, AllocError>
    requires node { (i : ℕ) → i < length entries.now → P.pre node i }
    requires passes { F.IsAlwaysCallable passes }
    ensures { IfOk result (λ nodes. (at : ℕ → N) (test : E → Bool) → Makes P.Fn node (length entries.now) at → Tests F.Fn passes test
        → nodes.items ≡ nodes_where at test entries.now) }
{
    let mut nodes = Vec::new(alloc);
    for (place, entry) in entries.iter().enumerate() {
        if passes(entry) {
            nodes.push(node(place))?;
        }
    }
    Ok(nodes)
}

/// The nodes of these places, in order: `"labels" => nodes(alloc, &nodes_at(alloc, &issue.labels, Node::Label)?)`. An error where memory
/// is refused.
pub fn nodes_at<N: Drop, P: Fn(usize) -> N>(
    alloc: Global,
    places: &[usize],
    node: P,
) -> Result<Vec<N>, AllocError>
    requires { P.IsAlwaysCallable node }
    ensures { IfOk result (λ nodes. (at : ℕ → N) → MakesEach P.Fn node at → nodes.items ≡ nodes_at at places.now) }
{
    let mut nodes = Vec::with_capacity(alloc, places.len())?;
    for place in places {
        nodes.push(node(*place))?;
    }
    Ok(nodes)
}
