//! Scalars among replies: what their types take needs no taking apart (CompleteValue, section 6.4.3 of the Specification).

ghost use Rattle.std.specs.Prelude.{◌≡◌, string_bytes, true};
ghost use Rattle.juniper_syntax.specs.TypeView.{view_type};
ghost use Rattle.juniper_walk.specs.Leaves.{IsReply, IsTakenAt};

use crate::Asked;
use juniper_assemble::Completer;
use juniper_syntax::{ScalarValue, Type};
use juniper_values::Resolved;

/// What a field of a node answers, as far as it is a scalar.
#[derive(Drop)]
pub(crate) enum Reply<'t, N, S> {
    /// A scalar that the declared type takes.
    Leaf(S),
    /// Any other reply, or a scalar that fails.
    Other(Asked<'t, N, S>),
}

/// Whether the type takes the scalar: it is no list, and its name takes it.
fn takes_scalar<S: ScalarValue, C: Completer<S>>(
    completer: &C,
    declared: &Type<String>,
    scalar: &S,
) -> bool
    ensures { result ≡ true → IsTakenAt (C.world completer.now) (view_type (λ n. string_bytes n) declared.now) (S.shown scalar.now) }
{
    declared.list_contents().is_none() && completer.accepts(declared.innermost_name(), scalar)
}

/// Tells a scalar that the declared type takes from any other reply, which is handed back.
pub(crate) fn leaf_of<'t, S: ScalarValue, C: Completer<S>>(
    completer: &C,
    asked: Asked<'t, C::Node, S>,
) -> Reply<'t, C::Node, S>
    ensures { IsReply (C.world completer.now) S.shown asked.entry result }
{
    let Asked { declared, answer } = asked;
    match answer {
        Ok(Resolved::Scalar(scalar)) => {
            if takes_scalar(completer, declared, &scalar) {
                Reply::Leaf(scalar)
            } else {
                let answer = Ok(Resolved::Scalar(scalar));
                Reply::Other(Asked { declared, answer })
            }
        }
        other => Reply::Other(Asked {
            declared,
            answer: other,
        }),
    }
}
