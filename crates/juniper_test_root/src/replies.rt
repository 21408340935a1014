//! Answers of a script as replies of a resolver.

ghost use Rattle.std.specs.Prelude.{◌≡◌, IfOk, map, option_map};
ghost use Rattle.graphql_spec.specs.Constants.{meaning};
ghost use Rattle.graphql_spec.specs.Resolvers.{failed, leaf};
ghost use Rattle.graphql_spec.specs.Shown.{text as text_of};
ghost use Rattle.juniper_conversions.specs.Messages.{message_alone};
ghost use Rattle.juniper_syntax.specs.InputView.{view_input};
ghost use Rattle.juniper_values.specs.ArgumentView.{view_arguments};
ghost use Rattle.juniper_values.specs.ResolvedView.{Answers, view_resolved};
ghost use Rattle.juniper_test_root.specs.Scripts.{argument_reply, constant_tree, line_reply, view_tree};

use crate::script::{Answer, Node, Tree};
use juniper_conversions::{FieldError, ResolveError};
use juniper_syntax::{InputValue, ScalarValue, Span, Spanning, Value};
use juniper_values::{Arguments, Resolved};
use std::alloc::{AllocError, Global};

/// A value of a script as a resolver answers it.
#[cycle(resolved)]
fn resolved<S: ScalarValue>(alloc: Global, tree: &Tree) -> Result<Resolved<Node, S>, AllocError>
    ensures { IfOk result (λ made. view_resolved S.shown made ≡ view_tree tree.now) }
{
    match tree {
        Tree::Null => Ok(Resolved::Null),
        Tree::Int(value) => Ok(Resolved::Scalar(S::from_int(*value))),
        Tree::Text(text) => Ok(Resolved::Scalar(S::from_text(String::from_str(alloc, text)?)?)),
        Tree::Boolean(value) => Ok(Resolved::Scalar(S::from_bool(*value))),
        Tree::Object(node) => Ok(Resolved::Node(*node)),
        Tree::List(items) => Ok(Resolved::List(all_resolved(alloc, items.as_slice())?)),
    }
}

/// Values of a script, one by one.
#[cycle(resolved)]
fn all_resolved<S: ScalarValue>(
    alloc: Global,
    trees: &[Tree],
) -> Result<Vec<Resolved<Node, S>>, AllocError>
    ensures { IfOk result (λ made. map (view_resolved S.shown) made.items ≡ map view_tree trees.now) }
{
    let mut made = Vec::with_capacity(alloc, trees.len())?;
    for tree in trees {
        made.push(resolved(alloc, tree)?)?;
    }
    Ok(made)
}

/// The value of an argument as a resolver answers it: null where it is neither a scalar nor an enum's value.
fn resolved_constant<S: ScalarValue>(
    alloc: Global,
    value: &InputValue<S>,
) -> Result<Resolved<Node, S>, AllocError>
    ensures { IfOk result (λ made. view_resolved S.shown made ≡ constant_tree (meaning (view_input S.shown value.now))) }
{
    match value {
        InputValue::Scalar(scalar) => Ok(Resolved::Scalar(scalar.try_clone(alloc)?)),
        InputValue::Enum(name) => resolved_text(alloc, name.as_str()),
        InputValue::Null => Ok(Resolved::Null),
        InputValue::Variable(_) => Ok(Resolved::Null),
        InputValue::List(_) => Ok(Resolved::Null),
        InputValue::Object(_) => Ok(Resolved::Null),
    }
}

/// A text as a resolver answers it.
fn resolved_text<S: ScalarValue>(alloc: Global, text: &str) -> Result<Resolved<Node, S>, AllocError>
    ensures { IfOk result (λ made. view_resolved S.shown made ≡ leaf (text_of text.now)) }
{
    let owned = String::from_str(alloc, text)?;
    Ok(Resolved::Scalar(S::from_text(owned)?))
}

/// The value of an argument, where there is one, as a resolver answers it; else null.
fn resolved_argument<S: ScalarValue>(
    alloc: Global,
    value: Option<&Spanning<InputValue<S>, Span>>,
) -> Result<Resolved<Node, S>, ResolveError<S>>
    ensures { Answers S.shown result (argument_reply (option_map (λ v. meaning (view_input S.shown v.now.item)) value.entry)) }
{
    match value {
        None => Ok(Resolved::Null),
        Some(value) => Ok(resolved_constant(alloc, &value.item)?),
    }
}

/// What a resolver answers by an answer of a script, after so many steps, for these arguments.
pub(crate) fn reply<S: ScalarValue>(
    alloc: Global,
    answer: Option<&Answer>,
    steps: u8,
    arguments: &Arguments<'_, S>,
) -> Result<Resolved<Node, S>, ResolveError<S>>
    ensures { Answers S.shown result (line_reply (option_map (λ a. a.now) answer.entry) steps (view_arguments S.shown arguments.now)) }
{
    match answer {
        None => Ok(Resolved::Null),
        Some(Answer::Given(tree)) => Ok(resolved(alloc, tree)?),
        Some(Answer::Error(message)) => fails(alloc, message),
        Some(Answer::Argument(name)) => {
            resolved_argument(alloc, arguments.get_input_value(name))
        }
        Some(Answer::Steps) => Ok(Resolved::Scalar(S::from_int(i32::from(steps)))),
    }
}

/// An error of this message.
fn fails<S: ScalarValue>(alloc: Global, message: &str) -> Result<Resolved<Node, S>, ResolveError<S>>
    ensures { Answers S.shown result (failed (message_alone message.now)) }
{
    Err(ResolveError::Field(FieldError::new(alloc, message, Value::Null)?))
}
