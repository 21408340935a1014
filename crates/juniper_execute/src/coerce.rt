//! The arguments of a field as its resolver sees them (CoerceArgumentValues, section 6.4.1 of the Specification): made once for a response key and
//! kept for all of its nodes, or, where they are large and hold no variables, lent to each node.

ghost use Rattle.std.specs.Prelude.{◌≡◌, IfOk, IfSome, OnOk, map, true};
ghost use Rattle.graphql_spec.specs.Arguments.{coerced_arguments, given, put_default};
ghost use Rattle.graphql_spec.specs.Documents.{written};
ghost use Rattle.graphql_spec.specs.Inputs.{const, is_const};
ghost use Rattle.juniper_syntax.specs.DocumentView.{view_argument};
ghost use Rattle.juniper_syntax.specs.InputView.{view_input, view_variables};
ghost use Rattle.juniper_meta.specs.MetaView.{view_argument as view_meta_argument};
ghost use Rattle.juniper_values.specs.ArgumentView.{view_arguments};
ghost use Rattle.juniper_walk.specs.FieldWords.{head_of};

use crate::allowance::Allowance;
use crate::small::are_kept;
use juniper_meta::meta::Argument;
use juniper_syntax::ast::Arguments as WrittenArguments;
use juniper_syntax::{Field, InputValue, ScalarValue, Span, Spanning, Variables, WrittenArgument};
use juniper_values::Arguments;
use std::alloc::{AllocError, Global};

/// A value of an argument with its place.
type Placed<S> = Spanning<InputValue<S>, Span>;

/// The written arguments of a field with values for their variables, and the defaults of the declared ones that are not
/// written. What is written without variables is lent.
pub(crate) fn coerce_arguments<'a, 'b, S: ScalarValue>(
    alloc: Global,
    declared: &'b [Argument<S>],
    field: &'b Spanning<Field<'a, S>, Span>,
    variables: &Variables<S>,
) -> Result<Arguments<'b, S>, AllocError>
    ensures { IfOk result (λ made. view_arguments S.shown made ≡ coerced_arguments (map (view_meta_argument S.shown) declared.now)
        (view_variables S.shown variables.now) (written (head_of S.shown field.now).arguments)) }
{
    let written = WrittenArguments::written(&field.item.arguments);
    let mut arguments = give(alloc, written, variables)?;
    arguments.put_defaults(alloc, declared)?;
    Ok(arguments)
}

/// The same with the names of the declaration, so that they outlast the document; none where one is written that is not declared, which
/// no valid document has (5.4.1). Nothing is lent.
fn declared_arguments<'s, S: ScalarValue>(
    alloc: Global,
    declared: &'s [Argument<S>],
    field: &Spanning<Field<S>, Span>,
    variables: &Variables<S>,
) -> Result<Option<Arguments<'s, S>>, AllocError>
    ensures { IfOk result (λ found. IfSome found (λ made. view_arguments S.shown made ≡ coerced_arguments (map (view_meta_argument S.shown) declared.now)
        (view_variables S.shown variables.now) (written (head_of S.shown field.now).arguments))) }
{
    let written = WrittenArguments::written(&field.item.arguments);
    match give_declared(alloc, declared, written, variables)? {
        None => Ok(None),
        Some(given) => {
            let mut arguments = given;
            arguments.put_defaults(alloc, declared)?;
            Ok(Some(arguments))
        }
    }
}

/// The same, where they are kept. An error where memory is refused, or they weigh more than is allowed.
pub(crate) fn kept_arguments<'s, S: ScalarValue>(
    alloc: Global,
    declared: &'s [Argument<S>],
    field: &Spanning<Field<S>, Span>,
    variables: &Variables<S>,
    room: usize,
    allowance: &Allowance,
) -> Result<Option<Arguments<'s, S>>, AllocError>
    ensures { IfOk result (λ found. IfSome found (λ made. view_arguments S.shown made ≡ coerced_arguments (map (view_meta_argument S.shown) declared.now)
        (view_variables S.shown variables.now) (written (head_of S.shown field.now).arguments))) }
{
    let written = WrittenArguments::written(&field.item.arguments);
    if !are_kept(written, variables, room, allowance)? {
        return Ok(None);
    }
    let made = declared_arguments(alloc, declared, field, variables)?;
    Ok(made)
}

/// The written arguments with values for their variables.
fn give<'a, 'b, S: ScalarValue>(
    alloc: Global,
    written: &'b [WrittenArgument<'a, S>],
    variables: &Variables<S>,
) -> Result<Arguments<'b, S>, AllocError>
    ensures { IfOk result (λ made. view_arguments S.shown made ≡ given (view_variables S.shown variables.now) (map (view_argument S.shown) written.now)) }
{
    let mut arguments = Arguments::none(alloc);
    for argument in written {
        match if_const(&argument.1) {
            Some(value) => arguments.lend(argument.0.item, value)?,
            None => put_made(
                alloc,
                &mut arguments,
                argument.0.item,
                &argument.1,
                variables,
            )?,
        }
    }
    Ok(arguments)
}

/// A value that holds no variables.
fn if_const<S: ScalarValue>(value: &Placed<S>) -> Option<&Placed<S>>
    ensures { IfSome result (λ v. (v.now ≡ value.now) × (is_const (view_input S.shown value.now.item) ≡ true)) }
{
    if value.item.is_const() {
        Some(value)
    } else {
        None
    }
}

/// The same with the names of the declaration, where each is declared.
fn give_declared<'s, S: ScalarValue>(
    alloc: Global,
    declared: &'s [Argument<S>],
    written: &[WrittenArgument<S>],
    variables: &Variables<S>,
) -> Result<Option<Arguments<'s, S>>, AllocError>
    ensures { IfOk result (λ found. IfSome found (λ made. view_arguments S.shown made
        ≡ given (view_variables S.shown variables.now) (map (view_argument S.shown) written.now))) }
{
    let mut arguments = Arguments::none(alloc);
    for argument in written {
        match declared_name(declared, argument.0.item) {
            None => return Ok(None),
            Some(name) => put_made(alloc, &mut arguments, name, &argument.1, variables)?,
        }
    }
    Ok(Some(arguments))
}

/// This name as it is declared, where an argument has it.
fn declared_name<'s, S: ScalarValue>(declared: &'s [Argument<S>], name: &str) -> Option<&'s str>
    ensures { IfSome result (λ found. found.now ≡ name.now) }
{
    for argument in declared {
        let own = argument.name.as_str();
        if own == name {
            return Some(own);
        }
    }
    None
}

/// Puts in a written argument of this name that is not there, with values for its variables, unless its own variable has no value.
fn put_made<'b, S: ScalarValue>(
    alloc: Global,
    arguments: &mut Arguments<'b, S>,
    name: &'b str,
    value: &Placed<S>,
    variables: &Variables<S>,
) -> Result<(), AllocError>
    ensures { OnOk result (view_arguments S.shown arguments.new
        ≡ put_default name.now (const (view_variables S.shown variables.now) (view_input S.shown value.now.item)) (view_arguments S.shown arguments.old)) }
{
    match value.item.into_const(alloc, variables)? {
        None => Ok(()),
        Some(item) => {
            arguments.put(name, Spanning::new(value.span, item))?;
            Ok(())
        }
    }
}
