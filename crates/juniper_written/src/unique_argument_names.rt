//! UniqueArgumentNames: no two arguments of a field or directive have one name (section 5.4.2 of the Specification).

ghost use Rattle.std.specs.Prelude.{◌≡◌, ◌++◌, IfOk, OnOk, map};
ghost use Rattle.std.specs.List.{list_any};
ghost use Rattle.graphql_spec.specs.Documents.{written};
ghost use Rattle.graphql_spec.specs.Written as spec;
ghost use Rattle.juniper_syntax.specs.DocumentView.{view_arguments};
ghost use Rattle.juniper_written.specs.WrittenView.{view_lists, view_names};

use crate::{ArgumentLists, repeats};
use juniper_syntax::ast::Arguments;
use juniper_syntax::{ScalarValue, Span, Spanning};
use std::alloc::{AllocError, Global};

/// Whether two arguments of one field or directive have one name. An error where memory is refused.
pub fn repeats_argument<S: ScalarValue>(
    alloc: Global,
    arguments: &ArgumentLists<'_, '_, S>,
) -> Result<bool, AllocError>
    ensures { IfOk result (λ b. b ≡ list_any (λ as'. spec.repeats (map (λ a. a.name.item) as')) (view_lists S.shown arguments.now)) }
{
    for index in 0..arguments.lists.len() {
        let given = arguments.lists[index];
        if repeats_name(alloc, given)? {
            return Ok(true);
        }
    }
    Ok(false)
}

/// Whether two of the arguments have one name.
fn repeats_name<S: ScalarValue>(
    alloc: Global,
    given: &Option<Spanning<Arguments<'_, S>, Span>>,
) -> Result<bool, AllocError>
    ensures { IfOk result (λ b. b ≡ spec.repeats (map (λ a. a.name.item) (written (view_arguments S.shown given.now)))) }
{
    let names = argument_names(alloc, given)?;
    repeats(alloc, &names)
}

/// The names of arguments.
fn argument_names<'a, S: ScalarValue>(
    alloc: Global,
    given: &Option<Spanning<Arguments<'a, S>, Span>>,
) -> Result<Vec<&'a str>, AllocError>
    ensures { IfOk result (λ ns. view_names ns.items ≡ map (λ a. a.name.item) (written (view_arguments S.shown given.now))) }
{
    let mut names = Vec::new(alloc);
    match given {
        Some(arguments) => {
            for argument in &arguments.item.items {
                names.push(argument.0.item)?;
            }
            Ok(names)
        }
        None => Ok(names),
    }
}
