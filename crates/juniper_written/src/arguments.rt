//! The arguments of a definition's fields and directives (sections 2.6 and 2.12 of the Specification).

ghost use Rattle.std.specs.Prelude.{◌≡◌, ◌++◌, IfOk, OnOk, map};
ghost use Rattle.graphql_spec.specs.Documents.{written};
ghost use Rattle.juniper_written.specs.Parts.{lists_of};
ghost use Rattle.juniper_written.specs.WrittenView.{view_directives_at, view_fields, view_list, view_lists, view_written};

use crate::written::Written;
use juniper_syntax::ast::Arguments;
use juniper_syntax::{Directive, Field, ScalarValue, Span, Spanning};
use std::alloc::{AllocError, Global};

/// The arguments of one field or directive after the other; of one without arguments they are nothing.
#[derive(Drop)]
pub struct ArgumentLists<'d, 'a, S> {
    pub lists: Vec<&'d Option<Spanning<Arguments<'a, S>, Span>>>,
}

/// The arguments of what is written: first those of the fields, then those of the directives. An error where memory is
/// refused.
pub fn argument_lists<'d, 'a, S: ScalarValue>(
    alloc: Global,
    written: &Written<'d, 'a, S>,
) -> Result<ArgumentLists<'d, 'a, S>, AllocError>
    ensures { IfOk result (λ l. view_lists S.shown l ≡ lists_of (view_written S.shown written.now)) }
{
    let count = written.fields.len() + written.directives.len();
    let mut lists = Vec::with_capacity(alloc, count)?;
    push_of_fields(&written.fields, &mut lists)?;
    push_of_directives(&written.directives, &mut lists)?;
    Ok(ArgumentLists { lists })
}

/// Adds the arguments of fields.
fn push_of_fields<'d, 'a, S: ScalarValue>(
    fields: &Vec<&'d Spanning<Field<'a, S>, Span>>,
    lists: &mut Vec<&'d Option<Spanning<Arguments<'a, S>, Span>>>,
) -> Result<(), AllocError>
    ensures { OnOk result (view_list S.shown lists.new.items ≡ view_list S.shown lists.old.items
        ++ map (λ h. written h.arguments) (view_fields S.shown fields.now.items)) }
{
    for index in 0..fields.len() {
        let field = fields[index];
        lists.push(&field.item.arguments)?;
    }
    Ok(())
}

/// Adds the arguments of directives.
fn push_of_directives<'d, 'a, S: ScalarValue>(
    directives: &Vec<&'d Spanning<Directive<'a, S>, Span>>,
    lists: &mut Vec<&'d Option<Spanning<Arguments<'a, S>, Span>>>,
) -> Result<(), AllocError>
    ensures { OnOk result (view_list S.shown lists.new.items ≡ view_list S.shown lists.old.items
        ++ map (λ d. written d.arguments) (view_directives_at S.shown directives.now.items)) }
{
    for index in 0..directives.len() {
        let directive = directives[index];
        lists.push(&directive.item.arguments)?;
    }
    Ok(())
}
