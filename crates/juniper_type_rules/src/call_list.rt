//! The arguments of fields and directives, with the declarations that they should meet (section 5.4 of the Specification).

ghost use Rattle.std.specs.Prelude.{◌≡◌, ◌++◌, IfOk, OnOk, map};
ghost use Rattle.std.specs.List.{flat_map};
ghost use Rattle.juniper_schema.specs.SchemaView.{view_schema};
ghost use Rattle.juniper_syntax.specs.DocumentView.{view_directive};
ghost use Rattle.juniper_written.specs.WrittenView.{view_directives_at};
ghost use Rattle.juniper_type_rules.specs.CallView.{view_calls};
ghost use Rattle.juniper_type_rules.specs.PlacedView.{view_parts, view_placed};
ghost use Rattle.juniper_type_rules.specs.Placing.{call_of_directive, call_of_field, calls_of};

use crate::call::Call;
use crate::placed::{Placed, PlacedParts};
use juniper_schema::SchemaType;
use juniper_syntax::{Directive, ScalarValue, Span, Spanning};
use std::alloc::{AllocError, Global};

/// The arguments of what is placed, each with its declarations: first those of the known fields, then those of the known
/// directives. An error where memory is refused.
pub fn calls<'d, 'a, S: ScalarValue>(
    alloc: Global,
    schema: &'d SchemaType<S>,
    parts: &PlacedParts<'d, 'a, S>,
) -> Result<Vec<Call<'d, 'a, 'd, S>>, AllocError>
    ensures { IfOk result (λ cs. view_calls S.shown cs.items ≡ calls_of (view_schema S.shown schema.now) (view_parts S.shown parts.now)) }
{
    let count = parts.fields.len() + parts.directives.len();
    let mut calls = Vec::with_capacity(alloc, count)?;
    push_of_fields(&parts.fields, &mut calls)?;
    push_of_directives(schema, &parts.directives, &mut calls)?;
    Ok(calls)
}

/// Adds the arguments of fields.
fn push_of_fields<'d, 'a, S: ScalarValue>(
    fields: &Vec<Placed<'d, 'a, S>>,
    calls: &mut Vec<Call<'d, 'a, 'd, S>>,
) -> Result<(), AllocError>
    ensures { OnOk result (view_calls S.shown calls.new.items ≡ view_calls S.shown calls.old.items
        ++ flat_map call_of_field (map (view_placed S.shown) fields.now.items)) }
{
    for placed in fields {
        push_of_field(placed, calls)?;
    }
    Ok(())
}

/// Adds the arguments of a field that its parent type has.
fn push_of_field<'d, 'a, S: ScalarValue>(
    placed: &Placed<'d, 'a, S>,
    calls: &mut Vec<Call<'d, 'a, 'd, S>>,
) -> Result<(), AllocError>
    ensures { OnOk result (view_calls S.shown calls.new.items ≡ view_calls S.shown calls.old.items ++ call_of_field (view_placed S.shown placed.now)) }
{
    let field = placed.field;
    match placed.declared {
        Some(found) => {
            calls.push(Call {
                declared: found.declared_arguments(),
                given: &field.item.arguments,
            })?;
            Ok(())
        }
        None => Ok(()),
    }
}

/// Adds the arguments of directives.
fn push_of_directives<'d, 'a, S: ScalarValue>(
    schema: &'d SchemaType<S>,
    directives: &Vec<&'d Spanning<Directive<'a, S>, Span>>,
    calls: &mut Vec<Call<'d, 'a, 'd, S>>,
) -> Result<(), AllocError>
    ensures { OnOk result (view_calls S.shown calls.new.items ≡ view_calls S.shown calls.old.items
        ++ flat_map call_of_directive (view_directives_at S.shown directives.now.items)) }
{
    for index in 0..directives.len() {
        let directive = directives[index];
        push_of_directive(schema, directive, calls)?;
    }
    Ok(())
}

/// Adds the arguments of a directive that every schema has.
fn push_of_directive<'d, 'a, S: ScalarValue>(
    schema: &'d SchemaType<S>,
    directive: &'d Spanning<Directive<'a, S>, Span>,
    calls: &mut Vec<Call<'d, 'a, 'd, S>>,
) -> Result<(), AllocError>
    ensures { OnOk result (view_calls S.shown calls.new.items ≡ view_calls S.shown calls.old.items
        ++ call_of_directive (view_directive S.shown directive.now)) }
{
    match schema.directive_by_name(directive.item.name.item) {
        Some(found) => {
            calls.push(Call {
                declared: found.arguments.as_slice(),
                given: &directive.item.arguments,
            })?;
            Ok(())
        }
        None => Ok(()),
    }
}
