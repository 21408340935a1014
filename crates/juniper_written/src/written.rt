//! The fields, spreads, type conditions and directives of a definition (section 5 of the Specification).

ghost use Rattle.std.specs.Prelude.{◌≡◌, ◌++◌, IfOk, OnOk, []};
ghost use Rattle.std.specs.List.{flat_map};
ghost use Rattle.graphql_spec.specs.Documents.{Selections};
ghost use Rattle.graphql_spec.specs.Documents as documents;
ghost use Rattle.juniper_syntax.specs.DocumentView.{put_selection, view_definition, view_directives, view_fragment, view_operation, view_selections};
ghost use Rattle.juniper_written.specs.Parts.{field_parts, inline_parts, joined, parts_in, parts_of, spread_parts};
ghost use Rattle.juniper_syntax.specs.DocumentView.{view_field};
ghost use Rattle.juniper_written.specs.WrittenView.{view_directives_at, view_inline, view_spread_at, view_variables, view_written};

use juniper_syntax::{
    Definition, Directive, Field, Fragment, FragmentSpread, InlineFragment, Operation, ScalarValue,
    Selection, Span, Spanning, VariableDefinitions,
};
use std::alloc::{AllocError, Global};

/// For how many fields a list has room from the start, which is enough for most definitions.
const FIELDS: usize = 16;

/// What is written in a definition at any depth, kind by kind, each in document order.
#[derive(Drop)]
pub struct Written<'d, 'a, S> {
    /// The fields (2.5).
    pub fields: Vec<&'d Spanning<Field<'a, S>, Span>>,
    /// The names of the fragments that are spread (2.8).
    pub spreads: Vec<&'a str>,
    /// The names in type conditions, a fragment's own first (2.8.1).
    pub conditions: Vec<&'a str>,
    /// The directives (2.12): first the definition's own, then those of its variables, then those of its selections.
    pub directives: Vec<&'d Spanning<Directive<'a, S>, Span>>,
}

/// What is written in a definition. An error where memory is refused.
pub fn written_in<'d, 'a, S: ScalarValue>(
    alloc: Global,
    definition: &'d Definition<'a, S>,
) -> Result<Written<'d, 'a, S>, AllocError>
    ensures { IfOk result (λ w. view_written S.shown w ≡ parts_of (view_definition S.shown definition.now)) }
{
    match definition {
        Definition::Operation(operation) => written_in_operation(alloc, operation),
        Definition::Fragment(fragment) => written_in_fragment(alloc, fragment),
    }
}

/// What is written in an operation.
fn written_in_operation<'d, 'a, S: ScalarValue>(
    alloc: Global,
    operation: &'d Spanning<Operation<'a, S>, Span>,
) -> Result<Written<'d, 'a, S>, AllocError>
    ensures { IfOk result (λ w. view_written S.shown w ≡ parts_of (documents.operation (view_operation S.shown operation.now))) }
{
    let mut written = nothing_written(alloc)?;
    write_directives(&operation.item.directives, &mut written.directives)?;
    write_variables(
        &operation.item.variable_definitions,
        &mut written.directives,
    )?;
    write_selections(operation.item.selection_set.as_slice(), &mut written)?;
    Ok(written)
}

/// What is written in a fragment.
fn written_in_fragment<'d, 'a, S: ScalarValue>(
    alloc: Global,
    fragment: &'d Spanning<Fragment<'a, S>, Span>,
) -> Result<Written<'d, 'a, S>, AllocError>
    ensures { IfOk result (λ w. view_written S.shown w ≡ parts_of (documents.fragment (view_fragment S.shown fragment.now))) }
{
    let mut written = nothing_written(alloc)?;
    written.conditions.push(fragment.item.type_condition.item)?;
    write_directives(&fragment.item.directives, &mut written.directives)?;
    write_selections(fragment.item.selection_set.as_slice(), &mut written)?;
    Ok(written)
}

/// Nothing yet. An error where memory is refused.
fn nothing_written<'d, 'a, S: ScalarValue>(alloc: Global) -> Result<Written<'d, 'a, S>, AllocError>
    ensures { IfOk result (λ w. view_written S.shown w ≡ record { fields = []; spreads = []; conditions = []; directives = [] }) }
{
    let fields = Vec::with_capacity(alloc, FIELDS)?;
    Ok(Written {
        fields,
        spreads: Vec::new(alloc),
        conditions: Vec::new(alloc),
        directives: Vec::new(alloc),
    })
}

/// Adds what is written in selections.
#[cycle(writing)]
fn write_selections<'d, 'a, S: ScalarValue>(
    selections: &'d [Selection<'a, S>],
    written: &mut Written<'d, 'a, S>,
) -> Result<(), AllocError>
    ensures { OnOk result (view_written S.shown written.new ≡ joined (view_written S.shown written.old) (parts_in (view_selections S.shown selections.now))) }
{
    for selection in selections {
        write_selection(selection, written)?;
    }
    Ok(())
}

/// Adds what is written in a selection, before those that follow it.
#[cycle(writing)]
fn write_selection<'d, 'a, S: ScalarValue>(
    selection: &'d Selection<'a, S>,
    written: &mut Written<'d, 'a, S>,
) -> Result<(), AllocError>
    ensures { OnOk result ((rest : Selections) → joined (view_written S.shown written.new) (parts_in rest)
        ≡ joined (view_written S.shown written.old) (parts_in (put_selection S.shown selection.now rest))) }
{
    match selection {
        Selection::Field(field) => {
            write_field(field, written)?;
            match &field.item.selection_set {
                Some(below) => {
                    write_selections(below, written)?;
                    Ok(())
                }
                None => Ok(()),
            }
        }
        Selection::FragmentSpread(spread) => {
            write_spread(spread, written)?;
            Ok(())
        }
        Selection::InlineFragment(inline) => {
            write_inline(inline, written)?;
            write_selections(&inline.item.selection_set, written)?;
            Ok(())
        }
    }
}

/// Adds a field, without what stands below it.
fn write_field<'d, 'a, S: ScalarValue>(
    field: &'d Spanning<Field<'a, S>, Span>,
    written: &mut Written<'d, 'a, S>,
) -> Result<(), AllocError>
    ensures { OnOk result (view_written S.shown written.new ≡ joined (view_written S.shown written.old) (field_parts (view_field S.shown field.now))) }
{
    written.fields.push(field)?;
    write_directives(&field.item.directives, &mut written.directives)?;
    Ok(())
}

/// Adds a spread.
fn write_spread<'d, 'a, S: ScalarValue>(
    spread: &'d Spanning<FragmentSpread<'a, S>, Span>,
    written: &mut Written<'d, 'a, S>,
) -> Result<(), AllocError>
    ensures { OnOk result (view_written S.shown written.new ≡ joined (view_written S.shown written.old) (spread_parts (view_spread_at S.shown spread.now))) }
{
    written.spreads.push(spread.item.name.item)?;
    write_directives(&spread.item.directives, &mut written.directives)?;
    Ok(())
}

/// Adds an inline fragment, without what stands below it.
fn write_inline<'d, 'a, S: ScalarValue>(
    inline: &'d Spanning<InlineFragment<'a, S>, Span>,
    written: &mut Written<'d, 'a, S>,
) -> Result<(), AllocError>
    ensures { OnOk result (view_written S.shown written.new ≡ joined (view_written S.shown written.old) (inline_parts (view_inline S.shown inline.now))) }
{
    match &inline.item.type_condition {
        Some(condition) => {
            written.conditions.push(condition.item)?;
        }
        None => {}
    }
    write_directives(&inline.item.directives, &mut written.directives)?;
    Ok(())
}

/// Adds directives. An error where memory is refused.
pub fn write_directives<'d, 'a, S: ScalarValue>(
    directives: &'d Option<Vec<Spanning<Directive<'a, S>, Span>>>,
    into: &mut Vec<&'d Spanning<Directive<'a, S>, Span>>,
) -> Result<(), AllocError>
    ensures { OnOk result (view_directives_at S.shown into.new.items ≡ view_directives_at S.shown into.old.items ++ view_directives S.shown directives.now) }
{
    match directives {
        Some(directives) => {
            for directive in directives {
                into.push(directive)?;
            }
            Ok(())
        }
        None => Ok(()),
    }
}

/// Adds the directives of variables. An error where memory is refused.
pub fn write_variables<'d, 'a, S: ScalarValue>(
    variables: &'d Option<Spanning<VariableDefinitions<'a, S>, Span>>,
    into: &mut Vec<&'d Spanning<Directive<'a, S>, Span>>,
) -> Result<(), AllocError>
    ensures { OnOk result (view_directives_at S.shown into.new.items
        ≡ view_directives_at S.shown into.old.items ++ flat_map (λ v. v.directives) (view_variables S.shown variables.now)) }
{
    match variables {
        Some(variables) => {
            for variable in &variables.item.items {
                write_directives(&variable.1.directives, into)?;
            }
            Ok(())
        }
        None => Ok(()),
    }
}
