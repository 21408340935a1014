//! The parts of calls: fields with one response key, one name and the same arguments have the same parts
//! (FieldsInSetCanMerge, section 5.3.2 of the Specification).

ghost use Rattle.std.specs.Prelude.{◌≡◌, ◌++◌, IfOk, OnOk, string_bytes};
ghost use Rattle.graphql_spec.specs.Constants.{meaning, meanings, members};
ghost use Rattle.juniper_field_graph.specs.CallParts.{a_scalar, call_parts, item_parts, joined_parts, listed_parts, member_parts};
ghost use Rattle.juniper_field_graph.specs.CallParts.{put_in_order, value_parts, view_members, view_part, view_parts};
ghost use Rattle.juniper_field_graph.specs.NamedValues.{view_named};
ghost use Rattle.juniper_syntax.specs.DocumentView.{view_field};
ghost use Rattle.juniper_syntax.specs.InputView.{view_input, view_items};

use crate::calls::Part;
use crate::named_values::Named;
use juniper_syntax::ast::Arguments;
use juniper_syntax::{Field, InputValue, ScalarValue, Span, Spanning};
use std::alloc::{AllocError, Global};
use std::collections::BTreeMap;

/// The parts of the members of an object, or of arguments, in the order of their names.
type MemberParts<'d> = BTreeMap<&'d str, Vec<Part<'d>>>;

/// The parts of a field's call: the number of its response key, its name, and its arguments in the order of their names, whatever
/// order they are written in; so are the fields of objects. Of several of one name the first counts. An error where memory is refused.
pub(crate) fn parts_of_call<'d, S: ScalarValue>(
    alloc: Global,
    key: usize,
    field: &'d Spanning<Field<'_, S>, Span>,
) -> Result<Vec<Part<'d>>, AllocError>
    ensures { IfOk result (λ parts. view_parts parts.items ≡ call_parts key (view_field S.shown field.now)) }
{
    let mut parts = Vec::new(alloc);
    parts.push(Part::Key(key))?;
    parts.push(Part::Name(field.item.name.item))?;
    let arguments = Arguments::written(&field.item.arguments);
    let by_name = arguments_by_name(alloc, arguments)?;
    put_members(&by_name, &mut parts)?;
    Ok(parts)
}

/// The parts of each argument, by its name.
fn arguments_by_name<'d, S: ScalarValue>(
    alloc: Global,
    arguments: &'d [Named<&str, S>],
) -> Result<MemberParts<'d>, AllocError>
    ensures { IfOk result (λ made. view_members made.entries ≡ listed_parts (members (view_named (λ n. n.now) S.shown arguments.now))) }
{
    let mut by_name = BTreeMap::new(alloc);
    for turn in 0..arguments.len() {
        let argument = &arguments[arguments.len() - 1 - turn];
        let mut value = Vec::new(alloc);
        put_value(alloc, &argument.1.item, &mut value)?;
        put_member(&mut by_name, argument.0.item, value)?;
    }
    Ok(by_name)
}

/// Puts the parts of a value.
#[cycle(parts)]
fn put_value<'d, S: ScalarValue>(
    alloc: Global,
    value: &'d InputValue<S>,
    parts: &mut Vec<Part<'d>>,
) -> Result<(), AllocError>
    ensures { OnOk result (view_parts parts.new.items ≡ view_parts parts.old.items ++ value_parts (meaning (view_input S.shown value.now))) }
{
    match value {
        InputValue::Null => {
            parts.push(Part::Null)?;
            Ok(())
        }
        InputValue::Scalar(scalar) => {
            parts.push(part_of_scalar(scalar))?;
            Ok(())
        }
        InputValue::Enum(name) => {
            parts.push(Part::Enum(name.as_str()))?;
            Ok(())
        }
        InputValue::Variable(name) => {
            parts.push(Part::Variable(name.as_str()))?;
            Ok(())
        }
        InputValue::List(items) => {
            parts.push(Part::List)?;
            put_items(alloc, items.as_slice(), parts)?;
            Ok(())
        }
        InputValue::Object(fields) => {
            parts.push(Part::Object)?;
            put_fields(alloc, fields.as_slice(), parts)?;
            Ok(())
        }
    }
}

/// Puts the parts of a list's items, and an end.
#[cycle(parts)]
fn put_items<'d, S: ScalarValue>(
    alloc: Global,
    items: &'d [Spanning<InputValue<S>, Span>],
    parts: &mut Vec<Part<'d>>,
) -> Result<(), AllocError>
    ensures { OnOk result (view_parts parts.new.items ≡ view_parts parts.old.items ++ item_parts (meanings (view_items S.shown items.now))) }
{
    for item in items {
        put_value(alloc, &item.item, parts)?;
    }
    parts.push(Part::End)?;
    Ok(())
}

/// Puts the parts of an object's fields in the order of their names, and an end.
#[cycle(parts)]
fn put_fields<'d, S: ScalarValue>(
    alloc: Global,
    fields: &'d [Named<String, S>],
    parts: &mut Vec<Part<'d>>,
) -> Result<(), AllocError>
    ensures { OnOk result (view_parts parts.new.items ≡ view_parts parts.old.items
        ++ member_parts (members (view_named (λ n. string_bytes n) S.shown fields.now))) }
{
    let mut by_name = BTreeMap::new(alloc);
    for turn in 0..fields.len() {
        let field = &fields[fields.len() - 1 - turn];
        let mut value = Vec::new(alloc);
        put_value(alloc, &field.1.item, &mut value)?;
        put_member(&mut by_name, field.0.item.as_str(), value)?;
    }
    put_members(&by_name, parts)?;
    Ok(())
}

/// Puts the parts of a member at its name, in place of those that stand there.
fn put_member<'d>(
    by_name: &mut MemberParts<'d>,
    name: &'d str,
    value: Vec<Part<'d>>,
) -> Result<(), AllocError>
    ensures { OnOk result (view_members by_name.new.entries ≡ put_in_order name.now (view_parts value.entry.items) (view_members by_name.old.entries)) }
{
    drop(by_name.insert(name, value)?);
    Ok(())
}

/// Puts the parts of the members one behind the other, each behind its name, and an end.
fn put_members<'d>(by_name: &MemberParts<'d>, parts: &mut Vec<Part<'d>>) -> Result<(), AllocError>
    ensures { OnOk result (view_parts parts.new.items ≡ view_parts parts.old.items ++ joined_parts (view_members by_name.now.entries)) }
{
    for (name, value) in by_name {
        parts.push(Part::Name(*name))?;
        parts.extend_from_slice(value.as_slice())?;
    }
    parts.push(Part::End)?;
    Ok(())
}

/// The part that a scalar is.
fn part_of_scalar<'d, S: ScalarValue>(scalar: &'d S) -> Part<'d>
    ensures { view_part result ≡ a_scalar (S.shown scalar.now) }
{
    match scalar.try_to_int() {
        Some(int) => Part::Int(int),
        None => match scalar.try_to_bool() {
            Some(truth) => Part::Boolean(truth),
            None => match scalar.try_to_str() {
                Some(text) => Part::Text(text),
                None => Part::Null,
            },
        },
    }
}
