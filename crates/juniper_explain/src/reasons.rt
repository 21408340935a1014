//! Why a given value does not fit the type of its variable, part by part (CoerceVariableValues, section 6.1.2 of the
//! Specification).

ghost use Rattle.std.specs.Prelude.{◌≡◌, ◌++◌, OnOk};
ghost use Rattle.juniper_meta.specs.MetaView.{view_type};
ghost use Rattle.juniper_schema.specs.SchemaView.{view_schema};
ghost use Rattle.juniper_syntax.specs.InputView.{view_fields, view_input, view_items};
ghost use Rattle.juniper_explain.specs.Reasons.{reasons_in_fields, reasons_in_items, value_reasons};
ghost use Rattle.juniper_explain.specs.ReasonsView.{place_text, view_messages};

use crate::value_parts::{
    ValuePlace, add_missing, add_repeated, add_undeclared, add_unfit, add_wrong_size, is_list,
    takes_fields,
};
use juniper_meta::find_argument;
use juniper_schema::SchemaType;
use juniper_syntax::{InputField, InputValue, ScalarValue, Span, Spanning, Type};
use juniper_type_rules::{input_fields, item_type};
use std::alloc::{AllocError, Global};

/// Adds why a value does not fit a type: nothing where it does. Of a list at a list type, and of an object at an input object,
/// it is what is wrong with the parts. An error where memory is refused.
#[cycle(reasoning)]
pub(crate) fn explain_value<S: ScalarValue>(
    alloc: Global,
    schema: &SchemaType<S>,
    value: &InputValue<S>,
    expected: &Type<String>,
    place: &ValuePlace<'_>,
    messages: &mut Vec<String>,
) -> Result<(), AllocError>
    ensures { OnOk result (view_messages messages.new.items ≡ view_messages messages.old.items
        ++ value_reasons (view_schema S.shown schema.now) (view_input S.shown value.now) (view_type expected.now) (place_text place.now)) }
{
    if schema.fits(value, expected, true) {
        return Ok(());
    }
    let text = place.path(alloc)?;
    let path = text.as_str();
    match value {
        InputValue::Null => add_unfit(alloc, schema, value, expected, path, messages),
        InputValue::Scalar(_) => add_unfit(alloc, schema, value, expected, path, messages),
        InputValue::Enum(_) => add_unfit(alloc, schema, value, expected, path, messages),
        InputValue::Variable(_) => add_unfit(alloc, schema, value, expected, path, messages),
        InputValue::List(items) => {
            if !is_list(expected) {
                return add_unfit(alloc, schema, value, expected, path, messages);
            }
            let parts = items.as_slice();
            add_wrong_size(alloc, parts.len(), expected, path, messages)?;
            explain_items(alloc, schema, parts, item_type(expected), path, messages)?;
            Ok(())
        }
        InputValue::Object(fields) => {
            if !takes_fields(schema, expected) {
                return add_unfit(alloc, schema, value, expected, path, messages);
            }
            let inside = fields.as_slice();
            add_repeated(alloc, schema, inside, expected, path, messages)?;
            explain_fields(alloc, schema, inside, expected, path, messages)?;
            add_missing(alloc, schema, inside, expected, path, messages)?;
            Ok(())
        }
    }
}

/// Adds why the items of a list, which stands at a path, do not fit a type.
#[cycle(reasoning)]
fn explain_items<S: ScalarValue>(
    alloc: Global,
    schema: &SchemaType<S>,
    items: &[Spanning<InputValue<S>, Span>],
    expected: &Type<String>,
    path: &str,
    messages: &mut Vec<String>,
) -> Result<(), AllocError>
    ensures { OnOk result (view_messages messages.new.items ≡ view_messages messages.old.items
        ++ reasons_in_items (view_schema S.shown schema.now) (view_items S.shown items.now) (view_type expected.now) path.now 0) }
{
    for index in 0..items.len() {
        let place = ValuePlace::Item(path, index);
        explain_value(
            alloc,
            schema,
            &items[index].item,
            expected,
            &place,
            messages,
        )?;
    }
    Ok(())
}

/// Adds why the fields of an object, which stands at a path, are none of an input object, or do not fit.
#[cycle(reasoning)]
fn explain_fields<S: ScalarValue>(
    alloc: Global,
    schema: &SchemaType<S>,
    fields: &[InputField<S>],
    expected: &Type<String>,
    path: &str,
    messages: &mut Vec<String>,
) -> Result<(), AllocError>
    ensures { OnOk result (view_messages messages.new.items ≡ view_messages messages.old.items
        ++ reasons_in_fields (view_schema S.shown schema.now) (view_fields S.shown fields.now) (view_type expected.now) path.now) }
{
    for field in fields {
        let name = field.0.item.as_str();
        match find_argument(input_fields(schema, expected), name) {
            Some(declared) => {
                let place = ValuePlace::Field(path, name);
                explain_value(
                    alloc,
                    schema,
                    &field.1.item,
                    &declared.arg_type,
                    &place,
                    messages,
                )?;
            }
            None => add_undeclared(alloc, schema, name, expected, path, messages)?,
        }
    }
    Ok(())
}
