//! UniqueInputFieldNames: no two fields of an object value have one name (section 5.6.3 of the Specification).

ghost use Rattle.std.specs.Prelude.{◌≡◌, IfOk, option_map};
ghost use Rattle.std.specs.List.{list_any};
ghost use Rattle.graphql_spec.specs.Documents.{written};
ghost use Rattle.graphql_spec.specs.Rules as rules;
ghost use Rattle.graphql_spec.specs.Written as spec;
ghost use Rattle.graphql_spec.specs.Written.{argument_lists, default_values, defined_variables, field_repeats, item_repeats, fields_repeat};
ghost use Rattle.juniper_syntax.specs.Positions.{view_spanning};
ghost use Rattle.juniper_syntax.specs.DocumentView.{view_arguments, view_definition};
ghost use Rattle.juniper_syntax.specs.InputView.{view_fields, view_input, view_items};
ghost use Rattle.juniper_written.specs.WrittenView.{view_lists, view_names, view_variables};
ghost use Rattle.juniper_written.specs.FieldNames.{default_repeats, names_of, value_repeats_in, value_repeats_or};

use crate::{ArgumentLists, repeats};
use juniper_syntax::ast::Arguments;
use juniper_syntax::{
    Definition, InputField, InputValue, ScalarValue, Span, Spanning, VariableDefinitions,
};
use std::alloc::{AllocError, Global};

/// Whether two of an object's own fields have one name. An error where memory is refused.
fn names_repeat<S: ScalarValue>(alloc: Global, fields: &[InputField<S>]) -> Result<bool, AllocError>
    ensures { IfOk result (λ b. b ≡ spec.repeats (names_of (view_fields S.shown fields.now))) }
{
    let names = field_names(alloc, fields)?;
    let found = repeats(alloc, &names)?;
    Ok(found)
}

/// The names of an object's fields.
fn field_names<'b, S: ScalarValue>(
    alloc: Global,
    fields: &'b [InputField<S>],
) -> Result<Vec<&'b str>, AllocError>
    ensures { IfOk result (λ ns. view_names ns.items ≡ names_of (view_fields S.shown fields.now)) }
{
    let mut names = Vec::new(alloc);
    for field in fields {
        names.push(field.0.item.as_str())?;
    }
    Ok(names)
}

/// Whether an object in the value, at any depth, has two fields of one name. An error where memory is refused.
#[cycle(repeating)]
pub(crate) fn value_repeats<S: ScalarValue>(
    alloc: Global,
    value: &InputValue<S>,
) -> Result<bool, AllocError>
    ensures { IfOk result (λ b. b ≡ field_repeats (view_input S.shown value.now)) }
{
    match value {
        InputValue::Null => Ok(false),
        InputValue::Scalar(_) => Ok(false),
        InputValue::Enum(_) => Ok(false),
        InputValue::Variable(_) => Ok(false),
        InputValue::List(items) => {
            let found = items_repeat(alloc, items.as_slice())?;
            Ok(found)
        }
        InputValue::Object(fields) => {
            let found = object_repeats(alloc, fields.as_slice())?;
            Ok(found)
        }
    }
}

/// Whether it is so of an item.
#[cycle(repeating)]
fn items_repeat<S: ScalarValue>(
    alloc: Global,
    items: &[Spanning<InputValue<S>, Span>],
) -> Result<bool, AllocError>
    ensures { IfOk result (λ b. b ≡ item_repeats (view_items S.shown items.now)) }
{
    for item in items {
        if value_repeats(alloc, &item.item)? {
            return Ok(true);
        }
    }
    Ok(false)
}

/// Whether two of the fields themselves have one name, or it is so within a field.
#[cycle(repeating)]
fn object_repeats<S: ScalarValue>(
    alloc: Global,
    fields: &[InputField<S>],
) -> Result<bool, AllocError>
    ensures { IfOk result (λ b. b ≡ fields_repeat (view_fields S.shown fields.now)) }
{
    if names_repeat(alloc, fields)? {
        return Ok(true);
    }
    for field in fields {
        if value_repeats(alloc, &field.1.item)? {
            return Ok(true);
        }
    }
    Ok(false)
}

/// Whether an object in one of the values of arguments, or in a default of a variable, has two fields of one name. The
/// arguments are those of the definition's fields and directives. An error where memory is refused.
pub fn repeats_input_field<S: ScalarValue>(
    alloc: Global,
    definition: &Definition<'_, S>,
    arguments: &ArgumentLists<'_, '_, S>,
) -> Result<bool, AllocError>
    ensures { IfOk result (λ b. view_lists S.shown arguments.now ≡ argument_lists (view_definition S.shown definition.now) →
        b ≡ rules.repeats_input_field (view_definition S.shown definition.now)) }
{
    if lists_repeat(alloc, arguments)? {
        return Ok(true);
    }
    let found = defaults_repeat(alloc, definition)?;
    Ok(found)
}

/// Whether it is so of the arguments of a field or directive.
fn lists_repeat<S: ScalarValue>(
    alloc: Global,
    arguments: &ArgumentLists<'_, '_, S>,
) -> Result<bool, AllocError>
    ensures { IfOk result (λ b. b ≡ list_any (list_any value_repeats_in) (view_lists S.shown arguments.now)) }
{
    for index in 0..arguments.lists.len() {
        let given = arguments.lists[index];
        if given_repeat(alloc, given)? {
            return Ok(true);
        }
    }
    Ok(false)
}

/// Whether it is so of an argument.
fn given_repeat<S: ScalarValue>(
    alloc: Global,
    given: &Option<Spanning<Arguments<'_, S>, Span>>,
) -> Result<bool, AllocError>
    ensures { IfOk result (λ b. b ≡ list_any value_repeats_in (written (view_arguments S.shown given.now))) }
{
    match given {
        Some(arguments) => {
            for argument in &arguments.item.items {
                if value_repeats(alloc, &argument.1.item)? {
                    return Ok(true);
                }
            }
            Ok(false)
        }
        None => Ok(false),
    }
}

/// Whether it is so of a variable's default.
fn defaults_repeat<S: ScalarValue>(
    alloc: Global,
    definition: &Definition<'_, S>,
) -> Result<bool, AllocError>
    ensures { IfOk result (λ b. b ≡ list_any field_repeats (default_values (defined_variables (view_definition S.shown definition.now)))) }
{
    match definition {
        Definition::Operation(operation) => {
            let found = variables_repeat(alloc, &operation.item.variable_definitions)?;
            Ok(found)
        }
        Definition::Fragment(_) => Ok(false),
    }
}

/// Whether it is so of the default of one of these variables.
fn variables_repeat<S: ScalarValue>(
    alloc: Global,
    variables: &Option<Spanning<VariableDefinitions<'_, S>, Span>>,
) -> Result<bool, AllocError>
    ensures { IfOk result (λ b. b ≡ list_any default_repeats (view_variables S.shown variables.now)) }
{
    match variables {
        Some(variables) => {
            for variable in &variables.item.items {
                if default_repeats(alloc, &variable.1.default_value)? {
                    return Ok(true);
                }
            }
            Ok(false)
        }
        None => Ok(false),
    }
}

/// Whether it is so of a default, where there is one.
fn default_repeats<S: ScalarValue>(
    alloc: Global,
    default: &Option<Spanning<InputValue<S>, Span>>,
) -> Result<bool, AllocError>
    ensures { IfOk result (λ b. b ≡ value_repeats_or (option_map (view_spanning (view_input S.shown)) default.now)) }
{
    match default {
        Some(value) => {
            let found = value_repeats(alloc, &value.item)?;
            Ok(found)
        }
        None => Ok(false),
    }
}
