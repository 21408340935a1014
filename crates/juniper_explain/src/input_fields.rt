//! UniqueInputFieldNames (section 5.6.3 of the Specification).

ghost use Rattle.std.specs.Prelude.{◌≡◌, IfOk, OnOk, map, option_map};
ghost use Rattle.std.specs.List.{flat_map};
ghost use Rattle.graphql_spec.specs.Documents.{written};
ghost use Rattle.juniper_syntax.specs.Positions.{view_spanning};
ghost use Rattle.juniper_syntax.specs.DocumentView.{view_arguments, view_variable};
ghost use Rattle.juniper_syntax.specs.InputView.{view_fields, view_input, view_items};
ghost use Rattle.juniper_written.specs.WrittenView.{view_list};
ghost use Rattle.juniper_explain.specs.Adding.{Adds};
ghost use Rattle.juniper_explain.specs.Nodes.{repeated_fields, repeated_in_default, repeated_in_items, repeated_in_values, repeated_within};
ghost use Rattle.juniper_explain.specs.Words.{field_words, view_words};

use crate::explanation::{Explanation, Wording};
use crate::repeats::explain_repeated;
use crate::rule::Rule;
use juniper_syntax::ast::Arguments;
use juniper_syntax::{DefinedVariable, InputField, InputValue, ScalarValue, Span, Spanning};
use std::alloc::{AllocError, Global};

/// What is said of a field's name.
const REPEATED_FIELD: Wording<'static> = Wording {
    rule: Rule::UniqueInputFieldNames,
    before: "Input field name `",
    after: "` is not unique",
};

/// Explains the fields of objects in arguments, at any depth, that have the name of an earlier one of their object.
pub(crate) fn explain_in_arguments<'d, 'a, S: ScalarValue>(
    alloc: Global,
    lists: &Vec<&'d Option<Spanning<Arguments<'a, S>, Span>>>,
    explanations: &mut Vec<Explanation>,
) -> Result<(), AllocError>
    ensures { OnOk result (Adds explanations.old.items explanations.new.items
        (flat_map (flat_map (λ a. repeated_within a.value.item)) (view_list S.shown lists.now.items))) }
{
    for index in 0..lists.len() {
        let given = lists[index];
        explain_in_given(alloc, given, explanations)?;
    }
    Ok(())
}

/// Explains those in the arguments of one field or directive.
fn explain_in_given<'a, S: ScalarValue>(
    alloc: Global,
    given: &Option<Spanning<Arguments<'a, S>, Span>>,
    explanations: &mut Vec<Explanation>,
) -> Result<(), AllocError>
    ensures { OnOk result (Adds explanations.old.items explanations.new.items
        (flat_map (λ a. repeated_within a.value.item) (written (view_arguments S.shown given.now)))) }
{
    match given {
        Some(arguments) => {
            for argument in &arguments.item.items {
                explain_in_value(alloc, &argument.1.item, explanations)?;
            }
            Ok(())
        }
        None => Ok(()),
    }
}

/// Explains those in the defaults of variables.
pub(crate) fn explain_in_defaults<S: ScalarValue>(
    alloc: Global,
    variables: &[DefinedVariable<'_, S>],
    explanations: &mut Vec<Explanation>,
) -> Result<(), AllocError>
    ensures { OnOk result (Adds explanations.old.items explanations.new.items
        (flat_map (λ v. repeated_in_default v.default) (map (view_variable S.shown) variables.now))) }
{
    for variable in variables {
        explain_in_default(alloc, &variable.1.default_value, explanations)?;
    }
    Ok(())
}

/// Explains those in a default, where there is one.
fn explain_in_default<S: ScalarValue>(
    alloc: Global,
    default: &Option<Spanning<InputValue<S>, Span>>,
    explanations: &mut Vec<Explanation>,
) -> Result<(), AllocError>
    ensures { OnOk result (Adds explanations.old.items explanations.new.items
        (repeated_in_default (option_map (view_spanning (view_input S.shown)) default.now))) }
{
    match default {
        Some(value) => explain_in_value(alloc, &value.item, explanations),
        None => Ok(()),
    }
}

/// Explains those in a value.
#[cycle(repeating)]
fn explain_in_value<S: ScalarValue>(
    alloc: Global,
    value: &InputValue<S>,
    explanations: &mut Vec<Explanation>,
) -> Result<(), AllocError>
    ensures { OnOk result (Adds explanations.old.items explanations.new.items (repeated_within (view_input S.shown value.now))) }
{
    match value {
        InputValue::Null => Ok(()),
        InputValue::Scalar(_) => Ok(()),
        InputValue::Enum(_) => Ok(()),
        InputValue::Variable(_) => Ok(()),
        InputValue::List(items) => {
            explain_in_items(alloc, items.as_slice(), explanations)?;
            Ok(())
        }
        InputValue::Object(fields) => {
            let inside = fields.as_slice();
            explain_names(alloc, inside, explanations)?;
            explain_in_fields(alloc, inside, explanations)?;
            Ok(())
        }
    }
}

/// Explains those in the items of a list.
#[cycle(repeating)]
fn explain_in_items<S: ScalarValue>(
    alloc: Global,
    items: &[Spanning<InputValue<S>, Span>],
    explanations: &mut Vec<Explanation>,
) -> Result<(), AllocError>
    ensures { OnOk result (Adds explanations.old.items explanations.new.items (repeated_in_items (view_items S.shown items.now))) }
{
    for item in items {
        explain_in_value(alloc, &item.item, explanations)?;
    }
    Ok(())
}

/// Explains those in the values of an object's fields.
#[cycle(repeating)]
fn explain_in_fields<S: ScalarValue>(
    alloc: Global,
    fields: &[InputField<S>],
    explanations: &mut Vec<Explanation>,
) -> Result<(), AllocError>
    ensures { OnOk result (Adds explanations.old.items explanations.new.items (repeated_in_values (view_fields S.shown fields.now))) }
{
    for field in fields {
        explain_in_value(alloc, &field.1.item, explanations)?;
    }
    Ok(())
}

/// Explains the fields of an object that have the name of an earlier one.
#[tactic(auto, unfolding(crate::specs::Nodes::repeated_fields))]
fn explain_names<S: ScalarValue>(
    alloc: Global,
    fields: &[InputField<S>],
    explanations: &mut Vec<Explanation>,
) -> Result<(), AllocError>
    ensures { OnOk result (Adds explanations.old.items explanations.new.items (repeated_fields (view_fields S.shown fields.now))) }
{
    let words = words_of_fields(alloc, fields)?;
    explain_repeated(alloc, &words, &REPEATED_FIELD, explanations)
}

/// The names of an object's fields.
fn words_of_fields<'f, S: ScalarValue>(
    alloc: Global,
    fields: &'f [InputField<S>],
) -> Result<Vec<Spanning<&'f str, Span>>, AllocError>
    ensures { IfOk result (λ ws. view_words ws.items ≡ field_words (view_fields S.shown fields.now)) }
{
    let mut words = Vec::new(alloc);
    for field in fields {
        words.push(Spanning::new(field.0.span, field.0.item.as_str()))?;
    }
    Ok(words)
}
