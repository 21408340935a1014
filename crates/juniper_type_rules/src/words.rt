//! The variables that are used in arguments, each with its place in the text (section 5.8.3 of the Specification).

ghost use Rattle.std.specs.Prelude.{◌≡◌, ◌++◌, IfOk, OnOk, map};
ghost use Rattle.std.specs.List.{flat_map};
ghost use Rattle.graphql_spec.specs.Documents.{written};
ghost use Rattle.juniper_syntax.specs.Positions.{view_span};
ghost use Rattle.juniper_syntax.specs.DocumentView.{view_arguments, view_word};
ghost use Rattle.juniper_syntax.specs.InputView.{view_fields, view_input, view_items};
ghost use Rattle.juniper_written.specs.WrittenView.{view_lists, view_names};
ghost use Rattle.juniper_type_rules.specs.Variables.{names_of_words, variable_words, words_given, words_in_fields, words_in_items};

use juniper_syntax::ast::Arguments;
use juniper_syntax::{InputField, InputValue, ScalarValue, Span, Spanning};
use juniper_written::ArgumentLists;
use std::alloc::{AllocError, Global};

/// The variables in arguments, each with its place, in the order in which they are written (5.8.3). An error where memory is
/// refused.
pub fn words_in_lists<'u, 'd: 'u, 'a, S: ScalarValue>(
    alloc: Global,
    arguments: &ArgumentLists<'d, 'a, S>,
) -> Result<Vec<Spanning<&'u str, Span>>, AllocError>
    ensures { IfOk result (λ ws. map view_word ws.items ≡ flat_map (flat_map words_given) (view_lists S.shown arguments.now)) }
{
    let mut words = Vec::new(alloc);
    for index in 0..arguments.lists.len() {
        let given = arguments.lists[index];
        push_of_given(given, &mut words)?;
    }
    Ok(words)
}

/// Adds those in the arguments of one field or directive.
fn push_of_given<'d, S: ScalarValue>(
    given: &'d Option<Spanning<Arguments<'_, S>, Span>>,
    words: &mut Vec<Spanning<&'d str, Span>>,
) -> Result<(), AllocError>
    ensures { OnOk result (map view_word words.new.items ≡ map view_word words.old.items
        ++ flat_map words_given (written (view_arguments S.shown given.now))) }
{
    match given {
        Some(arguments) => {
            for argument in &arguments.item.items {
                push_of_value(&argument.1.item, argument.1.span, words)?;
            }
            Ok(())
        }
        None => Ok(()),
    }
}

/// Adds those in a value that stands here.
#[cycle(naming)]
fn push_of_value<'d, S: ScalarValue>(
    value: &'d InputValue<S>,
    span: Span,
    words: &mut Vec<Spanning<&'d str, Span>>,
) -> Result<(), AllocError>
    ensures { OnOk result (map view_word words.new.items ≡ map view_word words.old.items
        ++ variable_words (view_input S.shown value.now) (view_span span)) }
{
    match value {
        InputValue::Null => Ok(()),
        InputValue::Scalar(_) => Ok(()),
        InputValue::Enum(_) => Ok(()),
        InputValue::Variable(name) => {
            words.push(Spanning::new(span, name.as_str()))?;
            Ok(())
        }
        InputValue::List(items) => {
            push_of_items(items.as_slice(), words)?;
            Ok(())
        }
        InputValue::Object(fields) => {
            push_of_fields(fields.as_slice(), words)?;
            Ok(())
        }
    }
}

/// Adds those in the items of a list.
#[cycle(naming)]
fn push_of_items<'d, S: ScalarValue>(
    items: &'d [Spanning<InputValue<S>, Span>],
    words: &mut Vec<Spanning<&'d str, Span>>,
) -> Result<(), AllocError>
    ensures { OnOk result (map view_word words.new.items ≡ map view_word words.old.items ++ words_in_items (view_items S.shown items.now)) }
{
    for item in items {
        push_of_value(&item.item, item.span, words)?;
    }
    Ok(())
}

/// Adds those in the fields of an object.
#[cycle(naming)]
fn push_of_fields<'d, S: ScalarValue>(
    fields: &'d [InputField<S>],
    words: &mut Vec<Spanning<&'d str, Span>>,
) -> Result<(), AllocError>
    ensures { OnOk result (map view_word words.new.items ≡ map view_word words.old.items ++ words_in_fields (view_fields S.shown fields.now)) }
{
    for field in fields {
        push_of_value(&field.1.item, field.1.span, words)?;
    }
    Ok(())
}

/// The names of variables, without their places.
pub(crate) fn names_of_words<'u>(
    alloc: Global,
    words: &Vec<Spanning<&'u str, Span>>,
) -> Result<Vec<&'u str>, AllocError>
    ensures { IfOk result (λ ns. view_names ns.items ≡ names_of_words (map view_word words.now.items)) }
{
    let mut names = Vec::with_capacity(alloc, words.len())?;
    for index in 0..words.len() {
        let word = words[index];
        names.push(word.item)?;
    }
    Ok(names)
}
