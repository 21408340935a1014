//! Explanations of given values of variables (CoerceVariableValues, section 6.1.2 of the Specification).

ghost use Rattle.std.specs.Prelude.{◌≡◌, ◌++◌, IfOk, None, OnOk, Some, map, not, option_map};
ghost use Rattle.graphql_spec.specs.Documents.{variables_of};
ghost use Rattle.graphql_spec.specs.Requests.{item_of};
ghost use Rattle.graphql_spec.specs.Types.{required};
ghost use Rattle.juniper_meta.specs.MetaView.{view_type};
ghost use Rattle.juniper_rules.specs.GivenView.{view_given_values};
ghost use Rattle.juniper_schema.specs.SchemaView.{view_schema};
ghost use Rattle.juniper_syntax.specs.Positions.{view_position, view_spanning};
ghost use Rattle.juniper_syntax.specs.DocumentView.{view_operation, view_variable};
ghost use Rattle.juniper_syntax.specs.InputView.{view_input, view_variables};
ghost use Rattle.juniper_explain.specs.GivenValues.{absent_reasons, absent_text, variable_explanations, variable_reasons, view_variable_explanations};
ghost use Rattle.juniper_explain.specs.Reasons.{text_unless};
ghost use Rattle.juniper_explain.specs.ReasonsView.{view_messages};

use crate::reasons::explain_value;
use crate::value_parts::{ValuePlace, say};
use crate::variables::{default_text, listed};
use juniper_rules::Given;
use juniper_schema::SchemaType;
use juniper_syntax::{
    DefinedVariable, InputValue, Operation, ScalarValue, SourcePosition, Span, Spanning, Type,
    Variables,
};
use juniper_type_rules::owned_type;
use std::alloc::{AllocError, Global};

/// Why a variable has no fitting value.
#[derive(Debug, Drop, Eq, PartialEq)]
pub struct VariableExplanation {
    /// Where the variable is defined: the place of the error that is listed of it.
    pub location: SourcePosition,
    /// What is wrong with its value, or with a part of it, whose path the text names.
    pub message: String,
}

/// Why given values of variables do not fit: for each error that
/// [`validate_input_values`](juniper_rules::validate_input_values) lists, in the order of that list, one explanation or more,
/// at the place of the error. Each is of a part of the given value that does not fit the type of its place, and names that part
/// by its path, as `$f.filter[0].name`; or it says that no value is given. There are none exactly where all values fit
/// (CoerceVariableValues, 6.1.2). An error where memory is refused.
pub fn explain_variables<S: ScalarValue>(
    alloc: Global,
    variables: &Variables<S>,
    operation: &Spanning<Operation<'_, S>, Span>,
    schema: &SchemaType<S>,
) -> Result<Vec<VariableExplanation>, AllocError>
    ensures { IfOk result (λ es. view_variable_explanations es.items ≡ variable_explanations (view_schema S.shown schema.now)
        (variables_of (view_operation S.shown operation.now)) (view_variables S.shown variables.now)) }
{
    let given = Given::new(alloc, operation, variables)?;
    let defined = listed(&operation.item.variable_definitions);
    let explanations = explain_each(alloc, schema, defined, &given)?;
    Ok(explanations)
}

/// Why the given values of these variables do not fit.
fn explain_each<S: ScalarValue>(
    alloc: Global,
    schema: &SchemaType<S>,
    defined: &[DefinedVariable<'_, S>],
    given: &Given<'_, S>,
) -> Result<Vec<VariableExplanation>, AllocError>
    ensures { IfOk result (λ es. view_variable_explanations es.items ≡ variable_explanations (view_schema S.shown schema.now)
        (map (view_variable S.shown) defined.now) (view_given_values S.shown given.now)) }
{
    let mut explanations = Vec::new(alloc);
    for variable in defined {
        let mut messages = Vec::new(alloc);
        explain_variable(alloc, schema, variable, given, &mut messages)?;
        add_all(variable.0.span.start, messages, &mut explanations)?;
    }
    Ok(explanations)
}

/// Adds explanations with these texts, at a place.
fn add_all(
    location: SourcePosition,
    messages: Vec<String>,
    explanations: &mut Vec<VariableExplanation>,
) -> Result<(), AllocError>
    ensures { OnOk result (view_variable_explanations explanations.new.items ≡ view_variable_explanations explanations.old.items
        ++ map (λ x. record { place = view_position location; text = x }) (view_messages messages.items)) }
{
    for message in messages {
        explanations.push(VariableExplanation { location, message })?;
    }
    Ok(())
}

/// Adds what is wrong with a variable's given value; without one, with its default or with its absence.
fn explain_variable<S: ScalarValue>(
    alloc: Global,
    schema: &SchemaType<S>,
    variable: &DefinedVariable<'_, S>,
    given: &Given<'_, S>,
    messages: &mut Vec<String>,
) -> Result<(), AllocError>
    ensures { OnOk result (view_messages messages.new.items ≡ view_messages messages.old.items
        ++ variable_reasons (view_schema S.shown schema.now) (view_variable S.shown variable.now)
        (view_given_values S.shown given.now variable.now.0.item.now)) }
{
    let name = variable.0.item;
    let reference = owned_type(alloc, &variable.1.var_type.item)?;
    match given.get(name) {
        Some(value) => {
            let place = ValuePlace::Variable(name);
            explain_value(alloc, schema, value, &reference, &place, messages)
        }
        None => {
            let default = &variable.1.default_value;
            explain_absent(alloc, schema, name, &reference, default, messages)
        }
    }
}

/// Adds that a variable for which no value is given is missing, or that its default does not fit.
fn explain_absent<S: ScalarValue>(
    alloc: Global,
    schema: &SchemaType<S>,
    name: &str,
    reference: &Type<String>,
    default: &Option<Spanning<InputValue<S>, Span>>,
    messages: &mut Vec<String>,
) -> Result<(), AllocError>
    ensures { OnOk result (view_messages messages.new.items ≡ view_messages messages.old.items
        ++ absent_reasons (view_schema S.shown schema.now) name.now (view_type reference.now)
        (item_of (option_map (view_spanning (view_input S.shown)) default.now))) }
{
    match default {
        Some(value) => explain_default(alloc, schema, name, reference, &value.item, messages),
        None => explain_missing(alloc, name, reference, messages),
    }
}

/// Adds that the default of a variable does not fit its type, where it does not.
#[tactic(auto, unfolding(crate::specs::GivenValues::absent_reasons, crate::specs::GivenValues::absent_text, crate::specs::Reasons::text_unless, graphql_spec::specs::Requests::default_fits))]
fn explain_default<S: ScalarValue>(
    alloc: Global,
    schema: &SchemaType<S>,
    name: &str,
    reference: &Type<String>,
    default: &InputValue<S>,
    messages: &mut Vec<String>,
) -> Result<(), AllocError>
    ensures { OnOk result (view_messages messages.new.items ≡ view_messages messages.old.items
        ++ absent_reasons (view_schema S.shown schema.now) name.now (view_type reference.now) (Some (view_input S.shown default.now))) }
{
    if schema.fits(default, reference, false) {
        return Ok(());
    }
    let message = default_text(alloc, default, name, reference)?;
    say(messages, message)
}

/// Adds that a variable without default is missing, where its type is non-null.
#[tactic(auto, unfolding(crate::specs::GivenValues::absent_text, crate::specs::Reasons::text_unless))]
fn explain_missing(
    alloc: Global,
    name: &str,
    reference: &Type<String>,
    messages: &mut Vec<String>,
) -> Result<(), AllocError>
    ensures { OnOk result (view_messages messages.new.items ≡ view_messages messages.old.items
        ++ text_unless (not (required (view_type reference.now))) (absent_text name.now (view_type reference.now) None)) }
{
    if !reference.is_non_null() {
        return Ok(());
    }
    let message = format!(in alloc; "Variable `${name}` is missing; it is `{reference}`")?;
    say(messages, message)
}
