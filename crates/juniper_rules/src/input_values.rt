//! The given values of variables (CoerceVariableValues, section 6.1.2 of the Specification).

ghost use Rattle.std.specs.Prelude.{◌≡◌, ◌∷◌, IfOk, OnOk, List, map, option_map, string_bytes};
ghost use Rattle.graphql_spec.specs.Documents as documents;
ghost use Rattle.graphql_spec.specs.Documents.{variables_of};
ghost use Rattle.graphql_spec.specs.Requests as requests;
ghost use Rattle.graphql_spec.specs.Requests.{item_of, variable_errors, variable_fits};
ghost use Rattle.juniper_syntax.specs.Positions.{view_spanning};
ghost use Rattle.juniper_syntax.specs.RuleView.{view_rule_error};
ghost use Rattle.juniper_schema.specs.SchemaView.{view_schema};
ghost use Rattle.juniper_syntax.specs.DocumentView.{view_operation, view_variable};
ghost use Rattle.juniper_syntax.specs.InputView.{view_input, view_variables};
ghost use Rattle.juniper_syntax.specs.TypeView.{view_type};
ghost use Rattle.juniper_rules.specs.GivenView.{view_given_values};
ghost use Rattle.juniper_rules.specs.Finding.{ReportsBefore};

use crate::given::Given;
use juniper_schema::SchemaType;
use juniper_syntax::{
    DefinedVariable, InputValue, Operation, RuleError, ScalarValue, Span, Spanning, Type,
    VariableDefinition, Variables,
};
use juniper_type_rules::owned_type;
use std::alloc::{AllocError, Global};

/// One error for each variable that the operation defines and for which no fitting value is given, in order, with the text
/// ``Variable `$name` has no fitting value`` and the place where its definition starts. Without a given value the default must
/// fit, and without a default the type must be nullable; a variable fits every type, and a text that names an enum's value
/// fits the enum. Values of other variables are passed over. An error where memory is refused.
pub fn validate_input_values<S: ScalarValue>(
    alloc: Global,
    variables: &Variables<S>,
    operation: &Spanning<Operation<'_, S>, Span>,
    schema: &SchemaType<S>,
) -> Result<Vec<RuleError>, AllocError>
    ensures { IfOk result (λ es. map view_rule_error es.items ≡ variable_errors (view_schema S.shown schema.now)
        (variables_of (view_operation S.shown operation.now)) (view_variables S.shown variables.now)) }
{
    let given = Given::new(alloc, operation, variables)?;
    let errors = validate_given(alloc, &given, operation, schema)?;
    Ok(errors)
}

/// The same of values that are looked up so.
pub fn validate_given<S: ScalarValue>(
    alloc: Global,
    given: &Given<'_, S>,
    operation: &Spanning<Operation<'_, S>, Span>,
    schema: &SchemaType<S>,
) -> Result<Vec<RuleError>, AllocError>
    ensures { IfOk result (λ es. map view_rule_error es.items ≡ variable_errors (view_schema S.shown schema.now)
        (variables_of (view_operation S.shown operation.now)) (view_given_values S.shown given.now)) }
{
    match &operation.item.variable_definitions {
        Some(defined) => {
            let errors = misfits(alloc, given, defined.item.items.as_slice(), schema)?;
            Ok(errors)
        }
        None => Ok(Vec::new(alloc)),
    }
}

/// One error for each of the variables that has no fitting value.
fn misfits<S: ScalarValue>(
    alloc: Global,
    given: &Given<'_, S>,
    defined: &[DefinedVariable<'_, S>],
    schema: &SchemaType<S>,
) -> Result<Vec<RuleError>, AllocError>
    ensures { IfOk result (λ es. map view_rule_error es.items ≡ variable_errors (view_schema S.shown schema.now) (map (view_variable S.shown) defined.now)
        (view_given_values S.shown given.now)) }
{
    let mut errors = Vec::new(alloc);
    for variable in defined {
        report(alloc, &mut errors, given, variable, schema)?;
    }
    Ok(errors)
}

/// Adds an error, where the variable has no fitting value.
#[tactic(auto, unfolding(graphql_spec::specs::Requests::variable_errors, graphql_spec::specs::Requests::no_fitting_value))]
fn report<S: ScalarValue>(
    alloc: Global,
    errors: &mut Vec<RuleError>,
    given: &Given<'_, S>,
    variable: &DefinedVariable<'_, S>,
    schema: &SchemaType<S>,
) -> Result<(), AllocError>
    ensures { OnOk result ((rest : List documents.VariableDefinition) →
        ReportsBefore errors.old.items errors.new.items (view_schema S.shown schema.now) (view_given_values S.shown given.now)
        rest (view_variable S.shown variable.now ∷ rest)) }
{
    if !is_fitting(alloc, given, variable, schema)? {
        let name = variable.0.item;
        let message = format!(in alloc; "Variable `${name}` has no fitting value")?;
        errors.push(RuleError::new(alloc, message.as_str(), variable.0.span.start)?)?;
    }
    Ok(())
}

/// Whether the given value fits the variable's type; without one, whether its default does.
#[tactic(auto, unfolding(graphql_spec::specs::Requests::variable_fits))]
fn is_fitting<S: ScalarValue>(
    alloc: Global,
    given: &Given<'_, S>,
    variable: &DefinedVariable<'_, S>,
    schema: &SchemaType<S>,
) -> Result<bool, AllocError>
    ensures { IfOk result (λ b. b ≡ variable_fits (view_schema S.shown schema.now) (view_variable S.shown variable.now)
        (view_given_values S.shown given.now variable.now.0.item.now)) }
{
    let reference = owned_type(alloc, &variable.1.var_type.item)?;
    match given.get(variable.0.item) {
        Some(value) => Ok(schema.fits(value, &reference, true)),
        None => Ok(default_fits(schema, &reference, &variable.1.default_value)),
    }
}

/// Whether the default fits the type; without one, whether the type is nullable.
#[tactic(auto, unfolding(graphql_spec::specs::Requests::default_fits, graphql_spec::specs::Requests::item_of))]
fn default_fits<S: ScalarValue>(
    schema: &SchemaType<S>,
    reference: &Type<String>,
    default: &Option<Spanning<InputValue<S>, Span>>,
) -> bool
    ensures { result ≡ requests.default_fits (view_schema S.shown schema.now) (view_type (λ n. string_bytes n) reference.now)
        (item_of (option_map (view_spanning (view_input S.shown)) default.now)) }
{
    match default {
        Some(value) => schema.fits(&value.item, reference, false),
        None => !reference.is_non_null(),
    }
}
