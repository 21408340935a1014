//! What is looked at before a request is executed.

ghost use Rattle.std.specs.Prelude.{◌≡◌, ◌≢◌, ◌++◌, ◌∷◌, [], IfOk, OnOk, Some, true, false, map, option_map, string_bytes};
ghost use Rattle.std.specs.List.{list_any};
ghost use Rattle.std.specs.Str.{bytes_eq};
ghost use Rattle.graphql_spec.specs.Documents.{mutation, variables_of};
ghost use Rattle.graphql_spec.specs.Requests.{no_fitting_value};
ghost use Rattle.juniper_json.specs.Each.{view_refused};
ghost use Rattle.juniper_syntax.specs.RuleView.{view_rule_error};
ghost use Rattle.juniper_syntax.specs.DocumentView.{view_document, view_kind, view_operation, view_variable, view_word};
ghost use Rattle.juniper_syntax.specs.Scalars.{default_shown};
ghost use Rattle.juniper_endpoint.specs.Looks.{IsSeen, IsSeenIn};
ghost use Rattle.juniper_endpoint.specs.Replied.{refused_errors};

use juniper::{
    DefaultScalarValue, Document, Operation, OperationType, RuleError, Span, Spanning,
    VariableDefinition, get_operation,
};
use juniper_json::RefusedVariable;
use std::alloc::{AllocError, Global};

/// A variable that an operation defines: its name, and what is said of it.
type Defined<'a> = (
    Spanning<&'a str, Span>,
    VariableDefinition<'a, DefaultScalarValue>,
);

/// What a look at a request shows.
#[derive(Drop)]
pub enum Finding {
    /// It may be executed.
    Passes,
    /// It asks for a mutation, and may only read.
    Writes,
    /// Values that are refused are given for variables that the operation defines: an error for each of these.
    Unfitting(Vec<RuleError>),
}

/// Looks at a request of a document. Nothing is to be seen where it may write and no value is refused.
pub fn look(
    alloc: Global,
    document: &Document<'_, DefaultScalarValue>,
    name: Option<&str>,
    refused: &[RefusedVariable],
    may_write: bool,
) -> Result<Finding, AllocError>
    ensures { IfOk result (IsSeen (map view_refused refused.now) may_write (option_map (λ n. n.now) name.entry) (view_document default_shown document.now)) }
{
    if may_write && refused.is_empty() {
        return Ok(Finding::Passes);
    }
    let operation = match get_operation(document, name) {
        Err(_) => return Ok(Finding::Passes),
        Ok(operation) => operation,
    };
    look_in(alloc, operation, refused, may_write)
}

/// Looks at the operation that is to be executed.
#[tactic(auto, using(crate::proofs::Looking::none_found, crate::proofs::Looking::some_found))]
fn look_in(
    alloc: Global,
    operation: &Spanning<Operation<'_, DefaultScalarValue>, Span>,
    refused: &[RefusedVariable],
    may_write: bool,
) -> Result<Finding, AllocError>
    ensures { IfOk result (IsSeenIn (map view_refused refused.now) may_write (view_operation default_shown operation.now)) }
{
    if is_barred(may_write, operation.item.operation_type) {
        return Ok(Finding::Writes);
    }
    let errors = refused_errors(alloc, Operation::defined_variables(operation), refused)?;
    if errors.is_empty() {
        Ok(Finding::Passes)
    } else {
        Ok(Finding::Unfitting(errors))
    }
}

/// Whether it is a mutation of a request that may only read.
fn is_barred(may_write: bool, kind: OperationType) -> bool
    ensures barred { result ≡ true → (may_write ≡ false) × (view_kind kind ≡ mutation) }
    ensures free { result ≡ false → may_write ≡ false → view_kind kind ≢ mutation }
{
    match kind {
        OperationType::Query | OperationType::Subscription => false,
        OperationType::Mutation => !may_write,
    }
}

/// An error for each of these variables for which a value is given that is refused.
fn refused_errors(
    alloc: Global,
    defined: &[Defined<'_>],
    refused: &[RefusedVariable],
) -> Result<Vec<RuleError>, AllocError>
    ensures { IfOk result (λ made. map view_rule_error made.items
        ≡ refused_errors (map view_refused refused.now) (map (view_variable default_shown) defined.now)) }
{
    let mut errors = Vec::new(alloc);
    for variable in defined {
        push_refused(alloc, &mut errors, variable, refused)?;
    }
    Ok(errors)
}

/// Puts the error of a variable last, if a value is given for it that is refused.
fn push_refused(
    alloc: Global,
    errors: &mut Vec<RuleError>,
    variable: &Defined<'_>,
    refused: &[RefusedVariable],
) -> Result<(), AllocError>
    ensures { OnOk result (map view_rule_error errors.new.items
        ≡ map view_rule_error errors.old.items ++ refused_errors (map view_refused refused.now) (view_variable default_shown variable.now ∷ [])) }
{
    if is_refused(refused, variable.0.item) {
        errors.push(unfitting(alloc, &variable.0)?)?;
    }
    Ok(())
}

/// Whether a value is given for a variable of this name and refused.
fn is_refused(refused: &[RefusedVariable], name: &str) -> bool
    ensures { result ≡ list_any (λ r. bytes_eq name.now (string_bytes r.name)) refused.now }
{
    refused
        .iter()
        .any(|variable| name == variable.name.as_str())
}

/// The error of a variable without a fitting value, at its definition.
#[tactic(auto, unfolding(graphql_spec::specs::Requests::no_fitting_value))]
fn unfitting(alloc: Global, name: &Spanning<&str, Span>) -> Result<RuleError, AllocError>
    ensures { IfOk result (λ made. view_rule_error made ≡ record { message = no_fitting_value name.now.item.now; start = (view_word name.now).span.start }) }
{
    let word = name.item;
    let message = format!(in alloc; "Variable `${word}` has no fitting value")?;
    RuleError::new(alloc, message.as_str(), name.span.start)
}
