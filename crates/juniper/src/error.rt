//! Why a request has no answer (section 7.1.2 of the Specification, "request errors").

ghost use Rattle.std.specs.Prelude.{◌≡◌, IfOk, [], ◌∷◌, map, Some};
ghost use Rattle.std.specs.List.{flat_map};
ghost use Rattle.std.specs.Fmt.{WritesOnOk};
ghost use Rattle.juniper_syntax.specs.RuleView.{view_rule_error};
ghost use Rattle.juniper.specs.RequestErrors.{view_request_error, not_valid, request_error_text, messages_text, of_parse_error};
ghost use Rattle.juniper.specs.declared.error.GraphQLError.TheVariants as gives;

use juniper_language::{ParseError, Span, Spanning};
use juniper_rules::RuleError;
use std::alloc::{AllocError, AllocFailed, Global};
use std::error::Error;
use std::fmt;

/// Why a request has no answer.
#[derive(Debug, Eq, PartialEq, Drop)]
pub enum GraphQLError {
    /// The text is no document (2). Shown as the text of the [`ParseError`]. The conversion from an error of the parser
    /// gives [`GraphQLError::OutOfMemory`] in place of [`ParseError::Memory`].
    ParseError(Spanning<ParseError, Span>),
    /// The document or the variables break rules (5, 6.1.2). Shown as the messages, one a line.
    ValidationError(Vec<RuleError>),
    /// The document has no operation. No call makes it: [`GraphQLError::UnknownOperationName`] stands for it. Shown as
    /// `No operation provided`.
    NoOperationProvided,
    /// No name was given, and the document has several operations (6.1). Shown as `Multiple operations provided`.
    MultipleOperationsProvided,
    /// The document has no operation of the name, or none at all (6.1). Shown as `Unknown operation name`.
    UnknownOperationName,
    /// The operation is a subscription (6.2.3). Shown as `Operation is a subscription`.
    IsSubscription,
    /// The operation is no subscription. No call makes it, since there are no streams. Shown as
    /// `Operation is not a subscription`.
    NotSubscription,
    /// The operation is a mutation, and the schema has no mutation type (6.2.2). Shown as `Mutations are not supported`.
    MutationNotSupported,
    /// The value that is given for the variable of this name holds a variable. Shown as
    /// ``Variable `$name` holds a variable``.
    VariableNotConstant(String),
    /// Memory was refused. Shown as `Out of memory`.
    OutOfMemory,
}

impl GraphQLError {
    /// The error of a request that breaks this one rule; an error where memory is refused.
    pub fn from_rule(alloc: Global, error: RuleError) -> Result<Self, AllocError>
        ensures { IfOk result (λ made. view_request_error made ≡ not_valid (view_rule_error error ∷ [])) }
    {
        Ok(GraphQLError::ValidationError(vec![in alloc; error]?))
    }

    /// An equal error, by `==`; an error where memory is refused.
    pub fn try_clone(&self, alloc: Global) -> Result<Self, AllocError>
        ensures { IfOk result (λ made. view_request_error made ≡ view_request_error self.now) }
    {
        match self {
            GraphQLError::ParseError(error) => Ok(GraphQLError::ParseError(Spanning::new(
                error.span,
                error.item.try_clone(alloc)?,
            ))),
            GraphQLError::ValidationError(errors) => Ok(GraphQLError::ValidationError(
                clone_rule_errors(alloc, errors.as_slice())?,
            )),
            GraphQLError::NoOperationProvided => Ok(GraphQLError::NoOperationProvided),
            GraphQLError::MultipleOperationsProvided => {
                Ok(GraphQLError::MultipleOperationsProvided)
            }
            GraphQLError::UnknownOperationName => Ok(GraphQLError::UnknownOperationName),
            GraphQLError::IsSubscription => Ok(GraphQLError::IsSubscription),
            GraphQLError::NotSubscription => Ok(GraphQLError::NotSubscription),
            GraphQLError::MutationNotSupported => Ok(GraphQLError::MutationNotSupported),
            GraphQLError::VariableNotConstant(name) => Ok(GraphQLError::VariableNotConstant(
                String::from_str(alloc, name.as_str())?,
            )),
            GraphQLError::OutOfMemory => Ok(GraphQLError::OutOfMemory),
        }
    }
}

/// Equal errors, in the same order.
fn clone_rule_errors(alloc: Global, errors: &[RuleError]) -> Result<Vec<RuleError>, AllocError>
    ensures { IfOk result (λ made. map view_rule_error made.items ≡ map view_rule_error errors.now) }
{
    let mut clones = Vec::with_capacity(alloc, errors.len())?;
    for error in errors {
        clones.push(error.try_clone(alloc)?)?;
    }
    Ok(clones)
}

impl fmt::Display for GraphQLError {
    ghost output = { λ e. Some (request_error_text (view_request_error e)) };

    fn fmt<W: fmt::Write>(&self, f: &mut fmt::Formatter<W>) -> fmt::Result {
        match self {
            GraphQLError::ParseError(error) => {
                let refusal = &error.item;
                write!(f, "{refusal}")
            }
            GraphQLError::ValidationError(errors) => write_messages(f, errors.as_slice()),
            GraphQLError::NoOperationProvided => write!(f, "No operation provided"),
            GraphQLError::MultipleOperationsProvided => write!(f, "Multiple operations provided"),
            GraphQLError::UnknownOperationName => write!(f, "Unknown operation name"),
            GraphQLError::IsSubscription => write!(f, "Operation is a subscription"),
            GraphQLError::NotSubscription => write!(f, "Operation is not a subscription"),
            GraphQLError::MutationNotSupported => write!(f, "Mutations are not supported"),
            GraphQLError::VariableNotConstant(name) => {
                write!(f, "Variable `${name}` holds a variable")
            }
            GraphQLError::OutOfMemory => write!(f, "Out of memory"),
        }
    }
}

/// Writes the messages, with a line feed between each two.
fn write_messages<W: fmt::Write>(f: &mut fmt::Formatter<W>, errors: &[RuleError]) -> fmt::Result
    ensures { WritesOnOk W.write_str_gives f.old result (messages_text (map view_rule_error errors.now)) f.new }
{
    match errors {
        [] => Ok(()),
        [first, others @ ..] => {
            f.write_str(first.message())?;
            write_more_messages(f, others)
        }
    }
}

/// Writes the messages, each after a line feed.
fn write_more_messages<W: fmt::Write>(
    f: &mut fmt::Formatter<W>,
    errors: &[RuleError],
) -> fmt::Result
    ensures { WritesOnOk W.write_str_gives f.old result (flat_map (λ e. 10 ∷ (view_rule_error e).message) errors.now) f.new }
{
    for error in errors {
        let message = error.message();
        write!(f, "\n{message}")?;
    }
    Ok(())
}

impl Error for GraphQLError {}

/// Want of memory stays want of memory; any other error of the parser is kept with its place.
impl From<Spanning<ParseError, Span>> for GraphQLError {
    ghost from_gives = { λ e made. made ≡ of_parse_error e };

    fn from(error: Spanning<ParseError, Span>) -> Self {
        match error.item {
            ParseError::Memory => GraphQLError::OutOfMemory,
            item => GraphQLError::ParseError(Spanning::new(error.span, item)),
        }
    }
}

impl From<Vec<RuleError>> for GraphQLError {
    ghost from_gives = { λ errors made. made ≡ gives.ValidationError errors };

    fn from(errors: Vec<RuleError>) -> Self {
        GraphQLError::ValidationError(errors)
    }
}

impl From<AllocError> for GraphQLError {
    ghost from_gives = { λ _ made. made ≡ gives.OutOfMemory };

    fn from(_refused: AllocError) -> Self {
        GraphQLError::OutOfMemory
    }
}

impl<X: Drop> From<AllocFailed<X>> for GraphQLError {
    ghost from_gives = { λ _ made. made ≡ gives.OutOfMemory };

    fn from(_refused: AllocFailed<X>) -> Self {
        GraphQLError::OutOfMemory
    }
}
