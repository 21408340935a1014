//! Refusals, as lines.

use juniper::{GraphQLError, RuleError};
use std::alloc::{AllocError, Global};

/// `refused: `, and why a request is refused: its reasons, with `; ` between them, and ` @` and the byte of the text behind one that has a place.
pub(crate) fn refusal_line(alloc: Global, refusal: &GraphQLError) -> Result<String, AllocError> {
    let mut line = String::from_str(alloc, "refused: ")?;
    match refusal {
        GraphQLError::ParseError(error) => {
            let at = error.span.start.index();
            write!(line, "{refusal} @{at}")?;
        }
        GraphQLError::ValidationError(errors) => push_rule_errors(errors.as_slice(), &mut line)?,
        _ => write!(line, "{refusal}")?,
    }
    Ok(line)
}

/// Appends the errors of rules, with `; ` between them, and behind each ` @` and the byte of each of its places.
fn push_rule_errors(errors: &[RuleError], line: &mut String) -> Result<(), AllocError> {
    let mut is_first = true;
    for error in errors {
        if !is_first {
            line.push_str("; ")?;
        }
        line.push_str(error.message())?;
        for place in error.locations() {
            let at = place.index();
            write!(line, " @{at}")?;
        }
        is_first = false;
    }
    Ok(())
}
