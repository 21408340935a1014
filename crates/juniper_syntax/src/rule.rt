//! Errors of validation (section 5 of the Specification).

ghost use Rattle.std.specs.Prelude.{◌≡◌, IfOk, map, [], ◌∷◌};
ghost use Rattle.juniper_syntax.specs.Positions.{view_position};
ghost use Rattle.juniper_syntax.specs.RuleView.{view_rule_error};

use crate::position::SourcePosition;
use std::alloc::{AllocError, Global};
use std::slice;

/// A rule that a document breaks, and where.
#[derive(Debug, Eq, PartialEq, Drop)]
pub struct RuleError {
    message: String,
    location: SourcePosition,
}

impl RuleError {
    /// The error with this message at this place of the text; an error where memory is refused.
    pub fn new(alloc: Global, message: &str, location: SourcePosition) -> Result<Self, AllocError>
        ensures { IfOk result (λ made. view_rule_error made ≡ record { message = message.now; start = view_position location }) }
    {
        let message = String::from_str(alloc, message)?;
        Ok(RuleError { message, location })
    }

    /// What is wrong.
    pub fn message(&self) -> &str
        ensures { result.now ≡ (view_rule_error self.now).message }
    {
        self.message.as_str()
    }

    /// The places in the text where it is wrong: always one.
    pub fn locations(&self) -> &[SourcePosition]
        ensures { map view_position result.now ≡ (view_rule_error self.now).start ∷ [] }
    {
        slice::from_ref(&self.location)
    }

    /// An equal error, by `==`; an error where memory is refused.
    pub fn try_clone(&self, alloc: Global) -> Result<Self, AllocError>
        ensures { IfOk result (λ made. view_rule_error made ≡ view_rule_error self.now) }
    {
        RuleError::new(alloc, self.message.as_str(), self.location)
    }
}
