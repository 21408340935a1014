//! Validation (section 5 of the Specification), and which given values of variables do not fit.
#![tactic(auto)]

mod given;
mod input_values;
mod lists;
mod names;
mod report;
mod types;
mod uses;
mod validation;

pub use given::Given;
pub use input_values::{validate_given, validate_input_values};
pub use juniper_syntax::RuleError;
pub use lists::{Listed, ListedOnTypes, listed_in, listed_on_types};
pub use names::name_errors;
pub use report::start_of;
pub use types::type_errors;
pub use uses::{Surroundings, UsesInside, is_marked, use_errors, used_by_each, uses_inside};
pub use validation::validate;
