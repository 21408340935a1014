//! JSON of requests and responses: the values of variables (section 6.1.2 of the Specification) and what is answered (section 7.2.2).
#![tactic(auto)]

mod convert;
mod given;
mod line;
mod numbers;
mod read;
mod refusals;
mod response;

pub use given::{GivenVariables, RefusedVariable, given_variables};
pub use line::answer_line;
pub use read::{VariablesError, read_variables};
pub use refusals::{BrokenRule, Refusal};
pub use response::{explained_line, response_line};
