//! Why a document is not valid, node by node (section 5 of the Specification): [`explain`] gives for each error that
//! [`validate`](juniper_rules::validate) lists one or more explanations, each with its rule, the place of what violates it,
//! and a text with the names.
//!
//! Of one rule the whole definition is the node, and the explanation has the place and the text of the listed error: fields
//! that cannot be merged (5.3.2).
//!
//! [`explain_variables`] says the same of given values of variables, part by part (6.1.2).
#![tactic(auto)]

mod arguments;
mod conditions;
mod definitions;
mod directives;
mod explaining;
mod explanation;
mod fields;
mod given;
mod input_fields;
mod introspection;
pub mod laws;
mod misused;
mod names;
mod nearest;
mod parts;
mod reasons;
mod repeats;
mod rule;
mod sites;
mod spreads;
mod types;
mod undefined;
mod uses;
mod value_parts;
mod variable_values;
mod variables;
mod words;

pub use explaining::explain;
pub use explanation::Explanation;
pub use rule::Rule;
pub use variable_values::{VariableExplanation, explain_variables};
