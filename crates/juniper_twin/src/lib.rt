//! The twin of the walk, which asks a field once for each place that it is written at (sections 6.3 and 6.4 of the Specification).
#![tactic(auto)]

mod adding;
mod completing;
mod preparing;
mod root;
mod walking;

pub use completing::{Group, complete_value};
pub use root::answer;
