//! The fields of a document as vertices of a graph, and the rule that stands on it (section 5.3.2 of the Specification).
#![tactic(auto)]

mod agreeing_types;
mod call_parts;
mod calls;
mod gathering;
mod graph;
mod keys;
mod named_values;
mod overlapping_fields_can_be_merged;
mod plain_keys;
mod same_calls;
mod same_values;

pub use agreeing_types::types_agree;
pub use graph::FieldGraph;
pub use overlapping_fields_can_be_merged::cannot_merge;
pub use same_calls::same_call;
