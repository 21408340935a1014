//! What is written in a document, as flat lists, and its fragments by their names; the rules on names, which go over these lists
//! (section 5 of the Specification); and how many fields an operation selects, and how deep, with every spread put in.
#![tactic(auto)]

mod arguments;
mod by_name;
mod counting;
mod counts;
mod earlier;
mod groups;
mod known_directives;
mod laws;
mod lone_anonymous_operation;
mod name_map;
mod name_set;
mod names;
mod ordered;
mod reach;
mod rules;
mod unique_argument_names;
mod unique_input_field_names;
mod unique_variable_names;
mod walk;
mod written;

pub use arguments::{ArgumentLists, argument_lists};
pub use by_name::{FragmentsByName, fragments_by_name};
pub use counting::{expanded_counts, expanded_fields, expanded_levels};
pub use counts::Counts;
pub use earlier::Earlier;
pub use groups::{Groups, Root};
pub use known_directives::has_unknown_directive;
pub use laws::{bounds_execution, bounds_levels, long_is_endless};
pub use lone_anonymous_operation::{count_operations, is_not_alone};
pub use name_map::NameMap;
pub use name_set::NameSet;
pub use names::repeats;
pub use reach::SpreadsByName;
pub use unique_argument_names::repeats_argument;
pub use unique_input_field_names::repeats_input_field;
pub use unique_variable_names::repeats_variable;
pub use written::{Written, write_directives, write_variables, written_in};
