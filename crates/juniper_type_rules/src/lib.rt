//! The fields and directives of a definition with the types that they stand on, and their arguments with the declarations that
//! these should meet (sections 5.3 and 5.4 of the Specification). Over them, the rules of validation on types (5.3.1, 5.3.3,
//! 5.4.1, 5.4.2.1, 5.5.1.3, 5.6.1 and 5.8.2), the second phase; those on the uses of variables (5.8.3, 5.8.5) and on
//! introspection, of the third; and the rule on the names of types (5.5.1.2), which is of the first.
#![tactic(auto)]

mod arguments_of_correct_type;
mod call;
mod call_list;
mod default_values_of_correct_type;
mod defined;
mod fields_on_correct_type;
mod found;
mod fragments_on_composite_types;
mod introspection;
mod known_argument_names;
mod known_type_names;
mod no_undefined_variables;
mod numbers;
mod once;
mod owned_types;
mod parent;
mod placed;
mod places;
mod provided_non_null_arguments;
mod reach;
mod roots;
mod scalar_leafs;
mod uses;
mod variables_are_input_types;
mod variables_in_allowed_position;
mod words;

pub use arguments_of_correct_type::has_wrong_argument;
pub use call::Call;
pub use call_list::calls;
pub use default_values_of_correct_type::has_wrong_default;
pub use fields_on_correct_type::has_unknown_field;
pub use fragments_on_composite_types::has_other_condition;
pub use introspection::{is_introspection, looks_at_schema};
pub use known_argument_names::has_unknown_argument;
pub use known_type_names::has_unknown_type;
pub use no_undefined_variables::uses_undefined;
pub use owned_types::owned_type;
pub use placed::{Placed, PlacedParts, placed_in, root_name};
pub use places::{input_fields, item_type, places_in_calls};
pub use provided_non_null_arguments::{is_left_out, lacks_argument};
pub use reach::{UsesOfFragments, uses_of_fragments};
pub use scalar_leafs::{has_wrong_set, set_is_wrong};
pub use uses::{Place, Use, Used, used_in};
pub use variables_are_input_types::has_other_variable;
pub use variables_in_allowed_position::{may_stand, misuses_variable};
pub use words::words_in_lists;
