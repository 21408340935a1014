//! Words of a server: what resolvers read of arguments and input objects, enums by their values, answers, lists of objects, and
//! roots over types that are told by data.
#![tactic(auto)]

mod answers;
mod arguments;
mod data;
mod early;
mod enums;
mod fields;
mod forgotten;
mod input_type;
mod lists;
mod making;
mod node_lists;
mod notes;
mod parts;
mod registering;
mod roots;
mod serving;
mod values;

pub use answers::{
    Answer, boolean, count, fails_with_code, null, object, object_or_null, text_or_null, value,
};
pub use arguments::{argument, bool_argument, given, id_argument, text_argument};
pub use data::{DeclaredField, DeclaredInput, DeclaredType, Literal, Reference};
pub use early::{found_or, found_or_code};
pub use enums::EnumType;
pub use fields::{input_field, input_field_or};
pub use forgotten::{FieldOf, is_answered, object_fields, unanswered};
pub use input_type::InputType;
pub use node_lists::{nodes, nodes_at, nodes_where};
pub use notes::Note;
pub use registering::{register_each, registry_of};
pub use roots::{MutationType, Named, QueryType};
pub use serving::{ServedQuery, ServedRoot, served, served_query, served_with};
