//! The words of a server's types and resolvers, from one place.

pub use juniper_values::{add, enum_argument, fails, int, int_argument, list, text};
pub use juniper_words::{
    Answer, DeclaredField, DeclaredInput, DeclaredType, EnumType, FieldOf, InputType, Literal,
    MutationType, Named, Note, QueryType, Reference, ServedQuery, ServedRoot, argument,
    bool_argument, boolean, count, fails_with_code, found_or, found_or_code, given, id_argument,
    input_field, input_field_or, is_answered, nodes, nodes_at, nodes_where, null, object,
    object_fields, object_or_null, register_each, registry_of, served, served_query, served_with,
    text_argument, text_or_null, unanswered, value,
};
