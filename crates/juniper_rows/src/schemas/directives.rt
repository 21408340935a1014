//! Directives: where they may stand, and those that every schema has.

use super::outline::put_directive;
use juniper_meta::{DirectiveLocation, directives};
use juniper_schema_text::Scalar;
use std::alloc::{AllocError, Global};

/// How the place of this name, where a directive may stand, is shown.
pub fn location(alloc: Global, name: &str) -> Result<String, AllocError> {
    match location_named(name) {
        Some(location) => format!(in alloc; "{location}"),
        None => String::from_str(alloc, "no such location"),
    }
}

/// The place of this name, where a directive may stand.
fn location_named(name: &str) -> Option<DirectiveLocation> {
    match name {
        "Query" => Some(DirectiveLocation::Query),
        "Mutation" => Some(DirectiveLocation::Mutation),
        "Subscription" => Some(DirectiveLocation::Subscription),
        "Field" => Some(DirectiveLocation::Field),
        "FragmentDefinition" => Some(DirectiveLocation::FragmentDefinition),
        "FragmentSpread" => Some(DirectiveLocation::FragmentSpread),
        "InlineFragment" => Some(DirectiveLocation::InlineFragment),
        "VariableDefinition" => Some(DirectiveLocation::VariableDefinition),
        "Schema" => Some(DirectiveLocation::Schema),
        "Scalar" => Some(DirectiveLocation::Scalar),
        "Object" => Some(DirectiveLocation::Object),
        "FieldDefinition" => Some(DirectiveLocation::FieldDefinition),
        "ArgumentDefinition" => Some(DirectiveLocation::ArgumentDefinition),
        "Interface" => Some(DirectiveLocation::Interface),
        "Union" => Some(DirectiveLocation::Union),
        "Enum" => Some(DirectiveLocation::Enum),
        "EnumValue" => Some(DirectiveLocation::EnumValue),
        "InputObject" => Some(DirectiveLocation::InputObject),
        "InputFieldDefinition" => Some(DirectiveLocation::InputFieldDefinition),
        _ => None,
    }
}

/// The directives of every schema, each in a line.
pub fn of_every_schema(alloc: Global) -> Result<String, AllocError> {
    let mut text = String::new(alloc);
    for directive in &directives::<Scalar>(alloc)? {
        put_directive(directive, &mut text)?;
        text.push('\n')?;
    }
    Ok(text)
}
