//! Directives that a schema has (section 3.13 of the Specification).

ghost use Rattle.std.specs.Prelude.{◌≡◌, Some};
ghost use Rattle.juniper_meta.specs.MetaView.{directive_of, view_directive, view_location};

use crate::declaration::Argument;
use juniper_syntax::ScalarValue;
use std::fmt;

/// A place where a directive may stand (3.13); shown as in the Specification, as `FIELD_DEFINITION`.
#[derive(Clone, Copy, Debug, PartialEq, Eq)]
pub enum DirectiveLocation {
    /// A query.
    Query,
    /// A mutation.
    Mutation,
    /// A subscription.
    Subscription,
    /// A field of a selection set.
    Field,
    /// The definition of a scalar.
    Scalar,
    /// The definition of a fragment.
    FragmentDefinition,
    /// The definition of a field.
    FieldDefinition,
    /// The definition of a variable.
    VariableDefinition,
    /// A spread of a fragment.
    FragmentSpread,
    /// An inline fragment.
    InlineFragment,
    /// The definition of an enum's value.
    EnumValue,
    /// The definition of a schema.
    Schema,
    /// The definition of an object.
    Object,
    /// The definition of an argument.
    ArgumentDefinition,
    /// The definition of an interface.
    Interface,
    /// The definition of a union.
    Union,
    /// The definition of an enum.
    Enum,
    /// The definition of an input object.
    InputObject,
    /// The definition of an input object's field.
    InputFieldDefinition,
}

impl DirectiveLocation {
    /// Its name, as `FIELD_DEFINITION` (3.13).
    pub fn name(self) -> &'static str
        ensures { result.now ≡ view_location self }
    {
        match self {
            DirectiveLocation::Query => "QUERY",
            DirectiveLocation::Mutation => "MUTATION",
            DirectiveLocation::Subscription => "SUBSCRIPTION",
            DirectiveLocation::Field => "FIELD",
            DirectiveLocation::Scalar => "SCALAR",
            DirectiveLocation::FragmentDefinition => "FRAGMENT_DEFINITION",
            DirectiveLocation::FieldDefinition => "FIELD_DEFINITION",
            DirectiveLocation::VariableDefinition => "VARIABLE_DEFINITION",
            DirectiveLocation::FragmentSpread => "FRAGMENT_SPREAD",
            DirectiveLocation::InlineFragment => "INLINE_FRAGMENT",
            DirectiveLocation::EnumValue => "ENUM_VALUE",
            DirectiveLocation::Schema => "SCHEMA",
            DirectiveLocation::Object => "OBJECT",
            DirectiveLocation::ArgumentDefinition => "ARGUMENT_DEFINITION",
            DirectiveLocation::Interface => "INTERFACE",
            DirectiveLocation::Union => "UNION",
            DirectiveLocation::Enum => "ENUM",
            DirectiveLocation::InputObject => "INPUT_OBJECT",
            DirectiveLocation::InputFieldDefinition => "INPUT_FIELD_DEFINITION",
        }
    }
}

impl fmt::Display for DirectiveLocation {
    ghost output = { λ l. Some (view_location l) };

    fn fmt<W: fmt::Write>(&self, f: &mut fmt::Formatter<W>) -> fmt::Result {
        f.write_str(self.name())
    }
}

/// A directive: its name, where it may stand, and its arguments (3.13).
#[derive(Debug, Drop)]
pub struct DirectiveType<S> {
    /// Its name, without the `@`.
    pub name: String,
    /// Where it may stand.
    pub locations: Vec<DirectiveLocation>,
    /// Its arguments in order.
    pub arguments: Vec<Argument<S>>,
}

impl<S: ScalarValue> DirectiveType<S> {
    /// The directive of this name that may stand at these places, with these arguments.
    pub fn new(name: String, locations: Vec<DirectiveLocation>, arguments: Vec<Argument<S>>) -> Self
        ensures { view_directive S.shown result ≡ directive_of S.shown name locations.items arguments.items }
    {
        DirectiveType {
            name,
            locations,
            arguments,
        }
    }
}
