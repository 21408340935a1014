//! Lists of nodes of introspection (section 4.2 of the Specification).

ghost use Rattle.std.specs.List.{enumerate_from};
ghost use Rattle.std.specs.Prelude.{◌≡◌, map};
ghost use Rattle.graphql_spec.specs.Introspected.{lists_field, lists_value};
ghost use Rattle.graphql_spec.specs.Introspection.{all_of, says};
ghost use Rattle.graphql_spec.specs.Resolvers.{answered, node};
ghost use Rattle.graphql_spec.specs.SeenNodes.{map_tree};
ghost use Rattle.juniper_meta.specs.MetaView.{view_argument, view_directive, view_enum_value, view_field, view_location};
ghost use Rattle.juniper_values.specs.ResolvedView.{Answers};
ghost use Rattle.juniper_intro.specs.Collected.{place_in};
ghost use Rattle.juniper_intro.specs.HandleView.{code_input, of_handle};
ghost use Rattle.juniper_intro.specs.Handles.{called, directive_handle, field_handle, inputs_at, numbered, value_handle};
ghost use Rattle.juniper_intro.specs.Naming.{number_of};

use crate::handle::{Handle, InputPlace, TypePlace};
use crate::names::TypeNames;
use crate::node::RootedNode;
use crate::words::Answer;
use juniper_meta::meta::Field;
use juniper_meta::{Argument, DirectiveLocation, DirectiveType, EnumValue};
use juniper_schema::is_reserved;
use juniper_syntax::ScalarValue;
use juniper_values::Resolved;
use std::alloc::Global;
use std::convert::AsStr;

/// What declares arguments or input fields.
#[derive(Clone, Copy)]
pub(crate) enum InputOwner {
    /// A field: the numbers of its type and its own.
    Field(usize, usize),
    /// An input object.
    InputObject(usize),
    /// A directive.
    Directive(usize),
}

impl InputOwner {
    /// The place of its argument or input field of this number.
    fn place(self, number: usize) -> InputPlace
        ensures { result ≡ code_input (place_in self number) }
    {
        match self {
            InputOwner::Field(of_type, field) => InputPlace::OfField(of_type, field, number),
            InputOwner::InputObject(of_type) => InputPlace::OfInputObject(of_type, number),
            InputOwner::Directive(directive) => InputPlace::OfDirective(directive, number),
        }
    }
}

/// The nodes of arguments, or of the fields of an input object.
#[tactic(auto, unfolding(crate::specs::Handles::inputs_at, graphql_spec::specs::Introspection::all_of, graphql_spec::specs::SeenNodes::map_tree))]
pub(crate) fn inputs<N: Drop, S: ScalarValue>(
    alloc: Global,
    owner: InputOwner,
    inputs: &[Argument<S>],
) -> Answer<N, S>
    ensures { Answers S.shown result (answered (map_tree of_handle (inputs_at (place_in owner) (map (view_argument S.shown) inputs.now)))) }
{
    let mut nodes = Vec::with_capacity(alloc, inputs.len())?;
    for number in 0..inputs.len() {
        nodes.push(Resolved::Node(RootedNode::Introspected(Handle::Input(owner.place(number)))))?;
    }
    Ok(Resolved::List(nodes))
}

/// The nodes of the fields that are listed, of the type of this number.
pub(crate) fn fields<N: Drop, S: ScalarValue>(
    alloc: Global,
    of_type: usize,
    fields: &[Field<S>],
    deprecated_too: bool,
) -> Answer<N, S>
    ensures { Answers S.shown result (answered (map_tree of_handle (all_of (λ p. node (field_handle of_type p.0))
        (numbered (lists_field deprecated_too) (map (view_field S.shown) fields.now))))) }
{
    let mut nodes = Vec::new(alloc);
    for number in 0..fields.len() {
        if lists_field(&fields[number], deprecated_too) {
            nodes.push(Resolved::Node(RootedNode::Introspected(Handle::Field(of_type, number))))?;
        }
    }
    Ok(Resolved::List(nodes))
}

/// The nodes of the values that are listed, of the enum of this number.
pub(crate) fn values<N: Drop, S: ScalarValue>(
    alloc: Global,
    of_type: usize,
    values: &[EnumValue],
    deprecated_too: bool,
) -> Answer<N, S>
    ensures { Answers S.shown result (answered (map_tree of_handle (all_of (λ p. node (value_handle of_type p.0))
        (numbered (lists_value deprecated_too) (map view_enum_value values.now))))) }
{
    let mut nodes = Vec::new(alloc);
    for number in 0..values.len() {
        if lists_value(&values[number], deprecated_too) {
            nodes.push(Resolved::Node(RootedNode::Introspected(Handle::Value(of_type, number))))?;
        }
    }
    Ok(Resolved::List(nodes))
}

/// The nodes of the types of these names.
pub(crate) fn types<N: Drop, T: AsStr, S: ScalarValue>(
    alloc: Global,
    names: &TypeNames,
    listed: &[T],
) -> Answer<N, S>
    ensures { Answers S.shown result (answered (map_tree of_handle (all_of (called (number_of names.now)) (map T.text listed.now)))) }
{
    let mut nodes = Vec::with_capacity(alloc, listed.len())?;
    for name in listed {
        let place = TypePlace::ByName(names.number(name.as_str()));
        nodes.push(Resolved::Node(RootedNode::Introspected(Handle::Type(place, 0))))?;
    }
    Ok(Resolved::List(nodes))
}

/// The nodes of the directives.
pub(crate) fn directives<N: Drop, S: ScalarValue>(
    alloc: Global,
    directives: &[DirectiveType<S>],
) -> Answer<N, S>
    ensures { Answers S.shown result (answered (map_tree of_handle (all_of (λ p. node (directive_handle p.0))
        (enumerate_from 0 (map (view_directive S.shown) directives.now))))) }
{
    let mut nodes = Vec::with_capacity(alloc, directives.len())?;
    for number in 0..directives.len() {
        nodes.push(Resolved::Node(RootedNode::Introspected(Handle::Directive(number))))?;
    }
    Ok(Resolved::List(nodes))
}

/// The names of the places where a directive may stand.
pub(crate) fn locations<N: Drop, S: ScalarValue>(
    alloc: Global,
    locations: &[DirectiveLocation],
) -> Answer<N, S>
    ensures { Answers S.shown result (answered (map_tree of_handle (all_of says (map view_location locations.now)))) }
{
    let mut names = Vec::with_capacity(alloc, locations.len())?;
    for location in locations {
        let name = String::from_str(alloc, location.name())?;
        names.push(Resolved::Scalar(S::from_text(name)?))?;
    }
    Ok(Resolved::List(names))
}

/// Whether a field is listed: its name is not reserved, and it is not deprecated, or those are asked for too.
#[tactic(auto, unfolding(graphql_spec::specs::Introspected::lists_field))]
fn lists_field<S: ScalarValue>(field: &Field<S>, deprecated_too: bool) -> bool
    ensures { result ≡ lists_field deprecated_too (view_field S.shown field.now) }
{
    if is_reserved(field.name.as_str()) {
        return false;
    }
    deprecated_too || !field.deprecation_status.is_deprecated()
}

/// Whether a value of an enum is listed: it is not deprecated, or those are asked for too.
#[tactic(auto, unfolding(graphql_spec::specs::Introspected::lists_value))]
fn lists_value(value: &EnumValue, deprecated_too: bool) -> bool
    ensures { result ≡ lists_value deprecated_too (view_enum_value value.now) }
{
    deprecated_too || !value.deprecation_status.is_deprecated()
}
