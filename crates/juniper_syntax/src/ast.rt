//! Documents as they are written (sections 2.2 to 2.12 of the Specification). Names borrow the text.

ghost use Rattle.std.specs.Prelude.{◌≡◌, map};
ghost use Rattle.graphql_spec.specs.Documents.{response_key, variables_of, written};
ghost use Rattle.juniper_syntax.specs.DocumentView.{view_argument, view_arguments, view_field, view_operation, view_variable};

use crate::input::InputValue;
use crate::scalar::ScalarValue;
use crate::types::Type;
use crate::{Span, Spanning};
use std::collections::HashMap;

/// The arguments of a field or a directive, in the order in which they are written (2.6).
#[derive(Drop)]
pub struct Arguments<'a, S> {
    pub items: Vec<(Spanning<&'a str, Span>, Spanning<InputValue<S>, Span>)>,
}

/// A directive (2.12).
#[derive(Drop)]
pub struct Directive<'a, S> {
    pub name: Spanning<&'a str, Span>,
    pub arguments: Option<Spanning<Arguments<'a, S>, Span>>,
}

/// A field (2.5); its span starts at the alias, where it has one.
#[cycle(ast)]
#[derive(Drop)]
pub struct Field<'a, S> {
    pub alias: Option<Spanning<&'a str, Span>>,
    pub name: Spanning<&'a str, Span>,
    pub arguments: Option<Spanning<Arguments<'a, S>, Span>>,
    pub directives: Option<Vec<Spanning<Directive<'a, S>, Span>>>,
    pub selection_set: Option<Vec<Selection<'a, S>>>,
}

/// A spread of a fragment by its name (2.8).
#[derive(Drop)]
pub struct FragmentSpread<'a, S> {
    pub name: Spanning<&'a str, Span>,
    pub directives: Option<Vec<Spanning<Directive<'a, S>, Span>>>,
}

/// An inline fragment (2.8.2).
#[cycle(ast)]
#[derive(Drop)]
pub struct InlineFragment<'a, S> {
    pub type_condition: Option<Spanning<&'a str, Span>>,
    pub directives: Option<Vec<Spanning<Directive<'a, S>, Span>>>,
    pub selection_set: Vec<Selection<'a, S>>,
}

/// A selection (2.4).
#[cycle(ast)]
#[derive(Drop)]
pub enum Selection<'a, S> {
    /// A field.
    Field(Spanning<Field<'a, S>, Span>),
    /// A spread of a fragment by its name.
    FragmentSpread(Spanning<FragmentSpread<'a, S>, Span>),
    /// An inline fragment.
    InlineFragment(Spanning<InlineFragment<'a, S>, Span>),
}

/// What an operation does (2.3).
#[derive(Clone, Copy)]
pub enum OperationType {
    /// It reads.
    Query,
    /// It writes, and then reads.
    Mutation,
    /// It asks for events.
    Subscription,
}

/// What an operation says of a variable (2.10).
#[derive(Drop)]
pub struct VariableDefinition<'a, S> {
    pub var_type: Spanning<Type<&'a str>, Span>,
    pub default_value: Option<Spanning<InputValue<S>, Span>>,
    pub directives: Option<Vec<Spanning<Directive<'a, S>, Span>>>,
}

/// The variables that an operation defines, in order; a name's place starts at its `$` (2.10).
#[derive(Drop)]
pub struct VariableDefinitions<'a, S> {
    pub items: Vec<(Spanning<&'a str, Span>, VariableDefinition<'a, S>)>,
}

/// An operation (2.3).
#[derive(Drop)]
pub struct Operation<'a, S> {
    pub operation_type: OperationType,
    pub name: Option<Spanning<&'a str, Span>>,
    pub variable_definitions: Option<Spanning<VariableDefinitions<'a, S>, Span>>,
    pub directives: Option<Vec<Spanning<Directive<'a, S>, Span>>>,
    pub selection_set: Vec<Selection<'a, S>>,
}

/// A fragment (2.8).
#[derive(Drop)]
pub struct Fragment<'a, S> {
    pub name: Spanning<&'a str, Span>,
    pub type_condition: Spanning<&'a str, Span>,
    pub directives: Option<Vec<Spanning<Directive<'a, S>, Span>>>,
    pub selection_set: Vec<Selection<'a, S>>,
}

/// A definition (2.2).
#[derive(Drop)]
pub enum Definition<'a, S> {
    /// An operation.
    Operation(Spanning<Operation<'a, S>, Span>),
    /// A fragment.
    Fragment(Spanning<Fragment<'a, S>, Span>),
}

/// An argument as it is written: its name and its value, each with its place (2.6).
pub type WrittenArgument<'a, S> = (Spanning<&'a str, Span>, Spanning<InputValue<S>, Span>);

/// A variable as it is defined: its name, whose place starts at its `$`, and what is said of it (2.10).
pub type DefinedVariable<'a, S> = (Spanning<&'a str, Span>, VariableDefinition<'a, S>);

/// A document: its definitions in order (2.2).
pub type Document<'a, S> = Vec<Definition<'a, S>>;

/// The fragments of a document, lent for `'d`, by their names in the text.
pub type Fragments<'d, 'a, S> = HashMap<&'a str, &'d Fragment<'a, S>>;

impl<'a, S: ScalarValue> Arguments<'a, S> {
    /// The arguments that are written, in order (2.6).
    #[tactic(auto, unfolding(graphql_spec::specs::Documents::written))]
    pub fn written<'b>(
        arguments: &'b Option<Spanning<Arguments<'a, S>, Span>>,
    ) -> &'b [WrittenArgument<'a, S>]
        ensures { map (view_argument S.shown) result.now ≡ written (view_arguments S.shown arguments.now) }
    {
        match arguments {
            Some(arguments) => arguments.item.items.as_slice(),
            None => &[],
        }
    }
}

impl<'a, S: ScalarValue> Field<'a, S> {
    /// The response key of a field: its alias, else its name (2.7).
    #[tactic(auto, unfolding(graphql_spec::specs::Documents::response_key, graphql_spec::specs::Documents::name_or))]
    pub fn response_key(field: &Spanning<Field<'a, S>, Span>) -> &'a str
        ensures { result.now ≡ response_key (view_field S.shown field.now) }
    {
        match field.item.alias {
            Some(alias) => alias.item,
            None => field.item.name.item,
        }
    }
}

impl<'a, S: ScalarValue> Operation<'a, S> {
    /// The variables that an operation defines, in order (2.10).
    #[tactic(auto, unfolding(graphql_spec::specs::Documents::variables_of))]
    pub fn defined_variables<'d>(
        operation: &'d Spanning<Operation<'a, S>, Span>,
    ) -> &'d [DefinedVariable<'a, S>]
        ensures { map (view_variable S.shown) result.now ≡ variables_of (view_operation S.shown operation.now) }
    {
        match &operation.item.variable_definitions {
            Some(defined) => defined.item.items.as_slice(),
            None => &[],
        }
    }
}
