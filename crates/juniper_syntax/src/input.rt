//! Input values as they are written (section 2.9 of the Specification), and with values for their variables (6.4.1).

ghost use Rattle.std.specs.Prelude.{◌≡◌, IfOk, option_map, unwrap_or};
ghost use Rattle.graphql_spec.specs.Inputs.{null, is_const, items_are_const, fields_are_const, const, const_items, const_fields};
ghost use Rattle.graphql_spec.specs.Inputs as inputs;
ghost use Rattle.graphql_spec.specs.Constants.{is_null, meaning};
ghost use Rattle.juniper_syntax.specs.InputParts.{IsListOf, IsObjectOf};
ghost use Rattle.juniper_syntax.specs.InputView.{view_input, view_items, view_fields, view_variables};

use crate::scalar::ScalarValue;
use crate::{Span, Spanning};
use std::alloc::{AllocError, Global};
use std::collections::HashMap;

/// An input value.
#[derive(Debug, PartialEq, Drop)]
pub enum InputValue<S> {
    /// `null` (2.9.5).
    Null,
    /// An Int, a String or a Boolean (2.9.1 to 2.9.4).
    Scalar(S),
    /// The name of an enum's value (2.9.6).
    Enum(String),
    /// A variable by its name, without the `$` (2.10).
    Variable(String),
    /// A list, each item with its place (2.9.7).
    List(Vec<Spanning<InputValue<S>, Span>>),
    /// An object's fields in the order in which they are written (2.9.8).
    Object(Vec<(Spanning<String, Span>, Spanning<InputValue<S>, Span>)>),
}

/// The values of variables, by name (6.1.2).
pub type Variables<S> = HashMap<String, InputValue<S>>;

/// A field of an object: its name and its value, each with its place (2.9.8).
pub type InputField<S> = (Spanning<String, Span>, Spanning<InputValue<S>, Span>);

impl<S: ScalarValue> InputValue<S> {
    /// Null.
    pub fn null() -> InputValue<S>
        ensures { view_input S.shown result ≡ null }
    {
        InputValue::Null
    }

    /// This scalar.
    pub fn scalar(scalar: S) -> InputValue<S>
        ensures { view_input S.shown result ≡ inputs.scalar (S.shown scalar) }
    {
        InputValue::Scalar(scalar)
    }

    /// The list of these; an error where memory is refused. None has a place of a text.
    pub fn list(alloc: Global, items: Vec<InputValue<S>>) -> Result<InputValue<S>, AllocError>
        ensures { IfOk result (λ made. IsListOf made items.items) }
    {
        let mut placed = Vec::with_capacity(alloc, items.len())?;
        for item in items {
            placed.push(Spanning::unlocated(item))?;
        }
        Ok(InputValue::List(placed))
    }

    /// The object of these fields, in their order; an error where memory is refused. None has a place of a text.
    pub fn object(
        alloc: Global,
        fields: Vec<(String, InputValue<S>)>,
    ) -> Result<InputValue<S>, AllocError>
        ensures { IfOk result (λ made. IsObjectOf made fields.items) }
    {
        let mut placed = Vec::with_capacity(alloc, fields.len())?;
        for (name, value) in fields {
            placed.push((Spanning::unlocated(name), Spanning::unlocated(value)))?;
        }
        Ok(InputValue::Object(placed))
    }

    /// The list of these, each with its place.
    pub fn parsed_list(items: Vec<Spanning<InputValue<S>, Span>>) -> InputValue<S>
        ensures { view_input S.shown result ≡ inputs.list (view_items S.shown items.items) }
    {
        InputValue::List(items)
    }

    /// The object of these fields, each name and each value with its place.
    pub fn parsed_object(
        fields: Vec<(Spanning<String, Span>, Spanning<InputValue<S>, Span>)>,
    ) -> InputValue<S>
        ensures { view_input S.shown result ≡ inputs.object (view_fields S.shown fields.items) }
    {
        InputValue::Object(fields)
    }

    /// Whether it is null (2.9.5).
    pub fn is_null(&self) -> bool
        ensures { result ≡ is_null (meaning (view_input S.shown self.now)) }
    {
        match self {
            InputValue::Null => true,
            InputValue::Scalar(_) => false,
            InputValue::Enum(_) => false,
            InputValue::Variable(_) => false,
            InputValue::List(_) => false,
            InputValue::Object(_) => false,
        }
    }

    /// Whether no variable stands in it (2.10).
    #[cycle(is_const)]
    #[tactic(auto, unfolding(graphql_spec::specs::Inputs::is_const))]
    pub fn is_const(&self) -> bool
        ensures { result ≡ is_const (view_input S.shown self.now) }
    {
        match self {
            InputValue::Null | InputValue::Scalar(_) | InputValue::Enum(_) => true,
            InputValue::Variable(_) => false,
            InputValue::List(items) => items_are_const(items.as_slice()),
            InputValue::Object(fields) => fields_are_const(fields.as_slice()),
        }
    }

    /// A value that is written the same, at the same places; an error where memory is refused.
    #[cycle(try_clone)]
    pub fn try_clone(&self, alloc: Global) -> Result<InputValue<S>, AllocError>
        ensures { IfOk result (λ made. view_input S.shown made ≡ view_input S.shown self.now) }
    {
        match self {
            InputValue::Null => Ok(InputValue::Null),
            InputValue::Scalar(scalar) => Ok(InputValue::Scalar(scalar.try_clone(alloc)?)),
            InputValue::Enum(name) => Ok(InputValue::Enum(String::from_str(alloc, name.as_str())?)),
            InputValue::Variable(name) => {
                Ok(InputValue::Variable(String::from_str(alloc, name.as_str())?))
            }
            InputValue::List(items) => Ok(InputValue::List(clone_items(alloc, items.as_slice())?)),
            InputValue::Object(fields) => {
                Ok(InputValue::Object(clone_fields(alloc, fields.as_slice())?))
            }
        }
    }

    /// The value with values for its variables, which are put in as they are (6.4.1). A variable that has no value makes
    /// the value itself `None`, an item of a list null, and a field of an object absent. An error where memory is refused.
    #[cycle(into_const)]
    #[tactic(auto, unfolding(graphql_spec::specs::Inputs::const_items))]
    pub fn into_const(
        &self,
        alloc: Global,
        variables: &Variables<S>,
    ) -> Result<Option<InputValue<S>>, AllocError>
        ensures { IfOk result (λ made. option_map (view_input S.shown) made ≡ const (view_variables S.shown variables.now) (view_input S.shown self.now)) }
    {
        match self {
            InputValue::Null | InputValue::Scalar(_) | InputValue::Enum(_) => {
                Ok(Some(self.try_clone(alloc)?))
            }
            InputValue::Variable(name) => match variables.get(name.as_str()) {
                Some(value) => Ok(Some(value.try_clone(alloc)?)),
                None => Ok(None),
            },
            InputValue::List(items) => Ok(Some(InputValue::List(const_items(
                alloc,
                items.as_slice(),
                variables,
            )?))),
            InputValue::Object(fields) => Ok(Some(InputValue::Object(const_fields(
                alloc,
                fields.as_slice(),
                variables,
            )?))),
        }
    }
}

#[cycle(is_const)]
fn items_are_const<S: ScalarValue>(items: &[Spanning<InputValue<S>, Span>]) -> bool
    ensures { result ≡ items_are_const (view_items S.shown items.now) }
{
    for item in items {
        if !item.item.is_const() {
            return false;
        }
    }
    true
}

#[cycle(is_const)]
fn fields_are_const<S: ScalarValue>(fields: &[InputField<S>]) -> bool
    ensures { result ≡ fields_are_const (view_fields S.shown fields.now) }
{
    for field in fields {
        if !field.1.item.is_const() {
            return false;
        }
    }
    true
}

#[cycle(try_clone)]
fn clone_items<S: ScalarValue>(
    alloc: Global,
    items: &[Spanning<InputValue<S>, Span>],
) -> Result<Vec<Spanning<InputValue<S>, Span>>, AllocError>
    ensures { IfOk result (λ made. view_items S.shown made.items ≡ view_items S.shown items.now) }
{
    let mut made = Vec::with_capacity(alloc, items.len())?;
    for item in items {
        let copy = item.item.try_clone(alloc)?;
        made.push(Spanning {
            item: copy,
            span: item.span,
        })?;
    }
    Ok(made)
}

#[cycle(try_clone)]
fn clone_fields<S: ScalarValue>(
    alloc: Global,
    fields: &[InputField<S>],
) -> Result<Vec<InputField<S>>, AllocError>
    ensures { IfOk result (λ made. view_fields S.shown made.items ≡ view_fields S.shown fields.now) }
{
    let mut made = Vec::with_capacity(alloc, fields.len())?;
    for field in fields {
        let copy = value_of(field).try_clone(alloc)?;
        let name = String::from_str(alloc, field.0.item.as_str())?;
        made.push((
            Spanning {
                item: name,
                span: field.0.span,
            },
            Spanning {
                item: copy,
                span: field.1.span,
            },
        ))?;
    }
    Ok(made)
}

#[cycle(into_const)]
#[tactic(auto, unfolding(graphql_spec::specs::Inputs::const_items))]
fn const_items<S: ScalarValue>(
    alloc: Global,
    items: &[Spanning<InputValue<S>, Span>],
    variables: &Variables<S>,
) -> Result<Vec<Spanning<InputValue<S>, Span>>, AllocError>
    ensures { IfOk result (λ made. view_items S.shown made.items ≡ const_items (view_variables S.shown variables.now) (view_items S.shown items.now)) }
{
    let mut made = Vec::with_capacity(alloc, items.len())?;
    for item in items {
        let value = or_null(item.item.into_const(alloc, variables)?);
        made.push(Spanning {
            item: value,
            span: item.span,
        })?;
    }
    Ok(made)
}

#[cycle(into_const)]
#[tactic(auto, unfolding(graphql_spec::specs::Inputs::const_items))]
fn const_fields<S: ScalarValue>(
    alloc: Global,
    fields: &[InputField<S>],
    variables: &Variables<S>,
) -> Result<Vec<InputField<S>>, AllocError>
    ensures { IfOk result (λ made. view_fields S.shown made.items ≡ const_fields (view_variables S.shown variables.now) (view_fields S.shown fields.now)) }
{
    let mut made = Vec::with_capacity(alloc, fields.len())?;
    for field in fields {
        if let Some(value) = value_of(field).into_const(alloc, variables)? {
            let name = String::from_str(alloc, field.0.item.as_str())?;
            made.push((
                Spanning {
                    item: name,
                    span: field.0.span,
                },
                Spanning {
                    item: value,
                    span: field.1.span,
                },
            ))?;
        }
    }
    Ok(made)
}

/// The value of a field. A name for it keeps the terms of a proof small.
pub(crate) fn value_of<S>(field: &InputField<S>) -> &InputValue<S>
    ensures { result.now ≡ field.now.1.item }
{
    &field.1.item
}

/// The value, or null where there is none.
fn or_null<S: ScalarValue>(value: Option<InputValue<S>>) -> InputValue<S>
    ensures { view_input S.shown result ≡ unwrap_or (option_map (view_input S.shown) value) null }
{
    match value {
        Some(value) => value,
        None => InputValue::Null,
    }
}
