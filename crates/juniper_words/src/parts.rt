//! What declarations are made of: references, arguments, fields, values and names (section 3 of the Specification).

ghost use Rattle.std.specs.Prelude.{◌≡◌, IfOk, map};
ghost use Rattle.juniper_words.specs.Data.{argument_of, field_of, input_field_of, input_of, names, reference, value_of};
ghost use Rattle.juniper_words.specs.Notes.{noted, said};
ghost use Rattle.juniper_meta.specs.MetaView.{view_argument, view_enum_value, view_field, view_type};

use crate::data::{DeclaredField, DeclaredInput, Reference};
use crate::notes::{Note, Subject, deprecation_of, described};
use crate::values::default_of;
use juniper_meta::meta::Field;
use juniper_meta::{Argument, EnumValue};
use juniper_syntax::{ScalarValue, Type};
use std::alloc::{AllocError, Global};

/// The type that is referred to.
fn reference_of(alloc: Global, of_type: &Reference) -> Result<Type<String>, AllocError>
    ensures { IfOk result (λ t. view_type t ≡ reference of_type.now) }
{
    match of_type {
        Reference::Nullable(name) => Ok(Type::Named(String::from_str(alloc, name)?)),
        Reference::NonNull(name) => Ok(Type::NonNullNamed(String::from_str(alloc, name)?)),
        Reference::List(item) => {
            let item = reference_of(alloc, item)?;
            Ok(Type::List(Box::new(alloc, item)?, None))
        }
        Reference::NonNullList(item) => {
            let item = reference_of(alloc, item)?;
            Ok(Type::NonNullList(Box::new(alloc, item)?, None))
        }
    }
}

/// An argument, or a field of an input object, with the description that notes give it.
fn input_of<S: ScalarValue>(
    alloc: Global,
    notes: &[Note],
    subject: &Subject,
    input: &DeclaredInput,
) -> Result<Argument<S>, AllocError>
    ensures { IfOk result (λ a. view_argument S.shown a ≡ input_of (noted (said subject.now) notes.now) input.now) }
{
    Ok(Argument {
        name: String::from_str(alloc, input.0)?,
        description: described(alloc, notes, subject)?,
        arg_type: reference_of(alloc, &input.1)?,
        default_value: default_of(alloc, &input.2)?,
    })
}

/// The arguments of the field of this name, in order.
fn arguments_of<S: ScalarValue>(
    alloc: Global,
    notes: &[Note],
    field: &str,
    inputs: &[DeclaredInput],
) -> Result<Vec<Argument<S>>, AllocError>
    ensures { IfOk result (λ made. map (view_argument S.shown) made.items ≡ map (argument_of notes.now field.now) inputs.now) }
{
    let mut made = Vec::new(alloc);
    for input in inputs {
        let subject = Subject::Argument(field, input.0);
        made.push(input_of(alloc, notes, &subject, input)?)?;
    }
    Ok(made)
}

/// The fields of an input object, in order.
pub(crate) fn inputs_of<S: ScalarValue>(
    alloc: Global,
    notes: &[Note],
    inputs: &[DeclaredInput],
) -> Result<Vec<Argument<S>>, AllocError>
    ensures { IfOk result (λ made. map (view_argument S.shown) made.items ≡ map (input_field_of notes.now) inputs.now) }
{
    let mut made = Vec::new(alloc);
    for input in inputs {
        let subject = Subject::Part(input.0);
        made.push(input_of(alloc, notes, &subject, input)?)?;
    }
    Ok(made)
}

/// A field.
fn field_of<S: ScalarValue>(
    alloc: Global,
    notes: &[Note],
    field: &DeclaredField,
) -> Result<Field<S>, AllocError>
    ensures { IfOk result (λ f. view_field S.shown f ≡ field_of notes.now field.now) }
{
    Ok(Field {
        name: String::from_str(alloc, field.0)?,
        description: described(alloc, notes, &Subject::Part(field.0))?,
        arguments: Some(arguments_of(alloc, notes, field.0, field.1)?),
        field_type: reference_of(alloc, &field.2)?,
        deprecation_status: deprecation_of(alloc, notes, field.0)?,
    })
}

/// Fields, in order.
pub(crate) fn fields_of<S: ScalarValue>(
    alloc: Global,
    notes: &[Note],
    fields: &[DeclaredField],
) -> Result<Vec<Field<S>>, AllocError>
    ensures { IfOk result (λ made. map (view_field S.shown) made.items ≡ map (field_of notes.now) fields.now) }
{
    let mut made = Vec::new(alloc);
    for field in fields {
        made.push(field_of(alloc, notes, field)?)?;
    }
    Ok(made)
}

/// The value of this name of an enum.
#[tactic(auto, using(crate::proofs::NotedValues::value_is))]
fn value_of(alloc: Global, notes: &[Note], name: &str) -> Result<EnumValue, AllocError>
    ensures { IfOk result (λ v. view_enum_value v ≡ value_of notes.now name.now) }
{
    Ok(EnumValue {
        name: String::from_str(alloc, name)?,
        description: described(alloc, notes, &Subject::Part(name))?,
        deprecation_status: deprecation_of(alloc, notes, name)?,
    })
}

/// The values of an enum, by their names in order.
pub(crate) fn values_of(
    alloc: Global,
    notes: &[Note],
    texts: &[&str],
) -> Result<Vec<EnumValue>, AllocError>
    ensures { IfOk result (λ made. map view_enum_value made.items ≡ map (value_of notes.now) (names texts.now)) }
{
    let mut made = Vec::new(alloc);
    for name in texts {
        made.push(value_of(alloc, notes, name)?)?;
    }
    Ok(made)
}
