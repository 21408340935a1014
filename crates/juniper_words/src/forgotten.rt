//! Fields that are declared, and that a resolver does not answer (sections 3.6 and 6.4.2 of the Specification).

ghost use Rattle.std.specs.Prelude.{◌≡◌, ◌++◌, IfOk, OnOk, map};
ghost use Rattle.juniper_values.specs.ResolvedView.{Answers};
ghost use Rattle.juniper_words.specs.Forgotten.{fields_in, is_answered, object_fields, unanswered_reply, view_field_of};

use crate::answers::Answer;
use crate::{DeclaredField, DeclaredType};
use juniper_conversions::ResolveError;
use juniper_syntax::ScalarValue;
use juniper_values::fails;
use std::alloc::{AllocError, Global};

/// What a field answers that no arm of its resolver names.
const UNANSWERED: &str = "No resolver answers the field";

/// A field of an object type, by its type's name and its own.
#[derive(Clone, Copy, Debug, PartialEq, Eq)]
pub struct FieldOf {
    /// The name of the object type.
    pub type_name: &'static str,
    /// The name of the field.
    pub field_name: &'static str,
}

/// The error of a field that no arm of its resolver names, `No resolver answers the field`: `_ => unanswered(alloc)`. So a field that is
/// declared and forgotten is an error of each request for it, and never a null.
pub fn unanswered<N, S: ScalarValue>(alloc: Global) -> Answer<N, S>
    ensures { Answers S.shown result unanswered_reply }
{
    fails(alloc, UNANSWERED)
}

/// Whether this is another answer than that of [`unanswered`], and memory was not refused.
pub fn is_answered<N, S: ScalarValue>(answer: &Answer<N, S>) -> bool
    ensures { result ≡ is_answered answer.now }
{
    match answer {
        Ok(_) => true,
        Err(ResolveError::Field(error)) => error.message() != UNANSWERED,
        Err(ResolveError::Memory) => false,
    }
}

/// The fields of the objects among these types, in order. A test asks for each of them, and so finds those that are forgotten. An error
/// where memory is refused.
pub fn object_fields(alloc: Global, types: &[DeclaredType]) -> Result<Vec<FieldOf>, AllocError>
    ensures { IfOk result (λ made. map view_field_of made.items ≡ object_fields types.now) }
{
    let mut fields = Vec::new(alloc);
    for declared in types {
        push_fields(&mut fields, declared)?;
    }
    Ok(fields)
}

/// Puts the fields of a type last, if it is an object.
fn push_fields(fields: &mut Vec<FieldOf>, declared: &DeclaredType) -> Result<(), AllocError>
    ensures { OnOk result (map view_field_of fields.new.items ≡ map view_field_of fields.old.items ++ fields_in declared.now) }
{
    match declared {
        DeclaredType::Scalar(_, _, _) => Ok(()),
        DeclaredType::Object(type_name, _, own) => push_all(fields, type_name, own),
        DeclaredType::Interface(_, _) => Ok(()),
        DeclaredType::SubInterface(_, _, _) => Ok(()),
        DeclaredType::Union(_, _) => Ok(()),
        DeclaredType::Enum(_, _) => Ok(()),
        DeclaredType::InputObject(_, _) => Ok(()),
        DeclaredType::Noted(inner, _) => push_fields(fields, inner),
    }
}

/// Puts these fields of a type last.
fn push_all(
    fields: &mut Vec<FieldOf>,
    type_name: &'static str,
    own: &[DeclaredField],
) -> Result<(), AllocError>
    ensures { OnOk result (map view_field_of fields.new.items
        ≡ map view_field_of fields.old.items ++ map (λ f. (type_name.now, f.0.now)) own.now) }
{
    for field in own {
        fields.push(FieldOf {
            type_name,
            field_name: field.0,
        })?;
    }
    Ok(())
}
