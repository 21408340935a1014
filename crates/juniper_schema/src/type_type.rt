//! References to types with the declarations that they lead to.

ghost use Rattle.std.specs.Prelude.{◌≡◌, IfOk};
ghost use Rattle.juniper_meta.specs.MetaView.{view_meta};
ghost use Rattle.juniper_syntax.specs.TypeView.{view_type};
ghost use Rattle.juniper_schema.specs.MadeTypes as made;
ghost use Rattle.juniper_schema.specs.MadeTypes.{view_made};

use juniper_meta::MetaType;
use juniper_syntax::{ScalarValue, Type};
use std::alloc::{AllocError, Global};
use std::convert::AsStr;

/// A type of a schema: a declaration, in any lists and non-nulls (3.4.1).
#[derive(Debug, Drop)]
pub enum TypeType<'a, S> {
    /// A declaration, nullable.
    Concrete(&'a MetaType<S>),
    /// A list, with its expected number of items, where it has one.
    List(Box<TypeType<'a, S>>, Option<usize>),
    /// The type inside, which does not take null.
    NonNull(Box<TypeType<'a, S>>),
}

/// The type inside, which does not take null.
pub fn non_null<'a, S: ScalarValue>(
    alloc: Global,
    inner: TypeType<'a, S>,
) -> Result<TypeType<'a, S>, AllocError>
    ensures { IfOk result (λ t. view_made S.shown t ≡ made.non_null (view_made S.shown inner.entry)) }
{
    Ok(TypeType::NonNull(Box::new(alloc, inner)?))
}

/// The list of this type.
pub fn list_of<'a, S: ScalarValue>(
    alloc: Global,
    inner: TypeType<'a, S>,
    expected_size: Option<usize>,
) -> Result<TypeType<'a, S>, AllocError>
    ensures { IfOk result (λ t. view_made S.shown t ≡ made.list expected_size (view_made S.shown inner.entry)) }
{
    Ok(TypeType::List(Box::new(alloc, inner)?, expected_size))
}

/// A declaration in the lists and non-nulls of a reference (3.4.1). An error where memory is refused.
#[tactic(auto, unfolding(crate::specs::MadeTypes::around))]
pub fn type_around<'a, N: AsStr + Drop, S: ScalarValue>(
    alloc: Global,
    meta: &'a MetaType<S>,
    reference: &Type<N>,
) -> Result<TypeType<'a, S>, AllocError>
    ensures { IfOk result (λ t. view_made S.shown t ≡ made.around (view_meta S.shown meta.now) (view_type N.text reference.now)) }
{
    match reference {
        Type::Named(_) => Ok(TypeType::Concrete(meta)),
        Type::NonNullNamed(_) => non_null(alloc, TypeType::Concrete(meta)),
        Type::List(inner, size) => list_of(alloc, type_around(alloc, meta, &**inner)?, *size),
        Type::NonNullList(inner, size) => {
            let inner = type_around(alloc, meta, &**inner)?;
            non_null(alloc, list_of(alloc, inner, *size)?)
        }
    }
}
