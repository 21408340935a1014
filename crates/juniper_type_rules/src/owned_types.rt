//! Types with names of their own (section 2.11 of the Specification).

ghost use Rattle.std.specs.Prelude.{◌≡◌, IfOk, string_bytes};
ghost use Rattle.juniper_syntax.specs.TypeView.{view_type};

use juniper_syntax::Type;
use std::alloc::{AllocError, Global};

/// The same type, with names of its own; an error where memory is refused.
pub fn owned_type(alloc: Global, reference: &Type<&str>) -> Result<Type<String>, AllocError>
    ensures { IfOk result (λ t. view_type (λ n. string_bytes n) t ≡ view_type (λ n. n.now) reference.now) }
{
    match reference {
        Type::Named(name) => Ok(Type::Named(String::from_str(alloc, *name)?)),
        Type::NonNullNamed(name) => Ok(Type::NonNullNamed(String::from_str(alloc, *name)?)),
        Type::List(inner, size) => {
            let owned = owned_type(alloc, &**inner)?;
            Ok(Type::List(Box::new(alloc, owned)?, *size))
        }
        Type::NonNullList(inner, size) => {
            let owned = owned_type(alloc, &**inner)?;
            Ok(Type::NonNullList(Box::new(alloc, owned)?, *size))
        }
    }
}
