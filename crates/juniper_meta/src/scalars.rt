//! The scalars that every schema may use (section 3.5 of the Specification).

ghost use Rattle.std.specs.Prelude.{◌≡◌, IfOk, codes};
ghost use Rattle.juniper_meta.specs.BuiltInScalars.{texts, booleans, ints, ids, scalar_of};
ghost use Rattle.juniper_meta.specs.MetaView.{view_kinds, view_meta};

use crate::{MetaType, ScalarKinds, ScalarMeta};
use juniper_syntax::ScalarValue;
use std::alloc::{AllocError, Global};

/// `String`, which accepts texts (3.5.3); an error where memory is refused.
pub fn string_scalar<S: ScalarValue>(alloc: Global) -> Result<MetaType<S>, AllocError>
    ensures { IfOk result (λ m. view_meta S.shown m ≡ scalar_of (codes "String") texts) }
{
    let kinds = ScalarKinds {
        int: false,
        text: true,
        boolean: false,
    };
    scalar_named(alloc, "String", kinds)
}

/// `Boolean`, which accepts Booleans (3.5.4); an error where memory is refused.
pub fn boolean_scalar<S: ScalarValue>(alloc: Global) -> Result<MetaType<S>, AllocError>
    ensures { IfOk result (λ m. view_meta S.shown m ≡ scalar_of (codes "Boolean") booleans) }
{
    let kinds = ScalarKinds {
        int: false,
        text: false,
        boolean: true,
    };
    scalar_named(alloc, "Boolean", kinds)
}

/// `Int`, which accepts Ints (3.5.1); an error where memory is refused.
pub fn int_scalar<S: ScalarValue>(alloc: Global) -> Result<MetaType<S>, AllocError>
    ensures { IfOk result (λ m. view_meta S.shown m ≡ scalar_of (codes "Int") ints) }
{
    let kinds = ScalarKinds {
        int: true,
        text: false,
        boolean: false,
    };
    scalar_named(alloc, "Int", kinds)
}

/// `ID`, which accepts Ints and texts (3.5.5); an error where memory is refused.
pub fn id_scalar<S: ScalarValue>(alloc: Global) -> Result<MetaType<S>, AllocError>
    ensures { IfOk result (λ m. view_meta S.shown m ≡ scalar_of (codes "ID") ids) }
{
    let kinds = ScalarKinds {
        int: true,
        text: true,
        boolean: false,
    };
    scalar_named(alloc, "ID", kinds)
}

/// The scalar of this name that accepts these kinds, without description and URL.
fn scalar_named<S: ScalarValue>(
    alloc: Global,
    name: &str,
    kinds: ScalarKinds,
) -> Result<MetaType<S>, AllocError>
    ensures { IfOk result (λ m. view_meta S.shown m ≡ scalar_of name.now (view_kinds kinds)) }
{
    let name = String::from_str(alloc, name)?;
    Ok(ScalarMeta::new(name, kinds).into_meta())
}
