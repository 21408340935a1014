//! Kinds of types (section 4.2.2 of the Specification).

ghost use Rattle.std.specs.Prelude.{◌≡◌, Some};
ghost use Rattle.juniper_registry.specs.Kinds.{view_kind};

use std::fmt;

/// A kind of type (4.2.2); shown as in the Specification, as `INPUT_OBJECT`.
#[derive(Clone, Copy, Debug, PartialEq, Eq)]
pub enum TypeKind {
    /// A scalar (3.5).
    Scalar,
    /// An object (3.6).
    Object,
    /// An interface (3.7).
    Interface,
    /// A union (3.8).
    Union,
    /// An enum (3.9).
    Enum,
    /// An input object (3.10).
    InputObject,
    /// A list (3.11).
    List,
    /// A type that doesn't take null (3.12).
    NonNull,
}

impl TypeKind {
    /// Its name, as `INPUT_OBJECT` (4.2.2).
    pub fn name(self) -> &'static str
        ensures { result.now ≡ view_kind self }
    {
        match self {
            TypeKind::Scalar => "SCALAR",
            TypeKind::Object => "OBJECT",
            TypeKind::Interface => "INTERFACE",
            TypeKind::Union => "UNION",
            TypeKind::Enum => "ENUM",
            TypeKind::InputObject => "INPUT_OBJECT",
            TypeKind::List => "LIST",
            TypeKind::NonNull => "NON_NULL",
        }
    }
}

impl fmt::Display for TypeKind {
    ghost output = { λ k. Some (view_kind k) };

    fn fmt<W: fmt::Write>(&self, f: &mut fmt::Formatter<W>) -> fmt::Result {
        f.write_str(self.name())
    }
}
