//! Types of GraphQL by Rust types (section 3.4 of the Specification).

ghost use Rattle.std.specs.Prelude.{◌≡◌, IfOk, Option, Some, option_map};
ghost use Rattle.graphql_spec.specs.Shown.{Name};
ghost use Rattle.graphql_spec.specs.Types.{TypeRef};
ghost use Rattle.juniper_meta.specs.MetaView.{Meta, view_meta, view_type};

use crate::registry::Registry;
use juniper_meta::MetaType;
use juniper_syntax::{ScalarValue, Type};
use std::alloc::{AllocError, Global};

/// A type of GraphQL by how it is referred to, which each implementation writes. It stands apart from how the type is
/// declared, since declarations refer to one another, and to themselves.
pub trait GraphQLReference<S: ScalarValue> {
    /// What tells several GraphQL types of one Rust type apart.
    type TypeInfo;

    /// Its name; nothing for lists and other types without one.
    ghost named: { Self.TypeInfo → Option Name };

    /// How it is referred to (2.11).
    ghost reference: { Self.TypeInfo → TypeRef };

    /// Its name; `None` for lists and other types without one.
    fn name(info: &Self::TypeInfo) -> Option<&str>
        ensures { option_map (λ n. n.now) result ≡ named info.now };

    /// The reference to it: a named type and a list are non-null (3.12); an error where memory is refused. The registry is one
    /// of its own, which is thrown away: who asks leaves the placeholders (`Registry::get_type`).
    fn type_in(
        alloc: Global,
        info: &Self::TypeInfo,
        registry: &mut Registry<S>,
    ) -> Result<Type<String>, AllocError>
        ensures { IfOk result (λ t. view_type t ≡ reference info.now) };
}

/// A type of GraphQL: how it is referred to, and how it is declared.
pub trait GraphQLType<S: ScalarValue>: GraphQLReference<S> {
    /// How it is declared (3.4).
    ghost declaration: { Self.TypeInfo → Meta };

    /// Its declaration; an error where memory is refused. The registry is one of its own, which is thrown away: who asks
    /// leaves placeholders at the names that the declaration refers to (`Registry::register`).
    fn meta(
        alloc: Global,
        info: &Self::TypeInfo,
        registry: &mut Registry<S>,
    ) -> Result<MetaType<S>, AllocError>
        ensures { IfOk result (λ m. view_meta S.shown m ≡ declaration info.now) };

    /// A named type's declaration has its name.
    ghost keeps_name: { (i : Self.TypeInfo) (n : Name) → Self.named i ≡ Some n → (declaration i).name ≡ Some n };
}
