//! Nullable types, lists, and what stands for the type inside, as types of GraphQL (sections 3.11 and 3.12 of the
//! Specification).

ghost use Rattle.std.specs.Prelude.{Some, None, true};
ghost use Rattle.graphql_spec.specs.Schema.{list_type, nullable_type};
ghost use Rattle.graphql_spec.specs.Types.{list_of, nullable};
ghost use Rattle.juniper_meta.specs.MetaView.{unnamed_meta};

use crate::graphql_type::{GraphQLReference, GraphQLType};
use crate::registry::Registry;
use juniper_meta::MetaType;
use juniper_syntax::{ScalarValue, Type};
use std::alloc::{AllocError, Global};

/// The type inside, and null (3.12).
impl<T: GraphQLReference<S>, S: ScalarValue> GraphQLReference<S> for Option<T> {
    type TypeInfo = T::TypeInfo;

    ghost named = { λ _. None };

    ghost reference = { λ i. nullable (T.reference i) };

    fn name(_info: &T::TypeInfo) -> Option<&str> {
        None
    }

    fn type_in(
        alloc: Global,
        info: &T::TypeInfo,
        registry: &mut Registry<S>,
    ) -> Result<Type<String>, AllocError> {
        Ok(T::type_in(alloc, info, registry)?.nullable())
    }
}

impl<T: GraphQLReference<S>, S: ScalarValue> GraphQLType<S> for Option<T> {
    ghost declaration = { λ i. unnamed_meta (nullable_type (T.reference i)) };

    fn meta(
        _alloc: Global,
        info: &T::TypeInfo,
        registry: &mut Registry<S>,
    ) -> Result<MetaType<S>, AllocError> {
        Ok(registry.build_nullable_type::<T>(info)?.into_meta())
    }

    ghost keeps_name = { λ _ _ e. Prim.cc };
}

/// A list (3.11).
impl<T: GraphQLReference<S>, S: ScalarValue> GraphQLReference<S> for Vec<T> {
    type TypeInfo = T::TypeInfo;

    ghost named = { λ _. None };

    ghost reference = { λ i. list_of true None (T.reference i) };

    fn name(_info: &T::TypeInfo) -> Option<&str> {
        None
    }

    fn type_in(
        alloc: Global,
        info: &T::TypeInfo,
        registry: &mut Registry<S>,
    ) -> Result<Type<String>, AllocError> {
        let item = T::type_in(alloc, info, registry)?;
        Ok(item.wrap_list(alloc, None)?.wrap_non_null())
    }
}

impl<T: GraphQLReference<S>, S: ScalarValue> GraphQLType<S> for Vec<T> {
    ghost declaration = { λ i. unnamed_meta (list_type None (T.reference i)) };

    fn meta(
        _alloc: Global,
        info: &T::TypeInfo,
        registry: &mut Registry<S>,
    ) -> Result<MetaType<S>, AllocError> {
        Ok(registry.build_list_type::<T>(info, None)?.into_meta())
    }

    ghost keeps_name = { λ _ _ e. Prim.cc };
}

/// A list of `N` items (3.11).
impl<T: GraphQLReference<S>, S: ScalarValue, const N: usize> GraphQLReference<S> for [T; N] {
    type TypeInfo = T::TypeInfo;

    ghost named = { λ _. None };

    ghost reference = { λ i. list_of true (Some N) (T.reference i) };

    fn name(_info: &T::TypeInfo) -> Option<&str> {
        None
    }

    fn type_in(
        alloc: Global,
        info: &T::TypeInfo,
        registry: &mut Registry<S>,
    ) -> Result<Type<String>, AllocError> {
        let item = T::type_in(alloc, info, registry)?;
        Ok(item.wrap_list(alloc, Some(N))?.wrap_non_null())
    }
}

impl<T: GraphQLReference<S>, S: ScalarValue, const N: usize> GraphQLType<S> for [T; N] {
    ghost declaration = { λ i. unnamed_meta (list_type (Some N) (T.reference i)) };

    fn meta(
        _alloc: Global,
        info: &T::TypeInfo,
        registry: &mut Registry<S>,
    ) -> Result<MetaType<S>, AllocError> {
        Ok(registry.build_list_type::<T>(info, Some(N))?.into_meta())
    }

    ghost keeps_name = { λ _ _ e. Prim.cc };
}

/// The type inside.
impl<T: GraphQLReference<S>, S: ScalarValue> GraphQLReference<S> for Box<T> {
    type TypeInfo = T::TypeInfo;

    ghost named = { T.named };

    ghost reference = { T.reference };

    fn name(info: &T::TypeInfo) -> Option<&str> {
        T::name(info)
    }

    fn type_in(
        alloc: Global,
        info: &T::TypeInfo,
        registry: &mut Registry<S>,
    ) -> Result<Type<String>, AllocError> {
        T::type_in(alloc, info, registry)
    }
}

impl<T: GraphQLType<S>, S: ScalarValue> GraphQLType<S> for Box<T> {
    ghost declaration = { T.declaration };

    fn meta(
        alloc: Global,
        info: &T::TypeInfo,
        registry: &mut Registry<S>,
    ) -> Result<MetaType<S>, AllocError> {
        T::meta(alloc, info, registry)
    }

    ghost keeps_name = { T.keeps_name };
}

/// The type that is referred to.
impl<'t, T: GraphQLReference<S>, S: ScalarValue> GraphQLReference<S> for &'t T {
    type TypeInfo = T::TypeInfo;

    ghost named = { T.named };

    ghost reference = { T.reference };

    fn name(info: &T::TypeInfo) -> Option<&str> {
        T::name(info)
    }

    fn type_in(
        alloc: Global,
        info: &T::TypeInfo,
        registry: &mut Registry<S>,
    ) -> Result<Type<String>, AllocError> {
        T::type_in(alloc, info, registry)
    }
}

impl<'t, T: GraphQLType<S>, S: ScalarValue> GraphQLType<S> for &'t T {
    ghost declaration = { T.declaration };

    fn meta(
        alloc: Global,
        info: &T::TypeInfo,
        registry: &mut Registry<S>,
    ) -> Result<MetaType<S>, AllocError> {
        T::meta(alloc, info, registry)
    }

    ghost keeps_name = { T.keeps_name };
}
