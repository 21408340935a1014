//! Types that tell a value that is left out from a null, as types of GraphQL (section 3.12 of the Specification).

ghost use Rattle.std.specs.Prelude.{None};
ghost use Rattle.graphql_spec.specs.Schema.{nullable_type};
ghost use Rattle.graphql_spec.specs.Types.{nullable};
ghost use Rattle.juniper_meta.specs.MetaView.{unnamed_meta};

use crate::graphql_type::{GraphQLReference, GraphQLType};
use crate::registry::Registry;
use juniper_conversions::Nullable;
use juniper_meta::MetaType;
use juniper_syntax::{ScalarValue, Type};
use std::alloc::{AllocError, Global};

/// The type inside, and null (3.12).
impl<T: GraphQLReference<S>, S: ScalarValue> GraphQLReference<S> for Nullable<T> {
    type TypeInfo = T::TypeInfo;

    ghost named = { λ _. None };

    ghost reference = { λ i. nullable (T.reference i) };

    fn name(_info: &T::TypeInfo) -> Option<&str> {
        None
    }

    fn type_in(
        alloc: Global,
        info: &T::TypeInfo,
        registry: &mut Registry<S>,
    ) -> Result<Type<String>, AllocError> {
        Ok(T::type_in(alloc, info, registry)?.nullable())
    }
}

impl<T: GraphQLReference<S>, S: ScalarValue> GraphQLType<S> for Nullable<T> {
    ghost declaration = { λ i. unnamed_meta (nullable_type (T.reference i)) };

    fn meta(
        _alloc: Global,
        info: &T::TypeInfo,
        registry: &mut Registry<S>,
    ) -> Result<MetaType<S>, AllocError> {
        Ok(registry.build_nullable_type::<T>(info)?.into_meta())
    }

    ghost keeps_name = { λ _ _ e. Prim.cc };
}
