//! Scalars as types of GraphQL (section 3.5 of the Specification).

ghost use Rattle.std.specs.Prelude.{Some, codes, true};
ghost use Rattle.graphql_spec.specs.Types.{named as named_type};
ghost use Rattle.juniper_meta.specs.BuiltInScalars.{booleans, ids, ints, scalar_of, texts};

use crate::graphql_type::{GraphQLReference, GraphQLType};
use crate::registry::Registry;
use juniper_conversions::ID;
use juniper_meta::{MetaType, boolean_scalar, id_scalar, int_scalar, string_scalar};
use juniper_syntax::{ScalarValue, Type};
use std::alloc::{AllocError, Global};

/// `Int` (3.5.1).
impl<S: ScalarValue> GraphQLReference<S> for i32 {
    type TypeInfo = ();

    ghost named = { λ _. Some (codes "Int") };

    ghost reference = { λ _. named_type true (codes "Int") };

    fn name(_info: &()) -> Option<&str> {
        Some("Int")
    }

    fn type_in(
        _alloc: Global,
        _info: &(),
        registry: &mut Registry<S>,
    ) -> Result<Type<String>, AllocError> {
        registry.named_type("Int")
    }
}

impl<S: ScalarValue> GraphQLType<S> for i32 {
    ghost declaration = { λ _. scalar_of (codes "Int") ints };

    fn meta(
        alloc: Global,
        _info: &(),
        _registry: &mut Registry<S>,
    ) -> Result<MetaType<S>, AllocError> {
        int_scalar(alloc)
    }

    ghost keeps_name = { λ _ _ e. e };
}

/// `Boolean` (3.5.4).
impl<S: ScalarValue> GraphQLReference<S> for bool {
    type TypeInfo = ();

    ghost named = { λ _. Some (codes "Boolean") };

    ghost reference = { λ _. named_type true (codes "Boolean") };

    fn name(_info: &()) -> Option<&str> {
        Some("Boolean")
    }

    fn type_in(
        _alloc: Global,
        _info: &(),
        registry: &mut Registry<S>,
    ) -> Result<Type<String>, AllocError> {
        registry.named_type("Boolean")
    }
}

impl<S: ScalarValue> GraphQLType<S> for bool {
    ghost declaration = { λ _. scalar_of (codes "Boolean") booleans };

    fn meta(
        alloc: Global,
        _info: &(),
        _registry: &mut Registry<S>,
    ) -> Result<MetaType<S>, AllocError> {
        boolean_scalar(alloc)
    }

    ghost keeps_name = { λ _ _ e. e };
}

/// `String` (3.5.3).
impl<S: ScalarValue> GraphQLReference<S> for String {
    type TypeInfo = ();

    ghost named = { λ _. Some (codes "String") };

    ghost reference = { λ _. named_type true (codes "String") };

    fn name(_info: &()) -> Option<&str> {
        Some("String")
    }

    fn type_in(
        _alloc: Global,
        _info: &(),
        registry: &mut Registry<S>,
    ) -> Result<Type<String>, AllocError> {
        registry.named_type("String")
    }
}

impl<S: ScalarValue> GraphQLType<S> for String {
    ghost declaration = { λ _. scalar_of (codes "String") texts };

    fn meta(
        alloc: Global,
        _info: &(),
        _registry: &mut Registry<S>,
    ) -> Result<MetaType<S>, AllocError> {
        string_scalar(alloc)
    }

    ghost keeps_name = { λ _ _ e. e };
}

/// `ID` (3.5.5).
impl<S: ScalarValue> GraphQLReference<S> for ID {
    type TypeInfo = ();

    ghost named = { λ _. Some (codes "ID") };

    ghost reference = { λ _. named_type true (codes "ID") };

    fn name(_info: &()) -> Option<&str> {
        Some("ID")
    }

    fn type_in(
        _alloc: Global,
        _info: &(),
        registry: &mut Registry<S>,
    ) -> Result<Type<String>, AllocError> {
        registry.named_type("ID")
    }
}

impl<S: ScalarValue> GraphQLType<S> for ID {
    ghost declaration = { λ _. scalar_of (codes "ID") ids };

    fn meta(
        alloc: Global,
        _info: &(),
        _registry: &mut Registry<S>,
    ) -> Result<MetaType<S>, AllocError> {
        id_scalar(alloc)
    }

    ghost keeps_name = { λ _ _ e. e };
}
